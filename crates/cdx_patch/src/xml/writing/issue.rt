//! Issues written as XML.

ghost use Rattle.std.specs.Prelude.{codes};
ghost use Rattle.cdx_write.specs.Stays.{source_keeps_hollow};

use crate::{Issue, Source};
use cdx_events::{EventWriter, List, OwnedAttribute};
use cdx_schema::Target;
use cdx_write::{
    Filled, HasContent, Item, Tagged, WriteResult, WrittenRecord, is_there, put_child,
    put_filled_child, put_list, put_required_attribute,
};
use std::alloc::AllocError;

impl WrittenRecord for Source {
    #[tactic(auto, unfolding(cdx_write::proofs::OnRows::on_rows))]
    fn attributes(&self, target: Target) -> Result<List<OwnedAttribute>, AllocError> {
        Ok(List::new(target.alloc))
    }

    #[tactic(auto, unfolding(cdx_write::proofs::OnRows::on_rows), using(cdx_write::proofs::OnRows::in_turn))]
    fn write_rows(&self, writer: &mut EventWriter, target: Target) -> WriteResult {
        put_child(writer, "name", &self.name, target)?;
        put_child(writer, "url", &self.url, target)
    }
}

impl Filled for Source {
    ghost keeps_hollow = { λ x. source_keeps_hollow _ };

    fn is_hollow(&self) -> bool {
        !self.has_content()
    }
}

impl HasContent for Source {
    /// False exactly where name and url are absent.
    fn has_content(&self) -> bool {
        is_there(&self.name) || is_there(&self.url)
    }
}

impl Tagged for Source {
    ghost own_name = { codes "source" };

    fn own_name() -> &'static str {
        "source"
    }
}

impl WrittenRecord for Issue {
    #[tactic(auto, unfolding(cdx_write::proofs::OnRows::on_rows))]
    fn attributes(&self, target: Target) -> Result<List<OwnedAttribute>, AllocError> {
        let mut attributes = List::new(target.alloc);
        put_required_attribute(&mut attributes, "type", &self.issue_type, target)?;
        Ok(attributes)
    }

    #[tactic(auto, unfolding(cdx_write::proofs::OnRows::on_rows), using(cdx_write::proofs::OnRows::in_turn))]
    fn write_rows(&self, writer: &mut EventWriter, target: Target) -> WriteResult {
        put_child(writer, "id", &self.id, target)?;
        put_child(writer, "name", &self.name, target)?;
        put_child(writer, "description", &self.description, target)?;
        put_filled_child(writer, "source", &self.source, target)?;
        put_list(writer, "references", "url", &self.references, target)
    }
}

impl Item for Issue {
    fn is_passed_over(&self) -> bool {
        false
    }
}

impl HasContent for Issue {
    fn has_content(&self) -> bool {
        true
    }
}

impl Tagged for Issue {
    ghost own_name = { codes "issue" };

    fn own_name() -> &'static str {
        "issue"
    }
}
