//! Patches written as XML.

ghost use Rattle.std.specs.Prelude.{refl, codes};
ghost use Rattle.cdx_write.specs.Stays.{diff_keeps_hollow};

use crate::{Diff, Patch, Patches};
use cdx_events::{EventWriter, List, OwnedAttribute};
use cdx_schema::Target;
use cdx_write::{
    Element, Filled, HasContent, Item, Tagged, WriteResult, WrittenRecord, is_there, put_child,
    put_filled_child, put_list, put_required_attribute, write_list,
};
use std::alloc::AllocError;

impl WrittenRecord for Diff {
    #[tactic(auto, unfolding(cdx_write::proofs::OnRows::on_rows))]
    fn attributes(&self, target: Target) -> Result<List<OwnedAttribute>, AllocError> {
        Ok(List::new(target.alloc))
    }

    #[tactic(auto, unfolding(cdx_write::proofs::OnRows::on_rows), using(cdx_write::proofs::OnRows::in_turn))]
    fn write_rows(&self, writer: &mut EventWriter, target: Target) -> WriteResult {
        put_child(writer, "text", &self.text, target)?;
        put_child(writer, "url", &self.url, target)
    }
}

impl Filled for Diff {
    ghost keeps_hollow = { λ x. diff_keeps_hollow _ };

    fn is_hollow(&self) -> bool {
        !self.has_content()
    }
}

impl HasContent for Diff {
    /// False exactly where text and url are absent.
    fn has_content(&self) -> bool {
        is_there(&self.text) || is_there(&self.url)
    }
}

impl Tagged for Diff {
    ghost own_name = { codes "diff" };

    fn own_name() -> &'static str {
        "diff"
    }
}

impl WrittenRecord for Patch {
    #[tactic(auto, unfolding(cdx_write::proofs::OnRows::on_rows))]
    fn attributes(&self, target: Target) -> Result<List<OwnedAttribute>, AllocError> {
        let mut attributes = List::new(target.alloc);
        put_required_attribute(&mut attributes, "type", &self.patch_type, target)?;
        Ok(attributes)
    }

    #[tactic(auto, unfolding(cdx_write::proofs::OnRows::on_rows), using(cdx_write::proofs::OnRows::in_turn))]
    fn write_rows(&self, writer: &mut EventWriter, target: Target) -> WriteResult {
        put_filled_child(writer, "diff", &self.diff, target)?;
        put_list(writer, "resolves", "issue", &self.resolves, target)
    }
}

impl Item for Patch {
    fn is_passed_over(&self) -> bool {
        false
    }
}

impl HasContent for Patch {
    fn has_content(&self) -> bool {
        true
    }
}

impl Tagged for Patch {
    ghost own_name = { codes "patch" };

    fn own_name() -> &'static str {
        "patch"
    }
}

impl Element for Patches {
    ghost keeps = { refl };

    #[tactic(auto, unfolding(cdx_schema::specs::Table::list))]
    fn write_as(&self, writer: &mut EventWriter, tag: &str, target: Target) -> WriteResult {
        write_list(writer, tag, "patch", &self.0, target)
    }
}

impl HasContent for Patches {
    fn has_content(&self) -> bool {
        true
    }
}

impl Tagged for Patches {
    ghost own_name = { codes "patches" };

    fn own_name() -> &'static str {
        "patches"
    }
}
