//! Dependencies as XML events.

ghost use Rattle.std.specs.Prelude.{refl, codes};
ghost use Rattle.cdx_models.specs.Trees.{dependency};
ghost use Rattle.cdx_schema.specs.Kinds.{dependencies};

use super::reference::write_references;
use crate::dependency::{Dependencies, Dependency};
use cdx_events::{EventWriter, List, OwnedAttribute};
use cdx_schema::Target;
use cdx_write::{
    Element, HasContent, Item, Tagged, WriteResult, WrittenRecord, put_required_attribute,
    write_list,
};
use std::alloc::AllocError;

impl WrittenRecord for Dependency {
    #[tactic(auto, unfolding(cdx_write::proofs::OnRows::on_rows))]
    fn attributes(&self, target: Target) -> Result<List<OwnedAttribute>, AllocError> {
        let mut attributes = List::new(target.alloc);
        put_required_attribute(&mut attributes, "ref", &self.dependency_ref, target)?;
        Ok(attributes)
    }

    fn write_rows(&self, writer: &mut EventWriter, target: Target) -> WriteResult {
        write_references(target.alloc, writer, "dependency", &self.depends_on)
    }
}

impl Item for Dependency {
    fn is_passed_over(&self) -> bool {
        false
    }
}

impl HasContent for Dependency {
    fn has_content(&self) -> bool {
        true
    }
}

impl Tagged for Dependency {
    ghost own_name = { codes "dependency" };

    fn own_name() -> &'static str {
        "dependency"
    }
}

impl Element for Dependencies {
    ghost keeps = { refl };

    #[tactic(auto, unfolding(cdx_schema::specs::Table::list))]
    fn write_as(&self, writer: &mut EventWriter, tag: &str, target: Target) -> WriteResult {
        write_list(writer, tag, "dependency", &self.0, target)
    }
}

impl HasContent for Dependencies {
    fn has_content(&self) -> bool {
        true
    }
}

impl Tagged for Dependencies {
    ghost own_name = { codes "dependencies" };

    fn own_name() -> &'static str {
        "dependencies"
    }
}
