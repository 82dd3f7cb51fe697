//! Properties.

ghost use Rattle.std.specs.Prelude.{refl, codes};

use crate::attribute::put_required_attribute;
use crate::element::{Element, HasContent, Item, Tagged};
use crate::list::write_list;
use crate::record::WrittenRecord;
use crate::row::put_content;
use crate::tags::WriteResult;
use cdx_events::{EventWriter, List, OwnedAttribute};
use cdx_models::{Properties, Property};
use cdx_schema::Target;
use std::alloc::AllocError;

impl WrittenRecord for Property {
    #[tactic(auto, unfolding(crate::proofs::OnRows::on_rows))]
    fn attributes(&self, target: Target) -> Result<List<OwnedAttribute>, AllocError> {
        let mut attributes = List::new(target.alloc);
        put_required_attribute(&mut attributes, "name", &self.name, target)?;
        Ok(attributes)
    }

    fn write_rows(&self, writer: &mut EventWriter, target: Target) -> WriteResult {
        put_content(target.alloc, writer, &self.value)
    }
}

impl Item for Property {
    fn is_passed_over(&self) -> bool {
        false
    }
}

impl HasContent for Property {
    fn has_content(&self) -> bool {
        true
    }
}

impl Tagged for Property {
    ghost own_name = { codes "property" };

    fn own_name() -> &'static str {
        "property"
    }
}

impl Element for Properties {
    ghost keeps = { refl };

    #[tactic(auto, unfolding(crate::proofs::OnRows::on_rows))]
    fn write_as(&self, writer: &mut EventWriter, tag: &str, target: Target) -> WriteResult {
        write_list(writer, tag, "property", &self.0, target)
    }
}

impl HasContent for Properties {
    fn has_content(&self) -> bool {
        true
    }
}

impl Tagged for Properties {
    ghost own_name = { codes "properties" };

    fn own_name() -> &'static str {
        "properties"
    }
}
