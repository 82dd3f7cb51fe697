//! Hashes.

ghost use Rattle.std.specs.Prelude.{refl, codes};

use crate::attribute::put_required_attribute;
use crate::element::{Element, HasContent, Item, Tagged};
use crate::list::write_list;
use crate::record::WrittenRecord;
use crate::row::put_content;
use crate::tags::WriteResult;
use cdx_events::{EventWriter, List, OwnedAttribute};
use cdx_models::{Hash, Hashes};
use cdx_schema::Target;
use std::alloc::AllocError;

impl WrittenRecord for Hash {
    #[tactic(auto, unfolding(crate::proofs::OnRows::on_rows))]
    fn attributes(&self, target: Target) -> Result<List<OwnedAttribute>, AllocError> {
        let mut attributes = List::new(target.alloc);
        put_required_attribute(&mut attributes, "alg", &self.alg, target)?;
        Ok(attributes)
    }

    fn write_rows(&self, writer: &mut EventWriter, target: Target) -> WriteResult {
        put_content(target.alloc, writer, &self.content.0)
    }
}

impl Item for Hash {
    fn is_passed_over(&self) -> bool {
        false
    }
}

impl HasContent for Hash {
    fn has_content(&self) -> bool {
        true
    }
}

impl Tagged for Hash {
    ghost own_name = { codes "hash" };

    fn own_name() -> &'static str {
        "hash"
    }
}

impl Element for Hashes {
    ghost keeps = { refl };

    #[tactic(auto, unfolding(crate::proofs::OnRows::on_rows))]
    fn write_as(&self, writer: &mut EventWriter, tag: &str, target: Target) -> WriteResult {
        write_list(writer, tag, "hash", &self.0, target)
    }
}

impl HasContent for Hashes {
    fn has_content(&self) -> bool {
        true
    }
}

impl Tagged for Hashes {
    ghost own_name = { codes "hashes" };

    fn own_name() -> &'static str {
        "hashes"
    }
}
