//! Tools.

ghost use Rattle.std.specs.Prelude.{codes};

use crate::element::{HasContent, Item, Tagged};
use crate::record::WrittenRecord;
use crate::row::{is_there, put_child, put_child_since};
use crate::tags::WriteResult;
use cdx_events::{EventWriter, List, OwnedAttribute};
use cdx_models::{SpecVersion, Tool};
use cdx_schema::Target;
use std::alloc::AllocError;

impl WrittenRecord for Tool {
    #[tactic(auto, unfolding(crate::proofs::OnRows::on_rows))]
    fn attributes(&self, target: Target) -> Result<List<OwnedAttribute>, AllocError> {
        Ok(List::new(target.alloc))
    }

    #[tactic(auto, unfolding(crate::proofs::OnRows::on_rows), using(crate::proofs::OnRows::in_turn))]
    fn write_rows(&self, writer: &mut EventWriter, target: Target) -> WriteResult {
        put_child(writer, "vendor", &self.vendor, target)?;
        put_child(writer, "name", &self.name, target)?;
        put_child(writer, "version", &self.version, target)?;
        put_child(writer, "hashes", &self.hashes, target)?;
        put_child_since(
            writer,
            SpecVersion::V1_4,
            "externalReferences",
            &self.external_references,
            target,
        )
    }
}

impl Item for Tool {
    fn is_passed_over(&self) -> bool {
        false
    }
}

impl HasContent for Tool {
    /// False exactly where vendor, name, version and hashes are absent.
    fn has_content(&self) -> bool {
        is_there(&self.vendor)
            || is_there(&self.name)
            || is_there(&self.version)
            || is_there(&self.hashes)
    }
}

impl Tagged for Tool {
    ghost own_name = { codes "tool" };

    fn own_name() -> &'static str {
        "tool"
    }
}
