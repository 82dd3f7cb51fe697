//! Metadata.

ghost use Rattle.std.specs.Prelude.{codes};

use crate::metadata::Metadata;
use cdx_events::{EventWriter, List, OwnedAttribute};
use cdx_schema::Target;
use cdx_write::{HasContent, Tagged, WriteResult, WrittenRecord, is_there, put_child, put_list};
use std::alloc::AllocError;

impl WrittenRecord for Metadata {
    #[tactic(auto, unfolding(cdx_write::proofs::OnRows::on_rows))]
    fn attributes(&self, target: Target) -> Result<List<OwnedAttribute>, AllocError> {
        Ok(List::new(target.alloc))
    }

    fn write_rows(&self, writer: &mut EventWriter, target: Target) -> WriteResult {
        put_child(writer, "timestamp", &self.timestamp, target)?;
        put_child(writer, "tools", &self.tools, target)?;
        put_list(writer, "authors", "author", &self.authors, target)?;
        put_child(writer, "component", &self.component, target)?;
        put_child(writer, "manufacture", &self.manufacture, target)?;
        put_child(writer, "supplier", &self.supplier, target)?;
        put_child(writer, "licenses", &self.licenses, target)?;
        put_child(writer, "properties", &self.properties, target)
    }
}

impl HasContent for Metadata {
    /// False exactly where each field is absent.
    fn has_content(&self) -> bool {
        is_there(&self.timestamp)
            || is_there(&self.tools)
            || is_there(&self.authors)
            || is_there(&self.component)
            || is_there(&self.manufacture)
            || is_there(&self.supplier)
            || is_there(&self.licenses)
            || is_there(&self.properties)
    }
}

impl Tagged for Metadata {
    ghost own_name = { codes "metadata" };

    fn own_name() -> &'static str {
        "metadata"
    }
}
