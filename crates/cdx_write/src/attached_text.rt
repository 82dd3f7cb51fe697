//! Attached texts.

use crate::attribute::put_attribute;
use crate::element::HasContent;
use crate::record::WrittenRecord;
use crate::row::put_content;
use crate::tags::WriteResult;
use cdx_events::{EventWriter, List, OwnedAttribute};
use cdx_models::AttachedText;
use cdx_schema::Target;
use std::alloc::AllocError;

impl WrittenRecord for AttachedText {
    #[tactic(auto, unfolding(crate::proofs::OnRows::on_rows))]
    fn attributes(&self, target: Target) -> Result<List<OwnedAttribute>, AllocError> {
        let mut attributes = List::new(target.alloc);
        put_attribute(&mut attributes, "content-type", &self.content_type, target)?;
        put_attribute(&mut attributes, "encoding", &self.encoding, target)?;
        Ok(attributes)
    }

    fn write_rows(&self, writer: &mut EventWriter, target: Target) -> WriteResult {
        put_content(target.alloc, writer, &self.content)
    }
}

impl HasContent for AttachedText {
    fn has_content(&self) -> bool {
        true
    }
}
