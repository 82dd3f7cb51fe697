//! Texts that stand in a bill whole.

ghost use Rattle.std.specs.Prelude.{refl, ◌≡◌, ◌↔◌, IsTrue};
ghost use Rattle.cdx_models.specs.Records.{attached_text_tree};
ghost use Rattle.cdx_models.specs.Equal.{equal};
ghost use Rattle.cdx_models.specs.EqualLaws.{equal_laws};

use crate::tree::{HasTree, copy_row, equal_row};
use cdx_events::Text;
use std::alloc::{AllocError, Global};

/// A text of a license, a diff or a SWID tag, as it stands in its source.
#[derive(Debug, Drop)]
pub struct AttachedText {
    /// Its MIME type.
    pub content_type: Option<Text>,
    /// How `content` is encoded, as `base64`.
    pub encoding: Option<Text>,
    /// The text, in that encoding.
    pub content: Text,
}

impl HasTree for AttachedText {
    ghost tree = { attached_text_tree };

    ghost there = { λ x. refl };

    fn copy(&self, alloc: Global) -> Result<AttachedText, AllocError> {
        Ok(AttachedText {
            content_type: copy_row(alloc, &self.content_type)?,
            encoding: copy_row(alloc, &self.encoding)?,
            content: self.content.copy(alloc)?,
        })
    }

    fn agrees(&self, other: &AttachedText) -> bool {
        equal_row(&self.content_type, &other.content_type)
            && equal_row(&self.encoding, &other.encoding)
            && self.content.agrees(&other.content)
    }
}

impl PartialEq for AttachedText {
    ghost eq = { λ a b. equal (attached_text_tree a) (attached_text_tree b) };

    ghost laws = { equal_laws attached_text_tree };

    fn eq(&self, other: &AttachedText) -> bool
        ensures test { result ≡ equal (attached_text_tree self.now) (attached_text_tree other.now) }
        ensures equality { IsTrue result
            ↔ (attached_text_tree self.now ≡ attached_text_tree other.now) }
    {
        self.equals(other)
    }
}
