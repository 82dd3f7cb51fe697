//! Hashes of files.

use crate::attribute::required_attribute;
use crate::error::Reading;
use crate::from_xml::FromXml;
use crate::lists::read_items;
use crate::record::{TextRecord, read_text_record};
use crate::rule::Rule;
use crate::start::Start;
use cdx_events::{EventReader, Text};
use cdx_models::{Hash, HashValue, Hashes};

impl TextRecord for Hash {
    ghost use Rattle.cdx_models.specs.Trees.{hash};
    ghost use Rattle.cdx_leaf.specs.RowContents.{content_from_rows};
    ghost use Rattle.cdx_leaf.specs.Whole.{hash_whole};
    ghost use Rattle.cdx_leaf.specs.Parts.{text_alone};

    type Start = Text;

    ghost start = { text_alone };

    ghost at = { 1 };

    ghost content = { content_from_rows hash };

    ghost whole = { hash_whole };

    fn begin(opened: &Start<'_>) -> Reading<Text> {
        required_attribute(opened, "alg")
    }

    fn with_text(begun: Text, content: Text) -> Hash {
        Hash {
            alg: begun,
            content: HashValue(content),
        }
    }
}

impl FromXml for Hash {
    ghost use Rattle.std.specs.Prelude.{refl};

    ghost depth = { λ d. d };

    ghost at_top = { refl };

    fn read_from(reader: &mut EventReader<'_>, opened: &Start<'_>) -> Reading<Hash> {
        read_text_record(reader, opened)
    }
}

impl FromXml for Hashes {
    ghost use Rattle.std.specs.Prelude.{refl};

    ghost depth = { λ d. d };

    ghost at_top = { refl };

    fn read_from(reader: &mut EventReader<'_>, opened: &Start<'_>) -> Reading<Hashes> {
        Ok(Hashes(read_items(reader, opened, "hash", Rule::Strict)?))
    }
}
