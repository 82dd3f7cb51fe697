//! Properties: names with values.

use crate::attribute::required_attribute;
use crate::error::Reading;
use crate::from_xml::FromXml;
use crate::lists::read_items;
use crate::record::{TextRecord, read_text_record};
use crate::rule::Rule;
use crate::start::Start;
use cdx_events::{EventReader, Text};
use cdx_models::{Properties, Property};

impl TextRecord for Property {
    ghost use Rattle.cdx_models.specs.Trees.{property};
    ghost use Rattle.cdx_leaf.specs.RowContents.{content_from_rows};
    ghost use Rattle.cdx_leaf.specs.Whole.{property_whole};
    ghost use Rattle.cdx_leaf.specs.Parts.{text_alone};

    type Start = Text;

    ghost start = { text_alone };

    ghost at = { 1 };

    ghost content = { content_from_rows property };

    ghost whole = { property_whole };

    fn begin(opened: &Start<'_>) -> Reading<Text> {
        required_attribute(opened, "name")
    }

    fn with_text(begun: Text, content: Text) -> Property {
        Property {
            name: begun,
            value: content,
        }
    }
}

impl FromXml for Property {
    ghost use Rattle.std.specs.Prelude.{refl};

    ghost depth = { λ d. d };

    ghost at_top = { refl };

    fn read_from(reader: &mut EventReader<'_>, opened: &Start<'_>) -> Reading<Property> {
        read_text_record(reader, opened)
    }
}

impl FromXml for Properties {
    ghost use Rattle.std.specs.Prelude.{refl};

    ghost depth = { λ d. d };

    ghost at_top = { refl };

    fn read_from(reader: &mut EventReader<'_>, opened: &Start<'_>) -> Reading<Properties> {
        Ok(Properties(read_items(reader, opened, "property", Rule::Lax)?))
    }
}
