//! Texts with their content type and their encoding.

ghost use Rattle.std.specs.Prelude.{◌+◌};
ghost use Rattle.cdx_models.specs.Trees.{attached_text};
ghost use Rattle.cdx_leaf.specs.Attribute.{GivesAt, start_read};
ghost use Rattle.cdx_leaf.specs.Parts.{attached_start};

use crate::attribute::last_attribute;
use crate::content::read_exact_content;
use crate::error::Reading;
use crate::from_xml::FromXml;
use crate::start::Start;
use cdx_events::{EventReader, Text};
use cdx_models::AttachedText;

/// What the attributes of an attached text give, its content type and its encoding. Here the last attribute of a local name
/// counts.
pub fn begin_attached_text(opened: &Start<'_>) -> Reading<(Option<Text>, Option<Text>)>
    ensures { GivesAt attached_start (opened.now.place + 1)
        (start_read attached_text opened.now.version opened.now.element.now.local_name
        opened.now.attributes.now opened.now.place) result }
{
    let content_type = last_attribute(opened.alloc, opened.attributes, "content-type")?;
    let encoding = last_attribute(opened.alloc, opened.attributes, "encoding")?;
    Ok((content_type, encoding))
}

impl FromXml for AttachedText {
    ghost use Rattle.std.specs.Prelude.{refl};

    ghost depth = { λ d. d };

    ghost at_top = { refl };

    fn read_from(reader: &mut EventReader<'_>, opened: &Start<'_>) -> Reading<AttachedText> {
        let begun = begin_attached_text(&Start {
            place: reader.place() - 1,
            ..*opened
        });
        let (start, content) = read_exact_content(reader, opened, begun)?;
        Ok(AttachedText {
            content_type: start.0,
            encoding: start.1,
            content,
        })
    }
}
