//! Elements that are a text, a boolean or a number.

use crate::error::Reading;
use crate::from_xml::FromXml;
use crate::start::Start;
use crate::tags::{read_boolean_tag, read_simple_tag, read_u32_tag};
use cdx_events::{EventReader, Text};

impl FromXml for Text {
    ghost use Rattle.std.specs.Prelude.{refl};

    ghost depth = { λ d. d };

    ghost at_top = { refl };

    fn read_from(reader: &mut EventReader<'_>, opened: &Start<'_>) -> Reading<Text> {
        read_simple_tag(opened.alloc, reader, opened.element)
    }
}

impl FromXml for bool {
    ghost use Rattle.std.specs.Prelude.{refl};

    ghost depth = { λ d. d };

    ghost at_top = { refl };

    fn read_from(reader: &mut EventReader<'_>, opened: &Start<'_>) -> Reading<bool> {
        read_boolean_tag(opened.alloc, reader, opened.element)
    }
}

impl FromXml for u32 {
    ghost use Rattle.std.specs.Prelude.{refl};

    ghost depth = { λ d. d };

    ghost at_top = { refl };

    fn read_from(reader: &mut EventReader<'_>, opened: &Start<'_>) -> Reading<u32> {
        read_u32_tag(opened.alloc, reader, opened.element)
    }
}
