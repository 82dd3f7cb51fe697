//! Texts, booleans and numbers.

use crate::element::{Element, Item, Lone, write_lone};
use crate::tags::WriteResult;
use cdx_events::{EventWriter, Text};
use cdx_models::UrnUuid;
use cdx_schema::Target;
use std::alloc::{AllocError, Global};

impl Lone for Text {
    ghost use Rattle.cdx_write.specs.Lone.{text_is_lone};

    ghost lone = { text_is_lone };

    fn xml_text(&self, alloc: Global) -> Result<Text, AllocError> {
        self.copy(alloc)
    }
}

impl Element for Text {
    ghost use Rattle.std.specs.Prelude.{refl};

    ghost keeps = { refl };

    fn write_as(&self, writer: &mut EventWriter, tag: &str, target: Target) -> WriteResult {
        write_lone(writer, tag, self, target)
    }
}

impl Item for Text {
    fn is_passed_over(&self) -> bool {
        false
    }
}

impl Lone for UrnUuid {
    ghost use Rattle.cdx_write.specs.Lone.{text_is_lone};

    ghost lone = { λ x. text_is_lone _ };

    fn xml_text(&self, alloc: Global) -> Result<Text, AllocError> {
        self.0.copy(alloc)
    }
}

impl Lone for bool {
    ghost use Rattle.cdx_write.specs.Lone.{boolean_is_lone};

    ghost lone = { boolean_is_lone };

    fn xml_text(&self, alloc: Global) -> Result<Text, AllocError> {
        if *self {
            Text::new(alloc, "true")
        } else {
            Text::new(alloc, "false")
        }
    }
}

impl Element for bool {
    ghost use Rattle.std.specs.Prelude.{refl};

    ghost keeps = { refl };

    fn write_as(&self, writer: &mut EventWriter, tag: &str, target: Target) -> WriteResult {
        write_lone(writer, tag, self, target)
    }
}

impl Lone for u32 {
    ghost use Rattle.cdx_write.specs.Lone.{number_is_lone};

    ghost lone = { number_is_lone };

    fn xml_text(&self, alloc: Global) -> Result<Text, AllocError> {
        let number = *self;
        Ok(Text::from_string(format!(in alloc; "{number}")?))
    }
}
