//! Elements that are a text, or a boolean.

use crate::content::{Content, ContentMachine};
use crate::machine::Machine;
use cdx_events::{OwnedName, Text, XmlEvent};
use cdx_leaf::{FromXmlType, Start};
use cdx_models::XmlReadError;
use std::alloc::Global;

/// What the start of a text begins.
#[derive(Drop)]
pub struct PlainText;

/// What the start of a boolean begins.
#[derive(Drop)]
pub struct PlainFlag;

/// The machine of a text.
#[derive(Drop)]
pub struct TextMachine {
    machine: ContentMachine<PlainText>,
}

impl Machine for TextMachine {
    ghost use Rattle.cdx_models.specs.Trees.{text};
    ghost use Rattle.cdx_schema.specs.Kinds.{a_text};

    type Value = Text;

    ghost tree = { text };

    ghost kind = { a_text };

    ghost holds = { λ m. ⟦<ContentMachine<PlainText> as Machine>⟧.holds m.machine };

    fn start(opened: &Start<'_>) -> Result<TextMachine, XmlReadError> {
        Ok(TextMachine {
            machine: ContentMachine::<PlainText>::start(opened)?,
        })
    }

    fn step(&mut self, place: usize, event: &XmlEvent) -> Result<bool, XmlReadError> {
        self.machine.step(place, event)
    }

    fn finish(self, place: usize, event: &XmlEvent) -> Result<Text, XmlReadError> {
        self.machine.finish(place, event)
    }
}

/// The machine of a boolean.
#[derive(Drop)]
pub struct FlagMachine {
    machine: ContentMachine<PlainFlag>,
}

impl Machine for FlagMachine {
    ghost use Rattle.cdx_models.specs.Trees.{boolean};
    ghost use Rattle.cdx_schema.specs.Kinds.{a_boolean};

    type Value = bool;

    ghost tree = { boolean };

    ghost kind = { a_boolean };

    ghost holds = { λ m. ⟦<ContentMachine<PlainFlag> as Machine>⟧.holds m.machine };

    fn start(opened: &Start<'_>) -> Result<FlagMachine, XmlReadError> {
        Ok(FlagMachine {
            machine: ContentMachine::<PlainFlag>::start(opened)?,
        })
    }

    fn step(&mut self, place: usize, event: &XmlEvent) -> Result<bool, XmlReadError> {
        self.machine.step(place, event)
    }

    fn finish(self, place: usize, event: &XmlEvent) -> Result<bool, XmlReadError> {
        self.machine.finish(place, event)
    }
}

impl Content for PlainText {
    ghost use Rattle.cdx_schema.specs.Kinds.{a_text};
    ghost use Rattle.cdx_machine.specs.Plain.{nothing_first, no_fields, text_last, text_content};

    type Value = Text;

    ghost kind = { a_text };

    ghost first = { nothing_first };

    ghost last = { text_last };

    ghost start = { λ s. no_fields };

    ghost content = { text_content };

    fn begin(_opened: &Start<'_>) -> Result<PlainText, XmlReadError> {
        Ok(PlainText)
    }

    fn finish(
        self,
        alloc: Global,
        _place: usize,
        _element: &OwnedName,
        text: Option<Text>,
    ) -> Result<Text, XmlReadError> {
        match text {
            Some(text) => Ok(text),
            None => Ok(Text::new(alloc, "")?),
        }
    }
}

impl Content for PlainFlag {
    ghost use Rattle.cdx_schema.specs.Kinds.{a_boolean};
    ghost use Rattle.cdx_machine.specs.Plain.{nothing_first, no_fields, flag_last, flag_content};

    type Value = bool;

    ghost kind = { a_boolean };

    ghost first = { nothing_first };

    ghost last = { flag_last };

    ghost start = { λ s. no_fields };

    ghost content = { flag_content };

    fn begin(_opened: &Start<'_>) -> Result<PlainFlag, XmlReadError> {
        Ok(PlainFlag)
    }

    fn finish(
        self,
        alloc: Global,
        place: usize,
        element: &OwnedName,
        text: Option<Text>,
    ) -> Result<bool, XmlReadError> {
        match text {
            Some(text) => {
                bool::from_xml_value(alloc, place, element.local_name.as_str(), text.as_str())
            }
            None => bool::from_xml_value(alloc, place, element.local_name.as_str(), ""),
        }
    }
}
