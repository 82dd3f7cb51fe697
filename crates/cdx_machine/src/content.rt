//! Elements that hold one text at most.

ghost use Rattle.cdx_machine.specs.Contents.{TakesText};

use crate::machine::Machine;
use crate::refusal::refuse_in;
use cdx_events::{OwnedName, Text, XmlEvent};
use cdx_leaf::Start;
use cdx_models::{HasTree, XmlReadError};
use std::alloc::Global;

/// What the attributes of an element begin, that holds one text at most.
pub trait Content: Drop {
    ghost use Rattle.std.specs.Prelude.{◌+◌, List, ℕ};
    ghost use Rattle.cdx_models.specs.Trees.{Trees};
    ghost use Rattle.cdx_schema.specs.Kinds.{Kind};
    ghost use Rattle.cdx_leaf.specs.Attribute.{GivesAt};
    ghost use Rattle.cdx_machine.specs.Contents.{First, TextLast, IsContent};

    /// What the element is read as.
    type Value: HasTree + Drop;

    /// The kind.
    ghost kind: { Kind };

    /// What the attributes begin.
    ghost first: { First };

    /// What that and the text come to.
    ghost last: { TextLast };

    /// The fields that were begun.
    ghost start: { Self → Trees };

    /// What the attributes begin, or their first fault, at the element's start.
    fn begin(opened: &Start<'_>) -> Result<Self, XmlReadError>
        ensures { GivesAt start (opened.now.place + 1)
            (first opened.now.element.now.local_name opened.now.attributes.now opened.now.version
            opened.now.place) result };

    /// The value by the text, where there is one, or its fault, at `place`, that of the element's end.
    fn finish(
        self,
        alloc: Global,
        place: usize,
        element: &OwnedName,
        text: Option<Text>,
    ) -> Result<Self::Value, XmlReadError>
        ensures { GivesAt Self.Value.tree (place + 1)
            (last element.now.local_name place (start self) text) result };

    // The kind is read like this.
    ghost content: { IsContent kind first last start };
}

// Takes an event of an element that holds one text at most. Says whether it is the element's end.
fn take_text(
    alloc: Global,
    element: &Text,
    text: &mut Option<Text>,
    place: usize,
    event: &XmlEvent,
) -> Result<bool, XmlReadError>
    ensures { TakesText text.old text.new element.now place event.now result }
{
    match event {
        XmlEvent::EndElement { .. } => Ok(true),
        XmlEvent::Characters(heard) => match text {
            None => {
                *text = Some(heard.copy(alloc)?);
                Ok(false)
            }
            Some(_) => refuse_in(alloc, place, element, event),
        },
        XmlEvent::CData(heard) => match text {
            None => {
                *text = Some(heard.copy(alloc)?);
                Ok(false)
            }
            Some(_) => refuse_in(alloc, place, element, event),
        },
        _ => refuse_in(alloc, place, element, event),
    }
}

/// The machine of an element that holds one text at most.
#[derive(Drop)]
pub struct ContentMachine<C> {
    alloc: Global,
    // The element's local name.
    name: Text,
    content: C,
    text: Option<Text>,
}

impl<C: Content> Machine for ContentMachine<C> {
    ghost use Rattle.cdx_machine.specs.Contents.{content_holds};

    type Value = C::Value;

    ghost tree = { C.Value.tree };

    ghost kind = { C.kind };

    ghost holds = { λ m v p d o. content_holds C.first C.start m.name m.content m.text v p o };

    fn start(opened: &Start<'_>) -> Result<ContentMachine<C>, XmlReadError> {
        let content = C::begin(opened)?;
        Ok(ContentMachine {
            alloc: opened.alloc,
            name: opened.element.local_name.copy(opened.alloc)?,
            content,
            text: None,
        })
    }

    fn step(&mut self, place: usize, event: &XmlEvent) -> Result<bool, XmlReadError> {
        take_text(self.alloc, &self.name, &mut self.text, place, event)
    }

    fn finish(self, place: usize, event: &XmlEvent) -> Result<C::Value, XmlReadError> {
        let XmlEvent::EndElement { name } = event else {
            unreachable!()
        };
        self.content.finish(self.alloc, place, name, self.text)
    }
}
