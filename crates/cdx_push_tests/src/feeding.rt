//! A machine that is fed the first events of an element.

ghost use Rattle.cdx_leaf.specs.Reading.{IsIn};

use cdx_events::{EventReader, List, OwnedAttribute, OwnedName};
use cdx_models::{SpecVersion, XmlReadError};
use cdx_push::{LeafKind, LeafMachine, LeafStep, LeafValue};
use std::alloc::Global;

/// What a machine made of the events that it was fed.
#[derive(Drop)]
pub enum Heard {
    /// The element goes on.
    More,
    /// The element has ended, and was read as this.
    Done(LeafValue),
    /// The last of them was refused.
    Refused(XmlReadError),
}

/// What a machine of the kind makes of the first `count` events of the element, its start included, whose start the reader
/// has just taken. No event is fed after a refusal or after the element's end.
pub fn feed(
    alloc: Global,
    reader: &mut EventReader<'_>,
    kind: LeafKind,
    version: SpecVersion,
    element: &OwnedName,
    attributes: &List<OwnedAttribute>,
    count: usize,
) -> Heard
    requires inside { IsIn reader.old element.now }
{
    let start = reader.place() - 1;
    let mut machine = match LeafMachine::open(alloc, kind, version, start, element, attributes) {
        Ok(machine) => machine,
        Err(error) => return Heard::Refused(error),
    };
    'events: for _ in 1..count {
        let place = reader.place();
        let Some(event) = reader.next() else {
            unreachable!()
        };
        match machine.step(place, event) {
            Ok(LeafStep::More) => {}
            Ok(LeafStep::Done(value)) => return Heard::Done(value),
            Err(error) => return Heard::Refused(error),
        }
    }
    Heard::More
}
