//! A machine that is fed the first events of an element.

ghost use Rattle.cdx_leaf.specs.Reading.{IsIn};

use cdx_events::{EventReader, List, OwnedAttribute, OwnedName};
use cdx_models::{SpecVersion, XmlReadError};
use cdx_nest::{Depth, NestKind, NestMachine, NestStep, NestValue};
use std::alloc::Global;

/// As what an element is read.
#[derive(Clone, Copy, Debug)]
pub struct Reading {
    /// The kind.
    pub kind: NestKind,
    /// The version.
    pub version: SpecVersion,
    /// How many components and services stand around the element.
    pub depth: Depth,
}

/// What a machine made of the events that it was fed.
#[derive(Drop)]
pub enum Heard {
    /// The element goes on.
    More,
    /// The element has ended, and was read as this.
    Done(NestValue),
    /// The last of them was refused.
    Refused(XmlReadError),
}

/// What a machine makes of the first `count` events of the element, its start included, whose start the reader has just
/// taken. No event is fed after a refusal or after the element's end, and the machine is dropped wherever it stands then.
pub fn feed(
    alloc: Global,
    reader: &mut EventReader<'_>,
    reading: Reading,
    element: &OwnedName,
    attributes: &List<OwnedAttribute>,
    count: usize,
) -> Heard
    requires inside { IsIn reader.old element.now }
{
    let start = reader.place() - 1;
    let Reading {
        kind,
        version,
        depth,
    } = reading;
    let mut machine = match NestMachine::open(
        alloc, kind, version, start, depth, element, attributes,
    ) {
        Ok(machine) => machine,
        Err(error) => return Heard::Refused(error),
    };
    'events: for _ in 1..count {
        let place = reader.place();
        let Some(event) = reader.next() else {
            unreachable!()
        };
        match machine.step(place, event) {
            Ok(NestStep::More) => {}
            Ok(NestStep::Done(value)) => return Heard::Done(value),
            Err(error) => return Heard::Refused(error),
        }
    }
    Heard::More
}
