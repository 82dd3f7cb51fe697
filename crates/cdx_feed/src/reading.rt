//! Ways of reading a document.

ghost use Rattle.std.specs.Prelude.{◌≤◌};

use crate::documents::made;
use cdx_bom::{Bom, PushReader};
use cdx_events::{Events, Text};
use cdx_leaf::{FromXml, Root, read_root, root_of};
use cdx_models::{Hashes, SpecVersion};
use cdx_nest::{Components, Depth, NestKind};
use cdx_nest_tests::Reading;
use cdx_push::LeafKind;
use cdx_relations::Dependencies;
use std::alloc::Global;
use std::test::Fail;

const VERSION: SpecVersion = SpecVersion::V1_5;

// Reads the root as a kind that doesn't contain itself, event by event.
fn by_leaf_machine(alloc: Global, events: &Events, kind: LeafKind) -> Result<(), Fail> {
    let Root {
        mut reader,
        name,
        attributes,
        ..
    } = root_of(events);
    let count = events.len();
    match cdx_push_tests::feed(alloc, &mut reader, kind, VERSION, name, attributes, count) {
        cdx_push_tests::Heard::Done(_) => Ok(()),
        _ => Err(Fail::new("the machine came to no value")),
    }
}

// Reads the root as components, event by event.
fn by_nest_machine(alloc: Global, events: &Events) -> Result<(), Fail> {
    let Root {
        mut reader,
        name,
        attributes,
        ..
    } = root_of(events);
    let reading = Reading {
        kind: NestKind::Components,
        version: VERSION,
        depth: Depth::top(),
    };
    let count = events.len();
    match cdx_nest_tests::feed(alloc, &mut reader, reading, name, attributes, count) {
        cdx_nest_tests::Heard::Done(_) => Ok(()),
        _ => Err(Fail::new("the machine came to no value")),
    }
}

// Reads a bill in pieces of so many events.
fn by_pieces(alloc: Global, events: &Events, size: usize) -> Result<(), Fail>
    requires { 1 ≤ size }
{
    let mut reader = PushReader::new(alloc, VERSION);
    let mut fed = 0usize;
    'pieces: for piece in events.as_slice().chunks(size) {
        if piece.len() > usize::MAX - fed {
            break;
        }
        fed += piece.len();
        // The end tells what was refused.
        let _ = reader.feed(piece);
    }
    reader.finish()?;
    Ok(())
}

fn by_machine(alloc: Global, name: &str, events: &Events) -> Result<(), Fail> {
    match name {
        "hashes" => by_leaf_machine(alloc, events, LeafKind::Hashes),
        "dependencies" => by_leaf_machine(alloc, events, LeafKind::Dependencies),
        "text" => by_leaf_machine(alloc, events, LeafKind::Text),
        "components" => by_nest_machine(alloc, events),
        _ => by_pieces(alloc, events, 1),
    }
}

// Reads the root by its kind's own reader.
fn as_value<X: FromXml>(alloc: Global, events: &Events) -> Result<(), Fail> {
    let _value: X = read_root(alloc, events, VERSION)?;
    Ok(())
}

fn by_reader(alloc: Global, name: &str, events: &Events) -> Result<(), Fail> {
    match name {
        "hashes" => as_value::<Hashes>(alloc, events),
        "dependencies" => as_value::<Dependencies>(alloc, events),
        "text" => as_value::<Text>(alloc, events),
        "components" => as_value::<Components>(alloc, events),
        _ => {
            Bom::parse_from_xml_v1_5(alloc, events)?;
            Ok(())
        }
    }
}

/// Makes the document of the first word, with as many parts as the third says, and reads it in the way of the second:
/// `make` doesn't read it, `reader` reads it whole, `machine` event by event, and `pieces` a bill by a hundred events.
pub(crate) fn read_made(alloc: Global, words: &[String]) -> Result<(), Fail> {
    let (Some(name), Some(way), Some(count)) = (words.first(), words.get(1), words.get(2)) else {
        return Err(Fail::new("three words are wanted"));
    };
    let name = name.as_str();
    let events = made(alloc, name, count.as_str().parse::<usize>()?)?;
    match way.as_str() {
        "make" => Ok(()),
        "reader" => by_reader(alloc, name, &events),
        "machine" => by_machine(alloc, name, &events),
        "pieces" => by_pieces(alloc, &events, 100),
        _ => Err(Fail::new("the second word names no way")),
    }
}
