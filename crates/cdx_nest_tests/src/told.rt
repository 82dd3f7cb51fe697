//! What comes of elements in one word or as a fault.

use crate::feeding::{Heard, Reading, feed};
use crate::kinds::kind_named;
use cdx_events::Events;
use cdx_leaf::{Root, root_of};
use cdx_nest::{Depth, NestKind};
use cdx_test_cases::faults::xml_fault_line;
use cdx_test_cases::rows::Case;
use std::alloc::{AllocError, Global};
use std::test::Fail;

fn kind_of(name: &str) -> Result<NestKind, Fail> {
    match kind_named(name) {
        Some(kind) => Ok(kind),
        None => Err(Fail::new("a row names no kind")),
    }
}

/// As what the row's element is read inside so many components and services.
pub fn reading_at(case: &Case<'_>, depth: Depth) -> Result<Reading, Fail> {
    Ok(Reading {
        kind: kind_of(case.word)?,
        version: case.version,
        depth,
    })
}

/// As what the row's element is read outside of all components and services.
pub fn reading(case: &Case<'_>) -> Result<Reading, Fail> {
    reading_at(case, Depth::top())
}

/// What a machine makes of the first `count` events of the document's root.
pub fn fed(alloc: Global, events: &Events, reading: Reading, count: usize) -> Heard {
    let Root {
        mut reader,
        name,
        attributes,
        ..
    } = root_of(events);
    feed(alloc, &mut reader, reading, name, attributes, count)
}

/// `more`, `done`, or the fault in one line.
pub fn told(alloc: Global, heard: &Heard) -> Result<String, AllocError> {
    match heard {
        Heard::More => String::from_str(alloc, "more"),
        Heard::Done(_) => String::from_str(alloc, "done"),
        Heard::Refused(fault) => xml_fault_line(alloc, fault),
    }
}
