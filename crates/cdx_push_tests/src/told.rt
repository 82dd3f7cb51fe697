//! What comes of elements in one word or as a fault.

use crate::feeding::{Heard, feed};
use crate::kinds::kind_named;
use cdx_events::Events;
use cdx_leaf::{Root, root_of};
use cdx_models::SpecVersion;
use cdx_push::LeafKind;
use cdx_test_cases::faults::xml_fault_line;
use std::alloc::{AllocError, Global};
use std::test::Fail;

/// The kind of this name.
pub fn kind_of(name: &str) -> Result<LeafKind, Fail> {
    match kind_named(name) {
        Some(kind) => Ok(kind),
        None => Err(Fail::new("a row names no kind")),
    }
}

/// What a machine makes of the first `count` events of the document's root.
pub fn fed(
    alloc: Global,
    events: &Events,
    kind: LeafKind,
    version: SpecVersion,
    count: usize,
) -> Heard {
    let Root {
        mut reader,
        name,
        attributes,
        ..
    } = root_of(events);
    feed(alloc, &mut reader, kind, version, name, attributes, count)
}

/// `more`, `done`, or the fault in one line.
pub fn told(alloc: Global, heard: &Heard) -> Result<String, AllocError> {
    match heard {
        Heard::More => String::from_str(alloc, "more"),
        Heard::Done(_) => String::from_str(alloc, "done"),
        Heard::Refused(fault) => xml_fault_line(alloc, fault),
    }
}
