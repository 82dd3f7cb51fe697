//! The readers of the kinds, outside all components and services.

use cdx_events::Events;
use cdx_leaf::read_root;
use cdx_models::{SpecVersion, XmlReadError};
use cdx_nest::{NestKind, NestValue};
use cdx_test_cases::faults::xml_fault_line;
use std::alloc::{AllocError, Global};

/// What the root is read as, as the kind in the version, by the kind's reader, or its first fault.
pub fn read(
    alloc: Global,
    events: &Events,
    kind: NestKind,
    version: SpecVersion,
) -> Result<NestValue, XmlReadError> {
    match kind {
        NestKind::Tools => Ok(NestValue::Tools(read_root(alloc, events, version)?)),
        NestKind::Component => Ok(NestValue::Component(read_root(alloc, events, version)?)),
        NestKind::Components => Ok(NestValue::Components(read_root(alloc, events, version)?)),
        NestKind::Pedigree => Ok(NestValue::Pedigree(read_root(alloc, events, version)?)),
        NestKind::Service => Ok(NestValue::Service(read_root(alloc, events, version)?)),
        NestKind::Services => Ok(NestValue::Services(read_root(alloc, events, version)?)),
        NestKind::Metadata => Ok(NestValue::Metadata(read_root(alloc, events, version)?)),
    }
}

/// `done`, or the fault in one line, by the kind's reader.
pub fn answered(
    alloc: Global,
    events: &Events,
    kind: NestKind,
    version: SpecVersion,
) -> Result<String, AllocError> {
    match read(alloc, events, kind, version) {
        Ok(_) => String::from_str(alloc, "done"),
        Err(fault) => xml_fault_line(alloc, &fault),
    }
}
