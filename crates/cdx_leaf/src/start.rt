//! Where an element starts and where it ends.

use cdx_events::{List, OwnedAttribute, OwnedName};
use cdx_models::SpecVersion;
use std::alloc::Global;

/// The start of an element that is read.
#[derive(Drop)]
pub struct Start<'a> {
    /// Where memory comes from.
    pub alloc: Global,
    /// The place of the start, which the faults of its attributes name. What reads on with a reader goes by the reader's
    /// own place.
    pub place: usize,
    /// The version.
    pub version: SpecVersion,
    /// The element's name.
    pub element: &'a OwnedName,
    /// Its attributes, in their order.
    pub attributes: &'a List<OwnedAttribute>,
}

/// The end of an element that is read.
#[derive(Drop)]
pub struct End<'a> {
    /// Where memory comes from.
    pub alloc: Global,
    /// The place of the end.
    pub place: usize,
    /// The version.
    pub version: SpecVersion,
    /// The element's name.
    pub element: &'a OwnedName,
}
