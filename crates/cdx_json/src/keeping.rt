//! What is kept.

use cdx_models::SpecVersion;
use std::alloc::Global;

/// What a version keeps, and the label that a bill gets.
#[derive(Clone, Copy)]
pub struct Keeping {
    /// Where memory comes from.
    pub alloc: Global,
    /// The version that keeps what it knows.
    pub version: SpecVersion,
    /// The version that a bill names from then on.
    pub label: SpecVersion,
}
