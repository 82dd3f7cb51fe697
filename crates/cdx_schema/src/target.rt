//! What is written to.

use cdx_models::SpecVersion;
use std::alloc::Global;

/// A document of a version, to which a value is written.
#[derive(Clone, Copy)]
pub struct Target {
    /// Where memory comes from.
    pub alloc: Global,
    /// The version.
    pub version: SpecVersion,
}
