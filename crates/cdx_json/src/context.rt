//! What a value is read in.

use cdx_models::SpecVersion;
use cdx_schema::Depth;
use std::alloc::Global;

/// What a value is read in.
#[derive(Clone, Copy)]
pub struct Context {
    /// Where memory comes from.
    pub alloc: Global,
    /// The version.
    pub version: SpecVersion,
    /// How deep the value stands.
    pub depth: Depth,
}
