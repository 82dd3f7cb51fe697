//! A walk over a bill.

use crate::loss::Loss;
use cdx_events::List as Items;
use cdx_models::Step;
use std::alloc::Global;

/// A walk over a bill: where it stands, and what it found so far.
#[derive(Drop)]
pub(crate) struct Walk {
    /// Where its memory comes from.
    pub alloc: Global,
    /// The steps to where it stands.
    pub path: Vec<Step>,
    /// What a road takes of what it has passed.
    pub losses: Items<Loss>,
}

mod steps;
