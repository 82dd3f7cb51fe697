//! Bills from XML events.

mod calls;
pub(crate) mod part;
pub(crate) mod start;
mod whole;
