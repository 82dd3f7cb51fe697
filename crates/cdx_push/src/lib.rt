//! What reads one element of any kind that doesn't contain itself, event by event: no event is kept and none is read twice.
#![tactic(auto)]

mod kinds;
mod leaf;
mod machine;

pub use kinds::{LeafKind, LeafStep, LeafValue};
pub use leaf::Leaf;
pub use machine::LeafMachine;
