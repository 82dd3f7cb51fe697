//! One machine with a stack of frames, which reads elements that stand in elements of their own kind, event by event: depth
//! takes memory and no recursion. The kinds themselves stand above.
#![tactic(auto)]

mod keeps;
mod nested;
mod reading;
mod stack;

pub use keeps::HoldsBegun;
pub use nested::{ChildReader, Nested};
pub use reading::read_element;
pub use stack::StackMachine;
