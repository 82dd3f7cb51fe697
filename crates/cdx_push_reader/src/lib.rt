//! A reader of whole documents that is fed pieces of their events as they arrive. It keeps no event, looks at each once, and
//! tells the first fault in the piece that holds its place. The document start has place 0, the root's start place 1. What
//! reads the root stands above.
#![tactic(auto)]

mod gathering;
mod hearing;
mod machine;
mod places;
mod reader;
mod start;
mod whole;

pub use gathering::{Gathering, read_gathered};
pub use machine::RootMachine;
pub use reader::{DocumentReader, PushError};
pub use whole::read_fed;
