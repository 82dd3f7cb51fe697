//! The schema of bills: the table of records, the readings and spellings in JSON and XML, what a version keeps and
//! what a trip through XML takes, roads of rewritings, and their laws.
#![tactic(auto)]

pub mod depth;
pub mod kinded;
pub mod laws;
pub mod target;

pub use depth::Depth;
pub use kinded::{Kinded, Record};
pub use target::Target;
