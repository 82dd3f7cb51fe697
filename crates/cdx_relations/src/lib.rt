//! How the parts of a bill belong together: dependencies and compositions.
#![tactic(auto)]

pub mod composition;
pub mod dependency;
pub mod json;
mod parts;
mod xml;

pub use composition::{BomReference, Composition, Compositions};
pub use dependency::{Dependencies, Dependency};
