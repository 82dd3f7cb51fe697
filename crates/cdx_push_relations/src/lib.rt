//! Machines of what a bill says of its parts: dependencies, compositions and signatures. Each reads one element event by event.
#![tactic(auto)]

mod bom_reference;
mod relations;
mod signature;

pub use cdx_relations::{Compositions, Dependencies};
pub use cdx_signature::Signature;
pub use relations::{CompositionsMachine, DependenciesMachine};
pub use signature::SignatureMachine;
