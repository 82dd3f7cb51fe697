//! Machines of the records that many kinds hold: texts with a content type, hashes, properties, organizations, references to
//! what stands outside the bill, and tools. Each reads one element event by event.
#![tactic(auto)]

mod attached_text;
mod hashes;
mod organization;
mod references;
mod texts;

pub use attached_text::AttachedTextMachine;
pub use hashes::{HashesMachine, PropertiesMachine};
pub use organization::{AuthorsMachine, EntityMachine};
pub use references::{ExternalReferencesMachine, ToolMachine};
pub use texts::{EndpointsMachine, LinksMachine};
