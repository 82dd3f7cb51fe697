//! The records in which components and services stand: tools and metadata, their types and trees, copies, `==`, the
//! versions that metadata fits, and both forms. One machine reads all that stand in one another, event by event.
#![tactic(auto)]

mod frames;
mod json;
mod machine;
pub mod metadata;
pub mod tools;
mod xml;

pub use cdx_component::{Component, Components, Pedigree};
pub use cdx_schema::Depth;
pub use cdx_service::{Service, Services};
pub use frames::{NestFrame, NestKind, NestStep, NestValue};
pub use machine::NestMachine;
pub use metadata::Metadata;
pub use tools::Tools;
