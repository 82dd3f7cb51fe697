//! Services: types and trees, copies, `==`, JSON and XML.
#![tactic(auto)]

mod frames;
mod json;
pub mod service;
mod xml;

pub use frames::{ServiceFrame, ServiceKind, ServiceValue};
pub use service::{Service, Services};
