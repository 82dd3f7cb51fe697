//! Machines of the parts of components and services: licenses, software tags, evidence, and the data of a service. Each reads
//! one element event by event.
#![tactic(auto)]

mod components;
mod licenses;
mod service_data;

pub use cdx_component_parts::{ComponentEvidence, Swid};
pub use cdx_license::Licenses;
pub use cdx_service_data::Data;
pub use components::{ComponentEvidenceMachine, SwidMachine};
pub use licenses::LicensesMachine;
pub use service_data::DataMachine;
