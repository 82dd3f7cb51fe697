//! Of which records a trip through XML takes nothing: what is written of them and read back is what they were.
#![tactic(auto)]

mod component;
mod hollow;
mod laws;
mod organization;
mod patch;
mod service;
mod tools;

pub use component::components_row_survives;
pub use hollow::{
    is_hollow_contact, is_hollow_diff, is_hollow_entity, is_hollow_evidence, is_hollow_source,
};
pub use laws::survivors_come_back;
pub use service::services_row_survives;
pub use tools::metadata_row_survives;
