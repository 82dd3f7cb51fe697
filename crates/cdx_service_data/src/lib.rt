//! The data that services take and give, and how sensitive it is.
#![tactic(auto)]

mod json;
mod parts;
pub mod service;
mod xml;

pub use parts::{DataPart, ServiceDataPart};
pub use service::{Data, DataClassification, ServiceData};
