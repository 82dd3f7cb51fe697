//! Licenses: their identifiers, texts and expressions, read and written as the schema says.
#![tactic(auto)]

pub mod json;
pub mod license;
mod parts;
mod xml;

pub use license::{Expression, License, LicenseChoice, LicenseIdentifier, Licenses};
pub use parts::{ChoicesPart, LicensePart};
