//! The leaf records of components.
#![tactic(auto)]

pub mod component;
mod json;
mod xml;

pub use component::{ComponentEvidence, Copyright, CopyrightTexts, Cpe, MimeType, Swid};
