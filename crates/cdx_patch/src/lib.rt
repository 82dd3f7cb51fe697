//! Patches, and the issues that they resolve: their types and trees, and what they are in JSON and in XML.
#![tactic(auto)]

pub mod code;
mod json;
mod xml;

pub use code::{Diff, Issue, Patch, Patches, Source};
