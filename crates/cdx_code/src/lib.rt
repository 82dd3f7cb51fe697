//! Commits: their types and trees, and what they are in JSON and in XML.
#![tactic(auto)]

pub mod code;
mod json;
mod xml;

pub use code::{Commit, Commits, IdentifiableAction};
