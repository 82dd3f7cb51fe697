//! Components with their pedigrees: types and trees, copies, `==`, the versions that they fit, and both forms.
#![tactic(auto)]

pub mod component;
mod frames;
mod json;
mod xml;

pub use component::{Component, Components, Pedigree, component_row_has_versions};
pub use frames::{ComponentFrame, ComponentKind, ComponentValue};
