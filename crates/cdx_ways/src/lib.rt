//! Paths into bills: what stands at them, as definitions, and their copies.
#![tactic(auto)]

mod path;

pub use path::copy_path;
