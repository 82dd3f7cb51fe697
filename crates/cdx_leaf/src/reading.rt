//! Readers of the leaf records.

mod attached_text;
mod external_reference;
mod hash;
mod organization;
mod parts;
mod property;
mod tool;

pub use attached_text::begin_attached_text;
