//! Bills as XML events.

mod calls;
mod document;
mod rows;

pub(crate) use document::{document_events, only_memory, write_end, write_root_start, write_start};
