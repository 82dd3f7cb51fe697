//! Events as JSON values.

mod print;
mod read;
mod write;

pub(crate) use print::print_document;
pub(crate) use read::events_if;
pub use write::events_to_json;
