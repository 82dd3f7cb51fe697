//! Callers of the library, as its users write them: reading a bill, converting a document, building a bill and writing
//! it, and a sink of one's own. `docs/CALLING.md` goes through them.
#![tactic(auto)]

mod buffer;
mod building;
mod converting;
mod counting;

pub use buffer::{Buffer, json_bytes};
pub use building::{library_bill, library_document};
pub use converting::xml_of_json;
pub use counting::component_count;
