//! The inventory of a bill: every component, wherever it stands; and the program that answers it.
#![tactic(auto)]

mod answering;
mod entry;
mod laws;
mod listing;
mod serving;

pub use entry::Entry;
pub use laws::{lists_all, lists_kept, lists_paths};
pub use listing::inventory;
pub use serving::stock;
