//! One text for each bill, and the program that gives it.
#![tactic(auto)]

mod comparing;
mod laws;
mod program;
mod putting;
mod text;
mod words;

pub use laws::{keeps_text, one_text, roads_keep_text, text_reads_back};
pub use program::canonical;
pub use putting::put_canon;
pub use text::canon;
