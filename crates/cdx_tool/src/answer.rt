//! Answers to requests.

use cdx_print::LongText;

/// An answer: the status that the program ends with, and the text that it writes, with its line feed.
#[derive(Debug, Drop)]
pub struct Answer {
    /// The status: 0, 1, 2 or 6.
    pub status: u8,
    /// A compact JSON value and a line feed.
    pub text: LongText,
}

/// How many bytes a request may have.
pub const LIMIT: usize = 67_108_864;

mod documents;
mod make;
mod refused;
mod text;

pub use documents::{documents_value, only};
pub(crate) use make::answer_owned;
pub use make::{answer_bytes, answer_value, read_json, refuse, take_json};
pub use refused::{imbalance_value, refusal_value};
