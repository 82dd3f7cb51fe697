//! JSON printed piece by piece after a text, each piece by `serde_json`: what `Value::to_string` would give of the whole,
//! without its value.
#![tactic(auto)]

mod items;
mod known;
mod long_text;
mod pieces;
mod printed;
mod printer;
mod spelling;

pub use items::print_items;
pub use long_text::LongText;
pub use pieces::{print_comma_if, print_text, print_value};
pub use printed::Printed;
pub use printer::Printer;
pub use spelling::{print_members, print_spelling};
