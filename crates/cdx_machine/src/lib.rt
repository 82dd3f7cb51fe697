//! Machines that read one element event by event, with no event kept and none read twice: of texts, of records of attributes
//! and a text, of records and lists that are read child by child. The kinds themselves stand above.
#![tactic(auto)]

mod by_name;
mod content;
mod frame;
mod leaves;
mod listener;
mod lists;
mod machine;
mod or;
mod reading;
mod record_text;
mod records;
mod refusal;
mod texts;

pub use by_name::{ByName, NamedMachine};
pub use content::{Content, ContentMachine};
pub use frame::{FoundChild, Frame, FrameMachine, Inside, boxed, skip};
pub use leaves::Leaves;
pub use listener::Listener;
pub use lists::{Items, ListMachine, ListOf};
pub use machine::Machine;
pub use or::{Machines, NoMachine, Only, Or};
pub use reading::read_by_machine;
pub use record_text::{BegunExact, BegunText, ExactRecord, ExactRecordMachine, TextRecordMachine};
pub use records::{BegunRecord, PushRecord, RecordMachine};
pub use refusal::refuse_in;
pub use texts::{FlagMachine, PlainFlag, PlainText, TextMachine};
