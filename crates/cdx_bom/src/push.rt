//! A bill from events that come piece by piece, or one after another.

mod children;
mod frame;
mod gathering;
mod machine;
mod putting;
mod reader;

pub use cdx_push_reader::PushError;
pub use gathering::GatheringReader;
pub(crate) use machine::BillMachine;
pub use reader::PushReader;
