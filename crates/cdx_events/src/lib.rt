//! Texts, lists, names and balanced lists of events, and sources and sinks that count their faults.
#![tactic(auto)]

mod balance;
mod copied;
mod empty_texts;
mod event;
mod event_stream;
mod events;
mod faults;
mod gathering;
mod laws;
mod list;
mod memory;
mod name;
mod outside;
mod reader;
mod sending;
mod stream;
mod text;
mod utf8;
mod writer;

pub use balance::Balance;
pub use copied::Copied;
pub use empty_texts::without_empty_texts;
pub use event::{EventKind, XmlEvent};
pub use event_stream::{EventSink, EventSource};
pub use events::{Events, EventsError};
pub use gathering::{GatherError, gather};
pub use laws::one_root;
pub use list::List;
pub use memory::{
    MemoryEventSink, MemoryEventSource, MemorySink, MemorySource, NullSink, SoundSource,
};
pub use name::{Namespace, OwnedAttribute, OwnedName};
pub use outside::{ReadSource, WriteSink};
pub use reader::EventReader;
pub use sending::{SendError, send};
pub use stream::{Failed, Sink, Source};
pub use text::Text;
pub use utf8::InUtf8;
pub use writer::EventWriter;
