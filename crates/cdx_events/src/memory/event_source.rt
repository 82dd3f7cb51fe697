//! A source of events in memory.

ghost use Rattle.std.specs.Prelude.{◌≡◌, not, is_ok, Some, MatchResult};
ghost use Rattle.cdx_events.specs.Causes.{HasCause};
ghost use Rattle.cdx_events.specs.Counts.{is_told, AfterCall};
ghost use Rattle.cdx_events.specs.Told.{Keeps, GivesNext};

use super::{Calls, MemoryEventSource};
use crate::event::XmlEvent;
use crate::event_stream::EventSource;
use crate::list::List;
use crate::stream::Failed;
use std::collections::VecDeque;

impl MemoryEventSource {
    /// Gives the events in order. Exactly the calls whose numbers, from 1, stand in `fails` fail. It takes no
    /// memory.
    pub fn new(events: List<XmlEvent>, fails: List<u64>) -> MemoryEventSource
        ensures { result
            ≡ record { left = events; counts = record { fails = fails; calls = 0; faults = 0 } } }
    {
        MemoryEventSource {
            waiting: VecDeque::from(events.into_vec()),
            calls: Calls::new(fails),
        }
    }

    /// How many calls there were, up to the last value of the type. It takes no memory.
    pub fn calls(&self) -> u64
        ensures { result ≡ self.now.counts.calls }
    {
        self.calls.made()
    }
}

impl EventSource for MemoryEventSource {
    ghost left = { λ s. Some s.left };

    ghost faults = { λ s. s.counts.faults };

    fn next(&mut self) -> Result<Option<XmlEvent>, Failed>
        ensures events { MatchResult result
            (λ given. GivesNext (Some self.old.left) (Some self.new.left) given)
            (λ _. Keeps (Some self.old.left) (Some self.new.left)) }
        ensures cause { HasCause self.old.counts.faults self.new.counts.faults result }
        // Exactly the calls that are told fail.
        ensures exact { is_ok result ≡ not (is_told self.old.counts) }
        ensures call { AfterCall self.old.counts self.new.counts result }
    {
        self.calls.begin()?;
        Ok(self.waiting.pop_front())
    }
}
