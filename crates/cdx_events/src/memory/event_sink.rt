//! A sink of events in memory.

ghost use Rattle.std.specs.Prelude.{◌≡◌, [], ◌∷◌, not, is_ok, IfOk, Some, MatchResult};
ghost use Rattle.cdx_events.specs.Causes.{HasCause};
ghost use Rattle.cdx_events.specs.Counts.{AfterCall};
ghost use Rattle.cdx_events.specs.Memory.{event_put_fails};
ghost use Rattle.cdx_events.specs.Told.{Keeps, Gains};

use super::{Calls, MemoryEventSink};
use crate::event::XmlEvent;
use crate::event_stream::EventSink;
use crate::list::List;
use crate::stream::Failed;
use std::alloc::{AllocError, Global};

impl MemoryEventSink {
    /// Reserves room for so many events. The calls whose numbers, from 1, stand in `fails` fail, and those for
    /// which there is no room. Only want of memory refuses.
    pub fn new(alloc: Global, room: usize, fails: List<u64>) -> Result<MemoryEventSink, AllocError>
        ensures { IfOk result (λ s. s ≡ record {
          written = [];
          room = room;
          counts = record
              { fails = fails; calls = 0; faults = 0 };
        }) }
    {
        Ok(MemoryEventSink {
            held: Vec::with_capacity(alloc, room)?,
            reserved: room,
            calls: Calls::new(fails),
        })
    }

    /// The events that were put, in order. It takes no memory.
    pub fn events(&self) -> &[XmlEvent]
        ensures { result.now ≡ self.now.written }
    {
        self.held.as_slice()
    }

    /// How many calls there were, up to the last value of the type. It takes no memory.
    pub fn calls(&self) -> u64
        ensures { result ≡ self.now.counts.calls }
    {
        self.calls.made()
    }
}

impl EventSink for MemoryEventSink {
    ghost written = { λ s. Some s.written };

    ghost faults = { λ s. s.counts.faults };

    fn put(&mut self, event: XmlEvent) -> Result<(), Failed>
        ensures events { MatchResult result
            (λ _. Gains (Some self.old.written) (Some self.new.written) (event ∷ []))
            (λ _. Keeps (Some self.old.written) (Some self.new.written)) }
        ensures cause { HasCause self.old.counts.faults self.new.counts.faults result }
        // Exactly the calls that are told, and those for which there is no room, fail.
        ensures exact { is_ok result ≡ not (event_put_fails self.old) }
        ensures room { self.new.room ≡ self.old.room }
        ensures call { AfterCall self.old.counts self.new.counts result }
    {
        self.calls.begin()?;
        if self.held.len() == self.reserved {
            return Err(self.calls.fail());
        }
        match self.held.push(event) {
            Ok(()) => Ok(()),
            Err(_) => unreachable!(),
        }
    }
}
