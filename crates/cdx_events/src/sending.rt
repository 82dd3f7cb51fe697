//! Putting a document into a sink of events.

ghost use Rattle.std.specs.Prelude.{◌≡◌};
ghost use Rattle.cdx_events.specs.Send.{Sends};

use crate::event_stream::EventSink;
use crate::events::Events;
use crate::stream::Failed;
use std::collections::VecDeque;

/// A sink failed. The first `put` events went out.
#[derive(Clone, Copy, Debug, PartialEq, Eq)]
pub struct SendError {
    /// How many events the sink took before it failed.
    pub put: usize,
}

/// Puts the events in order, until one fails. An error comes only where the count of the sink rose, and `Ok` only
/// where it didn't grow. It takes no memory.
pub fn send<K: EventSink>(events: Events, sink: &mut K) -> Result<(), SendError>
    ensures { Sends events.list (K.written sink.old) (K.written sink.new) (K.faults sink.old)
        (K.faults sink.new) result }
{
    let mut waiting = VecDeque::from(events.into_list().into_vec());
    let mut put = 0;
    while let Some(event) = waiting.pop_front() {
        match sink.put(event) {
            Ok(()) => put += 1,
            Err(Failed) => return Err(SendError { put }),
        }
    }
    Ok(())
}
