//! Taking a document from a source of events.

ghost use Rattle.std.specs.Prelude.{◌≡◌};
ghost use Rattle.cdx_events.specs.Gather.{is_end, Gathers, TakesEvents};

use crate::event::XmlEvent;
use crate::event_stream::EventSource;
use crate::events::{Events, EventsError};
use crate::list::List;
use crate::stream::Failed;
use std::alloc::{AllocError, Global};

/// Why a source gave no `Events`.
#[derive(Clone, Copy, Debug, PartialEq, Eq)]
pub enum GatherError {
    /// The source failed, after so many events.
    Fault { taken: usize },
    /// What was taken isn't balanced. The place is that of the first event after which no balanced list can follow,
    /// or the number of events where they end too early.
    Unbalanced { place: usize },
    /// As many events were taken as may be, and none of them is a document end.
    Budget { taken: usize },
    /// Memory ran out.
    Memory(AllocError),
}

impl From<AllocError> for GatherError {
    ghost use Rattle.cdx_events.specs.declared.gathering.GatherError.TheVariants.{Memory};

    ghost from_gives = { λ a e. e ≡ Memory a };

    fn from(error: AllocError) -> GatherError {
        GatherError::Memory(error)
    }
}

impl From<EventsError> for GatherError {
    ghost use Rattle.cdx_events.specs.Gather.{refused_gathering};

    ghost from_gives = { λ r e. e ≡ refused_gathering r };

    fn from(error: EventsError) -> GatherError {
        match error {
            EventsError::Unbalanced { place } => GatherError::Unbalanced { place },
            EventsError::Memory(error) => GatherError::Memory(error),
        }
    }
}

fn is_end(event: &XmlEvent) -> bool
    ensures { result ≡ is_end event.now }
{
    matches!(event, XmlEvent::EndDocument)
}

// The events through the first document end, at most so many, or all that are left.
fn take_events<E: EventSource>(
    alloc: Global,
    source: &mut E,
    budget: usize,
) -> Result<List<XmlEvent>, GatherError>
    ensures { TakesEvents budget (E.left source.old) (E.left source.new) (E.faults source.old)
        (E.faults source.new) result }
{
    let mut list = List::new(alloc);
    for taken in 0..budget {
        let event = match source.next() {
            Ok(Some(event)) => event,
            Ok(None) => return Ok(list),
            Err(Failed) => return Err(GatherError::Fault { taken }),
        };
        let ends = is_end(&event);
        list.push(event)?;
        if ends {
            return Ok(list);
        }
    }
    Err(GatherError::Budget { taken: budget })
}

/// Takes one event at a time until a document end, the end of the source or `budget` events, and answers with the
/// events where they are balanced.
///
/// `Fault` comes only where the count of the source rose, and where it grew, the answer is `Fault` or `Memory`.
/// `Budget` comes exactly where `budget` events were taken and none of them is a document end, and `Unbalanced`
/// exactly where neither of these comes and what was taken isn't balanced. After every answer the source stands after
/// what was taken.
pub fn gather<E: EventSource>(
    alloc: Global,
    source: &mut E,
    budget: usize,
) -> Result<Events, GatherError>
    ensures { Gathers budget (E.left source.old) (E.left source.new) (E.faults source.old)
        (E.faults source.new) result }
{
    let list = take_events(alloc, source, budget)?;
    Ok(Events::from_list(alloc, list)?)
}
