//! Refusals of events.

ghost use Rattle.cdx_events.specs.Event.{event_kind};
ghost use Rattle.cdx_schema.specs.Faults.{unexpected};
ghost use Rattle.cdx_leaf.specs.Fault.{Refused};

use cdx_events::{Text, XmlEvent};
use cdx_leaf::unexpected_element_error;
use cdx_models::XmlReadError;
use std::alloc::Global;

/// Refuses the event at this place in the element of this local name.
pub fn refuse_in<T>(
    alloc: Global,
    place: usize,
    element: &Text,
    event: &XmlEvent,
) -> Result<T, XmlReadError>
    ensures { Refused result (unexpected place element.now (event_kind event.now)) }
{
    Err(unexpected_element_error(alloc, place, element.as_str(), event)?)
}
