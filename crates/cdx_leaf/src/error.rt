//! The faults of reading.

ghost use Rattle.std.specs.Prelude.{◌≡◌, IfOk};
ghost use Rattle.cdx_events.specs.Event.{event_kind};
ghost use Rattle.cdx_schema.specs.Faults.{unexpected, lacking, unreadable};
ghost use Rattle.cdx_leaf.specs.Fault.{Refused};

use cdx_events::{OwnedName, Text, XmlEvent};
use cdx_models::XmlReadError;
use std::alloc::{AllocError, Global};

/// What a reading gives, or why there is none.
pub type Reading<T> = Result<T, XmlReadError>;

/// The fault of an event that isn't expected at this place in the element of this local name. It holds the event's kind.
pub fn unexpected_element_error(
    alloc: Global,
    place: usize,
    element: &str,
    event: &XmlEvent,
) -> Result<XmlReadError, AllocError>
    ensures { IfOk result (λ e. e ≡ unexpected place element.now (event_kind event.now)) }
{
    Ok(XmlReadError::UnexpectedElementReadError {
        place,
        element: Text::new(alloc, element)?,
        found: event.kind(),
    })
}

/// The fault of a text that is no value of the data type, in the element or the attribute of this name.
pub fn invalid_parse_error(
    alloc: Global,
    place: usize,
    element: &str,
    value: &str,
    data_type: &str,
) -> Result<XmlReadError, AllocError>
    ensures { IfOk result (λ e. e ≡ unreadable place element.now value.now data_type.now) }
{
    Ok(XmlReadError::InvalidParseError {
        place,
        element: Text::new(alloc, element)?,
        value: Text::new(alloc, value)?,
        data_type: Text::new(alloc, data_type)?,
    })
}

/// Refuses the element, which lacks what it must have: an attribute at its start, or a child at its end.
pub fn refuse_missing<T>(
    alloc: Global,
    place: usize,
    element: &OwnedName,
    required_field: &str,
) -> Result<T, XmlReadError>
    ensures { Refused result (lacking place element.now.local_name required_field.now) }
{
    Err(XmlReadError::required_data_missing(alloc, place, required_field, element)?)
}

/// Refuses the event at this place in the element.
pub fn refuse<T>(
    alloc: Global,
    place: usize,
    element: &OwnedName,
    event: &XmlEvent,
) -> Result<T, XmlReadError>
    ensures { Refused result (unexpected place element.now.local_name (event_kind event.now)) }
{
    Err(unexpected_element_error(alloc, place, element.local_name.as_str(), event)?)
}
