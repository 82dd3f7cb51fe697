//! The bill of an array of event objects, of which each is read by itself.

ghost use Rattle.std.specs.Prelude.{◌≡◌, List, [], ◌∷◌, ◌++◌, length};
ghost use Rattle.serde_json.specs.View.{view, items_view};
ghost use Rattle.cdx_events.specs.declared.event.XmlEvent.{XmlEvent as Event};
ghost use Rattle.cdx_push_reader.specs.Gathered.{gathering_version};
ghost use Rattle.cdx_request.specs.EventReading.{event_of};
ghost use Rattle.cdx_request.specs.Parts.{all_in};
ghost use Rattle.cdx_tool.specs.Asks.{bill_sent, GivesBill, HasTaken, no_bill_of};
ghost use Rattle.cdx_tool.specs.Reads.{TakesIf, sent_unread};
ghost use Rattle.cdx_tool.specs.declared.request.sent.Unread.TheVariants.{Xml};

use super::RequestError;
use crate::part::RequestPart;
use crate::question::NoBill;
use cdx_bom::{Bom, GatheringReader, RoadError};
use cdx_events::XmlEvent;
use cdx_models::{SpecVersion, XmlReadError};
use cdx_owned::Spent;
use serde_json::Value;
use std::alloc::Global;

// Gives the reader the event that the item is.
fn gather_item(
    alloc: Global,
    reader: &mut GatheringReader,
    place: usize,
    item: &Value,
) -> Result<(), RequestError>
    requires { (events : List Event) × HasTaken reader.old events × (place ≡ length events) }
    ensures taken { (events : List Event) → HasTaken reader.old events → place ≡ length events
        → TakesIf (event_of (view item.now))
        (λ event _. HasTaken reader.new (events ++ event ∷ [])) result }
    ensures version { gathering_version reader.new.gathering
        ≡ gathering_version reader.old.gathering }
{
    let Some(event) = XmlEvent::from_value(alloc, item)? else {
        return Err(RequestError::Shape);
    };
    Ok(reader.take(place, &event)?)
}

// Gives the reader the events that the items are, and says how many there are. Nothing else needs the items: they are
// freed while they are read.
fn gather_items(
    alloc: Global,
    reader: &mut GatheringReader,
    items: Vec<Value>,
) -> Result<usize, RequestError>
    requires { HasTaken reader.old [] }
    ensures taken { TakesIf (all_in event_of (items_view items.items))
        (λ events count. HasTaken reader.new events × (count ≡ length events)) result }
    ensures version { gathering_version reader.new.gathering
        ≡ gathering_version reader.old.gathering }
{
    let mut spent = Spent::new(alloc)?;
    let mut place = 0;
    for item in items {
        gather_item(alloc, reader, place, &item)?;
        spent.put(item)?;
        place += 1;
    }
    Ok(place)
}

// Why a list of events has no bill.
fn no_bill_of(error: XmlReadError) -> NoBill
    ensures { result ≡ no_bill_of error }
{
    match error {
        XmlReadError::ElementReadError { place, .. } => NoBill::Misread(RequestError::Unbalanced {
            place,
        }),
        XmlReadError::Memory(error) => NoBill::Misread(RequestError::Memory(error)),
        fault => NoBill::Refused(RoadError::Xml(fault)),
    }
}

/// The bill of the events that the items are, read in a version. No list of them is made.
///
/// `Shape` comes exactly where an item is no event, else `Unbalanced` exactly where the events aren't balanced, and else
/// `Refused` exactly where they have a fault, with the first one. Want of memory comes in `Misread`.
pub(crate) fn read_items(
    alloc: Global,
    items: Vec<Value>,
    version: SpecVersion,
) -> Result<Bom, NoBill>
    ensures { GivesBill (bill_sent (sent_unread (Xml items)) version) result }
{
    cdx_request::breaks();
    let mut reader = GatheringReader::new(alloc, version);
    let count = gather_items(alloc, &mut reader, items)?;
    match reader.finish(count) {
        Ok(bill) => Ok(bill),
        Err(error) => Err(no_bill_of(error)),
    }
}
