//! A request before its events are balanced.

ghost use Rattle.cdx_tool.specs.Asks.{bill_sent, GivesBill};
ghost use Rattle.cdx_tool.specs.Reads.{sent_unread};

use super::bill::read_items;
use crate::question::NoBill;
use cdx_bom::{Bom, Doc, Hop, into_bill};
use cdx_events::{List, XmlEvent};
use cdx_models::SpecVersion;
use serde_json::Value;
use std::alloc::Global;

/// A document as it stands in a request, before it is seen whether its events are balanced.
#[derive(Drop)]
pub(crate) enum Sent {
    Json(Value),
    Xml(List<XmlEvent>),
}

/// A document as a request holds it, before it is seen whether the items of its array are event objects.
#[derive(Drop)]
pub(crate) enum Unread {
    Json(Value),
    Xml(Vec<Value>),
}

impl Unread {
    /// The bill of the document, read in a version. No list of events is made: each is read out of its object, which is
    /// then freed.
    ///
    /// `Shape` comes exactly where an item of the array is no event object, else `Unbalanced` exactly where the events
    /// aren't balanced, and else `Refused` exactly where the document has a fault, with its first fault. Want of memory
    /// comes in either.
    pub(crate) fn into_bill(self, alloc: Global, version: SpecVersion) -> Result<Bom, NoBill>
        ensures { GivesBill (bill_sent (sent_unread self) version) result }
    {
        match self {
            Unread::Json(value) => Ok(into_bill(alloc, Doc::Json(value), version)?),
            Unread::Xml(items) => read_items(alloc, items, version),
        }
    }
}

/// The parts of a request with its document, as far as that was read.
#[derive(Drop)]
pub(crate) struct Asked<D> {
    /// The version that the document is read in.
    pub from: SpecVersion,
    /// The document.
    pub sent: D,
    /// The hops of its road, in their order.
    pub hops: List<Hop>,
}
