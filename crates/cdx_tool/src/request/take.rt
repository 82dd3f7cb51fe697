//! Requests out of JSON values that nothing else needs.

ghost use Rattle.std.specs.Prelude.{◌≡◌, option_map, option_and_then, IfOk};
ghost use Rattle.serde_json.specs.Find.{as_array};
ghost use Rattle.serde_json.specs.View.{view, items_view};
ghost use Rattle.cdx_bom.specs.Docs.{IsDoc};
ghost use Rattle.cdx_request.specs.Requests.{sent_of, doc_in, asked_of, request_of};
ghost use Rattle.cdx_tool.specs.Reads.{ReadsOwed, IsRequest, sent_in, sent_unread, asked_in, asked_unread};

use super::read::{read_hops, settle, settle_all};
use super::sent::{Asked, Sent, Unread};
use super::{Request, RequestError};
use crate::part::{count_members, has_member, take_member, take_parts, version_at};
use cdx_bom::Doc;
use serde_json::Value;
use std::alloc::{AllocError, Global};

// The items of an array.
fn take_array(value: Value) -> Option<Vec<Value>>
    ensures { option_map (λ items. items_view items.items) result ≡ as_array (view value) }
{
    match value {
        Value::Array(items) => Some(items),
        _ => None,
    }
}

/// The document of a value, where it is an object with exactly one member, which is `json`, any value, or `xml`, an array.
/// It isn't seen yet whether the items of the array are event objects.
pub(crate) fn take_unread(value: Value) -> Option<Unread>
    ensures { option_and_then sent_unread result ≡ sent_of (view value) }
{
    if count_members(&value) != 1 {
        return None;
    }
    if has_member(&value, "json") {
        return take_member(value, "json").map(Unread::Json);
    }
    let events = take_member(value, "xml")?;
    take_array(events).map(Unread::Xml)
}

// The document with the events that its items are, where each is one. The items are freed while they are read.
fn read_unread(alloc: Global, unread: Unread) -> Result<Option<Sent>, AllocError>
    ensures { IfOk result (λ o. option_map sent_in o ≡ sent_unread unread) }
{
    match unread {
        Unread::Json(value) => Ok(Some(Sent::Json(value))),
        Unread::Xml(items) => Ok(take_parts(alloc, items)?.map(Sent::Xml)),
    }
}

fn take_sent(alloc: Global, value: Value) -> Result<Option<Sent>, AllocError>
    ensures { IfOk result (λ o. option_map sent_in o ≡ sent_of (view value)) }
{
    match take_unread(value) {
        None => Ok(None),
        Some(unread) => read_unread(alloc, unread),
    }
}

/// `read_doc` of a value that nothing else needs, so that no JSON is copied.
pub fn take_doc(alloc: Global, value: Value) -> Result<Doc, RequestError>
    ensures { ReadsOwed IsDoc (doc_in (view value)) result }
{
    match take_sent(alloc, value)? {
        None => Err(RequestError::Shape),
        Some(sent) => settle(alloc, sent),
    }
}

/// The parts of a request, where the value is one, but for whether the items of its document's array are event objects,
/// which isn't seen yet. Only want of memory refuses.
pub(crate) fn take_asked(alloc: Global, value: Value) -> Result<Option<Asked<Unread>>, AllocError>
    ensures { IfOk result (λ o. option_and_then asked_unread o ≡ asked_of (view value)) }
{
    if count_members(&value) != 3 {
        return Ok(None);
    }
    let Some(from) = version_at(&value, "from") else {
        return Ok(None);
    };
    let Some(hops) = read_hops(alloc, &value)? else {
        return Ok(None);
    };
    let Some(document) = take_member(value, "doc") else {
        return Ok(None);
    };
    match take_unread(document) {
        None => Ok(None),
        Some(sent) => Ok(Some(Asked { from, sent, hops })),
    }
}

// The same with the events of its document.
fn read_events_of(alloc: Global, asked: Asked<Unread>) -> Result<Option<Asked<Sent>>, AllocError>
    ensures { IfOk result (λ o. option_map asked_in o ≡ asked_unread asked) }
{
    let Asked { from, sent, hops } = asked;
    match read_unread(alloc, sent)? {
        None => Ok(None),
        Some(sent) => Ok(Some(Asked { from, sent, hops })),
    }
}

/// `read_request` of a value that nothing else needs, so that its document isn't copied.
pub fn take_request(alloc: Global, value: Value) -> Result<Request, RequestError>
    ensures { ReadsOwed IsRequest (request_of (view value)) result }
{
    let Some(asked) = take_asked(alloc, value)? else {
        return Err(RequestError::Shape);
    };
    match read_events_of(alloc, asked)? {
        None => Err(RequestError::Shape),
        Some(asked) => settle_all(alloc, asked),
    }
}
