//! Requests out of JSON values.

ghost use Rattle.std.specs.Prelude.{◌≡◌, Some, option_map, option_and_then, IfOk};
ghost use Rattle.serde_json.specs.Find.{get};
ghost use Rattle.serde_json.specs.View.{view};
ghost use Rattle.std.specs.Prelude.{codes};
ghost use Rattle.cdx_bom.specs.Docs.{IsDoc, hops_of};
ghost use Rattle.cdx_request.specs.Requests.{sent_of, doc_of, doc_in, hops_at, asked_of, request_if, request_of};
ghost use Rattle.cdx_request.specs.EventReading.{events_in};
ghost use Rattle.cdx_tool.specs.Reads.{ReadsOwed, ReadsIf, IsRequest, sent_in, asked_in, form_in, hop_in};

use super::sent::{Asked, Sent};
use super::{Request, RequestError};
use crate::events::events_if;
use crate::part::{RequestPart, array_at, count_members, read_parts, text_at, version_at};
use cdx_bom::{Doc, Form, Hop};
use cdx_events::{Events, EventsError, List, XmlEvent};
use serde_json::Value;
use std::alloc::{AllocError, Global};

// ---- the hops

fn read_form(text: &str) -> Option<Form>
    ensures { result ≡ form_in text.now }
{
    match text {
        "json" => Some(Form::Json),
        "xml" => Some(Form::Xml),
        _ => None,
    }
}

fn read_hop(value: &Value) -> Option<Hop>
    ensures { result ≡ hop_in (view value.now) }
{
    if count_members(value) != 2 {
        return None;
    }
    let form = read_form(text_at(value, "form")?)?;
    let version = version_at(value, "version")?;
    Some(Hop { form, version })
}

impl RequestPart for Hop {
    ghost part_of = { hop_in };

    fn from_value(alloc: Global, value: &Value) -> Result<Option<Hop>, AllocError> {
        Ok(read_hop(value))
    }
}

pub(super) fn read_hops(alloc: Global, value: &Value) -> Result<Option<List<Hop>>, AllocError>
    ensures { IfOk result (λ o. option_map hops_of o ≡ hops_at (view value.now)) }
{
    match array_at(value, "hops") {
        None => Ok(None),
        Some(values) => read_parts(alloc, values.as_slice()),
    }
}

// ---- the document

fn read_sent(alloc: Global, value: &Value) -> Result<Option<Sent>, AllocError>
    ensures { IfOk result (λ o. option_map sent_in o ≡ sent_of (view value.now)) }
{
    if count_members(value) != 1 {
        return Ok(None);
    }
    if let Some(document) = value.get("json") {
        return Ok(Some(Sent::Json(document.clone()?)));
    }
    match value.get("xml") {
        None => Ok(None),
        Some(events) => Ok(events_if(alloc, events)?.map(Sent::Xml)),
    }
}

fn balanced(alloc: Global, events: List<XmlEvent>) -> Result<Doc, RequestError>
    ensures { ReadsOwed IsDoc (doc_of (sent_in (Sent.Xml events))) result }
{
    cdx_request::breaks();
    match Events::from_list(alloc, events) {
        Ok(events) => Ok(Doc::Xml(events)),
        Err(EventsError::Unbalanced { place }) => Err(RequestError::Unbalanced { place }),
        Err(EventsError::Memory(error)) => Err(RequestError::Memory(error)),
    }
}

pub(super) fn settle(alloc: Global, sent: Sent) -> Result<Doc, RequestError>
    ensures { ReadsOwed IsDoc (doc_of (sent_in sent)) result }
{
    match sent {
        Sent::Json(value) => Ok(Doc::Json(value)),
        Sent::Xml(events) => balanced(alloc, events),
    }
}

/// The document of a value: an object with exactly one member, which is `json`, any value, or `xml`, an array of event
/// objects by `events_to_json`, where an empty array of attributes is accepted too.
///
/// `Shape` comes exactly where the value is no such object, and else `Unbalanced` exactly where the events aren't
/// balanced. Want of memory comes only as `Memory`.
pub fn read_doc(alloc: Global, value: &Value) -> Result<Doc, RequestError>
    ensures { ReadsOwed IsDoc (doc_in (view value.now)) result }
{
    match read_sent(alloc, value)? {
        None => Err(RequestError::Shape),
        Some(sent) => settle(alloc, sent),
    }
}

/// The events of an array of event objects, by `events_to_json`; an empty array of attributes is accepted too. `Shape`
/// comes exactly where the value is no such array. It doesn't matter whether the events are balanced, so `Unbalanced`
/// never comes. Want of memory comes only as `Memory`.
pub fn events_from_json(alloc: Global, value: &Value) -> Result<List<XmlEvent>, RequestError>
    ensures { ReadsIf (events_in (view value.now)) result }
{
    match events_if(alloc, value)? {
        None => Err(RequestError::Shape),
        Some(events) => Ok(events),
    }
}

// ---- requests

fn sent_at(alloc: Global, value: &Value) -> Result<Option<Sent>, AllocError>
    ensures { IfOk result
        (λ o. option_map sent_in o ≡ option_and_then sent_of (get (codes "doc") (view value.now))) }
{
    match value.get("doc") {
        None => Ok(None),
        Some(document) => read_sent(alloc, document),
    }
}

fn read_asked(alloc: Global, value: &Value) -> Result<Option<Asked<Sent>>, AllocError>
    ensures { IfOk result (λ o. option_map asked_in o ≡ asked_of (view value.now)) }
{
    if count_members(value) != 3 {
        return Ok(None);
    }
    let Some(from) = version_at(value, "from") else {
        return Ok(None);
    };
    let Some(sent) = sent_at(alloc, value)? else {
        return Ok(None);
    };
    let Some(hops) = read_hops(alloc, value)? else {
        return Ok(None);
    };
    Ok(Some(Asked { from, sent, hops }))
}

// The request of its parts, once the document's events are balanced.
pub(super) fn settle_all(alloc: Global, asked: Asked<Sent>) -> Result<Request, RequestError>
    ensures { ReadsOwed IsRequest (request_if (Some (asked_in asked))) result }
{
    let doc = settle(alloc, asked.sent)?;
    Ok(Request {
        from: asked.from,
        doc,
        hops: asked.hops,
    })
}

/// The request of a value: an object with exactly the members `from` (`"1.3"`, `"1.4"` or `"1.5"`), `doc`, a document
/// by `read_doc`, and `hops`, an array of objects with exactly `form` (`"json"` or `"xml"`) and `version`.
///
/// `Shape` comes exactly where the value is no such object, and else `Unbalanced` exactly where the document's events
/// aren't balanced. Want of memory comes only as `Memory`.
pub fn read_request(alloc: Global, value: &Value) -> Result<Request, RequestError>
    ensures { ReadsOwed IsRequest (request_of (view value.now)) result }
{
    match read_asked(alloc, value)? {
        None => Err(RequestError::Shape),
        Some(asked) => settle_all(alloc, asked),
    }
}
