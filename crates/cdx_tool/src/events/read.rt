//! Events out of JSON values.

ghost use Rattle.std.specs.Prelude.{◌≡◌, ◌+◌, option_map, IfOk, IsNone, None};
ghost use Rattle.serde_json.specs.Data.{object, member, no_members, string};
ghost use Rattle.serde_json.specs.View.{view};
ghost use Rattle.cdx_tool.specs.LoneMember.{lone_member};
ghost use Rattle.cdx_request.specs.EventReading.{name_at, members_of_name, attribute_meant, if_attributes, mark_of, members_of_start, start_parts, start_event, end_event, event_of, events_in};

use crate::part::{
    RequestPart, count_members, count_named, has_member, lone_member, read_parts, read_text_if,
    text_at,
};
use cdx_events::{List as Items, Namespace, OwnedAttribute, OwnedName, Text, XmlEvent as Event};
use serde_json::Value;
use std::alloc::{AllocError, Global};

fn read_event_name(
    alloc: Global,
    value: &Value,
    local: &str,
) -> Result<Option<OwnedName>, AllocError>
    ensures { IfOk result (λ o. o ≡ name_at local.now (view value.now)) }
{
    let Some(local_name) = text_at(value, local) else {
        return Ok(None);
    };
    let Some(namespace) = read_text_if(alloc, value.get("uri"))? else {
        return Ok(None);
    };
    let Some(prefix) = read_text_if(alloc, value.get("prefix"))? else {
        return Ok(None);
    };
    let local_name = Text::new(alloc, local_name)?;
    Ok(Some(OwnedName {
        local_name,
        namespace,
        prefix,
    }))
}

fn count_name(value: &Value) -> usize
    ensures { result ≡ members_of_name (view value.now) }
{
    1 + count_named(value, "uri") + count_named(value, "prefix")
}

impl RequestPart for OwnedAttribute {
    ghost part_of = { attribute_meant };

    fn from_value(alloc: Global, value: &Value) -> Result<Option<OwnedAttribute>, AllocError> {
        if count_members(value) != count_name(value) + 1 {
            return Ok(None);
        }
        let Some(name) = read_event_name(alloc, value, "name")? else {
            return Ok(None);
        };
        let Some(text) = text_at(value, "value") else {
            return Ok(None);
        };
        let text = Text::new(alloc, text)?;
        Ok(Some(OwnedAttribute { name, value: text }))
    }
}

// No attributes, or those of an array.
fn read_event_attributes(
    alloc: Global,
    value: Option<&Value>,
) -> Result<Option<Items<OwnedAttribute>>, AllocError>
    ensures { IfOk result (λ o. o ≡ if_attributes (option_map (λ v. view v.now) value.entry)) }
{
    let Some(value) = value else {
        return Ok(Some(Items::new(alloc)));
    };
    match value.as_array() {
        None => Ok(None),
        Some(items) => read_parts(alloc, items.as_slice()),
    }
}

fn mark(text: &str) -> Option<Event>
    ensures { result ≡ mark_of text.now }
{
    match text {
        "start" => Some(Event::StartDocument),
        "end" => Some(Event::EndDocument),
        _ => None,
    }
}

fn count_start(value: &Value) -> usize
    ensures { result ≡ members_of_start (view value.now) }
{
    count_name(value) + count_named(value, "default") + count_named(value, "attributes")
}

fn read_start_parts(alloc: Global, value: &Value) -> Result<Option<Event>, AllocError>
    ensures { IfOk result (λ o. o ≡ start_parts (view value.now)) }
{
    let Some(name) = read_event_name(alloc, value, "element")? else {
        return Ok(None);
    };
    let Some(default) = read_text_if(alloc, value.get("default"))? else {
        return Ok(None);
    };
    let Some(attributes) = read_event_attributes(alloc, value.get("attributes"))? else {
        return Ok(None);
    };
    Ok(Some(Event::StartElement {
        name,
        attributes,
        namespace: Namespace { default },
    }))
}

fn read_start_event(alloc: Global, value: &Value) -> Result<Option<Event>, AllocError>
    ensures { IfOk result (λ o. o ≡ start_event (view value.now)) }
{
    if count_members(value) != count_start(value) {
        return Ok(None);
    }
    read_start_parts(alloc, value)
}

fn read_end(alloc: Global, value: &Value) -> Result<Option<Event>, AllocError>
    ensures { IfOk result (λ o. o ≡ end_event (view value.now)) }
{
    if count_members(value) != count_name(value) {
        return Ok(None);
    }
    match read_event_name(alloc, value, "end")? {
        None => Ok(None),
        Some(name) => Ok(Some(Event::EndElement { name })),
    }
}

fn lone_name(alloc: Global, local_name: &str) -> Result<OwnedName, AllocError>
    ensures { IfOk result (λ n. n
        ≡ record { local_name = local_name.now; namespace = None; prefix = None }) }
{
    Ok(OwnedName {
        local_name: Text::new(alloc, local_name)?,
        namespace: None,
        prefix: None,
    })
}

// The event of an object with this member alone, which is a text.
fn read_lone_text(alloc: Global, name: &str, text: &str) -> Result<Option<Event>, AllocError>
    ensures { IfOk result
        (λ o. o ≡ event_of (object (member name.now (string text.now) no_members))) }
{
    match name {
        "document" => Ok(mark(text)),
        "element" => Ok(Some(Event::StartElement {
            name: lone_name(alloc, text)?,
            attributes: Items::new(alloc),
            namespace: Namespace { default: None },
        })),
        "end" => Ok(Some(Event::EndElement {
            name: lone_name(alloc, text)?,
        })),
        "text" => Ok(Some(Event::Characters(Text::new(alloc, text)?))),
        "cdata" => Ok(Some(Event::CData(Text::new(alloc, text)?))),
        _ => Ok(None),
    }
}

// The event of an object of no member or several: the start of an element or its end.
fn read_several(alloc: Global, value: &Value) -> Result<Option<Event>, AllocError>
    requires { IsNone (lone_member (view value.now)) }
    ensures { IfOk result (λ o. o ≡ event_of (view value.now)) }
{
    if has_member(value, "document") {
        Ok(None)
    } else if has_member(value, "element") {
        read_start_event(alloc, value)
    } else if has_member(value, "end") {
        read_end(alloc, value)
    } else {
        Ok(None)
    }
}

impl RequestPart for Event {
    ghost part_of = { event_of };

    fn from_value(alloc: Global, value: &Value) -> Result<Option<Event>, AllocError> {
        match lone_member(value) {
            None => read_several(alloc, value),
            Some((name, member)) => match member.as_str() {
                None => Ok(None),
                Some(text) => read_lone_text(alloc, name.as_str(), text),
            },
        }
    }
}

// The events of an array, if each item is one.
pub(crate) fn events_if(alloc: Global, value: &Value) -> Result<Option<Items<Event>>, AllocError>
    ensures { IfOk result (λ o. o ≡ events_in (view value.now)) }
{
    match value.as_array() {
        None => Ok(None),
        Some(values) => read_parts(alloc, values.as_slice()),
    }
}
