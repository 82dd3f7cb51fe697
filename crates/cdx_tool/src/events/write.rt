//! Events as JSON values.

ghost use Rattle.std.specs.Prelude.{◌≡◌, [], IfOk, OnOk};
ghost use Rattle.serde_json.specs.View.{view, members_view};
ghost use Rattle.cdx_request.specs.EventValues.{with_optional_text, with_name, attribute_value, with_attributes, only_text, event_value, events_value};

use crate::json_item::{JsonItem, items_to_json};
use cdx_events::{
    EventReader, Events, List as Items, OwnedAttribute, OwnedName, Text, XmlEvent as Event,
};
use serde_json::{Map, Value, put};
use std::alloc::{AllocError, Global};

fn put_text(
    alloc: Global,
    map: &mut Map<String, Value>,
    name: &str,
    text: &Option<Text>,
) -> Result<(), AllocError>
    ensures { OnOk result (members_view map.new.entries
        ≡ with_optional_text name.now text.now (members_view map.old.entries)) }
{
    match text {
        None => Ok(()),
        Some(text) => put(map, alloc, name, Value::try_from_str(alloc, text.as_str())?),
    }
}

fn put_name(
    alloc: Global,
    map: &mut Map<String, Value>,
    local: &str,
    name: &OwnedName,
) -> Result<(), AllocError>
    ensures { OnOk result
        (members_view map.new.entries
        ≡ with_name local.now name.now (members_view map.old.entries)) }
{
    let local_name = Value::try_from_str(alloc, name.local_name.as_str())?;
    put(map, alloc, local, local_name)?;
    put_text(alloc, map, "uri", &name.namespace)?;
    put_text(alloc, map, "prefix", &name.prefix)
}

impl JsonItem for OwnedAttribute {
    ghost shown = { attribute_value };

    fn to_json(&self, alloc: Global) -> Result<Value, AllocError> {
        let mut map = Map::new(alloc);
        put(
            &mut map,
            alloc,
            "value",
            Value::try_from_str(alloc, self.value.as_str())?,
        )?;
        put_name(alloc, &mut map, "name", &self.name)?;
        Ok(Value::Object(map))
    }
}

fn put_attributes(
    alloc: Global,
    map: &mut Map<String, Value>,
    attributes: &Items<OwnedAttribute>,
) -> Result<(), AllocError>
    ensures { OnOk result (members_view map.new.entries
        ≡ with_attributes attributes.now (members_view map.old.entries)) }
{
    match attributes.as_slice() {
        [] => Ok(()),
        items => put(map, alloc, "attributes", items_to_json(alloc, items)?),
    }
}

// An object with this text alone.
fn text_object(alloc: Global, name: &str, text: &str) -> Result<Value, AllocError>
    ensures { IfOk result (λ v. view v ≡ only_text name.now text.now) }
{
    let mut map = Map::new(alloc);
    put(&mut map, alloc, name, Value::try_from_str(alloc, text)?)?;
    Ok(Value::Object(map))
}

impl JsonItem for Event {
    ghost shown = { event_value };

    fn to_json(&self, alloc: Global) -> Result<Value, AllocError> {
        match self {
            Event::StartDocument => text_object(alloc, "document", "start"),
            Event::EndDocument => text_object(alloc, "document", "end"),
            Event::StartElement {
                name,
                attributes,
                namespace,
            } => {
                let mut map = Map::new(alloc);
                put_name(alloc, &mut map, "element", name)?;
                put_text(alloc, &mut map, "default", &namespace.default)?;
                put_attributes(alloc, &mut map, attributes)?;
                Ok(Value::Object(map))
            }
            Event::EndElement { name } => {
                let mut map = Map::new(alloc);
                put_name(alloc, &mut map, "end", name)?;
                Ok(Value::Object(map))
            }
            Event::Characters(text) => text_object(alloc, "text", text.as_str()),
            Event::CData(text) => text_object(alloc, "cdata", text.as_str()),
        }
    }
}

/// The events as an array of objects: `{"document":"start"}` and `{"document":"end"}`; `{"element":local}` with
/// `prefix`, `uri` (the name's namespace), `default` (the default namespace in scope) and `attributes`, an array of
/// `{"name":local,"value":text}` with `prefix` and `uri`; `{"end":local}` with `prefix` and `uri`; `{"text":text}` and
/// `{"cdata":text}`. What may be absent stands only where there is a value, and `attributes` only where there are some.
/// Only want of memory refuses.
pub fn events_to_json(alloc: Global, events: &Events) -> Result<Value, AllocError>
    ensures { IfOk result (λ v. view v ≡ events_value events.now.list) }
{
    let mut reader = EventReader::new(events);
    let mut values = Vec::with_capacity(alloc, events.len())?;
    while let Some(event) = reader.next() {
        values.push(event.to_json(alloc)?)?;
    }
    Ok(Value::Array(values))
}
