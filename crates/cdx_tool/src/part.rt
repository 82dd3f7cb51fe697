//! Parts of a JSON value.

ghost use Rattle.std.specs.Prelude.{◌≡◌, Option, option_map, option_and_then, IfOk, string_bytes};
ghost use Rattle.serde_json.specs.Data.{Data};
ghost use Rattle.serde_json.specs.Find.{get, as_array};
ghost use Rattle.serde_json.specs.View.{view, items_view};
ghost use Rattle.cdx_tool.specs.LoneMember.{lone_member};
ghost use Rattle.cdx_request.specs.Parts.{member_count, has, how_many, text_at as text_in, version_at as version_in, if_text, all_in};

use cdx_events::{List as Items, Text};
use cdx_models::SpecVersion;
use cdx_owned::Spent;
use serde_json::Value;
use std::alloc::{AllocError, Global};

/// How many members the value has: none where it is no object.
pub fn count_members(value: &Value) -> usize
    ensures { result ≡ member_count (view value.now) }
{
    match value.as_object() {
        Some(map) => map.len(),
        None => 0,
    }
}

/// The name and the value of the only member, where the value is an object of one.
pub(crate) fn lone_member<'v>(value: &'v Value) -> Option<(&'v String, &'v Value)>
    ensures { option_map (λ m. (string_bytes m.0.now, view m.1.now)) result
        ≡ lone_member (view value.now) }
{
    let map = value.as_object()?;
    if map.len() != 1 {
        return None;
    }
    map.first_key_value()
}

pub(crate) fn has_member(value: &Value, name: &str) -> bool
    ensures { result ≡ has name.now (view value.now) }
{
    value.get(name).is_some()
}

// How many members have the name: one or none.
pub(crate) fn count_named(value: &Value, name: &str) -> usize
    ensures { result ≡ how_many (get name.now (view value.now)) }
{
    match value.get(name) {
        Some(_) => 1,
        None => 0,
    }
}

/// The member of the name, taken out of the value without a copy, where the value is an object that has it.
pub fn take_member(value: Value, name: &str) -> Option<Value>
    ensures { option_map view result ≡ get name.now (view value) }
{
    match value {
        Value::Object(mut map) => map.remove(name),
        _ => None,
    }
}

pub(crate) fn text_at<'v>(value: &'v Value, name: &str) -> Option<&'v str>
    ensures { option_map (λ s. s.now) result ≡ text_in name.now (view value.now) }
{
    value.get(name)?.as_str()
}

pub(crate) fn array_at<'v>(value: &'v Value, name: &str) -> Option<&'v Vec<Value>>
    ensures { option_map (λ v. items_view v.now.items) result
        ≡ option_and_then as_array (get name.now (view value.now)) }
{
    value.get(name)?.as_array()
}

/// The version whose label the member of the name is: `"1.3"`, `"1.4"` or `"1.5"`.
pub fn version_at(value: &Value, name: &str) -> Option<SpecVersion>
    ensures { result ≡ version_in name.now (view value.now) }
{
    SpecVersion::from_text(text_at(value, name)?)
}

// No text, or one that is there.
pub(crate) fn read_text_if(
    alloc: Global,
    value: Option<&Value>,
) -> Result<Option<Option<Text>>, AllocError>
    ensures { IfOk result (λ o. o ≡ if_text (option_map (λ v. view v.now) value.entry)) }
{
    let Some(value) = value else {
        return Ok(Some(None));
    };
    match value.as_str() {
        None => Ok(None),
        Some(text) => Ok(Some(Some(Text::new(alloc, text)?))),
    }
}

/// What stands in an array.
pub(crate) trait RequestPart: Sized {
    ghost part_of: { Data → Option Self };

    /// The part that a value is, if it is one.
    fn from_value(alloc: Global, value: &Value) -> Result<Option<Self>, AllocError>
        ensures { IfOk result (λ o. o ≡ part_of (view value.now)) };
}

/// The parts that the values are, if each is one.
pub(crate) fn read_parts<P: RequestPart + Drop>(
    alloc: Global,
    values: &[Value],
) -> Result<Option<Items<P>>, AllocError>
    ensures { IfOk result (λ o. o ≡ all_in P.part_of (items_view values.now)) }
{
    let mut items = Items::with_capacity(alloc, values.len())?;
    for value in values {
        let Some(item) = P::from_value(alloc, value)? else {
            return Ok(None);
        };
        items.push(item)?;
    }
    Ok(Some(items))
}

/// `read_parts` of values that nothing else needs, which are freed while they are read.
pub(crate) fn take_parts<P: RequestPart + Drop>(
    alloc: Global,
    values: Vec<Value>,
) -> Result<Option<Items<P>>, AllocError>
    ensures { IfOk result (λ o. o ≡ all_in P.part_of (items_view values.items)) }
{
    let mut items = Items::with_capacity(alloc, values.len())?;
    let mut spent = Spent::new(alloc)?;
    for value in values {
        let Some(item) = P::from_value(alloc, &value)? else {
            return Ok(None);
        };
        items.push(item)?;
        spent.put(value)?;
    }
    Ok(Some(items))
}
