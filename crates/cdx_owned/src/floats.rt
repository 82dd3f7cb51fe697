//! Floating-point numbers, which no bill may hold.

ghost use Rattle.serde_json.specs.View.{view, items_view, members_view};
ghost use Rattle.cdx_schema.specs.Faults.{to_item, to_member};
ghost use Rattle.cdx_schema.specs.JsonReading.{behind, first_float, float_of_items, float_of_members};
ghost use Rattle.cdx_json.specs.Gives.{Gives};
ghost use Rattle.cdx_owned.specs.Floats.{to_unit, unless_float, float_before};

use cdx_json::{at_item, at_member, here};
use cdx_models::{JsonKind, JsonReadError};
use serde_json::{Map, Value};
use std::alloc::Global;

/// Nothing where the value holds no floating-point number, and else the fault of the first one, members being searched
/// in byte order of their names, depth first. `Memory` comes only where memory runs out.
#[cycle(floats)]
pub fn refuse_floats(alloc: Global, value: &Value) -> Result<(), JsonReadError>
    ensures { Gives to_unit result (unless_float (first_float (view value.now))) }
{
    match value {
        Value::Null => Ok(()),
        Value::Bool(_) => Ok(()),
        Value::String(_) => Ok(()),
        Value::Number(number) => {
            if number.is_f64() {
                Err(here(alloc, JsonKind::Float))
            } else {
                Ok(())
            }
        }
        Value::Array(items) => refuse_item_floats(alloc, items),
        Value::Object(map) => refuse_member_floats(alloc, map),
    }
}

// The same of an array's item with this number.
#[cycle(floats)]
pub(crate) fn refuse_item(alloc: Global, at: usize, item: &Value) -> Result<(), JsonReadError>
    ensures { Gives to_unit result
        (unless_float (behind (to_item at) (first_float (view item.now)))) }
{
    match refuse_floats(alloc, item) {
        Ok(()) => Ok(()),
        Err(e) => Err(at_item(at, e)),
    }
}

// The same of an object's member with this name.
#[cycle(floats)]
fn refuse_member(alloc: Global, name: &str, value: &Value) -> Result<(), JsonReadError>
    ensures { Gives to_unit result
        (unless_float (behind (to_member name.now) (first_float (view value.now)))) }
{
    match refuse_floats(alloc, value) {
        Ok(()) => Ok(()),
        Err(e) => Err(at_member(alloc, name, e)),
    }
}

#[cycle(floats)]
fn refuse_item_floats(alloc: Global, items: &Vec<Value>) -> Result<(), JsonReadError>
    ensures { Gives to_unit result (unless_float (float_of_items 0 (items_view items.now.items))) }
{
    for (i, item) in items.iter().enumerate() {
        refuse_item(alloc, i, item)?;
    }
    Ok(())
}

/// `refuse_floats` of an object's members.
#[cycle(floats)]
pub fn refuse_member_floats(alloc: Global, map: &Map<String, Value>) -> Result<(), JsonReadError>
    ensures { Gives to_unit result
        (unless_float (float_of_members (members_view map.now.entries))) }
{
    for (name, value) in map.iter() {
        refuse_member(alloc, name.as_str(), value)?;
    }
    Ok(())
}

/// `refuse_floats` of an object's members before the one with this name, or of all where none has it.
pub fn refuse_floats_before(
    alloc: Global,
    map: &Map<String, Value>,
    name: &str,
) -> Result<(), JsonReadError>
    ensures { Gives to_unit result
        (unless_float (float_before name.now (members_view map.now.entries))) }
{
    for (other, value) in map.iter() {
        if other.as_str() == name {
            return Ok(());
        }
        refuse_member(alloc, other.as_str(), value)?;
    }
    Ok(())
}
