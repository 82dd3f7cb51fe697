//! Spellings as values of their own.

ghost use Rattle.std.specs.Prelude.{◌≡◌, IfOk};
ghost use Rattle.serde_json.specs.Data.{no_members};
ghost use Rattle.serde_json.specs.View.{view, items_view, members_view};
ghost use Rattle.cdx_json.specs.Spellings.{spelling_data, spelling_items, spelling_members, set_anew, items_anew, members_anew};

use crate::spelling::Spelling;
use crate::spelling::members::Members;
use serde_json::{Map, Value};
use std::alloc::{AllocError, Global};

impl Spelling<'_> {
    /// The value, with names and texts of its own. Only want of memory refuses.
    pub fn to_value(&self, alloc: Global) -> Result<Value, AllocError>
        ensures { IfOk result (λ v. view v ≡ set_anew (spelling_data self.now)) }
    {
        value_of(alloc, self)
    }
}

#[cycle(values)]
fn value_of(alloc: Global, spelling: &Spelling<'_>) -> Result<Value, AllocError>
    ensures { IfOk result (λ v. view v ≡ set_anew (spelling_data spelling.now)) }
{
    match spelling {
        Spelling::Bool(held) => Ok(Value::from(*held)),
        Spelling::Number(held) => Ok(Value::from(*held)),
        Spelling::Text(held) => Value::try_from_str(alloc, held),
        Spelling::Array(items) => Ok(Value::Array(values_of(alloc, items)?)),
        Spelling::Object(members) => Ok(Value::Object(map_of(alloc, members)?)),
    }
}

#[cycle(values)]
fn values_of(alloc: Global, items: &Vec<Spelling<'_>>) -> Result<Vec<Value>, AllocError>
    ensures { IfOk result
        (λ vs. items_view vs.items ≡ items_anew (spelling_items items.now.items)) }
{
    let mut values = Vec::with_capacity(alloc, items.len())?;
    for item in items {
        values.push(value_of(alloc, item)?)?;
    }
    Ok(values)
}

#[cycle(values)]
fn map_of(alloc: Global, members: &Members<'_>) -> Result<Map<String, Value>, AllocError>
    ensures { IfOk result
        (λ m. members_view m.entries
        ≡ members_anew (spelling_members members.now.items) no_members) }
{
    let mut map = Map::new(alloc);
    for member in members {
        serde_json::put(&mut map, alloc, member.0, value_of(alloc, &member.1)?)?;
    }
    Ok(map)
}
