//! Values that are written as JSON.

ghost use Rattle.std.specs.Prelude.{◌≡◌, map as each, IfOk};
ghost use Rattle.serde_json.specs.Data.{Data, array};
ghost use Rattle.serde_json.specs.View.{view, items_of};

use cdx_events::Text;
use serde_json::Value;
use std::alloc::{AllocError, Global};

/// What is written as JSON.
pub trait JsonItem {
    ghost shown: { Self → Data };

    /// Its value. Only want of memory refuses.
    fn to_json(&self, alloc: Global) -> Result<Value, AllocError>
        ensures { IfOk result (λ v. view v ≡ shown self.now) };
}

/// An array of the items' values. Only want of memory refuses.
pub fn items_to_json<S: JsonItem>(alloc: Global, items: &[S]) -> Result<Value, AllocError>
    ensures { IfOk result (λ v. view v ≡ array (items_of (each S.shown items.now))) }
{
    let mut values = Vec::with_capacity(alloc, items.len())?;
    for item in items {
        values.push(item.to_json(alloc)?)?;
    }
    Ok(Value::Array(values))
}

impl JsonItem for Text {
    ghost use Rattle.serde_json.specs.Data.{string};

    ghost shown = { λ s. string s };

    fn to_json(&self, alloc: Global) -> Result<Value, AllocError> {
        Value::try_from_str(alloc, self.as_str())
    }
}
