//! Lists out of arrays that nothing else needs.

ghost use Rattle.std.specs.Prelude.{IfOk};
ghost use Rattle.serde_json.specs.View.{view, items_view};
ghost use Rattle.cdx_models.specs.Trees.{list_tree};
ghost use Rattle.cdx_schema.specs.Kinds.{Lists, a_list};
ghost use Rattle.cdx_schema.specs.JsonReading.{jread, first_float, float_of_items};
ghost use Rattle.cdx_schema.specs.Depths.{depth_of};
ghost use Rattle.cdx_json.specs.ByRows.{IsJsonListOf, list_read};
ghost use Rattle.cdx_json.specs.Gives.{Gives};
ghost use Rattle.cdx_owned.specs.Floats.{to_unit, unless_float};

use crate::floats::{refuse_floats, refuse_item};
use crate::spent::Spent;
use cdx_events::List;
use cdx_json::{Context, FromJson, at_item, list_from_value};
use cdx_models::JsonReadError;
use serde_json::Value;

/// `list_from_items` of items that nothing else needs, which are freed while they are read: the items of an array, each
/// read as the kind of `T`, or the first fault, whose path begins with the item's number. Before that answer stands the
/// fault of the first floating-point number, where an item holds one, as `refuse_floats` of the array gives it.
pub fn items_from_owned<T: FromJson + Drop>(
    items: Vec<Value>,
    context: Context,
) -> Result<Result<List<T>, JsonReadError>, JsonReadError>
    ensures floats { Gives to_unit result
        (unless_float (float_of_items 0 (items_view items.items))) }
    ensures read { IfOk result (λ r. Gives (list_tree T.tree) r
        (list_read (items_view items.items) context.version T.kind (depth_of context.depth))) }
{
    let mut held = List::with_capacity(context.alloc, items.len())?;
    let mut spent = Spent::new(context.alloc)?;
    let mut fault = None;
    let mut at = 0;
    for item in items {
        refuse_item(context.alloc, at, &item)?;
        // After a fault only floats are looked for.
        match fault {
            Some(_) => {}
            None => match T::from_json_at(&item, context) {
                Ok(one) => held.push(one)?,
                Err(e) => fault = Some(at_item(at, e)),
            },
        }
        at += 1;
        spent.put(item)?;
    }
    match fault {
        None => Ok(Ok(held)),
        Some(e) => Ok(Err(e)),
    }
}

/// `list_from_value` of a value that nothing else needs, which is freed while it is read: an array as any of the schema's
/// lists whose items are of the kind of `T`. Before that answer stands the fault of the first floating-point number, where
/// the value holds one, as `refuse_floats` gives it.
pub fn list_from_owned<T: FromJson + Drop>(
    value: Value,
    context: Context,
) -> Result<Result<List<T>, JsonReadError>, JsonReadError>
    ensures floats { Gives to_unit result (unless_float (first_float (view value))) }
    ensures read { IfOk result (λ r. (l : Lists) → IsJsonListOf T.kind l
        → Gives (list_tree T.tree) r
        (jread (view value) context.version (a_list l) (depth_of context.depth))) }
{
    match value {
        Value::Array(items) => items_from_owned(items, context),
        other => {
            refuse_floats(context.alloc, &other)?;
            Ok(list_from_value(&other, context))
        }
    }
}
