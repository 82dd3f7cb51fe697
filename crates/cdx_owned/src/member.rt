//! Members taken out of objects that nothing else needs.

ghost use Rattle.std.specs.Prelude.{◌≡◌, option_map, IfOk};
ghost use Rattle.serde_json.specs.Find.{get_member};
ghost use Rattle.serde_json.specs.View.{view, members_view};
ghost use Rattle.cdx_models.specs.Trees.{present, list_tree};
ghost use Rattle.cdx_schema.specs.Kinds.{Lists, a_list, optional};
ghost use Rattle.cdx_schema.specs.JsonReading.{seen};
ghost use Rattle.cdx_schema.specs.Depths.{depth_of};
ghost use Rattle.cdx_json.specs.ByRows.{IsJsonListOf, member_of};
ghost use Rattle.cdx_json.specs.Gives.{Gives, non_null};
ghost use Rattle.cdx_owned.specs.Floats.{to_unit, unless_float, float_under};
ghost use Rattle.cdx_owned.specs.Without.{without};

use crate::list::list_from_owned;
use cdx_events::List;
use cdx_json::{Context, FromJson, at_member};
use cdx_models::JsonReadError;
use serde_json::{Map, Value};

// The member of that name. The other members stay.
fn take_member(map: &mut Map<String, Value>, name: &str) -> Option<Value>
    ensures member { option_map view result ≡ get_member name.now (members_view map.old.entries) }
    ensures others { members_view map.new.entries
        ≡ without name.now (members_view map.old.entries) }
{
    map.remove(name)
}

// The same, where it is not null.
fn take_not_null(map: &mut Map<String, Value>, name: &str) -> Option<Value>
    ensures member { option_map view result
        ≡ non_null (get_member name.now (members_view map.old.entries)) }
    ensures others { members_view map.new.entries
        ≡ without name.now (members_view map.old.entries) }
{
    match take_member(map, name) {
        None => None,
        Some(value) => { if value.is_null() { None } else { Some(value) } }
    }
}

/// `optional_list_row` of an object that nothing else needs, whose member is taken out of it and freed while it is read:
/// a list that may be left out or null. The other members stay. Before that answer stands the fault of the member's first
/// floating-point number, where it holds one.
pub fn take_list_row<T: FromJson + Drop>(
    map: &mut Map<String, Value>,
    name: &str,
    context: Context,
) -> Result<Result<Option<List<T>>, JsonReadError>, JsonReadError>
    ensures floats { Gives to_unit result (unless_float
        (float_under name.now (get_member name.now (members_view map.old.entries)))) }
    ensures read { IfOk result (λ r. (l : Lists) → IsJsonListOf T.kind l
        → Gives (present (list_tree T.tree)) r
        (member_of (seen (members_view map.old.entries)) name.now optional (a_list l)
        context.version (depth_of context.depth))) }
    ensures others { members_view map.new.entries
        ≡ without name.now (members_view map.old.entries) }
{
    match take_not_null(map, name) {
        None => Ok(Ok(None)),
        Some(value) => match list_from_owned(value, context) {
            Ok(Ok(held)) => Ok(Ok(Some(held))),
            Ok(Err(e)) => Ok(Err(at_member(context.alloc, name, e))),
            Err(e) => Err(at_member(context.alloc, name, e)),
        },
    }
}
