//! Reading texts, booleans, numbers, lists and the members of records.

ghost use Rattle.std.specs.Prelude.{◌≡◌, option_map};
ghost use Rattle.serde_json.specs.Find.{get_member};
ghost use Rattle.serde_json.specs.View.{view, items_view};
ghost use Rattle.cdx_models.specs.Trees.{present, list_tree};
ghost use Rattle.cdx_schema.specs.Kinds.{Lists, a_list, optional, required, else_empty, required_first};
ghost use Rattle.cdx_schema.specs.JsonReading.{jread, seen};
ghost use Rattle.cdx_schema.specs.JsonReading as reading;
ghost use Rattle.cdx_schema.specs.Depths.{depth_of};
ghost use Rattle.cdx_json.specs.ByRows.{IsJsonListOf, member_of, late_read, list_read};
ghost use Rattle.cdx_json.specs.Gives.{Gives, is_member_there, is_found, non_null};
ghost use Rattle.cdx_json.specs.SeenOf.{seen_of};

use crate::context::Context;
use crate::fault::{at_item, at_member, here, missing};
use crate::seen::SeenMembers;
use crate::traits::FromJson;
use cdx_events::{List, Text};
use cdx_models::{JsonKind, JsonReadError, SpecVersion};
use serde_json::Value;

/// The member of that name.
pub fn member<'v>(map: &SeenMembers<'v>, name: &str) -> Option<&'v Value>
    ensures { option_map (λ v. view v.now) result
        ≡ get_member name.now (seen_of map.now.members.items) }
{
    map.get(name)
}

/// The member of that name, where it is not null.
pub fn member_not_null<'v>(map: &SeenMembers<'v>, name: &str) -> Option<&'v Value>
    ensures { option_map (λ v. view v.now) result
        ≡ non_null (get_member name.now (seen_of map.now.members.items)) }
{
    match member(map, name) {
        None => None,
        Some(value) => { if value.is_null() { None } else { Some(value) } }
    }
}

/// Whether there is a member of that name, maybe a null.
pub fn has_member(map: &SeenMembers<'_>, name: &str) -> bool
    ensures { result ≡ is_member_there (seen (seen_of map.now.members.items) name.now) }
{
    member(map, name).is_some()
}

/// Whether there is a member of that name that is not null.
pub fn has_value(map: &SeenMembers<'_>, name: &str) -> bool
    ensures { result ≡ is_found (seen (seen_of map.now.members.items) name.now) }
{
    member_not_null(map, name).is_some()
}

/// The name of the member that a row is read from which old documents spell otherwise: its name where that member is
/// there and not null, else its old name.
pub fn first_or_old<'n>(map: &SeenMembers<'_>, name: &'n str, old_name: &'n str) -> &'n str
    ensures { result.now
        ≡ reading.first_or_old (seen (seen_of map.now.members.items) name.now) name.now
        old_name.now }
{
    if has_value(map, name) { name } else { old_name }
}

impl FromJson for Text {
    fn from_json_at(value: &Value, context: Context) -> Result<Text, JsonReadError> {
        match value.as_str() {
            None => Err(here(context.alloc, JsonKind::WrongKind)),
            Some(held) => Ok(Text::new(context.alloc, held)?),
        }
    }
}

impl FromJson for bool {
    fn from_json_at(value: &Value, context: Context) -> Result<bool, JsonReadError> {
        match value.as_bool() {
            None => Err(here(context.alloc, JsonKind::WrongKind)),
            Some(held) => Ok(held),
        }
    }
}

impl FromJson for u32 {
    fn from_json_at(value: &Value, context: Context) -> Result<u32, JsonReadError> {
        match value.as_u64() {
            Some(held) => {
                if held < 4294967296 {
                    Ok(held as u32)
                } else {
                    Err(here(context.alloc, JsonKind::OutOfRange))
                }
            }
            None => {
                if value.is_i64() {
                    Err(here(context.alloc, JsonKind::OutOfRange))
                } else {
                    Err(here(context.alloc, JsonKind::WrongKind))
                }
            }
        }
    }
}

/// The items of an array, each read as the kind of `T`, or the first fault. Its path begins with the item's number.
pub fn list_from_items<T: FromJson + Drop>(
    items: &Vec<Value>,
    context: Context,
) -> Result<List<T>, JsonReadError>
    ensures { Gives (list_tree T.tree) result
        (list_read (items_view items.now.items) context.version T.kind (depth_of context.depth)) }
{
    let mut held = List::with_capacity(context.alloc, items.len())?;
    for (i, item) in items.iter().enumerate() {
        match T::from_json_at(item, context) {
            Ok(one) => held.push(one)?,
            Err(e) => return Err(at_item(i, e)),
        }
    }
    Ok(held)
}

/// An array as any of the schema's lists whose items are of the kind of `T`.
pub fn list_from_value<T: FromJson + Drop>(
    value: &Value,
    context: Context,
) -> Result<List<T>, JsonReadError>
    ensures { (l : Lists) → IsJsonListOf T.kind l → Gives (list_tree T.tree) result
        (jread (view value.now) context.version (a_list l) (depth_of context.depth)) }
{
    match value.as_array() {
        None => Err(here(context.alloc, JsonKind::WrongKind)),
        Some(items) => list_from_items(items, context),
    }
}

/// A member that has to be there and may not be null.
pub fn required_row<T: FromJson + Drop>(
    map: &SeenMembers<'_>,
    name: &str,
    context: Context,
) -> Result<T, JsonReadError>
    ensures { Gives T.tree result
        (member_of (seen (seen_of map.now.members.items)) name.now required T.kind context.version
        (depth_of context.depth)) }
{
    match member_not_null(map, name) {
        None => match member(map, name) {
            None => Err(missing(context.alloc, name)),
            Some(_) => Err(at_member(
                context.alloc,
                name,
                here(context.alloc, JsonKind::WrongKind),
            )),
        },
        Some(value) => match T::from_json_at(value, context) {
            Ok(held) => Ok(held),
            Err(e) => Err(at_member(context.alloc, name, e)),
        },
    }
}

/// A member that may be left out or null.
pub fn optional_row<T: FromJson + Drop>(
    map: &SeenMembers<'_>,
    name: &str,
    context: Context,
) -> Result<Option<T>, JsonReadError>
    ensures { Gives (present T.tree) result
        (member_of (seen (seen_of map.now.members.items)) name.now optional T.kind context.version
        (depth_of context.depth)) }
{
    match member_not_null(map, name) {
        None => Ok(None),
        Some(value) => match T::from_json_at(value, context) {
            Ok(held) => Ok(Some(held)),
            Err(e) => Err(at_member(context.alloc, name, e)),
        },
    }
}

/// A member that may be left out or null, and that versions before `since` pass over.
#[tactic(auto, unfolding(crate::specs::ByRows::late_read))]
pub fn optional_row_since<T: FromJson + Drop>(
    map: &SeenMembers<'_>,
    name: &str,
    since: SpecVersion,
    context: Context,
) -> Result<Option<T>, JsonReadError>
    ensures { Gives (present T.tree) result
        (late_read since context.version
        (member_of (seen (seen_of map.now.members.items)) name.now optional T.kind context.version
        (depth_of context.depth))) }
{
    if since.is_known_to(context.version) {
        optional_row(map, name, context)
    } else {
        Ok(None)
    }
}

/// A member that only 1.3 requires.
#[tactic(auto, using(crate::proofs::Rows::first_rules))]
pub fn first_row<T: FromJson + Drop>(
    map: &SeenMembers<'_>,
    name: &str,
    context: Context,
) -> Result<Option<T>, JsonReadError>
    ensures { Gives (present T.tree) result
        (member_of (seen (seen_of map.now.members.items)) name.now required_first T.kind
        context.version (depth_of context.depth)) }
{
    match context.version {
        SpecVersion::V1_3 => match required_row(map, name, context) {
            Ok(held) => Ok(Some(held)),
            Err(e) => Err(e),
        },
        SpecVersion::V1_4 => optional_row(map, name, context),
        SpecVersion::V1_5 => optional_row(map, name, context),
    }
}

/// A list that is empty where it is left out, and that may not be null.
pub fn list_row<T: FromJson + Drop>(
    map: &SeenMembers<'_>,
    name: &str,
    context: Context,
) -> Result<List<T>, JsonReadError>
    ensures { (l : Lists) → IsJsonListOf T.kind l → Gives (list_tree T.tree) result
        (member_of (seen (seen_of map.now.members.items)) name.now else_empty (a_list l)
        context.version (depth_of context.depth)) }
{
    match member_not_null(map, name) {
        None => match member(map, name) {
            None => Ok(List::new(context.alloc)),
            Some(_) => Err(at_member(
                context.alloc,
                name,
                here(context.alloc, JsonKind::WrongKind),
            )),
        },
        Some(value) => match list_from_value(value, context) {
            Ok(held) => Ok(held),
            Err(e) => Err(at_member(context.alloc, name, e)),
        },
    }
}

/// A list that may be left out or null.
pub fn optional_list_row<T: FromJson + Drop>(
    map: &SeenMembers<'_>,
    name: &str,
    context: Context,
) -> Result<Option<List<T>>, JsonReadError>
    ensures { (l : Lists) → IsJsonListOf T.kind l → Gives (present (list_tree T.tree)) result
        (member_of (seen (seen_of map.now.members.items)) name.now optional (a_list l)
        context.version (depth_of context.depth)) }
{
    match member_not_null(map, name) {
        None => Ok(None),
        Some(value) => match list_from_value(value, context) {
            Ok(held) => Ok(Some(held)),
            Err(e) => Err(at_member(context.alloc, name, e)),
        },
    }
}

/// A list that may be left out or null, and that versions before `since` pass over.
pub fn optional_list_row_since<T: FromJson + Drop>(
    map: &SeenMembers<'_>,
    name: &str,
    since: SpecVersion,
    context: Context,
) -> Result<Option<List<T>>, JsonReadError>
    ensures { (l : Lists) → IsJsonListOf T.kind l → Gives (present (list_tree T.tree)) result
        (late_read since context.version
        (member_of (seen (seen_of map.now.members.items)) name.now optional (a_list l)
        context.version (depth_of context.depth))) }
{
    if since.is_known_to(context.version) {
        optional_list_row(map, name, context)
    } else {
        Ok(None)
    }
}
