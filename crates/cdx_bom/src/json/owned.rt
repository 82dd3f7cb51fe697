//! Bills from JSON objects that nothing else needs, whose components are freed while they are read.

ghost use Rattle.std.specs.Prelude.{◌≡◌, codes, IfOk};
ghost use Rattle.serde_json.specs.Data.{object};
ghost use Rattle.serde_json.specs.Find.{get_member};
ghost use Rattle.serde_json.specs.View.{members_view};
ghost use Rattle.cdx_schema.specs.JsonReading.{json_denotes, seen};
ghost use Rattle.cdx_schema.specs.Depths.{depth_of};
ghost use Rattle.cdx_json.specs.Gives.{Gives};
ghost use Rattle.cdx_owned.specs.Floats.{to_unit, unless_float, float_under};
ghost use Rattle.cdx_owned.specs.Without.{without};
ghost use Rattle.cdx_bom.specs.Trees.{bom_tree};
ghost use Rattle.cdx_bom.specs.ReadApart.{AreComponents};

use crate::bom::Bom;
use crate::json::bom_from_members;
use cdx_json::{Context, SeenMembers};
use cdx_models::{JsonReadError, SpecVersion};
use cdx_nest::{Component, Components};
use cdx_owned::{refuse_floats_before, refuse_member_floats, take_list_row};
use cdx_schema::Depth;
use serde_json::{Map, Value};
use std::alloc::Global;

/// The bill that an object of these members denotes, or its first fault, as `parse_json` gives it. Floating-point numbers
/// are looked for in each component right before it is read, so that what is read next lies near.
pub(crate) fn bill_from_owned(
    alloc: Global,
    map: Map<String, Value>,
    version: SpecVersion,
) -> Result<Bom, JsonReadError>
    ensures { Gives bom_tree result
        (json_denotes (object (members_view map.entries)) version) }
{
    let context = Context {
        alloc,
        version,
        depth: Depth::top(),
    };
    let mut others = map;
    refuse_floats_before(alloc, &others, "components")?;
    let components = take_components(&mut others, context)?;
    refuse_member_floats(alloc, &others)?;
    let members = SeenMembers::of(alloc, &others)?;
    bom_from_members(&members, components, context)
}

// The components, which are taken out of the object, or else their first float. The other members stay.
fn take_components(
    map: &mut Map<String, Value>,
    context: Context,
) -> Result<Result<Option<Components>, JsonReadError>, JsonReadError>
    ensures floats { Gives to_unit result (unless_float (float_under (codes "components")
        (get_member (codes "components") (members_view map.old.entries)))) }
    ensures read { IfOk result (AreComponents
        (seen (members_view map.old.entries) (codes "components"))
        context.version (depth_of context.depth)) }
    ensures others { members_view map.new.entries
        ≡ without (codes "components") (members_view map.old.entries) }
{
    match take_list_row::<Component>(map, "components", context) {
        Err(float) => Err(float),
        Ok(Err(error)) => Ok(Err(error)),
        Ok(Ok(None)) => Ok(Ok(None)),
        Ok(Ok(Some(list))) => Ok(Ok(Some(Components::from_list(list)))),
    }
}
