//! Tools in JSON.

ghost use Rattle.std.specs.Prelude.{◌≡◌, IfOk};
ghost use Rattle.serde_json.specs.Data.{array, no_items, no_members, object};
ghost use Rattle.cdx_json.specs.Spellings.{spelling_data};
ghost use Rattle.cdx_models.specs.Trees.{tools_object};
ghost use Rattle.cdx_schema.specs.Kinds.{a_tools};
ghost use Rattle.cdx_schema.specs.Table.{rows};
ghost use Rattle.cdx_schema.specs.Keeping.{kept, keep};
ghost use Rattle.cdx_schema.specs.JsonReading.{seen, tools_read};
ghost use Rattle.cdx_schema.specs.JsonSpelling.{jspell};
ghost use Rattle.cdx_json.specs.ByRows.{by_rows};
ghost use Rattle.cdx_schema.specs.Depths.{depth_of};
ghost use Rattle.cdx_json.specs.Gives.{Gives};
ghost use Rattle.cdx_models.specs.Trees.{fields_of};
ghost use Rattle.cdx_json.specs.KeptRows.{rows_put};
ghost use Rattle.cdx_nest.specs.Trees.{tools_tree, object_tree};
ghost use Rattle.cdx_nest.specs.Stays.{tools_stay};
ghost use Rattle.cdx_json.specs.SeenOf.{seen_of};

use crate::tools::Tools;
use cdx_component::Components;
use cdx_events::List;
use cdx_json::{
    Context, FromJson, Keeping, Kept, SeenMembers, Spelling, ToJson, here, keep_list, keep_row,
    list_from_items, list_spelling, optional_row, put_row,
};
use cdx_models::{JsonKind, JsonReadError, SpecVersion};
use cdx_schema::Target;
use cdx_service::Services;
use serde_json::Value;
use std::alloc::{AllocError, Global};

impl FromJson for Tools {
    /// An array is a list of tools, and in 1.5 an object is the services and components.
    fn from_json_at(value: &Value, context: Context) -> Result<Tools, JsonReadError> {
        match value.as_array() {
            Some(items) => Ok(Tools::List(list_from_items(items, context)?)),
            None => match value.as_object() {
                None => Err(here(context.alloc, JsonKind::WrongKind)),
                Some(map) => {
                    let members = SeenMembers::of(context.alloc, map)?;
                    tools_from_object(&members, context)
                }
            },
        }
    }
}

fn tools_from_object(map: &SeenMembers<'_>, context: Context) -> Result<Tools, JsonReadError>
    ensures { Gives tools_tree result
        (tools_read context.version (seen (seen_of map.now.members.items))
        (depth_of context.depth)) }
{
    match context.version {
        SpecVersion::V1_3 => Err(here(context.alloc, JsonKind::WrongKind)),
        SpecVersion::V1_4 => Err(here(context.alloc, JsonKind::WrongKind)),
        SpecVersion::V1_5 => tools_from_members(map, context),
    }
}

#[tactic(auto, unfolding(cdx_json::proofs::OnRows::on_rows))]
fn tools_from_members(map: &SeenMembers<'_>, context: Context) -> Result<Tools, JsonReadError>
    ensures { Gives tools_tree result
        (by_rows tools_object (seen (seen_of map.now.members.items)) context.version
        (depth_of context.depth)) }
{
    let services = optional_row(map, "services", context)?;
    let components = optional_row(map, "components", context)?;
    Ok(Tools::Object {
        services,
        components,
    })
}

impl Kept for Tools {
    ghost stays = { tools_stay };

    fn kept_as(&self, keeping: Keeping) -> Result<Tools, AllocError> {
        match self {
            Tools::List(held) => Ok(Tools::List(keep_list(held, keeping)?)),
            Tools::Object {
                services,
                components,
            } => keep_object(services, components, keeping),
        }
    }
}

/// Before 1.5 the services and components become the empty list.
#[tactic(auto, unfolding(cdx_json::proofs::OnRows::on_rows, cdx_schema::specs::Keeping::kept))]
fn keep_object(
    services: &Option<Services>,
    components: &Option<Components>,
    keeping: Keeping,
) -> Result<Tools, AllocError>
    ensures { IfOk result
        (λ r. tools_tree r ≡ kept keeping.version keeping.label
        (object_tree services.now components.now) a_tools) }
{
    match keeping.version {
        SpecVersion::V1_3 => Ok(Tools::List(List::new(keeping.alloc))),
        SpecVersion::V1_4 => Ok(Tools::List(List::new(keeping.alloc))),
        SpecVersion::V1_5 => {
            let services = keep_row(services, keeping)?;
            let components = keep_row(components, keeping)?;
            Ok(Tools::Object {
                services,
                components,
            })
        }
    }
}

impl ToJson for Tools {
    fn spelling(&self, alloc: Global, version: SpecVersion) -> Result<Spelling<'_>, AllocError> {
        match self {
            Tools::List(held) => list_spelling(alloc, held, version),
            Tools::Object {
                services,
                components,
            } => object_spelling(alloc, services, components, version),
        }
    }
}

/// Before 1.5 the services and components are written as the empty list.
#[tactic(auto, unfolding(cdx_json::proofs::OnRows::on_spelled))]
fn object_spelling<'b>(
    alloc: Global,
    services: &'b Option<Services>,
    components: &'b Option<Components>,
    version: SpecVersion,
) -> Result<Spelling<'b>, AllocError>
    ensures { IfOk result (λ v. spelling_data v
        ≡ jspell (keep version (object_tree services.now components.now) a_tools) version a_tools) }
{
    match version {
        SpecVersion::V1_3 => Ok(empty_array(alloc)),
        SpecVersion::V1_4 => Ok(empty_array(alloc)),
        SpecVersion::V1_5 => members_spelling(alloc, services, components, version),
    }
}

fn empty_array<'b>(alloc: Global) -> Spelling<'b>
    ensures { spelling_data result ≡ array no_items }
{
    Spelling::Array(Vec::new(alloc))
}

#[tactic(auto, unfolding(cdx_json::proofs::OnRows::on_rows))]
fn members_spelling<'b>(
    alloc: Global,
    services: &'b Option<Services>,
    components: &'b Option<Components>,
    version: SpecVersion,
) -> Result<Spelling<'b>, AllocError>
    ensures { IfOk result (λ v. spelling_data v ≡ object (rows_put
        (fields_of (object_tree services.now components.now)) version
        (rows tools_object) no_members)) }
{
    let mut map = Vec::new(alloc);
    let target = Target { alloc, version };
    put_row(&mut map, "services", services, target)?;
    put_row(&mut map, "components", components, target)?;
    Ok(Spelling::Object(map))
}
