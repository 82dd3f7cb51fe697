//! Services and lists of services from JSON.

ghost use Rattle.serde_json.specs.View.{view, items_view};
ghost use Rattle.cdx_models.specs.Trees.{service, present};
ghost use Rattle.cdx_schema.specs.Kinds.{services, a_list, a_record, optional};
ghost use Rattle.cdx_schema.specs.JsonReading.{jread, seen};
ghost use Rattle.cdx_json.specs.ByRows.{member_of, list_read};
ghost use Rattle.cdx_schema.specs.Depths.{depth_of};
ghost use Rattle.cdx_json.specs.Gives.{Gives};
ghost use Rattle.cdx_service.specs.Trees.{service_tree, services_tree};
ghost use Rattle.cdx_service.specs.PartTrees.{service_naming_trees, service_access_trees, service_contents_trees};
ghost use Rattle.cdx_json.specs.Groups.{group_read};
ghost use Rattle.cdx_service.specs.Groups.{service_by_groups};
ghost use Rattle.cdx_json.specs.SeenOf.{seen_of};

use crate::service::parts::{ServiceAccess, ServiceContents, ServiceNaming, assemble};
use crate::service::{Service, Services};
use cdx_json::{
    Context, SeenMembers, at_item, at_member, here, member_not_null, optional_list_row,
    optional_row, optional_row_since, required_row,
};
use cdx_models::{JsonKind, JsonReadError, SpecVersion};
use cdx_schema::Depth;
use serde_json::Value;

/// The service that a value denotes, or its first fault.
#[cycle(service_read)]
pub(crate) fn read_service(value: &Value, context: Context) -> Result<Service, JsonReadError>
    ensures { Gives service_tree result
        (jread (view value.now) context.version (a_record service) (depth_of context.depth)) }
{
    if context.depth.services >= 32 {
        return Err(here(context.alloc, JsonKind::TooDeep));
    }
    match value.as_object() {
        None => Err(here(context.alloc, JsonKind::WrongKind)),
        Some(map) => {
            let inner = Context {
                depth: Depth {
                    components: context.depth.components,
                    services: context.depth.services + 1,
                },
                ..context
            };
            let members = SeenMembers::of(context.alloc, map)?;
            service_from_members(&members, inner)
        }
    }
}

#[cycle(service_read)]
fn service_from_members(map: &SeenMembers<'_>, context: Context) -> Result<Service, JsonReadError>
    ensures { Gives service_tree result
        (service_by_groups (seen (seen_of map.now.members.items)) context.version
        (depth_of context.depth)) }
{
    let service_naming = read_service_naming(map, context)?;
    let service_access = match read_service_access(map, context) {
        Ok(service_access) => service_access,
        Err(error) => {
            drop(service_naming);
            return Err(error);
        }
    };
    let service_contents = match read_service_contents(map, context) {
        Ok(service_contents) => service_contents,
        Err(error) => {
            drop(service_naming);
            drop(service_access);
            return Err(error);
        }
    };
    Ok(assemble(service_naming, service_access, service_contents))
}

/// The services that a value denotes, or its first fault.
#[cycle(service_read)]
pub(crate) fn read_services(value: &Value, context: Context) -> Result<Services, JsonReadError>
    ensures { Gives services_tree result
        (jread (view value.now) context.version (a_list services) (depth_of context.depth)) }
{
    match value.as_array() {
        None => Err(here(context.alloc, JsonKind::WrongKind)),
        Some(items) => services_from_items(items, context),
    }
}

#[cycle(service_read)]
fn services_from_items(items: &Vec<Value>, context: Context) -> Result<Services, JsonReadError>
    ensures { Gives services_tree result
        (list_read (items_view items.now.items) context.version (a_record service)
        (depth_of context.depth)) }
{
    let mut list = Services::with_capacity(context.alloc, items.len())?;
    for (i, item) in items.iter().enumerate() {
        match read_service(item, context) {
            Ok(held) => list.push(held)?,
            Err(e) => return Err(at_item(i, e)),
        }
    }
    Ok(list)
}

fn read_service_naming(
    map: &SeenMembers<'_>,
    context: Context,
) -> Result<ServiceNaming, JsonReadError>
    ensures { Gives service_naming_trees result
        (group_read 0 service (seen (seen_of map.now.members.items)) context.version
        (depth_of context.depth)) }
{
    let bom_ref = optional_row(map, "bom-ref", context)?;
    let provider = optional_row(map, "provider", context)?;
    let group = optional_row(map, "group", context)?;
    let name = required_row(map, "name", context)?;
    let held_version = optional_row(map, "version", context)?;
    let description = optional_row(map, "description", context)?;
    Ok(ServiceNaming {
        bom_ref,
        provider,
        group,
        name,
        version: held_version,
        description,
    })
}

fn read_service_access(
    map: &SeenMembers<'_>,
    context: Context,
) -> Result<ServiceAccess, JsonReadError>
    ensures { Gives service_access_trees result
        (group_read 1 service (seen (seen_of map.now.members.items)) context.version
        (depth_of context.depth)) }
{
    let endpoints = optional_list_row(map, "endpoints", context)?;
    let authenticated = optional_row(map, "authenticated", context)?;
    let x_trust_boundary = optional_row(map, "x-trust-boundary", context)?;
    let data_items = optional_row(map, "data", context)?;
    let licenses = optional_row(map, "licenses", context)?;
    let external_references = optional_row(map, "externalReferences", context)?;
    Ok(ServiceAccess {
        endpoints,
        authenticated,
        x_trust_boundary,
        data_items,
        licenses,
        external_references,
    })
}

#[cycle(service_read)]
fn read_service_contents(
    map: &SeenMembers<'_>,
    context: Context,
) -> Result<ServiceContents, JsonReadError>
    ensures { Gives service_contents_trees result
        (group_read 2 service (seen (seen_of map.now.members.items)) context.version
        (depth_of context.depth)) }
{
    let properties = optional_row(map, "properties", context)?;
    let services = read_services_row(map, "services", context)?;
    let signature = optional_row_since(map, "signature", SpecVersion::V1_4, context)?;
    let trust_zone = optional_row_since(map, "trustZone", SpecVersion::V1_5, context)?;
    Ok(ServiceContents {
        properties,
        services,
        signature,
        trust_zone,
    })
}

#[cycle(service_read)]
fn read_services_row(
    map: &SeenMembers<'_>,
    name: &str,
    context: Context,
) -> Result<Option<Services>, JsonReadError>
    ensures { Gives (present services_tree) result (member_of (seen (seen_of map.now.members.items))
        name.now optional (a_list services) context.version (depth_of context.depth)) }
{
    match member_not_null(map, name) {
        None => Ok(None),
        Some(value) => match read_services(value, context) {
            Ok(held) => Ok(Some(held)),
            Err(e) => Err(at_member(context.alloc, name, e)),
        },
    }
}
