//! Components, pedigrees and lists of components from JSON.

ghost use Rattle.serde_json.specs.View.{view, items_view};
ghost use Rattle.cdx_models.specs.Trees.{component, pedigree, present};
ghost use Rattle.cdx_schema.specs.Kinds.{components, a_list, a_record, optional};
ghost use Rattle.cdx_schema.specs.JsonReading.{jread, seen};
ghost use Rattle.cdx_json.specs.ByRows.{member_of, list_read, by_rows};
ghost use Rattle.cdx_schema.specs.Depths.{depth_of};
ghost use Rattle.cdx_json.specs.Gives.{Gives};
ghost use Rattle.cdx_component.specs.Trees.{component_tree, components_tree, pedigree_tree};
ghost use Rattle.cdx_component.specs.PartTrees.{origin_trees, naming_trees, marks_trees, contents_trees};
ghost use Rattle.cdx_json.specs.Groups.{group_read};
ghost use Rattle.cdx_component.specs.Groups.{component_by_groups};
ghost use Rattle.cdx_json.specs.SeenOf.{seen_of};

use crate::component::parts::{Contents, Marks, Naming, Origin, assemble};
use crate::component::{Component, Components, Pedigree};
use cdx_json::{
    Context, SeenMembers, at_item, at_member, first_row, here, member_not_null, optional_row,
    optional_row_since, required_row,
};
use cdx_models::{JsonKind, JsonReadError, SpecVersion};
use cdx_schema::Depth;
use serde_json::Value;

/// The component that a value denotes, or its first fault.
#[cycle(component_read)]
pub(crate) fn read_component(value: &Value, context: Context) -> Result<Component, JsonReadError>
    ensures { Gives component_tree result
        (jread (view value.now) context.version (a_record component) (depth_of context.depth)) }
{
    if context.depth.components >= 32 {
        return Err(here(context.alloc, JsonKind::TooDeep));
    }
    match value.as_object() {
        None => Err(here(context.alloc, JsonKind::WrongKind)),
        Some(map) => {
            let inner = Context {
                depth: Depth {
                    components: context.depth.components + 1,
                    services: context.depth.services,
                },
                ..context
            };
            let members = SeenMembers::of(context.alloc, map)?;
            component_from_members(&members, inner)
        }
    }
}

#[cycle(component_read)]
fn component_from_members(
    map: &SeenMembers<'_>,
    context: Context,
) -> Result<Component, JsonReadError>
    ensures { Gives component_tree result
        (component_by_groups (seen (seen_of map.now.members.items)) context.version
        (depth_of context.depth)) }
{
    let origin = read_origin(map, context)?;
    let naming = match read_naming(map, context) {
        Ok(naming) => naming,
        Err(error) => {
            drop(origin);
            return Err(error);
        }
    };
    let marks = match read_marks(map, context) {
        Ok(marks) => marks,
        Err(error) => {
            drop(origin);
            drop(naming);
            return Err(error);
        }
    };
    let contents = match read_contents(map, context) {
        Ok(contents) => contents,
        Err(error) => {
            drop(origin);
            drop(naming);
            drop(marks);
            return Err(error);
        }
    };
    Ok(assemble(origin, naming, marks, contents))
}

/// The components that a value denotes, or its first fault.
#[cycle(component_read)]
pub(crate) fn read_components(value: &Value, context: Context) -> Result<Components, JsonReadError>
    ensures { Gives components_tree result
        (jread (view value.now) context.version (a_list components) (depth_of context.depth)) }
{
    match value.as_array() {
        None => Err(here(context.alloc, JsonKind::WrongKind)),
        Some(items) => components_from_items(items, context),
    }
}

#[cycle(component_read)]
fn components_from_items(items: &Vec<Value>, context: Context) -> Result<Components, JsonReadError>
    ensures { Gives components_tree result
        (list_read (items_view items.now.items) context.version (a_record component)
        (depth_of context.depth)) }
{
    let mut list = Components::with_capacity(context.alloc, items.len())?;
    for (i, item) in items.iter().enumerate() {
        match read_component(item, context) {
            Ok(held) => list.push(held)?,
            Err(e) => return Err(at_item(i, e)),
        }
    }
    Ok(list)
}

/// The pedigree that a value denotes, or its first fault.
#[cycle(component_read)]
pub(crate) fn read_pedigree(value: &Value, context: Context) -> Result<Pedigree, JsonReadError>
    ensures { Gives pedigree_tree result
        (jread (view value.now) context.version (a_record pedigree) (depth_of context.depth)) }
{
    match value.as_object() {
        None => Err(here(context.alloc, JsonKind::WrongKind)),
        Some(map) => {
            let members = SeenMembers::of(context.alloc, map)?;
            pedigree_from_members(&members, context)
        }
    }
}

#[cycle(component_read)]
fn pedigree_from_members(map: &SeenMembers<'_>, context: Context) -> Result<Pedigree, JsonReadError>
    ensures { Gives pedigree_tree result
        (by_rows pedigree (seen (seen_of map.now.members.items)) context.version
        (depth_of context.depth)) }
{
    let ancestors = read_components_row(map, "ancestors", context)?;
    let descendants = read_components_row(map, "descendants", context)?;
    let variants = read_components_row(map, "variants", context)?;
    let commits = optional_row(map, "commits", context)?;
    let patches = optional_row(map, "patches", context)?;
    let notes = optional_row(map, "notes", context)?;
    Ok(Pedigree {
        ancestors,
        descendants,
        variants,
        commits,
        patches,
        notes,
    })
}

fn read_origin(map: &SeenMembers<'_>, context: Context) -> Result<Origin, JsonReadError>
    ensures { Gives origin_trees result
        (group_read 0 component (seen (seen_of map.now.members.items)) context.version
        (depth_of context.depth)) }
{
    let component_type = required_row(map, "type", context)?;
    let mime_type = optional_row(map, "mime-type", context)?;
    let bom_ref = optional_row(map, "bom-ref", context)?;
    let supplier = optional_row(map, "supplier", context)?;
    let author = optional_row(map, "author", context)?;
    let publisher = optional_row(map, "publisher", context)?;
    Ok(Origin {
        component_type,
        mime_type,
        bom_ref,
        supplier,
        author,
        publisher,
    })
}

fn read_naming(map: &SeenMembers<'_>, context: Context) -> Result<Naming, JsonReadError>
    ensures { Gives naming_trees result
        (group_read 1 component (seen (seen_of map.now.members.items)) context.version
        (depth_of context.depth)) }
{
    let group = optional_row(map, "group", context)?;
    let name = required_row(map, "name", context)?;
    let held_version = first_row(map, "version", context)?;
    let description = optional_row(map, "description", context)?;
    let scope = optional_row(map, "scope", context)?;
    let hashes = optional_row(map, "hashes", context)?;
    Ok(Naming {
        group,
        name,
        version: held_version,
        description,
        scope,
        hashes,
    })
}

fn read_marks(map: &SeenMembers<'_>, context: Context) -> Result<Marks, JsonReadError>
    ensures { Gives marks_trees result
        (group_read 2 component (seen (seen_of map.now.members.items)) context.version
        (depth_of context.depth)) }
{
    let licenses = optional_row(map, "licenses", context)?;
    let copyright = optional_row(map, "copyright", context)?;
    let cpe = optional_row(map, "cpe", context)?;
    let purl = optional_row(map, "purl", context)?;
    let swid = optional_row(map, "swid", context)?;
    let modified = optional_row(map, "modified", context)?;
    Ok(Marks {
        licenses,
        copyright,
        cpe,
        purl,
        swid,
        modified,
    })
}

#[cycle(component_read)]
fn read_contents(map: &SeenMembers<'_>, context: Context) -> Result<Contents, JsonReadError>
    ensures { Gives contents_trees result
        (group_read 3 component (seen (seen_of map.now.members.items)) context.version
        (depth_of context.depth)) }
{
    let pedigree = read_pedigree_row(map, "pedigree", context)?;
    let external_references = optional_row(map, "externalReferences", context)?;
    let properties = optional_row(map, "properties", context)?;
    let components = read_components_row(map, "components", context)?;
    let evidence = optional_row(map, "evidence", context)?;
    let signature = optional_row_since(map, "signature", SpecVersion::V1_4, context)?;
    Ok(Contents {
        pedigree,
        external_references,
        properties,
        components,
        evidence,
        signature,
    })
}

#[cycle(component_read)]
fn read_pedigree_row(
    map: &SeenMembers<'_>,
    name: &str,
    context: Context,
) -> Result<Option<Pedigree>, JsonReadError>
    ensures { Gives (present pedigree_tree) result (member_of (seen (seen_of map.now.members.items))
        name.now optional (a_record pedigree) context.version (depth_of context.depth)) }
{
    match member_not_null(map, name) {
        None => Ok(None),
        Some(value) => match read_pedigree(value, context) {
            Ok(held) => Ok(Some(held)),
            Err(e) => Err(at_member(context.alloc, name, e)),
        },
    }
}

#[cycle(component_read)]
fn read_components_row(
    map: &SeenMembers<'_>,
    name: &str,
    context: Context,
) -> Result<Option<Components>, JsonReadError>
    ensures { Gives (present components_tree) result (member_of
        (seen (seen_of map.now.members.items)) name.now optional (a_list components) context.version
        (depth_of context.depth)) }
{
    match member_not_null(map, name) {
        None => Ok(None),
        Some(value) => match read_components(value, context) {
            Ok(held) => Ok(Some(held)),
            Err(e) => Err(at_member(context.alloc, name, e)),
        },
    }
}
