//! The elements of components and pedigrees, which hold components in turn. Each call appends what the version keeps;
//! only want of memory is refused, and the writer then has a prefix of that.

ghost use Rattle.cdx_models.specs.Trees.{component, pedigree, present};
ghost use Rattle.cdx_schema.specs.Kinds.{components, a_list, a_record};
ghost use Rattle.cdx_schema.specs.Table.{rows};
ghost use Rattle.cdx_schema.specs.Groups.{group};
ghost use Rattle.cdx_write.specs.Spelling.{spelled_events, inner};
ghost use Rattle.cdx_write.specs.WrittenRows.{child_written, rows_written};
ghost use Rattle.cdx_write.specs.Writing.{Appends};
ghost use Rattle.cdx_component.specs.declared.component.Component.{out-Component};
ghost use Rattle.cdx_component.specs.declared.component.Pedigree.{out-Pedigree};
ghost use Rattle.cdx_component.specs.Trees.{component_tree, components_tree, pedigree_tree, component_contents, component_fields, pedigree_fields};

use crate::component::{Component, Components, Pedigree};
use crate::xml::writing::rows::{
    component_attributes, write_marks_rows, write_naming_rows, write_origin_rows,
};
use cdx_events::EventWriter;
use cdx_models::SpecVersion;
use cdx_schema::Target;
use cdx_write::{
    WriteResult, put_child, put_child_since, put_filled_child, write_close_tag, write_opening,
    write_start_tag,
};

/// A component as the element `tag`.
#[cycle(component_elements)]
pub(crate) fn write_component(
    held: &Component,
    writer: &mut EventWriter,
    tag: &str,
    target: Target,
) -> WriteResult
    ensures { Appends writer.old writer.new
        (spelled_events (component_tree held.now) target.version tag.now (a_record component)) result }
{
    let attributes = component_attributes(held, target)?;
    write_opening(target.alloc, writer, tag, attributes)?;
    write_rows(held, writer, target)?;
    write_close_tag(target.alloc, writer, tag)
}

/// A list of components as the element `tag`.
#[cycle(component_elements)]
pub(crate) fn write_components(
    held: &Components,
    writer: &mut EventWriter,
    tag: &str,
    target: Target,
) -> WriteResult
    ensures { Appends writer.old writer.new
        (spelled_events (components_tree held.now) target.version tag.now (a_list components)) result }
{
    write_start_tag(target.alloc, writer, tag)?;
    write_items(held, writer, target)?;
    write_close_tag(target.alloc, writer, tag)
}

/// A pedigree as the element `tag`.
#[cycle(component_elements)]
pub(crate) fn write_pedigree(
    held: &Pedigree,
    writer: &mut EventWriter,
    tag: &str,
    target: Target,
) -> WriteResult
    ensures { Appends writer.old writer.new
        (spelled_events (pedigree_tree held.now) target.version tag.now (a_record pedigree)) result }
{
    write_start_tag(target.alloc, writer, tag)?;
    write_pedigree_rows(held, writer, target)?;
    write_close_tag(target.alloc, writer, tag)
}

/// What stands between the tags of a list of components.
#[cycle(component_elements)]
fn write_items(held: &Components, writer: &mut EventWriter, target: Target) -> WriteResult
    ensures { Appends writer.old writer.new
        (inner (components_tree held.now) target.version (a_list components))
        result }
{
    for item in &held.items {
        write_component(item, writer, "component", target)?;
    }
    Ok(())
}

/// What stands between the tags of a component.
#[cycle(component_elements)]
fn write_rows(held: &Component, writer: &mut EventWriter, target: Target) -> WriteResult
    ensures { Appends writer.old writer.new (rows_written
        (component_fields components_tree pedigree_tree (out-Component held.now)) target.version
        (rows component))
        result }
{
    write_origin_rows(held, writer, target)?;
    write_naming_rows(held, writer, target)?;
    write_marks_rows(held, writer, target)?;
    write_contents_rows(held, writer, target)
}

#[cycle(component_elements)]
fn write_contents_rows(held: &Component, writer: &mut EventWriter, target: Target) -> WriteResult
    ensures { Appends writer.old writer.new (rows_written
        (component_contents components_tree pedigree_tree (out-Component held.now)) target.version
        (group 3 component))
        result }
{
    put_pedigree(&held.pedigree, writer, "pedigree", target)?;
    put_child(
        writer,
        "externalReferences",
        &held.external_references,
        target,
    )?;
    put_child(writer, "properties", &held.properties, target)?;
    put_components(&held.components, writer, "components", target)?;
    put_filled_child(writer, "evidence", &held.evidence, target)?;
    put_child_since(
        writer,
        SpecVersion::V1_4,
        "signature",
        &held.signature,
        target,
    )
}

/// What stands between the tags of a pedigree.
#[cycle(component_elements)]
fn write_pedigree_rows(held: &Pedigree, writer: &mut EventWriter, target: Target) -> WriteResult
    ensures { Appends writer.old writer.new
        (rows_written (pedigree_fields components_tree (out-Pedigree held.now)) target.version
        (rows pedigree))
        result }
{
    put_components(&held.ancestors, writer, "ancestors", target)?;
    put_components(&held.descendants, writer, "descendants", target)?;
    put_components(&held.variants, writer, "variants", target)?;
    put_child(writer, "commits", &held.commits, target)?;
    put_child(writer, "patches", &held.patches, target)?;
    put_child(writer, "notes", &held.notes, target)
}

#[cycle(component_elements)]
fn put_pedigree(
    held: &Option<Pedigree>,
    writer: &mut EventWriter,
    name: &str,
    target: Target,
) -> WriteResult
    ensures { Appends writer.old writer.new
        (child_written name.now (a_record pedigree) (present pedigree_tree held.now) target.version)
        result }
{
    match held {
        None => Ok(()),
        Some(held) => write_pedigree(held, writer, name, target),
    }
}

#[cycle(component_elements)]
fn put_components(
    held: &Option<Components>,
    writer: &mut EventWriter,
    name: &str,
    target: Target,
) -> WriteResult
    ensures { Appends writer.old writer.new
        (child_written name.now (a_list components) (present components_tree held.now)
        target.version) result }
{
    match held {
        None => Ok(()),
        Some(held) => write_components(held, writer, name, target),
    }
}
