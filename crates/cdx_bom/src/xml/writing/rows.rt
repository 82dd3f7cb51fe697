//! The rows of a bill, written in groups. Only want of memory refuses; the writer then has a prefix of the rows.

ghost use Rattle.std.specs.Prelude.{◌≡◌, IfOk};
ghost use Rattle.cdx_models.specs.Trees.{bill};
ghost use Rattle.cdx_schema.specs.Kinds.{a_bill};
ghost use Rattle.cdx_schema.specs.Keeping.{keep};
ghost use Rattle.cdx_schema.specs.XmlSpelling.{attributes_of};
ghost use Rattle.cdx_schema.specs.Groups.{group};
ghost use Rattle.cdx_write.specs.WrittenRows.{rows_written};
ghost use Rattle.cdx_write.specs.Writing.{Appends};
ghost use Rattle.cdx_bom.specs.Trees.{bom_tree, inventory_groups, relations};

use crate::bom::Bom;
use cdx_events::{EventWriter, List, OwnedAttribute};
use cdx_models::SpecVersion;
use cdx_schema::Target;
use cdx_write::{WriteResult, put_attribute, put_child, put_child_since, put_required_attribute};
use std::alloc::AllocError;

// The serial number stands before the version.
pub(crate) fn root_attributes(
    held: &Bom,
    target: Target,
) -> Result<List<OwnedAttribute>, AllocError>
    ensures { IfOk result
        (λ r. r ≡ attributes_of
        (keep target.version (bom_tree held.now) a_bill) target.version a_bill) }
{
    let mut attributes = List::new(target.alloc);
    put_attribute(&mut attributes, "serialNumber", &held.serial_number, target)?;
    put_required_attribute(&mut attributes, "version", &held.version, target)?;
    Ok(attributes)
}

pub(crate) fn write_inventory_rows(
    held: &Bom,
    writer: &mut EventWriter,
    target: Target,
) -> WriteResult
    ensures { Appends writer.old writer.new
        (rows_written (inventory_groups held.now) target.version (group 0 bill))
        result }
{
    put_child(writer, "metadata", &held.metadata, target)?;
    put_child(writer, "components", &held.components, target)?;
    put_child(writer, "services", &held.services, target)
}

pub(crate) fn write_relations_rows(
    held: &Bom,
    writer: &mut EventWriter,
    target: Target,
) -> WriteResult
    ensures { Appends writer.old writer.new
        (rows_written (relations held.now) target.version (group 1 bill))
        result }
{
    put_child(
        writer,
        "externalReferences",
        &held.external_references,
        target,
    )?;
    put_child(writer, "dependencies", &held.dependencies, target)?;
    put_child(writer, "compositions", &held.compositions, target)?;
    put_child_since(
        writer,
        SpecVersion::V1_5,
        "properties",
        &held.properties,
        target,
    )?;
    put_child_since(
        writer,
        SpecVersion::V1_4,
        "signature",
        &held.signature,
        target,
    )
}
