//! The rows of a component that hold no other component. Each call appends what the version keeps of its rows; only
//! want of memory is refused, and the writer then has a prefix of that.

ghost use Rattle.std.specs.Prelude.{◌≡◌, IfOk};
ghost use Rattle.cdx_models.specs.Trees.{component};
ghost use Rattle.cdx_schema.specs.Groups.{group};
ghost use Rattle.cdx_write.specs.WrittenRows.{attributes_written, rows_written};
ghost use Rattle.cdx_write.specs.Writing.{Appends};
ghost use Rattle.cdx_component.specs.declared.component.Component.{out-Component};
ghost use Rattle.cdx_component.specs.Trees.{origin, naming, marks};

use crate::component::Component;
use cdx_events::{EventWriter, List, OwnedAttribute};
use cdx_schema::Target;
use cdx_write::{
    WriteResult, put_attribute, put_child, put_filled_child, put_required_attribute,
    put_required_child,
};
use std::alloc::AllocError;

/// The attributes, all of which stand among the first rows.
#[tactic(auto, unfolding(cdx_write::proofs::OnRows::on_rows))]
pub(crate) fn component_attributes(
    held: &Component,
    target: Target,
) -> Result<List<OwnedAttribute>, AllocError>
    ensures { IfOk result
        (λ r. r ≡ attributes_written (origin (out-Component held.now)) target.version
        (group 0 component)) }
{
    let mut attributes = List::new(target.alloc);
    put_required_attribute(&mut attributes, "type", &held.component_type, target)?;
    put_attribute(&mut attributes, "mime-type", &held.mime_type, target)?;
    put_attribute(&mut attributes, "bom-ref", &held.bom_ref, target)?;
    Ok(attributes)
}

pub(crate) fn write_origin_rows(
    held: &Component,
    writer: &mut EventWriter,
    target: Target,
) -> WriteResult
    ensures { Appends writer.old writer.new
        (rows_written (origin (out-Component held.now)) target.version (group 0 component)) result }
{
    put_filled_child(writer, "supplier", &held.supplier, target)?;
    put_child(writer, "author", &held.author, target)?;
    put_child(writer, "publisher", &held.publisher, target)
}

pub(crate) fn write_naming_rows(
    held: &Component,
    writer: &mut EventWriter,
    target: Target,
) -> WriteResult
    ensures { Appends writer.old writer.new
        (rows_written (naming (out-Component held.now)) target.version (group 1 component)) result }
{
    put_child(writer, "group", &held.group, target)?;
    put_required_child(writer, "name", &held.name, target)?;
    put_child(writer, "version", &held.version, target)?;
    put_child(writer, "description", &held.description, target)?;
    put_child(writer, "scope", &held.scope, target)?;
    put_child(writer, "hashes", &held.hashes, target)
}

pub(crate) fn write_marks_rows(
    held: &Component,
    writer: &mut EventWriter,
    target: Target,
) -> WriteResult
    ensures { Appends writer.old writer.new
        (rows_written (marks (out-Component held.now)) target.version (group 2 component)) result }
{
    put_child(writer, "licenses", &held.licenses, target)?;
    put_child(writer, "copyright", &held.copyright, target)?;
    put_child(writer, "cpe", &held.cpe, target)?;
    put_child(writer, "purl", &held.purl, target)?;
    put_child(writer, "swid", &held.swid, target)?;
    put_child(writer, "modified", &held.modified, target)
}
