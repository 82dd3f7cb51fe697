//! The rows of a service that hold no other service. Each call appends what the version keeps of its rows; only want of
//! memory is refused, and the writer then has a prefix of that.

ghost use Rattle.std.specs.Prelude.{◌≡◌, IfOk};
ghost use Rattle.cdx_models.specs.Trees.{service};
ghost use Rattle.cdx_schema.specs.Groups.{group};
ghost use Rattle.cdx_write.specs.WrittenRows.{attributes_written, rows_written};
ghost use Rattle.cdx_write.specs.Writing.{Appends};
ghost use Rattle.cdx_service.specs.declared.service.Service.{out-Service};
ghost use Rattle.cdx_service.specs.Trees.{service_naming, service_access};

use crate::service::Service;
use cdx_events::{EventWriter, List, OwnedAttribute};
use cdx_schema::Target;
use cdx_write::{WriteResult, put_attribute, put_child, put_list, put_required_child};
use std::alloc::AllocError;

/// The attributes, all of which stand among the first rows.
#[tactic(auto, unfolding(cdx_write::proofs::OnRows::on_rows))]
pub(crate) fn service_attributes(
    held: &Service,
    target: Target,
) -> Result<List<OwnedAttribute>, AllocError>
    ensures { IfOk result
        (λ r. r ≡ attributes_written (service_naming (out-Service held.now)) target.version
        (group 0 service)) }
{
    let mut attributes = List::new(target.alloc);
    put_attribute(&mut attributes, "bom-ref", &held.bom_ref, target)?;
    Ok(attributes)
}

pub(crate) fn write_naming_rows(
    held: &Service,
    writer: &mut EventWriter,
    target: Target,
) -> WriteResult
    ensures { Appends writer.old writer.new
        (rows_written (service_naming (out-Service held.now)) target.version (group 0 service))
        result }
{
    put_child(writer, "provider", &held.provider, target)?;
    put_child(writer, "group", &held.group, target)?;
    put_required_child(writer, "name", &held.name, target)?;
    put_child(writer, "version", &held.version, target)?;
    put_child(writer, "description", &held.description, target)
}

pub(crate) fn write_access_rows(
    held: &Service,
    writer: &mut EventWriter,
    target: Target,
) -> WriteResult
    ensures { Appends writer.old writer.new
        (rows_written (service_access (out-Service held.now)) target.version (group 1 service))
        result }
{
    put_list(writer, "endpoints", "endpoint", &held.endpoints, target)?;
    put_child(writer, "authenticated", &held.authenticated, target)?;
    put_child(writer, "x-trust-boundary", &held.x_trust_boundary, target)?;
    put_child(writer, "data", &held.data_items, target)?;
    put_child(writer, "licenses", &held.licenses, target)?;
    put_child(
        writer,
        "externalReferences",
        &held.external_references,
        target,
    )
}
