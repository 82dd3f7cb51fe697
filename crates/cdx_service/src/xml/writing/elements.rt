//! The elements of services, which hold services in turn. Each call appends what the version keeps; only want of memory
//! is refused, and the writer then has a prefix of that.

ghost use Rattle.cdx_models.specs.Trees.{service, present};
ghost use Rattle.cdx_schema.specs.Kinds.{services, a_list, a_record};
ghost use Rattle.cdx_schema.specs.Table.{rows};
ghost use Rattle.cdx_schema.specs.Groups.{group};
ghost use Rattle.cdx_write.specs.Spelling.{spelled_events, inner};
ghost use Rattle.cdx_write.specs.WrittenRows.{child_written, rows_written};
ghost use Rattle.cdx_write.specs.Writing.{Appends};
ghost use Rattle.cdx_service.specs.declared.service.Service.{out-Service};
ghost use Rattle.cdx_service.specs.Trees.{service_tree, services_tree, service_contents, service_fields};

use crate::service::{Service, Services};
use crate::xml::writing::rows::{service_attributes, write_access_rows, write_naming_rows};
use cdx_events::EventWriter;
use cdx_models::SpecVersion;
use cdx_schema::Target;
use cdx_write::{
    WriteResult, put_child, put_child_since, write_close_tag, write_opening, write_start_tag,
};

/// A service as the element `tag`.
#[cycle(service_elements)]
pub(crate) fn write_service(
    held: &Service,
    writer: &mut EventWriter,
    tag: &str,
    target: Target,
) -> WriteResult
    ensures { Appends writer.old writer.new
        (spelled_events (service_tree held.now) target.version tag.now (a_record service)) result }
{
    let attributes = service_attributes(held, target)?;
    write_opening(target.alloc, writer, tag, attributes)?;
    write_rows(held, writer, target)?;
    write_close_tag(target.alloc, writer, tag)
}

/// A list of services as the element `tag`.
#[cycle(service_elements)]
pub(crate) fn write_services(
    held: &Services,
    writer: &mut EventWriter,
    tag: &str,
    target: Target,
) -> WriteResult
    ensures { Appends writer.old writer.new
        (spelled_events (services_tree held.now) target.version tag.now (a_list services)) result }
{
    write_start_tag(target.alloc, writer, tag)?;
    write_items(held, writer, target)?;
    write_close_tag(target.alloc, writer, tag)
}

/// What stands between the tags of a list of services.
#[cycle(service_elements)]
fn write_items(held: &Services, writer: &mut EventWriter, target: Target) -> WriteResult
    ensures { Appends writer.old writer.new
        (inner (services_tree held.now) target.version (a_list services))
        result }
{
    for item in &held.items {
        write_service(item, writer, "service", target)?;
    }
    Ok(())
}

/// What stands between the tags of a service.
#[cycle(service_elements)]
fn write_rows(held: &Service, writer: &mut EventWriter, target: Target) -> WriteResult
    ensures { Appends writer.old writer.new
        (rows_written (service_fields services_tree (out-Service held.now)) target.version
        (rows service))
        result }
{
    write_naming_rows(held, writer, target)?;
    write_access_rows(held, writer, target)?;
    write_contents_rows(held, writer, target)
}

#[cycle(service_elements)]
fn write_contents_rows(held: &Service, writer: &mut EventWriter, target: Target) -> WriteResult
    ensures { Appends writer.old writer.new
        (rows_written (service_contents services_tree (out-Service held.now)) target.version
        (group 2 service))
        result }
{
    put_child(writer, "properties", &held.properties, target)?;
    put_services(&held.services, writer, "services", target)?;
    put_child_since(
        writer,
        SpecVersion::V1_4,
        "signature",
        &held.signature,
        target,
    )?;
    put_child_since(
        writer,
        SpecVersion::V1_5,
        "trustZone",
        &held.trust_zone,
        target,
    )
}

#[cycle(service_elements)]
fn put_services(
    held: &Option<Services>,
    writer: &mut EventWriter,
    name: &str,
    target: Target,
) -> WriteResult
    ensures { Appends writer.old writer.new
        (child_written name.now (a_list services) (present services_tree held.now) target.version)
        result }
{
    match held {
        None => Ok(()),
        Some(held) => write_services(held, writer, name, target),
    }
}
