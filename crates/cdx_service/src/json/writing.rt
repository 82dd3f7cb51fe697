//! Services and lists of services as JSON.

ghost use Rattle.std.specs.Prelude.{◌≡◌, IfOk, OnOk};
ghost use Rattle.cdx_models.specs.Trees.{service, present};
ghost use Rattle.cdx_schema.specs.Kinds.{services, a_list, a_record};
ghost use Rattle.cdx_schema.specs.Keeping.{keep};
ghost use Rattle.cdx_schema.specs.JsonSpelling.{jspell};
ghost use Rattle.cdx_json.specs.KeptRows.{put_kept, rows_put};
ghost use Rattle.cdx_json.specs.Spellings.{spelling_data, spelling_members};
ghost use Rattle.cdx_service.specs.declared.service.Service.{out-Service};
ghost use Rattle.cdx_service.specs.Trees.{service_tree, services_tree, service_naming, service_access, service_contents};
ghost use Rattle.cdx_schema.specs.Groups.{group};

use crate::service::{Service, Services};
use cdx_json::{Members, Spelling, put, put_optional_list, put_required, put_row, put_row_since};
use cdx_models::SpecVersion;
use cdx_schema::Target;
use std::alloc::AllocError;

/// The spelling of what the version keeps of a service.
#[cycle(service_write)]
pub(crate) fn write_service(held: &Service, target: Target) -> Result<Spelling<'_>, AllocError>
    ensures { IfOk result (λ v. spelling_data v ≡ jspell
        (keep target.version (service_tree held.now) (a_record service)) target.version
        (a_record service)) }
{
    let mut map = Vec::new(target.alloc);
    put_service_naming(held, &mut map, target)?;
    put_service_access(held, &mut map, target)?;
    put_service_contents(held, &mut map, target)?;
    Ok(Spelling::Object(map))
}

/// The spelling of what the version keeps of a list of services.
#[cycle(service_write)]
pub(crate) fn write_services(held: &Services, target: Target) -> Result<Spelling<'_>, AllocError>
    ensures { IfOk result (λ v. spelling_data v ≡ jspell
        (keep target.version (services_tree held.now) (a_list services)) target.version
        (a_list services)) }
{
    let mut values = Vec::with_capacity(target.alloc, held.len())?;
    for item in &held.items {
        values.push(write_service(item, target)?)?;
    }
    Ok(Spelling::Array(values))
}

fn put_service_naming<'b>(
    held: &'b Service,
    map: &mut Members<'b>,
    target: Target,
) -> Result<(), AllocError>
    ensures { OnOk result (spelling_members map.new.items ≡ rows_put
        (service_naming (out-Service held.now)) target.version (group 0 service)
        (spelling_members map.old.items)) }
{
    put_row(map, "bom-ref", &held.bom_ref, target)?;
    put_row(map, "provider", &held.provider, target)?;
    put_row(map, "group", &held.group, target)?;
    put_required(map, "name", &held.name, target)?;
    put_row(map, "version", &held.version, target)?;
    put_row(map, "description", &held.description, target)?;
    Ok(())
}

fn put_service_access<'b>(
    held: &'b Service,
    map: &mut Members<'b>,
    target: Target,
) -> Result<(), AllocError>
    ensures { OnOk result (spelling_members map.new.items ≡ rows_put
        (service_access (out-Service held.now)) target.version (group 1 service)
        (spelling_members map.old.items)) }
{
    put_optional_list(map, "endpoints", &held.endpoints, target)?;
    put_row(map, "authenticated", &held.authenticated, target)?;
    put_row(map, "x-trust-boundary", &held.x_trust_boundary, target)?;
    put_row(map, "data", &held.data_items, target)?;
    put_row(map, "licenses", &held.licenses, target)?;
    put_row(map, "externalReferences", &held.external_references, target)?;
    Ok(())
}

#[cycle(service_write)]
fn put_service_contents<'b>(
    held: &'b Service,
    map: &mut Members<'b>,
    target: Target,
) -> Result<(), AllocError>
    ensures { OnOk result (spelling_members map.new.items ≡ rows_put
        (service_contents services_tree (out-Service held.now)) target.version (group 2 service)
        (spelling_members map.old.items)) }
{
    put_row(map, "properties", &held.properties, target)?;
    put_services_row(&held.services, map, "services", target)?;
    put_row_since(map, "signature", &held.signature, SpecVersion::V1_4, target)?;
    put_row_since(
        map,
        "trustZone",
        &held.trust_zone,
        SpecVersion::V1_5,
        target,
    )?;
    Ok(())
}

#[cycle(service_write)]
fn put_services_row<'b>(
    held: &'b Option<Services>,
    map: &mut Members<'b>,
    name: &'b str,
    target: Target,
) -> Result<(), AllocError>
    ensures { OnOk result (spelling_members map.new.items ≡ put_kept name.now (a_list services)
        (present services_tree held.now) target.version (spelling_members map.old.items)) }
{
    match held {
        None => Ok(()),
        Some(held) => {
            let value = write_services(held, target)?;
            put(map, name, value)
        }
    }
}
