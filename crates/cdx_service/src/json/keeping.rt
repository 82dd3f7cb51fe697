//! What a version keeps of services and lists of services.

ghost use Rattle.std.specs.Prelude.{◌≡◌, IfOk};
ghost use Rattle.cdx_models.specs.Trees.{service, present};
ghost use Rattle.cdx_schema.specs.Kinds.{services, a_list, a_record};
ghost use Rattle.cdx_schema.specs.Keeping.{kept};
ghost use Rattle.cdx_json.specs.KeptRows.{rows_held};
ghost use Rattle.cdx_service.specs.declared.service.Service.{out-Service};
ghost use Rattle.cdx_service.specs.Trees.{service_tree, services_tree, service_naming, service_access, service_contents};
ghost use Rattle.cdx_service.specs.PartTrees.{service_naming_trees, service_access_trees, service_contents_trees};
ghost use Rattle.cdx_schema.specs.Groups.{group};

use crate::service::parts::{ServiceAccess, ServiceContents, ServiceNaming, assemble};
use crate::service::{Service, Services};
use cdx_json::{Keeping, Kept, keep_optional_list, keep_row, keep_row_since};
use cdx_models::SpecVersion;
use std::alloc::AllocError;

/// What a version keeps of a service.
#[cycle(service_keep)]
pub(crate) fn keep_service(held: &Service, keeping: Keeping) -> Result<Service, AllocError>
    ensures { IfOk result
        (λ r. service_tree r ≡ kept keeping.version keeping.label (service_tree held.now)
        (a_record service)) }
{
    let service_naming = keep_service_naming(held, keeping)?;
    let service_access = match keep_service_access(held, keeping) {
        Ok(service_access) => service_access,
        Err(error) => {
            drop(service_naming);
            return Err(error);
        }
    };
    let service_contents = match keep_service_contents(held, keeping) {
        Ok(service_contents) => service_contents,
        Err(error) => {
            drop(service_naming);
            drop(service_access);
            return Err(error);
        }
    };
    Ok(assemble(service_naming, service_access, service_contents))
}

/// What a version keeps of a list of services.
#[cycle(service_keep)]
pub(crate) fn keep_services(held: &Services, keeping: Keeping) -> Result<Services, AllocError>
    ensures { IfOk result
        (λ r. services_tree r ≡ kept keeping.version keeping.label (services_tree held.now)
        (a_list services)) }
{
    let mut copies = Services::with_capacity(keeping.alloc, held.len())?;
    for item in &held.items {
        copies.push(keep_service(item, keeping)?)?;
    }
    Ok(copies)
}

#[tactic(auto, unfolding(cdx_json::proofs::OnRows::on_rows))]
fn keep_service_naming(held: &Service, keeping: Keeping) -> Result<ServiceNaming, AllocError>
    ensures { IfOk result (λ r. service_naming_trees r
        ≡ rows_held keeping.version keeping.label (service_naming (out-Service held.now))
        (group 0 service)) }
{
    let bom_ref = keep_row(&held.bom_ref, keeping)?;
    let group = keep_row(&held.group, keeping)?;
    let name = held.name.kept_as(keeping)?;
    let held_version = keep_row(&held.version, keeping)?;
    let description = keep_row(&held.description, keeping)?;
    let provider = keep_row(&held.provider, keeping)?;
    Ok(ServiceNaming {
        bom_ref,
        provider,
        group,
        name,
        version: held_version,
        description,
    })
}

#[tactic(auto, unfolding(cdx_json::proofs::OnRows::on_rows))]
fn keep_service_access(held: &Service, keeping: Keeping) -> Result<ServiceAccess, AllocError>
    ensures { IfOk result (λ r. service_access_trees r
        ≡ rows_held keeping.version keeping.label (service_access (out-Service held.now))
        (group 1 service)) }
{
    let endpoints = keep_optional_list(&held.endpoints, keeping)?;
    let authenticated = keep_row(&held.authenticated, keeping)?;
    let x_trust_boundary = keep_row(&held.x_trust_boundary, keeping)?;
    let data_items = keep_row(&held.data_items, keeping)?;
    let licenses = keep_row(&held.licenses, keeping)?;
    let external_references = keep_row(&held.external_references, keeping)?;
    Ok(ServiceAccess {
        endpoints,
        authenticated,
        x_trust_boundary,
        data_items,
        licenses,
        external_references,
    })
}

#[cycle(service_keep)]
#[tactic(auto, unfolding(cdx_json::proofs::OnRows::on_rows))]
fn keep_service_contents(held: &Service, keeping: Keeping) -> Result<ServiceContents, AllocError>
    ensures { IfOk result (λ r. service_contents_trees r ≡ rows_held keeping.version keeping.label
        (service_contents services_tree (out-Service held.now)) (group 2 service)) }
{
    let properties = keep_row(&held.properties, keeping)?;
    let services = keep_services_row(&held.services, keeping)?;
    let signature = keep_row_since(&held.signature, SpecVersion::V1_4, keeping)?;
    let trust_zone = keep_row_since(&held.trust_zone, SpecVersion::V1_5, keeping)?;
    Ok(ServiceContents {
        properties,
        services,
        signature,
        trust_zone,
    })
}

#[cycle(service_keep)]
#[tactic(auto, unfolding(cdx_schema::specs::Keeping::kept))]
fn keep_services_row(
    held: &Option<Services>,
    keeping: Keeping,
) -> Result<Option<Services>, AllocError>
    ensures { IfOk result (λ r. present services_tree r
        ≡ kept keeping.version keeping.label (present services_tree held.now) (a_list services)) }
{
    match held {
        None => Ok(None),
        Some(held) => Ok(Some(keep_services(held, keeping)?)),
    }
}
