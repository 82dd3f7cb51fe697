//! Copies of services and lists of them.

ghost use Rattle.std.specs.Prelude.{◌≡◌, IfOk};
ghost use Rattle.cdx_models.specs.Trees.{present};
ghost use Rattle.cdx_service.specs.Trees.{service_tree, services_tree, service_naming, service_access, service_contents};
ghost use Rattle.cdx_service.specs.PartTrees.{service_naming_trees, service_access_trees, service_contents_trees};
ghost use Rattle.cdx_service.specs.declared.service.Service.{out-Service};

use crate::service::parts::{ServiceAccess, ServiceContents, ServiceNaming, assemble};
use crate::service::{Service, Services};
use cdx_models::{HasTree, copy_row};
use std::alloc::{AllocError, Global};

fn copy_service_naming(service: &Service, alloc: Global) -> Result<ServiceNaming, AllocError>
    ensures { IfOk result (λ r. service_naming_trees r ≡ service_naming (out-Service service.now)) }
{
    let bom_ref = copy_row(alloc, &service.bom_ref)?;
    let group = copy_row(alloc, &service.group)?;
    let name = service.name.copy(alloc)?;
    let version = copy_row(alloc, &service.version)?;
    let description = copy_row(alloc, &service.description)?;
    let provider = copy_row(alloc, &service.provider)?;
    Ok(ServiceNaming {
        bom_ref,
        provider,
        group,
        name,
        version,
        description,
    })
}

fn copy_service_access(service: &Service, alloc: Global) -> Result<ServiceAccess, AllocError>
    ensures { IfOk result (λ r. service_access_trees r ≡ service_access (out-Service service.now)) }
{
    let endpoints = copy_row(alloc, &service.endpoints)?;
    let authenticated = copy_row(alloc, &service.authenticated)?;
    let x_trust_boundary = copy_row(alloc, &service.x_trust_boundary)?;
    let data_items = copy_row(alloc, &service.data_items)?;
    let licenses = copy_row(alloc, &service.licenses)?;
    let external_references = copy_row(alloc, &service.external_references)?;
    Ok(ServiceAccess {
        endpoints,
        authenticated,
        x_trust_boundary,
        data_items,
        licenses,
        external_references,
    })
}

#[cycle(service_copy)]
fn copy_service_contents(service: &Service, alloc: Global) -> Result<ServiceContents, AllocError>
    ensures { IfOk result
        (λ r. service_contents_trees r ≡ service_contents services_tree (out-Service service.now)) }
{
    let properties = copy_row(alloc, &service.properties)?;
    let services = copy_services_row(&service.services, alloc)?;
    let signature = copy_row(alloc, &service.signature)?;
    let trust_zone = copy_row(alloc, &service.trust_zone)?;
    Ok(ServiceContents {
        properties,
        services,
        signature,
        trust_zone,
    })
}

#[cycle(service_copy)]
pub(crate) fn copy_service(service: &Service, alloc: Global) -> Result<Service, AllocError>
    ensures { IfOk result (λ r. service_tree r ≡ service_tree service.now) }
{
    let service_naming = copy_service_naming(service, alloc)?;
    let service_access = match copy_service_access(service, alloc) {
        Ok(service_access) => service_access,
        Err(error) => {
            drop(service_naming);
            return Err(error);
        }
    };
    let service_contents = match copy_service_contents(service, alloc) {
        Ok(service_contents) => service_contents,
        Err(error) => {
            drop(service_naming);
            drop(service_access);
            return Err(error);
        }
    };
    Ok(assemble(service_naming, service_access, service_contents))
}

#[cycle(service_copy)]
pub(crate) fn copy_services(services: &Services, alloc: Global) -> Result<Services, AllocError>
    ensures { IfOk result (λ r. services_tree r ≡ services_tree services.now) }
{
    let mut copies = Services::with_capacity(alloc, services.len())?;
    for item in &services.items {
        copies.push(copy_service(item, alloc)?)?;
    }
    Ok(copies)
}

#[cycle(service_copy)]
pub(crate) fn copy_services_row(
    held: &Option<Services>,
    alloc: Global,
) -> Result<Option<Services>, AllocError>
    ensures { IfOk result (λ r. present services_tree r ≡ present services_tree held.now) }
{
    match held {
        None => Ok(None),
        Some(held) => Ok(Some(copy_services(held, alloc)?)),
    }
}
