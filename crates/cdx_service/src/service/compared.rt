//! Whether services and lists of them are equal.

ghost use Rattle.std.specs.Prelude.{◌≡◌};
ghost use Rattle.cdx_models.specs.Trees.{present};
ghost use Rattle.cdx_models.specs.Equal.{equal, equal_each};
ghost use Rattle.cdx_service.specs.Trees.{service_tree, services_tree, service_naming, service_access, service_contents};
ghost use Rattle.cdx_service.specs.declared.service.Service.{out-Service};

use crate::service::{Service, Services};
use cdx_models::{HasTree, equal_row};

fn equal_service_naming(one: &Service, other: &Service) -> bool
    ensures { result ≡ equal_each (service_naming (out-Service one.now))
        (service_naming (out-Service other.now)) }
{
    equal_row(&one.bom_ref, &other.bom_ref)
        && equal_row(&one.provider, &other.provider)
        && equal_row(&one.group, &other.group)
        && one.name.equals(&other.name)
        && equal_row(&one.version, &other.version)
        && equal_row(&one.description, &other.description)
}

fn equal_service_access(one: &Service, other: &Service) -> bool
    ensures { result ≡ equal_each (service_access (out-Service one.now))
        (service_access (out-Service other.now)) }
{
    equal_row(&one.endpoints, &other.endpoints)
        && equal_row(&one.authenticated, &other.authenticated)
        && equal_row(&one.x_trust_boundary, &other.x_trust_boundary)
        && equal_row(&one.data_items, &other.data_items)
        && equal_row(&one.licenses, &other.licenses)
        && equal_row(&one.external_references, &other.external_references)
}

#[cycle(service_equal)]
fn equal_service_contents(one: &Service, other: &Service) -> bool
    ensures { result ≡ equal_each (service_contents services_tree (out-Service one.now))
        (service_contents services_tree (out-Service other.now)) }
{
    equal_row(&one.properties, &other.properties)
        && equal_services_row(&one.services, &other.services)
        && equal_row(&one.signature, &other.signature)
        && equal_row(&one.trust_zone, &other.trust_zone)
}

#[cycle(service_equal)]
#[tactic(auto, using(crate::proofs::Compared::service_compared))]
pub(crate) fn equal_service(one: &Service, other: &Service) -> bool
    ensures { result ≡ equal (service_tree one.now) (service_tree other.now) }
{
    equal_service_naming(one, other)
        && equal_service_access(one, other)
        && equal_service_contents(one, other)
}

#[cycle(service_equal)]
#[tactic(auto, using(crate::proofs::Compared::services_compared))]
pub(crate) fn equal_services(one: &Services, other: &Services) -> bool
    ensures { result ≡ equal (services_tree one.now) (services_tree other.now) }
{
    if one.items.len() != other.items.len() {
        return false;
    }
    for i in 0..one.items.len() {
        if !equal_service(&one.items[i], &other.items[i]) {
            return false;
        }
    }
    true
}

#[cycle(service_equal)]
pub(crate) fn equal_services_row(one: &Option<Services>, other: &Option<Services>) -> bool
    ensures { result ≡ equal (present services_tree one.now) (present services_tree other.now) }
{
    match (one, other) {
        (None, None) => true,
        (Some(one), Some(other)) => equal_services(one, other),
        (None, Some(_)) => false,
        (Some(_), None) => false,
    }
}
