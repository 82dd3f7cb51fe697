//! Services, in groups of six rows.

ghost use Rattle.cdx_models.specs.Trees.{service, present};
ghost use Rattle.cdx_schema.specs.Kinds.{services, optional, a_list, a_record};
ghost use Rattle.cdx_schema.specs.Membership.{IsOf};
ghost use Rattle.cdx_schema.specs.Groups.{group};
ghost use Rattle.cdx_service.specs.Trees.{service_naming, service_access, service_contents, service_tree, services_tree};
ghost use Rattle.cdx_service.specs.declared.service.Service.{out-Service};
ghost use Rattle.cdx_whole.specs.Fields.{IsField, AreFields};

use crate::telling::{TellsKind, tell_list_row, tell_row};
use cdx_nest::{Service, Services};

fn tell_naming(held: &Service)
    ensures { AreFields (service_naming (out-Service held.now)) (group 0 service) }
{
    tell_row(&held.bom_ref);
    tell_row(&held.provider);
    tell_row(&held.group);
    held.name.tell();
    tell_row(&held.version);
    tell_row(&held.description);
}

fn tell_access(held: &Service)
    ensures { AreFields (service_access (out-Service held.now)) (group 1 service) }
{
    tell_list_row(&held.endpoints);
    tell_row(&held.authenticated);
    tell_row(&held.x_trust_boundary);
    tell_row(&held.data_items);
    tell_row(&held.licenses);
    tell_row(&held.external_references);
}

#[cycle(service_told)]
fn tell_contents(held: &Service)
    ensures { AreFields (service_contents services_tree (out-Service held.now))
        (group 2 service) }
{
    tell_row(&held.properties);
    tell_services_row(&held.services);
    tell_row(&held.signature);
    tell_row(&held.trust_zone);
}

#[cycle(service_told)]
fn tell_service(held: &Service)
    ensures { IsOf (service_tree held.now) (a_record service) }
{
    tell_naming(held);
    tell_access(held);
    tell_contents(held);
}

#[cycle(service_told)]
fn tell_services(held: &Services)
    ensures { IsOf (services_tree held.now) (a_list services) }
{
    for item in held.as_slice() {
        tell_service(item);
    }
}

#[cycle(service_told)]
fn tell_services_row(held: &Option<Services>)
    ensures { IsField (present services_tree held.now) optional (a_list services) }
{
    match held {
        None => {}
        Some(held) => tell_services(held),
    }
}

impl TellsKind for Services {
    fn tell(&self) {
        tell_services(self);
    }
}
