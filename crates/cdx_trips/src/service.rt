//! Services of which a trip takes nothing.

ghost use Rattle.std.specs.Prelude.{◌≡◌};
ghost use Rattle.cdx_models.specs.Trees.{service, present};
ghost use Rattle.cdx_service.specs.Trees.{service_tree, services_tree};
ghost use Rattle.cdx_schema.specs.Kinds.{services, a_list, a_record};
ghost use Rattle.cdx_trips.specs.Surviving.{survives};

use crate::organization::entity_row_survives;
use cdx_service::{Service, Services};

#[cycle(services_survive)]
#[tactic(auto, using(crate::proofs::Nested::service_rows))]
fn service_survives(held: &Service) -> bool
    ensures { result ≡ survives (service_tree held.now) (a_record service) }
{
    entity_row_survives(&held.provider) && services_row_survives(&held.services)
}

#[cycle(services_survive)]
fn services_survive(held: &Services) -> bool
    ensures { result ≡ survives (services_tree held.now) (a_list services) }
{
    for item in held.as_slice() {
        if !service_survives(item) {
            return false;
        }
    }
    true
}

/// Whether a trip takes nothing of the services, at any depth. It takes no memory.
#[cycle(services_survive)]
#[tactic(auto, unfolding(crate::specs::Surviving::survives))]
pub fn services_row_survives(held: &Option<Services>) -> bool
    ensures { result ≡ survives (present services_tree held.now) (a_list services) }
{
    match held {
        None => true,
        Some(held) => services_survive(held),
    }
}
