//! Tools and metadata of which a trip takes nothing.

ghost use Rattle.std.specs.Prelude.{◌≡◌};
ghost use Rattle.cdx_models.specs.Trees.{metadata, present};
ghost use Rattle.cdx_nest.specs.Trees.{tools_tree, metadata_tree};
ghost use Rattle.cdx_schema.specs.Kinds.{a_record, a_tools};
ghost use Rattle.cdx_trips.specs.Surviving.{survives};

use crate::component::{component_row_survives, components_row_survives};
use crate::organization::{authors_row_survives, entity_row_survives};
use crate::service::services_row_survives;
use cdx_nest::{Metadata, Tools};

#[tactic(auto, using(crate::proofs::Nested::object_rows, crate::proofs::Nested::list_of_tools))]
fn tools_survive(held: &Tools) -> bool
    ensures { result ≡ survives (tools_tree held.now) a_tools }
{
    match held {
        Tools::List(tools) => !tools.as_slice().is_empty(),
        Tools::Object {
            services,
            components,
        } => services_row_survives(services) && components_row_survives(components),
    }
}

#[tactic(auto, unfolding(crate::specs::Surviving::survives))]
fn tools_row_survives(held: &Option<Tools>) -> bool
    ensures { result ≡ survives (present tools_tree held.now) a_tools }
{
    match held {
        None => true,
        Some(held) => tools_survive(held),
    }
}

#[tactic(auto, using(crate::proofs::Nested::metadata_rows))]
fn metadata_survives(held: &Metadata) -> bool
    ensures { result ≡ survives (metadata_tree held.now) (a_record metadata) }
{
    tools_row_survives(&held.tools)
        && authors_row_survives(&held.authors)
        && component_row_survives(&held.component)
        && entity_row_survives(&held.manufacture)
        && entity_row_survives(&held.supplier)
}

/// Whether a trip takes nothing of the metadata, with the components and services in it. An empty list of tools comes
/// back from 1.5 as a tools object. It takes no memory.
#[tactic(auto, unfolding(crate::specs::Surviving::survives))]
pub fn metadata_row_survives(held: &Option<Metadata>) -> bool
    ensures { result ≡ survives (present metadata_tree held.now) (a_record metadata) }
{
    match held {
        None => true,
        Some(held) => metadata_survives(held),
    }
}
