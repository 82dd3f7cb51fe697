//! Components of which a trip takes nothing.

ghost use Rattle.std.specs.Prelude.{◌≡◌, not};
ghost use Rattle.cdx_models.specs.Trees.{component, pedigree, present};
ghost use Rattle.cdx_component_parts.specs.Records.{evidence_tree};
ghost use Rattle.cdx_component.specs.Trees.{component_tree, components_tree, pedigree_tree};
ghost use Rattle.cdx_schema.specs.Kinds.{components, a_list, a_record};
ghost use Rattle.cdx_schema.specs.Trips.{is_hollow};
ghost use Rattle.cdx_trips.specs.Surviving.{survives};

use crate::hollow::is_hollow_evidence;
use crate::organization::supplier_row_survives;
use crate::patch::patches_row_survives;
use cdx_component::{Component, Components, Pedigree};
use cdx_component_parts::ComponentEvidence;

fn evidence_row_survives(held: &Option<ComponentEvidence>) -> bool
    ensures { result ≡ not (is_hollow (present evidence_tree held.now)) }
{
    match held {
        None => true,
        Some(evidence) => !is_hollow_evidence(evidence),
    }
}

#[cycle(components_survive)]
#[tactic(auto, using(crate::proofs::Nested::component_rows))]
fn component_survives(held: &Component) -> bool
    ensures { result ≡ survives (component_tree held.now) (a_record component) }
{
    supplier_row_survives(&held.supplier)
        && pedigree_row_survives(&held.pedigree)
        && components_row_survives(&held.components)
        && evidence_row_survives(&held.evidence)
}

#[cycle(components_survive)]
#[tactic(auto, using(crate::proofs::Nested::pedigree_rows))]
fn pedigree_survives(held: &Pedigree) -> bool
    ensures { result ≡ survives (pedigree_tree held.now) (a_record pedigree) }
{
    components_row_survives(&held.ancestors)
        && components_row_survives(&held.descendants)
        && components_row_survives(&held.variants)
        && patches_row_survives(&held.patches)
}

#[cycle(components_survive)]
fn components_survive(held: &Components) -> bool
    ensures { result ≡ survives (components_tree held.now) (a_list components) }
{
    for item in held.as_slice() {
        if !component_survives(item) {
            return false;
        }
    }
    true
}

#[cycle(components_survive)]
#[tactic(auto, unfolding(crate::specs::Surviving::survives))]
fn pedigree_row_survives(held: &Option<Pedigree>) -> bool
    ensures { result ≡ survives (present pedigree_tree held.now) (a_record pedigree) }
{
    match held {
        None => true,
        Some(held) => pedigree_survives(held),
    }
}

/// Whether a trip takes nothing of the components, at any depth and in pedigrees. It takes no memory.
#[cycle(components_survive)]
#[tactic(auto, unfolding(crate::specs::Surviving::survives))]
pub fn components_row_survives(held: &Option<Components>) -> bool
    ensures { result ≡ survives (present components_tree held.now) (a_list components) }
{
    match held {
        None => true,
        Some(held) => components_survive(held),
    }
}

/// Whether a trip takes nothing of the component.
#[tactic(auto, unfolding(crate::specs::Surviving::survives))]
pub(crate) fn component_row_survives(held: &Option<Component>) -> bool
    ensures { result ≡ survives (present component_tree held.now) (a_record component) }
{
    match held {
        None => true,
        Some(held) => component_survives(held),
    }
}
