//! Which components a version can hold.

ghost use Rattle.std.specs.Prelude.{◌≡◌};
ghost use Rattle.cdx_models.specs.Trees.{component, pedigree, present};
ghost use Rattle.cdx_schema.specs.Kinds.{components, a_list, a_record};
ghost use Rattle.cdx_schema.specs.Keeping.{fits, has_versions};
ghost use Rattle.cdx_component.specs.Trees.{component_tree, components_tree, pedigree_tree};

use crate::component::{Component, Components, Pedigree};
use cdx_models::SpecVersion;

impl Component {
    /// Whether the version can hold the component: it is not 1.3, or the component has a version and so has each one
    /// in it, at every depth and in pedigrees. It takes no memory.
    pub fn fits(&self, version: SpecVersion) -> bool
        ensures { result ≡ fits version (component_tree self.now) (a_record component) }
    {
        version != SpecVersion::V1_3 || component_has_versions(self)
    }
}

impl Components {
    /// Whether the version can hold each of the components: it is not 1.3, or they have versions and so have those in
    /// them, at every depth and in pedigrees. It takes no memory.
    pub fn fits(&self, version: SpecVersion) -> bool
        ensures { result ≡ fits version (components_tree self.now) (a_list components) }
    {
        version != SpecVersion::V1_3 || components_have_versions(self)
    }
}

impl Pedigree {
    /// Whether the version can hold the pedigree: it is not 1.3, or each component in it has a version, at every
    /// depth. It takes no memory.
    pub fn fits(&self, version: SpecVersion) -> bool
        ensures { result ≡ fits version (pedigree_tree self.now) (a_record pedigree) }
    {
        version != SpecVersion::V1_3 || pedigree_has_versions(self)
    }
}

#[cycle(component_fits)]
#[tactic(auto, using(crate::proofs::Fitting::component_has))]
fn component_has_versions(held: &Component) -> bool
    ensures { result ≡ has_versions (component_tree held.now) (a_record component) }
{
    held.version.is_some()
        && pedigree_row_has_versions(&held.pedigree)
        && components_row_has_versions(&held.components)
}

#[cycle(component_fits)]
#[tactic(auto, using(crate::proofs::Fitting::pedigree_has))]
fn pedigree_has_versions(held: &Pedigree) -> bool
    ensures { result ≡ has_versions (pedigree_tree held.now) (a_record pedigree) }
{
    components_row_has_versions(&held.ancestors)
        && components_row_has_versions(&held.descendants)
        && components_row_has_versions(&held.variants)
}

#[cycle(component_fits)]
#[tactic(auto, using(crate::proofs::Fitting::components_have, crate::proofs::Fitting::items_rules))]
fn components_have_versions(held: &Components) -> bool
    ensures { result ≡ has_versions (components_tree held.now) (a_list components) }
{
    for item in &held.items {
        if !component_has_versions(item) {
            return false;
        }
    }
    true
}

#[cycle(component_fits)]
#[tactic(auto, unfolding(cdx_schema::specs::Keeping::has_versions))]
fn pedigree_row_has_versions(held: &Option<Pedigree>) -> bool
    ensures { result ≡ has_versions (present pedigree_tree held.now) (a_record pedigree) }
{
    match held {
        None => true,
        Some(held) => pedigree_has_versions(held),
    }
}

#[cycle(component_fits)]
#[tactic(auto, unfolding(cdx_schema::specs::Keeping::has_versions))]
fn components_row_has_versions(held: &Option<Components>) -> bool
    ensures { result ≡ has_versions (present components_tree held.now) (a_list components) }
{
    match held {
        None => true,
        Some(held) => components_have_versions(held),
    }
}

/// Whether the component, if there is one, has a version, and each component nested in it.
#[tactic(auto, unfolding(cdx_schema::specs::Keeping::has_versions))]
pub fn component_row_has_versions(held: &Option<Component>) -> bool
    ensures { result ≡ has_versions (present component_tree held.now) (a_record component) }
{
    match held {
        None => true,
        Some(held) => component_has_versions(held),
    }
}
