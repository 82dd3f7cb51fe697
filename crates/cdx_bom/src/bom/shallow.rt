//! How deep the components and services of a bill nest.

ghost use Rattle.std.specs.Prelude.{◌≡◌};
ghost use Rattle.cdx_models.specs.Trees.{present};
ghost use Rattle.cdx_schema.specs.Depth.{top};
ghost use Rattle.cdx_schema.specs.Keeping.{is_shallow};
ghost use Rattle.cdx_schema.specs.Depths.{depth_of};
ghost use Rattle.cdx_nest.specs.Nested.{component_tree, components_tree, pedigree_tree, service_tree, services_tree};
ghost use Rattle.cdx_nest.specs.Trees.{tools_tree, metadata_tree};
ghost use Rattle.cdx_bom.specs.Trees.{bom_tree};

use crate::bom::Bom;
use cdx_nest::{Component, Components, Metadata, Pedigree, Service, Services, Tools};
use cdx_schema::Depth;

impl Bom {
    /// Whether no component stands inside 32 components and no service inside 32 services, as in every bill that is
    /// read. It takes no memory.
    #[tactic(auto, using(crate::proofs::Nested::bill_levels))]
    pub fn shallow(&self) -> bool
        ensures { result ≡ is_shallow (bom_tree self.now) top }
    {
        let depth = Depth::top();
        metadata_row_is_shallow(&self.metadata, depth)
            && components_row_are_shallow(&self.components, depth)
            && services_row_are_shallow(&self.services, depth)
    }
}

#[cycle(components_shallow)]
fn component_is_shallow(component: &Component, depth: Depth) -> bool
    ensures { result ≡ is_shallow (component_tree component.now) (depth_of depth) }
{
    if depth.components >= 32 {
        return false;
    }
    let inside = Depth {
        components: depth.components + 1,
        services: depth.services,
    };
    pedigree_row_is_shallow(&component.pedigree, inside)
        && components_row_are_shallow(&component.components, inside)
}

#[cycle(components_shallow)]
#[tactic(auto, using(crate::proofs::Nested::pedigree_levels))]
fn pedigree_is_shallow(pedigree: &Pedigree, depth: Depth) -> bool
    ensures { result ≡ is_shallow (pedigree_tree pedigree.now) (depth_of depth) }
{
    components_row_are_shallow(&pedigree.ancestors, depth)
        && components_row_are_shallow(&pedigree.descendants, depth)
        && components_row_are_shallow(&pedigree.variants, depth)
}

#[cycle(components_shallow)]
fn components_are_shallow(components: &Components, depth: Depth) -> bool
    ensures { result ≡ is_shallow (components_tree components.now) (depth_of depth) }
{
    for item in components.as_slice() {
        if !component_is_shallow(item, depth) {
            return false;
        }
    }
    true
}

#[cycle(components_shallow)]
#[tactic(auto, unfolding(cdx_schema::specs::Keeping::is_shallow))]
fn pedigree_row_is_shallow(held: &Option<Pedigree>, depth: Depth) -> bool
    ensures { result ≡ is_shallow (present pedigree_tree held.now) (depth_of depth) }
{
    match held {
        None => true,
        Some(held) => pedigree_is_shallow(held, depth),
    }
}

#[cycle(components_shallow)]
#[tactic(auto, unfolding(cdx_schema::specs::Keeping::is_shallow))]
fn components_row_are_shallow(held: &Option<Components>, depth: Depth) -> bool
    ensures { result ≡ is_shallow (present components_tree held.now) (depth_of depth) }
{
    match held {
        None => true,
        Some(held) => components_are_shallow(held, depth),
    }
}

#[cycle(services_shallow)]
fn service_is_shallow(service: &Service, depth: Depth) -> bool
    ensures { result ≡ is_shallow (service_tree service.now) (depth_of depth) }
{
    if depth.services >= 32 {
        return false;
    }
    let inside = Depth {
        components: depth.components,
        services: depth.services + 1,
    };
    services_row_are_shallow(&service.services, inside)
}

#[cycle(services_shallow)]
fn services_are_shallow(services: &Services, depth: Depth) -> bool
    ensures { result ≡ is_shallow (services_tree services.now) (depth_of depth) }
{
    for item in services.as_slice() {
        if !service_is_shallow(item, depth) {
            return false;
        }
    }
    true
}

#[cycle(services_shallow)]
#[tactic(auto, unfolding(cdx_schema::specs::Keeping::is_shallow))]
fn services_row_are_shallow(held: &Option<Services>, depth: Depth) -> bool
    ensures { result ≡ is_shallow (present services_tree held.now) (depth_of depth) }
{
    match held {
        None => true,
        Some(held) => services_are_shallow(held, depth),
    }
}

#[tactic(auto, unfolding(cdx_schema::specs::Keeping::is_shallow))]
fn component_row_is_shallow(held: &Option<Component>, depth: Depth) -> bool
    ensures { result ≡ is_shallow (present component_tree held.now) (depth_of depth) }
{
    match held {
        None => true,
        Some(held) => component_is_shallow(held, depth),
    }
}

fn tools_are_shallow(tools: &Tools, depth: Depth) -> bool
    ensures { result ≡ is_shallow (tools_tree tools.now) (depth_of depth) }
{
    match tools {
        Tools::List(_) => true,
        Tools::Object {
            services,
            components,
        } => {
            services_row_are_shallow(services, depth)
                && components_row_are_shallow(components, depth)
        }
    }
}

#[tactic(auto, unfolding(cdx_schema::specs::Keeping::is_shallow))]
fn tools_row_are_shallow(held: &Option<Tools>, depth: Depth) -> bool
    ensures { result ≡ is_shallow (present tools_tree held.now) (depth_of depth) }
{
    match held {
        None => true,
        Some(held) => tools_are_shallow(held, depth),
    }
}

#[tactic(auto, using(crate::proofs::Nested::metadata_levels))]
fn metadata_is_shallow(metadata: &Metadata, depth: Depth) -> bool
    ensures { result ≡ is_shallow (metadata_tree metadata.now) (depth_of depth) }
{
    tools_row_are_shallow(&metadata.tools, depth)
        && component_row_is_shallow(&metadata.component, depth)
}

#[tactic(auto, unfolding(cdx_schema::specs::Keeping::is_shallow))]
fn metadata_row_is_shallow(held: &Option<Metadata>, depth: Depth) -> bool
    ensures { result ≡ is_shallow (present metadata_tree held.now) (depth_of depth) }
{
    match held {
        None => true,
        Some(held) => metadata_is_shallow(held, depth),
    }
}
