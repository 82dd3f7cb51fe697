//! Whether components, pedigrees and lists of components are equal.

ghost use Rattle.std.specs.Prelude.{◌≡◌};
ghost use Rattle.cdx_models.specs.Trees.{present};
ghost use Rattle.cdx_models.specs.Equal.{equal, equal_each};
ghost use Rattle.cdx_component.specs.Trees.{component_tree, components_tree, pedigree_tree, origin, naming, marks, component_contents};
ghost use Rattle.cdx_component.specs.declared.component.Component.{out-Component};

use crate::component::{Component, Components, Pedigree};
use cdx_models::{HasTree, equal_row};

fn equal_origin(one: &Component, other: &Component) -> bool
    ensures { result
        ≡ equal_each (origin (out-Component one.now)) (origin (out-Component other.now)) }
{
    one.component_type.equals(&other.component_type)
        && equal_row(&one.mime_type, &other.mime_type)
        && equal_row(&one.bom_ref, &other.bom_ref)
        && equal_row(&one.supplier, &other.supplier)
        && equal_row(&one.author, &other.author)
        && equal_row(&one.publisher, &other.publisher)
}

fn equal_naming(one: &Component, other: &Component) -> bool
    ensures { result
        ≡ equal_each (naming (out-Component one.now)) (naming (out-Component other.now)) }
{
    equal_row(&one.group, &other.group)
        && one.name.equals(&other.name)
        && equal_row(&one.version, &other.version)
        && equal_row(&one.description, &other.description)
        && equal_row(&one.scope, &other.scope)
        && equal_row(&one.hashes, &other.hashes)
}

fn equal_marks(one: &Component, other: &Component) -> bool
    ensures { result
        ≡ equal_each (marks (out-Component one.now)) (marks (out-Component other.now)) }
{
    equal_row(&one.licenses, &other.licenses)
        && equal_row(&one.copyright, &other.copyright)
        && equal_row(&one.cpe, &other.cpe)
        && equal_row(&one.purl, &other.purl)
        && equal_row(&one.swid, &other.swid)
        && equal_row(&one.modified, &other.modified)
}

#[cycle(component_equal)]
fn equal_contents(one: &Component, other: &Component) -> bool
    ensures { result
        ≡ equal_each (component_contents components_tree pedigree_tree (out-Component one.now))
        (component_contents components_tree pedigree_tree (out-Component other.now)) }
{
    equal_pedigree_row(&one.pedigree, &other.pedigree)
        && equal_row(&one.external_references, &other.external_references)
        && equal_row(&one.properties, &other.properties)
        && equal_components_row(&one.components, &other.components)
        && equal_row(&one.evidence, &other.evidence)
        && equal_row(&one.signature, &other.signature)
}

#[cycle(component_equal)]
#[tactic(auto, using(crate::proofs::Compared::component_compared))]
pub(crate) fn equal_component(one: &Component, other: &Component) -> bool
    ensures { result ≡ equal (component_tree one.now) (component_tree other.now) }
{
    equal_origin(one, other)
        && equal_naming(one, other)
        && equal_marks(one, other)
        && equal_contents(one, other)
}

#[cycle(component_equal)]
pub(crate) fn equal_pedigree(one: &Pedigree, other: &Pedigree) -> bool
    ensures { result ≡ equal (pedigree_tree one.now) (pedigree_tree other.now) }
{
    equal_components_row(&one.ancestors, &other.ancestors)
        && equal_components_row(&one.descendants, &other.descendants)
        && equal_components_row(&one.variants, &other.variants)
        && equal_row(&one.commits, &other.commits)
        && equal_row(&one.patches, &other.patches)
        && equal_row(&one.notes, &other.notes)
}

#[cycle(component_equal)]
#[tactic(auto, using(crate::proofs::Compared::components_compared))]
pub(crate) fn equal_components(one: &Components, other: &Components) -> bool
    ensures { result ≡ equal (components_tree one.now) (components_tree other.now) }
{
    if one.items.len() != other.items.len() {
        return false;
    }
    for i in 0..one.items.len() {
        if !equal_component(&one.items[i], &other.items[i]) {
            return false;
        }
    }
    true
}

#[cycle(component_equal)]
pub(crate) fn equal_pedigree_row(one: &Option<Pedigree>, other: &Option<Pedigree>) -> bool
    ensures { result ≡ equal (present pedigree_tree one.now) (present pedigree_tree other.now) }
{
    match (one, other) {
        (None, None) => true,
        (Some(one), Some(other)) => equal_pedigree(one, other),
        (None, Some(_)) => false,
        (Some(_), None) => false,
    }
}

#[cycle(component_equal)]
pub(crate) fn equal_components_row(one: &Option<Components>, other: &Option<Components>) -> bool
    ensures { result ≡ equal (present components_tree one.now) (present components_tree other.now) }
{
    match (one, other) {
        (None, None) => true,
        (Some(one), Some(other)) => equal_components(one, other),
        (None, Some(_)) => false,
        (Some(_), None) => false,
    }
}
