//! Components with their pedigrees, in groups of six rows.

ghost use Rattle.cdx_models.specs.Trees.{component, pedigree, present};
ghost use Rattle.cdx_schema.specs.Kinds.{components, optional, a_list, a_record};
ghost use Rattle.cdx_schema.specs.Membership.{IsOf};
ghost use Rattle.cdx_schema.specs.Groups.{group};
ghost use Rattle.cdx_component.specs.Trees.{origin, naming, marks, component_contents, component_tree, components_tree, pedigree_tree};
ghost use Rattle.cdx_component.specs.declared.component.Component.{out-Component};
ghost use Rattle.cdx_whole.specs.Fields.{IsField, AreFields};

use crate::telling::{TellsKind, tell_row};
use cdx_nest::{Component, Components, Pedigree};

fn tell_origin(held: &Component)
    ensures { AreFields (origin (out-Component held.now)) (group 0 component) }
{
    held.component_type.tell();
    tell_row(&held.mime_type);
    tell_row(&held.bom_ref);
    tell_row(&held.supplier);
    tell_row(&held.author);
    tell_row(&held.publisher);
}

fn tell_naming(held: &Component)
    ensures { AreFields (naming (out-Component held.now)) (group 1 component) }
{
    tell_row(&held.group);
    held.name.tell();
    tell_row(&held.version);
    tell_row(&held.description);
    tell_row(&held.scope);
    tell_row(&held.hashes);
}

fn tell_marks(held: &Component)
    ensures { AreFields (marks (out-Component held.now)) (group 2 component) }
{
    tell_row(&held.licenses);
    tell_row(&held.copyright);
    tell_row(&held.cpe);
    tell_row(&held.purl);
    tell_row(&held.swid);
    tell_row(&held.modified);
}

#[cycle(component_told)]
fn tell_contents(held: &Component)
    ensures { AreFields (component_contents components_tree pedigree_tree (out-Component held.now))
        (group 3 component) }
{
    tell_pedigree_row(&held.pedigree);
    tell_row(&held.external_references);
    tell_row(&held.properties);
    tell_components_row(&held.components);
    tell_row(&held.evidence);
    tell_row(&held.signature);
}

#[cycle(component_told)]
fn tell_component(held: &Component)
    ensures { IsOf (component_tree held.now) (a_record component) }
{
    tell_origin(held);
    tell_naming(held);
    tell_marks(held);
    tell_contents(held);
}

#[cycle(component_told)]
fn tell_pedigree(held: &Pedigree)
    ensures { IsOf (pedigree_tree held.now) (a_record pedigree) }
{
    tell_components_row(&held.ancestors);
    tell_components_row(&held.descendants);
    tell_components_row(&held.variants);
    tell_row(&held.commits);
    tell_row(&held.patches);
    tell_row(&held.notes);
}

#[cycle(component_told)]
fn tell_components(held: &Components)
    ensures { IsOf (components_tree held.now) (a_list components) }
{
    for item in held.as_slice() {
        tell_component(item);
    }
}

#[cycle(component_told)]
fn tell_pedigree_row(held: &Option<Pedigree>)
    ensures { IsField (present pedigree_tree held.now) optional (a_record pedigree) }
{
    match held {
        None => {}
        Some(held) => tell_pedigree(held),
    }
}

#[cycle(component_told)]
fn tell_components_row(held: &Option<Components>)
    ensures { IsField (present components_tree held.now) optional (a_list components) }
{
    match held {
        None => {}
        Some(held) => tell_components(held),
    }
}

impl TellsKind for Component {
    fn tell(&self) {
        tell_component(self);
    }
}

impl TellsKind for Components {
    fn tell(&self) {
        tell_components(self);
    }
}
