//! What a child was read as goes into the field of its position.

ghost use Rattle.std.specs.Prelude.{◌≡◌, ◌<◌, ◌≤◌, Some, OnOk};
ghost use Rattle.cdx_models.specs.Trees.{component, pedigree, Trees, ◌⧺◌};
ghost use Rattle.cdx_schema.specs.Kinds.{components};
ghost use Rattle.cdx_schema.specs.XmlReading.{record_plan, items_plan};
ghost use Rattle.cdx_leaf.specs.Listing.{listing_slots};
ghost use Rattle.cdx_machine.specs.Several.{at_position, Puts};
ghost use Rattle.cdx_nest_machine.specs.declared.nested.ChildReader.TheVariants.{Leaf, Nested};
ghost use Rattle.cdx_push.specs.Leaf.{value_kind as leaf_value_kind, value_tree as leaf_value_tree};
ghost use Rattle.cdx_component.specs.Trees.{component_tree, component_items};
ghost use Rattle.cdx_component.specs.PartTrees.{origin_trees, marks_trees, contents_trees};
ghost use Rattle.cdx_component.specs.ReadingParts.{naming_part, component_part, pedigree_part};
ghost use Rattle.cdx_component.specs.Frames.{value_kind, value_tree, component_readers, pedigree_readers, readers_of};
ghost use Rattle.cdx_component.specs.declared.component.parts.Origin.{Origin as OriginRows};
ghost use Rattle.cdx_component.specs.declared.component.parts.Marks.{Marks as MarksRows};
ghost use Rattle.cdx_component.specs.declared.xml.reading.parts.NamingPart.{NamingPart as NamingRows};
ghost use Rattle.cdx_component.specs.declared.frames.ComponentKind.TheVariants.{Components as ListKind};

use crate::component::Components;
use crate::component::parts::{Contents, Marks, Origin};
use crate::frames::ComponentValue;
use crate::xml::reading::parts::{ComponentPart, NamingPart, PedigreePart};
use cdx_component_parts::Cpe;
use cdx_push::LeafValue;
use std::alloc::AllocError;

/// Appends a component to the list. Only want of memory refuses.
pub(crate) fn push_component(
    list: &mut Components,
    position: usize,
    value: ComponentValue,
) -> Result<(), AllocError>
    requires { at_position (readers_of ListKind) position ≡ Some (Nested (value_kind value)) }
    ensures { OnOk result (Puts (items_plan components).children position (value_tree value)
        (listing_slots component_tree (component_items list.old))
        (listing_slots component_tree (component_items list.new))) }
{
    match (position, value) {
        (0, ComponentValue::Component(component)) => list.push(component),
        _ => unreachable!(),
    }
}

/// Puts the pedigree or the components of a component into their field.
#[tactic(auto, unfolding(cdx_machine::proofs::OnRows::on_rows))]
pub(crate) fn put_part(part: &mut Contents, position: usize, value: ComponentValue)
    requires { at_position component_readers position ≡ Some (Nested (value_kind value)) }
    ensures { (o : OriginRows) (n : NamingRows) (m : MarksRows)
        → Puts (record_plan component).children position (value_tree value)
        (origin_trees o ⧺ (naming_part n ⧺ (marks_trees m ⧺ contents_trees part.old)))
        (origin_trees o ⧺ (naming_part n ⧺ (marks_trees m ⧺ contents_trees part.new))) }
{
    match (position, value) {
        (15, ComponentValue::Pedigree(pedigree)) => part.pedigree = Some(pedigree),
        (18, ComponentValue::Components(components)) => part.components = Some(components),
        _ => unreachable!(),
    }
}

/// Puts the components of a pedigree into the field of their position.
#[tactic(auto, unfolding(cdx_machine::proofs::OnRows::on_rows))]
pub(crate) fn put_relatives(part: &mut PedigreePart, position: usize, value: ComponentValue)
    requires { at_position pedigree_readers position ≡ Some (Nested (value_kind value)) }
    ensures { Puts (record_plan pedigree).children position (value_tree value)
        (pedigree_part part.old) (pedigree_part part.new) }
{
    match (position, value) {
        (0, ComponentValue::Components(ancestors)) => part.ancestors = Some(ancestors),
        (1, ComponentValue::Components(descendants)) => part.descendants = Some(descendants),
        (2, ComponentValue::Components(variants)) => part.variants = Some(variants),
        _ => unreachable!(),
    }
}

/// Puts what a child of a pedigree was read as into its field, where it holds no components.
#[tactic(auto, unfolding(cdx_machine::proofs::OnRows::on_rows))]
pub(crate) fn put_pedigree_leaf(part: &mut PedigreePart, position: usize, value: LeafValue)
    requires { at_position pedigree_readers position ≡ Some (Leaf (leaf_value_kind value)) }
    ensures { Puts (record_plan pedigree).children position (leaf_value_tree value)
        (pedigree_part part.old) (pedigree_part part.new) }
{
    match (position, value) {
        (3, LeafValue::Commits(commits)) => part.commits = Some(commits),
        (4, LeafValue::Patches(patches)) => part.patches = Some(patches),
        (5, LeafValue::Text(notes)) => part.notes = Some(notes),
        _ => unreachable!(),
    }
}

/// Puts what a child of a component was read as into its field, where it holds no components.
pub(crate) fn put_component_leaf(part: &mut ComponentPart, position: usize, value: LeafValue)
    requires { at_position component_readers position ≡ Some (Leaf (leaf_value_kind value)) }
    ensures { Puts (record_plan component).children position (leaf_value_tree value)
        (component_part part.old) (component_part part.new) }
{
    if position < 3 {
        put_origin(&mut part.origin, position, value)
    } else if position < 9 {
        put_naming(&mut part.naming, position, value)
    } else if position < 15 {
        put_marks(&mut part.marks, position, value)
    } else {
        put_contents(&mut part.contents, position, value)
    }
}

// The same of the first children, whatever the other fields are.
#[tactic(auto, unfolding(cdx_machine::proofs::OnRows::on_rows))]
fn put_origin(part: &mut Origin, position: usize, value: LeafValue)
    requires read { at_position component_readers position ≡ Some (Leaf (leaf_value_kind value)) }
    requires before { position < 3 }
    ensures { (others : Trees) → Puts (record_plan component).children position
        (leaf_value_tree value) (origin_trees part.old ⧺ others) (origin_trees part.new ⧺ others) }
{
    match (position, value) {
        (0, LeafValue::Entity(supplier)) => part.supplier = Some(supplier),
        (1, LeafValue::Text(author)) => part.author = Some(author),
        (2, LeafValue::Text(publisher)) => part.publisher = Some(publisher),
        _ => unreachable!(),
    }
}

// The same of the children from the group to the hashes.
#[tactic(auto, unfolding(cdx_machine::proofs::OnRows::on_rows))]
fn put_naming(part: &mut NamingPart, position: usize, value: LeafValue)
    requires read { at_position component_readers position ≡ Some (Leaf (leaf_value_kind value)) }
    requires after { 3 ≤ position }
    requires before { position < 9 }
    ensures { (o : OriginRows) (others : Trees) → Puts (record_plan component).children position
        (leaf_value_tree value) (origin_trees o ⧺ (naming_part part.old ⧺ others))
        (origin_trees o ⧺ (naming_part part.new ⧺ others)) }
{
    match (position, value) {
        (3, LeafValue::Text(group)) => part.group = Some(group),
        (4, LeafValue::Text(name)) => part.name = Some(name),
        (5, LeafValue::Text(version)) => part.version = Some(version),
        (6, LeafValue::Text(description)) => part.description = Some(description),
        (7, LeafValue::Text(scope)) => part.scope = Some(scope),
        (8, LeafValue::Hashes(hashes)) => part.hashes = Some(hashes),
        _ => unreachable!(),
    }
}

// The same of the children from the licenses to the mark of a change.
#[tactic(auto, unfolding(cdx_machine::proofs::OnRows::on_rows))]
fn put_marks(part: &mut Marks, position: usize, value: LeafValue)
    requires read { at_position component_readers position ≡ Some (Leaf (leaf_value_kind value)) }
    requires after { 9 ≤ position }
    requires before { position < 15 }
    ensures { (o : OriginRows) (n : NamingRows) (others : Trees)
        → Puts (record_plan component).children position (leaf_value_tree value)
        (origin_trees o ⧺ (naming_part n ⧺ (marks_trees part.old ⧺ others)))
        (origin_trees o ⧺ (naming_part n ⧺ (marks_trees part.new ⧺ others))) }
{
    match (position, value) {
        (9, LeafValue::Licenses(licenses)) => part.licenses = Some(licenses),
        (10, LeafValue::Text(copyright)) => part.copyright = Some(copyright),
        (11, LeafValue::Text(cpe)) => part.cpe = Some(Cpe(cpe)),
        (12, LeafValue::Text(purl)) => part.purl = Some(purl),
        (13, LeafValue::Swid(swid)) => part.swid = Some(swid),
        (14, LeafValue::Flag(modified)) => part.modified = Some(modified),
        _ => unreachable!(),
    }
}

// The same of the children behind those.
#[tactic(auto, unfolding(cdx_machine::proofs::OnRows::on_rows))]
fn put_contents(part: &mut Contents, position: usize, value: LeafValue)
    requires read { at_position component_readers position ≡ Some (Leaf (leaf_value_kind value)) }
    requires after { 15 ≤ position }
    ensures { (o : OriginRows) (n : NamingRows) (m : MarksRows)
        → Puts (record_plan component).children position (leaf_value_tree value)
        (origin_trees o ⧺ (naming_part n ⧺ (marks_trees m ⧺ contents_trees part.old)))
        (origin_trees o ⧺ (naming_part n ⧺ (marks_trees m ⧺ contents_trees part.new))) }
{
    match (position, value) {
        (16, LeafValue::ExternalReferences(references)) => part.external_references = Some(
            references,
        ),
        (17, LeafValue::Properties(properties)) => part.properties = Some(properties),
        (19, LeafValue::Evidence(evidence)) => part.evidence = Some(evidence),
        (20, LeafValue::Signature(signature)) => part.signature = Some(signature),
        _ => unreachable!(),
    }
}
