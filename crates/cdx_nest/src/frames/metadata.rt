//! Metadata while its children are read, in its two groups of rows.

ghost use Rattle.std.specs.Prelude.{◌≡◌, ℕ, List, Some, Ok};
ghost use Rattle.cdx_events.specs.declared.name.OwnedAttribute.{OwnedAttribute};
ghost use Rattle.cdx_models.specs.declared.bom.SpecVersion.{SpecVersion};
ghost use Rattle.cdx_models.specs.Trees.{metadata, fields, Trees};
ghost use Rattle.cdx_schema.specs.XmlReading.{record_plan};
ghost use Rattle.cdx_machine.specs.Plain.{attributes_first};
ghost use Rattle.cdx_machine.specs.Several.{at_position, found_from, Puts};
ghost use Rattle.cdx_nest_machine.specs.declared.nested.ChildReader.TheVariants.{Leaf, Nested};
ghost use Rattle.cdx_nest_machine.specs.Children.{HasReader};
ghost use Rattle.cdx_push.specs.Leaf.{value_kind as leaf_value_kind, value_tree as leaf_value_tree};
ghost use Rattle.cdx_nest.specs.Trees.{metadata_tree};
ghost use Rattle.cdx_nest.specs.Frames.{value_kind, value_tree, metadata_readers};
ghost use Rattle.cdx_nest.specs.Reading.{metadata_part};

use crate::frames::{NestKind, NestValue};
use crate::metadata::Metadata;
use crate::metadata::parts::{Makers, Terms, assemble};
use cdx_events::OwnedName;
use cdx_machine::FoundChild;
use cdx_nest_machine::ChildReader;
use cdx_push::{LeafKind, LeafValue};

/// The rows that were read last.
#[derive(Drop)]
pub struct MetadataPart {
    pub(crate) makers: Makers,
    pub(crate) terms: Terms,
}

/// Metadata before its children. Its element's attributes say nothing.
pub(crate) fn begin_metadata() -> MetadataPart
    ensures { (name : List ℕ) (attributes : List OwnedAttribute) (v : SpecVersion) (place : ℕ)
        → attributes_first metadata name attributes v place ≡ Ok (metadata_part result) }
{
    MetadataPart {
        makers: Makers {
            timestamp: None,
            tools: None,
            authors: None,
            component: None,
            manufacture: None,
            supplier: None,
        },
        terms: Terms {
            licenses: None,
            properties: None,
        },
    }
}

/// The child of metadata that has the name. The last of several counts, so none is a second one.
#[tactic(auto, unfolding(cdx_machine::proofs::OnRows::on_rows), using(cdx_machine::proofs::OnRows::by_rows))]
pub(crate) fn find_in_metadata(name: &OwnedName) -> FoundChild
    ensures { (v : SpecVersion) (ts : Trees)
        → result ≡ found_from 0 (record_plan metadata).children ts v name.now.local_name }
{
    match name.local_name.as_str() {
        "timestamp" => FoundChild::At(0),
        "tools" => FoundChild::At(1),
        "authors" => FoundChild::At(2),
        "component" => FoundChild::At(3),
        "manufacture" => FoundChild::At(4),
        "supplier" => FoundChild::At(5),
        "licenses" => FoundChild::At(6),
        "properties" => FoundChild::At(7),
        _ => FoundChild::Unknown,
    }
}

/// What reads the child of the position in metadata.
pub(crate) fn child_in_metadata(position: usize) -> ChildReader<LeafKind, NestKind>
    requires { HasReader (at_position metadata_readers) position }
    ensures { at_position metadata_readers position ≡ Some result }
{
    match position {
        0 => ChildReader::Leaf(LeafKind::Text),
        1 => ChildReader::Nested(NestKind::Tools),
        2 => ChildReader::Leaf(LeafKind::Authors),
        3 => ChildReader::Nested(NestKind::Component),
        4 => ChildReader::Leaf(LeafKind::Entity),
        5 => ChildReader::Leaf(LeafKind::Entity),
        6 => ChildReader::Leaf(LeafKind::Licenses),
        7 => ChildReader::Leaf(LeafKind::Properties),
        _ => unreachable!(),
    }
}

/// Puts the tools or the component into their field.
#[tactic(auto, unfolding(cdx_machine::proofs::OnRows::on_rows))]
pub(crate) fn put_metadata_part(part: &mut MetadataPart, position: usize, value: NestValue)
    requires { at_position metadata_readers position ≡ Some (Nested (value_kind value)) }
    ensures { Puts (record_plan metadata).children position (value_tree value)
        (metadata_part part.old) (metadata_part part.new) }
{
    match (position, value) {
        (1, NestValue::Tools(tools)) => part.makers.tools = Some(tools),
        (3, NestValue::Component(component)) => part.makers.component = Some(component),
        _ => unreachable!(),
    }
}

/// Puts what the child of the position, which holds neither components nor services, was read as into its field.
#[tactic(auto, unfolding(cdx_machine::proofs::OnRows::on_rows))]
pub(crate) fn put_metadata_leaf(part: &mut MetadataPart, position: usize, value: LeafValue)
    requires { at_position metadata_readers position ≡ Some (Leaf (leaf_value_kind value)) }
    ensures { Puts (record_plan metadata).children position (leaf_value_tree value)
        (metadata_part part.old) (metadata_part part.new) }
{
    match (position, value) {
        (0, LeafValue::Text(timestamp)) => part.makers.timestamp = Some(timestamp),
        (2, LeafValue::Authors(authors)) => part.makers.authors = Some(authors),
        (4, LeafValue::Entity(manufacture)) => part.makers.manufacture = Some(manufacture),
        (5, LeafValue::Entity(supplier)) => part.makers.supplier = Some(supplier),
        (6, LeafValue::Licenses(licenses)) => part.terms.licenses = Some(licenses),
        (7, LeafValue::Properties(properties)) => part.terms.properties = Some(properties),
        _ => unreachable!(),
    }
}

/// The metadata of the rows that were read. Nothing has to be there.
pub(crate) fn finish_metadata(part: MetadataPart) -> Metadata
    ensures { metadata_tree result ≡ fields metadata (metadata_part part) }
{
    assemble(part.makers, part.terms)
}
