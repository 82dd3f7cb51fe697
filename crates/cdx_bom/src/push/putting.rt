//! What a child of a bill was read as goes into the field of its position.

ghost use Rattle.std.specs.Prelude.{◌≡◌, Some};
ghost use Rattle.cdx_models.specs.Trees.{bill};
ghost use Rattle.cdx_schema.specs.XmlReading.{record_plan};
ghost use Rattle.cdx_machine.specs.Several.{at_position, Puts};
ghost use Rattle.cdx_nest_machine.specs.declared.nested.ChildReader.TheVariants.{Leaf, Nested};
ghost use Rattle.cdx_push.specs.Leaf.{value_kind as leaf_value_kind, value_tree as leaf_value_tree};
ghost use Rattle.cdx_nest.specs.Frames.{value_kind as nest_value_kind, value_tree as nest_value_tree};
ghost use Rattle.cdx_bom.specs.Reading.{bill_slots};
ghost use Rattle.cdx_bom.specs.Frames.{bill_readers};
ghost use Rattle.cdx_bom.specs.declared.push.frame.BillKind.TheVariants.{Nest};

use crate::xml::reading::part::BillPart;
use cdx_nest::NestValue;
use cdx_push::LeafValue;

/// Puts the metadata, the components or the services of a bill into their field.
#[tactic(auto, unfolding(cdx_machine::proofs::OnRows::on_rows))]
pub(crate) fn put_nested(part: &mut BillPart, position: usize, value: NestValue)
    requires { at_position bill_readers position ≡ Some (Nested (Nest (nest_value_kind value))) }
    ensures { Puts (record_plan bill).children position (nest_value_tree value)
        (bill_slots part.old) (bill_slots part.new) }
{
    match (position, value) {
        (0, NestValue::Metadata(metadata)) => part.inventory.metadata = Some(metadata),
        (1, NestValue::Components(components)) => part.inventory.components = Some(components),
        (2, NestValue::Services(services)) => part.inventory.services = Some(services),
        _ => unreachable!(),
    }
}

/// Puts what another child of a bill was read as into its field.
#[tactic(auto, unfolding(cdx_machine::proofs::OnRows::on_rows))]
pub(crate) fn put_relation(part: &mut BillPart, position: usize, value: LeafValue)
    requires { at_position bill_readers position ≡ Some (Leaf (leaf_value_kind value)) }
    ensures { Puts (record_plan bill).children position (leaf_value_tree value)
        (bill_slots part.old) (bill_slots part.new) }
{
    match (position, value) {
        (3, LeafValue::ExternalReferences(references)) => part.relations.external_references = Some(
            references,
        ),
        (4, LeafValue::Dependencies(dependencies)) => part.relations.dependencies = Some(
            dependencies,
        ),
        (5, LeafValue::Compositions(compositions)) => part.relations.compositions = Some(
            compositions,
        ),
        (6, LeafValue::Properties(properties)) => part.relations.properties = Some(properties),
        (7, LeafValue::Signature(signature)) => part.relations.signature = Some(signature),
        _ => unreachable!(),
    }
}
