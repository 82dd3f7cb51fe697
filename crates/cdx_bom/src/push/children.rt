//! The children of a bill: which one a name stands for, by its position in the plan, and what reads it.

ghost use Rattle.std.specs.Prelude.{◌≡◌, Some, drop};
ghost use Rattle.cdx_models.specs.Trees.{bill, Trees};
ghost use Rattle.cdx_schema.specs.Table.{rows};
ghost use Rattle.cdx_schema.specs.XmlReading.{children_from, record_plan};
ghost use Rattle.cdx_machine.specs.Several.{at_position, found_from};
ghost use Rattle.cdx_nest_machine.specs.Children.{HasReader};
ghost use Rattle.cdx_bom.specs.Frames.{nest_reader, bill_readers};

use crate::push::frame::BillKind;
use cdx_events::OwnedName;
use cdx_machine::FoundChild;
use cdx_models::SpecVersion;
use cdx_nest::NestKind;
use cdx_nest_machine::ChildReader;
use cdx_push::LeafKind;

/// The child of a bill that has the name, where the version knows it. The last of several counts, so none is a second
/// one.
#[tactic(auto, unfolding(cdx_machine::proofs::OnRows::on_rows), using(cdx_machine::proofs::OnRows::by_rows))]
pub(crate) fn find_in_bill(version: SpecVersion, name: &OwnedName) -> FoundChild
    ensures { (ts : Trees)
        → result ≡ found_from 0 (record_plan bill).children ts version name.now.local_name }
{
    match name.local_name.as_str() {
        "metadata" => FoundChild::At(0),
        "components" => FoundChild::At(1),
        "services" => FoundChild::At(2),
        _ => find_relation(version, name),
    }
}

// The same among the children of the rows from the references on.
#[tactic(auto, unfolding(cdx_machine::proofs::OnRows::on_rows), using(cdx_machine::proofs::OnRows::by_rows))]
fn find_relation(version: SpecVersion, name: &OwnedName) -> FoundChild
    ensures { (ts : Trees)
        → result
        ≡ found_from 3 (children_from 6 (drop 6 (rows bill))) ts version name.now.local_name }
{
    match name.local_name.as_str() {
        "externalReferences" => FoundChild::At(3),
        "dependencies" => FoundChild::At(4),
        "compositions" => FoundChild::At(5),
        "properties" => FoundChild::since(SpecVersion::V1_5, version, 6),
        "signature" => FoundChild::since(SpecVersion::V1_4, version, 7),
        _ => FoundChild::Unknown,
    }
}

/// What reads the child of the position in a bill.
pub(crate) fn bill_child(position: usize) -> ChildReader<LeafKind, BillKind>
    requires { HasReader (at_position bill_readers) position }
    ensures { at_position bill_readers position ≡ Some result }
{
    match position {
        0 => ChildReader::Nested(BillKind::Nest(NestKind::Metadata)),
        1 => ChildReader::Nested(BillKind::Nest(NestKind::Components)),
        2 => ChildReader::Nested(BillKind::Nest(NestKind::Services)),
        3 => ChildReader::Leaf(LeafKind::ExternalReferences),
        4 => ChildReader::Leaf(LeafKind::Dependencies),
        5 => ChildReader::Leaf(LeafKind::Compositions),
        6 => ChildReader::Leaf(LeafKind::Properties),
        7 => ChildReader::Leaf(LeafKind::Signature),
        _ => unreachable!(),
    }
}

/// What reads a child of what stands in a bill.
pub(crate) fn nest_reader(
    reader: ChildReader<LeafKind, NestKind>,
) -> ChildReader<LeafKind, BillKind>
    ensures { result ≡ nest_reader reader }
{
    match reader {
        ChildReader::Leaf(kind) => ChildReader::Leaf(kind),
        ChildReader::Nested(kind) => ChildReader::Nested(BillKind::Nest(kind)),
    }
}
