//! What reads the child of each position.

ghost use Rattle.std.specs.Prelude.{◌≡◌, Some};
ghost use Rattle.cdx_machine.specs.Several.{at_position};
ghost use Rattle.cdx_nest_machine.specs.Children.{HasReader};
ghost use Rattle.cdx_component.specs.Frames.{component_readers, pedigree_readers};

use crate::frames::ComponentKind;
use cdx_nest_machine::ChildReader;
use cdx_push::LeafKind;

/// What reads the child of the position in a component.
pub(crate) fn component_child(position: usize) -> ChildReader<LeafKind, ComponentKind>
    requires { HasReader (at_position component_readers) position }
    ensures { at_position component_readers position ≡ Some result }
{
    match position {
        0 => ChildReader::Leaf(LeafKind::Entity),
        1 => ChildReader::Leaf(LeafKind::Text),
        2 => ChildReader::Leaf(LeafKind::Text),
        3 => ChildReader::Leaf(LeafKind::Text),
        4 => ChildReader::Leaf(LeafKind::Text),
        5 => ChildReader::Leaf(LeafKind::Text),
        6 => ChildReader::Leaf(LeafKind::Text),
        7 => ChildReader::Leaf(LeafKind::Text),
        8 => ChildReader::Leaf(LeafKind::Hashes),
        9 => ChildReader::Leaf(LeafKind::Licenses),
        10 => ChildReader::Leaf(LeafKind::Text),
        11 => ChildReader::Leaf(LeafKind::Text),
        12 => ChildReader::Leaf(LeafKind::Text),
        13 => ChildReader::Leaf(LeafKind::Swid),
        14 => ChildReader::Leaf(LeafKind::Flag),
        15 => ChildReader::Nested(ComponentKind::Pedigree),
        16 => ChildReader::Leaf(LeafKind::ExternalReferences),
        17 => ChildReader::Leaf(LeafKind::Properties),
        18 => ChildReader::Nested(ComponentKind::Components),
        19 => ChildReader::Leaf(LeafKind::Evidence),
        20 => ChildReader::Leaf(LeafKind::Signature),
        _ => unreachable!(),
    }
}

/// What reads the child of the position in a pedigree.
pub(crate) fn pedigree_child(position: usize) -> ChildReader<LeafKind, ComponentKind>
    requires { HasReader (at_position pedigree_readers) position }
    ensures { at_position pedigree_readers position ≡ Some result }
{
    match position {
        0 => ChildReader::Nested(ComponentKind::Components),
        1 => ChildReader::Nested(ComponentKind::Components),
        2 => ChildReader::Nested(ComponentKind::Components),
        3 => ChildReader::Leaf(LeafKind::Commits),
        4 => ChildReader::Leaf(LeafKind::Patches),
        5 => ChildReader::Leaf(LeafKind::Text),
        _ => unreachable!(),
    }
}
