//! What reads the children of a service.

ghost use Rattle.std.specs.Prelude.{◌≡◌, Some};
ghost use Rattle.cdx_machine.specs.Several.{at_position};
ghost use Rattle.cdx_nest_machine.specs.Children.{HasReader};
ghost use Rattle.cdx_service.specs.Frames.{service_readers};

use crate::frames::ServiceKind;
use cdx_nest_machine::ChildReader;
use cdx_push::LeafKind;

/// What reads the child of the position.
pub(crate) fn service_child(position: usize) -> ChildReader<LeafKind, ServiceKind>
    requires { HasReader (at_position service_readers) position }
    ensures { at_position service_readers position ≡ Some result }
{
    match position {
        0 => ChildReader::Leaf(LeafKind::Entity),
        1 => ChildReader::Leaf(LeafKind::Text),
        2 => ChildReader::Leaf(LeafKind::Text),
        3 => ChildReader::Leaf(LeafKind::Text),
        4 => ChildReader::Leaf(LeafKind::Text),
        5 => ChildReader::Leaf(LeafKind::Endpoints),
        6 => ChildReader::Leaf(LeafKind::Flag),
        7 => ChildReader::Leaf(LeafKind::Flag),
        8 => ChildReader::Leaf(LeafKind::Data),
        9 => ChildReader::Leaf(LeafKind::Licenses),
        10 => ChildReader::Leaf(LeafKind::ExternalReferences),
        11 => ChildReader::Leaf(LeafKind::Properties),
        12 => ChildReader::Nested(ServiceKind::Services),
        13 => ChildReader::Leaf(LeafKind::Signature),
        14 => ChildReader::Leaf(LeafKind::Text),
        _ => unreachable!(),
    }
}
