//! Services and lists of services, by their own frames.

ghost use Rattle.std.specs.Prelude.{◌≡◌, ◌+◌, Some, IfOk, OnOk};
ghost use Rattle.cdx_leaf.specs.Attribute.{GivesAt};
ghost use Rattle.cdx_machine.specs.Several.{Puts};
ghost use Rattle.cdx_nest_machine.specs.declared.nested.ChildReader.TheVariants.{Nested};
ghost use Rattle.cdx_nest_machine.specs.Children.{HasReader};
ghost use Rattle.cdx_nest_machine.specs.Forms.{plan_of, first_of, last_step};
ghost use Rattle.cdx_service.specs.declared.frames.ServiceKind.{ServiceKind as Kinds};
ghost use Rattle.cdx_service.specs.Frames.{kind_of, frame_kind as service_frame_kind, frame_fields as service_fields, value_kind as service_value_kind, value_tree as service_value_tree};
ghost use Rattle.cdx_nest.specs.Frames.{among_services, nest_kind, frame_kind, frame_fields, value_kind, value_tree, reader_of};

use crate::frames::{NestFrame, NestKind, NestValue};
use cdx_leaf::{End, Start};
use cdx_models::XmlReadError;
use cdx_nest_machine::{ChildReader, Nested};
use cdx_push::LeafKind;
use cdx_service::{ServiceFrame, ServiceKind, ServiceValue};
use std::alloc::{AllocError, Global};

/// What the attributes begin, or their first fault, at the element's start.
pub(crate) fn begin_in_services(
    kind: ServiceKind,
    opened: &Start<'_>,
) -> Result<NestFrame, XmlReadError>
    ensures sort { IfOk result (λ x. frame_kind x ≡ among_services kind) }
    ensures gives { GivesAt frame_fields (opened.now.place + 1)
        (first_of (kind_of kind) opened.now.element.now.local_name opened.now.attributes.now
        opened.now.version opened.now.place) result }
{
    let frame = ServiceFrame::begin(kind, opened)?;
    Ok(NestFrame::Service(frame))
}

fn kind_among(kind: ServiceKind) -> NestKind
    ensures { result ≡ among_services kind }
{
    match kind {
        ServiceKind::Service => NestKind::Service,
        ServiceKind::Services => NestKind::Services,
    }
}

/// What reads the child of the position.
pub(crate) fn child_in_services(
    frame: &ServiceFrame,
    position: usize,
) -> ChildReader<LeafKind, NestKind>
    requires { HasReader (reader_of (among_services (service_frame_kind frame.now))) position }
    ensures { reader_of (among_services (service_frame_kind frame.now)) position ≡ Some result }
{
    match frame.child(position) {
        ChildReader::Leaf(kind) => ChildReader::Leaf(kind),
        ChildReader::Nested(kind) => ChildReader::Nested(kind_among(kind)),
    }
}

// The value, where it is read by the frames of services.
fn value_within(value: NestValue) -> ServiceValue
    requires { (k : Kinds) × (value_kind value ≡ among_services k) }
    ensures sort { among_services (service_value_kind result) ≡ value_kind value }
    ensures tree { service_value_tree result ≡ value_tree value }
{
    match value {
        NestValue::Service(service) => ServiceValue::Service(service),
        NestValue::Services(services) => ServiceValue::Services(services),
        _ => unreachable!(),
    }
}

/// Puts what the child of the position was read as into its field.
pub(crate) fn put_in_services(
    frame: &mut ServiceFrame,
    position: usize,
    alloc: Global,
    value: NestValue,
) -> Result<(), AllocError>
    requires { reader_of (among_services (service_frame_kind frame.old)) position
        ≡ Some (Nested (value_kind value)) }
    ensures sort { service_frame_kind frame.new ≡ service_frame_kind frame.old }
    ensures puts { OnOk result (Puts
        (plan_of (nest_kind (among_services (service_frame_kind frame.old)))).children position
        (value_tree value) (service_fields frame.old) (service_fields frame.new)) }
{
    frame.put(position, alloc, value_within(value))
}

/// The value, or the fault of the first required child that is missing, at the element's end.
pub(crate) fn finish_in_services(
    frame: ServiceFrame,
    closed: &End<'_>,
) -> Result<NestValue, XmlReadError>
    ensures sort { IfOk result (λ x. value_kind x ≡ among_services (service_frame_kind frame)) }
    ensures gives { GivesAt value_tree (closed.now.place + 1)
        (last_step (nest_kind (among_services (service_frame_kind frame)))
        closed.now.element.now.local_name closed.now.version closed.now.place
        (service_fields frame)) result }
{
    match frame.finish(closed)? {
        ServiceValue::Service(service) => Ok(NestValue::Service(service)),
        ServiceValue::Services(services) => Ok(NestValue::Services(services)),
    }
}
