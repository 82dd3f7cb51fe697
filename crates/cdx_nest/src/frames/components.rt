//! Components, lists of components and pedigrees, by their own frames.

ghost use Rattle.std.specs.Prelude.{◌≡◌, ◌+◌, Some, IfOk, OnOk};
ghost use Rattle.cdx_leaf.specs.Attribute.{GivesAt};
ghost use Rattle.cdx_machine.specs.Several.{Puts};
ghost use Rattle.cdx_nest_machine.specs.declared.nested.ChildReader.TheVariants.{Nested};
ghost use Rattle.cdx_nest_machine.specs.Children.{HasReader};
ghost use Rattle.cdx_nest_machine.specs.Forms.{plan_of, first_of, last_step};
ghost use Rattle.cdx_component.specs.declared.frames.ComponentKind.{ComponentKind as Kinds};
ghost use Rattle.cdx_component.specs.Frames.{kind_of, frame_kind as component_frame_kind, frame_fields as component_fields, value_kind as component_value_kind, value_tree as component_value_tree};
ghost use Rattle.cdx_nest.specs.Frames.{among_components, nest_kind, frame_kind, frame_fields, value_kind, value_tree, reader_of};

use crate::frames::{NestFrame, NestKind, NestValue};
use cdx_component::{ComponentFrame, ComponentKind, ComponentValue};
use cdx_leaf::{End, Start};
use cdx_models::XmlReadError;
use cdx_nest_machine::{ChildReader, Nested};
use cdx_push::LeafKind;
use std::alloc::{AllocError, Global};

/// What the attributes begin, or their first fault, at the element's start.
pub(crate) fn begin_in_components(
    kind: ComponentKind,
    opened: &Start<'_>,
) -> Result<NestFrame, XmlReadError>
    ensures sort { IfOk result (λ x. frame_kind x ≡ among_components kind) }
    ensures gives { GivesAt frame_fields (opened.now.place + 1)
        (first_of (kind_of kind) opened.now.element.now.local_name opened.now.attributes.now
        opened.now.version opened.now.place) result }
{
    let frame = ComponentFrame::begin(kind, opened)?;
    Ok(NestFrame::Component(frame))
}

fn kind_among(kind: ComponentKind) -> NestKind
    ensures { result ≡ among_components kind }
{
    match kind {
        ComponentKind::Component => NestKind::Component,
        ComponentKind::Components => NestKind::Components,
        ComponentKind::Pedigree => NestKind::Pedigree,
    }
}

/// What reads the child of the position.
pub(crate) fn child_in_components(
    frame: &ComponentFrame,
    position: usize,
) -> ChildReader<LeafKind, NestKind>
    requires { HasReader (reader_of (among_components (component_frame_kind frame.now))) position }
    ensures { reader_of (among_components (component_frame_kind frame.now)) position ≡ Some result }
{
    match frame.child(position) {
        ChildReader::Leaf(kind) => ChildReader::Leaf(kind),
        ChildReader::Nested(kind) => ChildReader::Nested(kind_among(kind)),
    }
}

// The value, where it is read by the frames of components.
fn value_within(value: NestValue) -> ComponentValue
    requires { (k : Kinds) × (value_kind value ≡ among_components k) }
    ensures sort { among_components (component_value_kind result) ≡ value_kind value }
    ensures tree { component_value_tree result ≡ value_tree value }
{
    match value {
        NestValue::Component(component) => ComponentValue::Component(component),
        NestValue::Components(components) => ComponentValue::Components(components),
        NestValue::Pedigree(pedigree) => ComponentValue::Pedigree(pedigree),
        _ => unreachable!(),
    }
}

/// Puts what the child of the position was read as into its field.
pub(crate) fn put_in_components(
    frame: &mut ComponentFrame,
    position: usize,
    alloc: Global,
    value: NestValue,
) -> Result<(), AllocError>
    requires { reader_of (among_components (component_frame_kind frame.old)) position
        ≡ Some (Nested (value_kind value)) }
    ensures sort { component_frame_kind frame.new ≡ component_frame_kind frame.old }
    ensures puts { OnOk result (Puts
        (plan_of (nest_kind (among_components (component_frame_kind frame.old)))).children position
        (value_tree value) (component_fields frame.old) (component_fields frame.new)) }
{
    frame.put(position, alloc, value_within(value))
}

/// The value, or the fault of the first required child that is missing, at the element's end.
pub(crate) fn finish_in_components(
    frame: ComponentFrame,
    closed: &End<'_>,
) -> Result<NestValue, XmlReadError>
    ensures sort { IfOk result (λ x. value_kind x ≡ among_components (component_frame_kind frame)) }
    ensures gives { GivesAt value_tree (closed.now.place + 1)
        (last_step (nest_kind (among_components (component_frame_kind frame)))
        closed.now.element.now.local_name closed.now.version closed.now.place
        (component_fields frame)) result }
{
    match frame.finish(closed)? {
        ComponentValue::Component(component) => Ok(NestValue::Component(component)),
        ComponentValue::Components(components) => Ok(NestValue::Components(components)),
        ComponentValue::Pedigree(pedigree) => Ok(NestValue::Pedigree(pedigree)),
    }
}
