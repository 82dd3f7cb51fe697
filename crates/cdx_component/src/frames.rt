//! Components, lists of components and pedigrees while their elements are open. They stand in one another: one machine
//! with a stack of these reads them.

ghost use Rattle.cdx_models.specs.Trees.{component};
ghost use Rattle.cdx_schema.specs.Kinds.{a_record};
ghost use Rattle.cdx_schema.specs.Depths.{depth_of};
ghost use Rattle.cdx_nest_machine.specs.Children.{Deepens};

mod children;
mod names;
mod putting;

use crate::component::{Component, Components, Pedigree};
use crate::frames::children::{component_child, pedigree_child};
use crate::frames::names::{find_in_component, find_in_list, find_in_pedigree};
use crate::frames::putting::{
    push_component, put_component_leaf, put_part, put_pedigree_leaf, put_relatives,
};
use crate::xml::reading::begin::{begin_component, begin_pedigree};
use crate::xml::reading::finish::{finish_component, finish_pedigree};
use crate::xml::reading::parts::{ComponentPart, PedigreePart};
use cdx_events::OwnedName;
use cdx_leaf::{End, Rule, Start};
use cdx_machine::FoundChild;
use cdx_models::{SpecVersion, XmlReadError};
use cdx_nest_machine::{ChildReader, Nested};
use cdx_push::{Leaf, LeafKind, LeafValue};
use cdx_schema::Depth;
use std::alloc::{AllocError, Global};

/// What an element is read as that holds components or stands in one.
#[derive(Clone, Copy, Debug)]
pub enum ComponentKind {
    /// A component.
    Component,
    /// A list of components.
    Components,
    /// A pedigree.
    Pedigree,
}

/// What such an element was read as, in the variant that has the name of its kind.
#[derive(Drop)]
pub enum ComponentValue {
    /// A component.
    Component(Component),
    /// A list of components.
    Components(Components),
    /// A pedigree.
    Pedigree(Pedigree),
}

/// What was read of such an element while it is open, in the variant that has the name of its kind.
#[derive(Drop)]
pub enum ComponentFrame {
    /// A component, of which children may be missing yet.
    Component(ComponentPart),
    /// A list of the components so far.
    Components(Components),
    /// A pedigree with the children so far.
    Pedigree(PedigreePart),
}

// How deep the parts of a component stand, or `None` where it is too deep itself.
fn deeper_component(depth: Depth) -> Option<Depth>
    ensures { Deepens (a_record component) (depth_of depth) result }
{
    if depth.components >= 32 {
        return None;
    }
    Some(Depth {
        components: depth.components + 1,
        services: depth.services,
    })
}

impl Nested for ComponentFrame {
    ghost use Rattle.cdx_component.specs.Frames.{kind_of, frame_kind, frame_fields, value_kind, value_tree, reader_of};
    ghost use Rattle.cdx_component.specs.FrameLaws.{children_by_rows, kinds_nested, kinds_no_bill};

    type Sort = ComponentKind;

    type Value = ComponentValue;

    type Leaf = Leaf;

    ghost as_kind = { kind_of };

    ghost sort_of = { frame_kind };

    ghost fields = { frame_fields };

    ghost value_sort = { value_kind };

    ghost tree = { value_tree };

    ghost child_of = { reader_of };

    fn rule(&self) -> Rule {
        Rule::Lax
    }

    fn deeper(sort: &ComponentKind, depth: Depth) -> Option<Depth> {
        match sort {
            ComponentKind::Component => deeper_component(depth),
            ComponentKind::Components => Some(depth),
            ComponentKind::Pedigree => Some(depth),
        }
    }

    fn begin(sort: ComponentKind, opened: &Start<'_>) -> Result<ComponentFrame, XmlReadError> {
        match sort {
            ComponentKind::Component => {
                let part = begin_component(opened)?;
                Ok(ComponentFrame::Component(part))
            }
            ComponentKind::Components => Ok(ComponentFrame::Components(Components::new(
                opened.alloc,
            ))),
            ComponentKind::Pedigree => Ok(ComponentFrame::Pedigree(begin_pedigree())),
        }
    }

    fn find(&self, version: SpecVersion, name: &OwnedName) -> FoundChild {
        match self {
            ComponentFrame::Component(_) => find_in_component(version, name),
            ComponentFrame::Components(_) => find_in_list(name),
            ComponentFrame::Pedigree(_) => find_in_pedigree(name),
        }
    }

    fn child(&self, position: usize) -> ChildReader<LeafKind, ComponentKind> {
        match self {
            ComponentFrame::Component(_) => component_child(position),
            ComponentFrame::Components(_) => ChildReader::Nested(ComponentKind::Component),
            ComponentFrame::Pedigree(_) => pedigree_child(position),
        }
    }

    fn put(
        &mut self,
        position: usize,
        _alloc: Global,
        value: ComponentValue,
    ) -> Result<(), AllocError> {
        match self {
            ComponentFrame::Component(part) => {
                put_part(&mut part.contents, position, value);
                Ok(())
            }
            ComponentFrame::Components(list) => push_component(list, position, value),
            ComponentFrame::Pedigree(part) => {
                put_relatives(part, position, value);
                Ok(())
            }
        }
    }

    fn put_leaf(
        &mut self,
        position: usize,
        _alloc: Global,
        value: LeafValue,
    ) -> Result<(), AllocError> {
        match self {
            ComponentFrame::Component(part) => {
                put_component_leaf(part, position, value);
                Ok(())
            }
            ComponentFrame::Components(_) => unreachable!(),
            ComponentFrame::Pedigree(part) => {
                put_pedigree_leaf(part, position, value);
                Ok(())
            }
        }
    }

    fn finish(self, closed: &End<'_>) -> Result<ComponentValue, XmlReadError> {
        match self {
            ComponentFrame::Component(part) => {
                let component = finish_component(closed, part)?;
                Ok(ComponentValue::Component(component))
            }
            ComponentFrame::Components(list) => Ok(ComponentValue::Components(list)),
            ComponentFrame::Pedigree(part) => Ok(ComponentValue::Pedigree(finish_pedigree(part))),
        }
    }

    ghost children = { children_by_rows };

    ghost nested = { kinds_nested };

    ghost no_bill = { kinds_no_bill };
}
