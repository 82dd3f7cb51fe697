//! Elements that stand in one another, while they are open: components and services, tools and metadata. One machine with
//! a stack of these reads them.

mod components;
mod metadata;
mod services;
mod tools;

use crate::frames::components::{
    begin_in_components, child_in_components, finish_in_components, put_in_components,
};
use crate::frames::metadata::{
    MetadataPart, begin_metadata, child_in_metadata, find_in_metadata, finish_metadata,
    put_metadata_leaf, put_metadata_part,
};
use crate::frames::services::{
    begin_in_services, child_in_services, finish_in_services, put_in_services,
};
use crate::frames::tools::{
    ToolsPart, begin_tools, child_in_tools, find_in_tools, finish_tools, put_tool, put_tools_part,
};
use crate::metadata::Metadata;
use crate::tools::Tools;
use cdx_component::{Component, ComponentFrame, ComponentKind, Components, Pedigree};
use cdx_events::OwnedName;
use cdx_leaf::{End, Rule, Start};
use cdx_machine::FoundChild;
use cdx_models::{SpecVersion, XmlReadError};
use cdx_nest_machine::{ChildReader, Nested};
use cdx_push::{Leaf, LeafKind, LeafValue};
use cdx_schema::Depth;
use cdx_service::{Service, ServiceFrame, ServiceKind, Services};
use std::alloc::{AllocError, Global};

/// What an element is read as that holds components or services, or is one.
#[derive(Clone, Copy, Debug)]
pub enum NestKind {
    /// Tools.
    Tools,
    /// A component.
    Component,
    /// A list of components.
    Components,
    /// A pedigree.
    Pedigree,
    /// A service.
    Service,
    /// A list of services.
    Services,
    /// The metadata of a bill.
    Metadata,
}

/// What such an element was read as, in the variant that has the name of its kind.
#[derive(Drop)]
pub enum NestValue {
    /// Tools.
    Tools(Tools),
    /// A component.
    Component(Component),
    /// A list of components.
    Components(Components),
    /// A pedigree.
    Pedigree(Pedigree),
    /// A service.
    Service(Service),
    /// A list of services.
    Services(Services),
    /// The metadata of a bill.
    Metadata(Metadata),
}

/// What became of an event.
#[derive(Drop)]
pub enum NestStep {
    /// The element goes on.
    More,
    /// The element has ended, and was read as this.
    Done(NestValue),
}

/// What was read of such an element while it is open.
#[derive(Drop)]
pub enum NestFrame {
    /// A component, a list of components or a pedigree.
    Component(ComponentFrame),
    /// A service or a list of services.
    Service(ServiceFrame),
    /// Tools with the children so far.
    Tools(ToolsPart),
    /// Metadata with the children so far.
    Metadata(MetadataPart),
}

/// Components and services are read by their own frames. Metadata takes each child that CycloneDX names, in any order; a
/// repeated one is read each time, and the last counts; other elements are skipped whole, and a text is unexpected at its
/// place. Tools are a list of tools, or from 1.5 on services and components; other elements and texts are unexpected.
impl Nested for NestFrame {
    ghost use Rattle.cdx_nest.specs.Frames.{nest_kind, frame_kind, frame_fields, value_kind, value_tree, reader_of};
    ghost use Rattle.cdx_nest.specs.FrameLaws.{children_by_rows, kinds_nested, kinds_no_bill};

    type Sort = NestKind;

    type Value = NestValue;

    type Leaf = Leaf;

    ghost as_kind = { nest_kind };

    ghost sort_of = { frame_kind };

    ghost fields = { frame_fields };

    ghost value_sort = { value_kind };

    ghost tree = { value_tree };

    ghost child_of = { reader_of };

    fn rule(&self) -> Rule {
        match self {
            NestFrame::Component(frame) => frame.rule(),
            NestFrame::Service(frame) => frame.rule(),
            NestFrame::Tools(_) => Rule::Strict,
            NestFrame::Metadata(_) => Rule::Lax,
        }
    }

    fn deeper(sort: &NestKind, depth: Depth) -> Option<Depth> {
        match sort {
            NestKind::Tools => Some(depth),
            NestKind::Component => ComponentFrame::deeper(&ComponentKind::Component, depth),
            NestKind::Components => ComponentFrame::deeper(&ComponentKind::Components, depth),
            NestKind::Pedigree => ComponentFrame::deeper(&ComponentKind::Pedigree, depth),
            NestKind::Service => ServiceFrame::deeper(&ServiceKind::Service, depth),
            NestKind::Services => ServiceFrame::deeper(&ServiceKind::Services, depth),
            NestKind::Metadata => Some(depth),
        }
    }

    fn begin(sort: NestKind, opened: &Start<'_>) -> Result<NestFrame, XmlReadError> {
        match sort {
            NestKind::Tools => Ok(NestFrame::Tools(begin_tools(opened.alloc))),
            NestKind::Component => {
                let kind = ComponentKind::Component;
                begin_in_components(kind, opened)
            }
            NestKind::Components => {
                let kind = ComponentKind::Components;
                begin_in_components(kind, opened)
            }
            NestKind::Pedigree => {
                let kind = ComponentKind::Pedigree;
                begin_in_components(kind, opened)
            }
            NestKind::Service => {
                let kind = ServiceKind::Service;
                begin_in_services(kind, opened)
            }
            NestKind::Services => {
                let kind = ServiceKind::Services;
                begin_in_services(kind, opened)
            }
            NestKind::Metadata => Ok(NestFrame::Metadata(begin_metadata())),
        }
    }

    fn find(&self, version: SpecVersion, name: &OwnedName) -> FoundChild {
        match self {
            NestFrame::Component(frame) => frame.find(version, name),
            NestFrame::Service(frame) => frame.find(version, name),
            NestFrame::Tools(_) => find_in_tools(version, name),
            NestFrame::Metadata(_) => find_in_metadata(name),
        }
    }

    fn child(&self, position: usize) -> ChildReader<LeafKind, NestKind> {
        match self {
            NestFrame::Component(frame) => child_in_components(frame, position),
            NestFrame::Service(frame) => child_in_services(frame, position),
            NestFrame::Tools(_) => child_in_tools(position),
            NestFrame::Metadata(_) => child_in_metadata(position),
        }
    }

    fn put(&mut self, position: usize, alloc: Global, value: NestValue) -> Result<(), AllocError> {
        match self {
            NestFrame::Component(frame) => put_in_components(frame, position, alloc, value),
            NestFrame::Service(frame) => put_in_services(frame, position, alloc, value),
            NestFrame::Tools(part) => {
                put_tools_part(part, position, value);
                Ok(())
            }
            NestFrame::Metadata(part) => {
                put_metadata_part(part, position, value);
                Ok(())
            }
        }
    }

    fn put_leaf(
        &mut self,
        position: usize,
        alloc: Global,
        value: LeafValue,
    ) -> Result<(), AllocError> {
        match self {
            NestFrame::Component(frame) => frame.put_leaf(position, alloc, value),
            NestFrame::Service(frame) => frame.put_leaf(position, alloc, value),
            NestFrame::Tools(part) => put_tool(part, position, value),
            NestFrame::Metadata(part) => {
                put_metadata_leaf(part, position, value);
                Ok(())
            }
        }
    }

    fn finish(self, closed: &End<'_>) -> Result<NestValue, XmlReadError> {
        match self {
            NestFrame::Component(frame) => finish_in_components(frame, closed),
            NestFrame::Service(frame) => finish_in_services(frame, closed),
            NestFrame::Tools(part) => Ok(NestValue::Tools(finish_tools(closed, part)?)),
            NestFrame::Metadata(part) => Ok(NestValue::Metadata(finish_metadata(part))),
        }
    }

    ghost children = { children_by_rows };

    ghost nested = { kinds_nested };

    ghost no_bill = { kinds_no_bill };
}
