//! Services and lists of services as frames of the machine with a stack.

mod children;
mod names;
mod putting;

use crate::service::{Service, Services};
use crate::xml::reading::begin::begin_service;
use crate::xml::reading::finish::finish_service;
use crate::xml::reading::parts::ServicePart;
use cdx_events::OwnedName;
use cdx_leaf::{End, Rule, Start};
use cdx_machine::FoundChild;
use cdx_models::{SpecVersion, XmlReadError};
use cdx_nest_machine::{ChildReader, Nested};
use cdx_push::{Leaf, LeafKind, LeafValue};
use cdx_schema::Depth;
use children::service_child;
use names::find_in_service;
use putting::{push_service, put_service_leaf, put_services};
use std::alloc::{AllocError, Global};

/// What an element of services is read as.
#[derive(Clone, Copy, Debug)]
pub enum ServiceKind {
    /// A service.
    Service,
    /// A list of services.
    Services,
}

/// What an element was read as, in the variant that has the name of its kind.
#[derive(Drop)]
pub enum ServiceValue {
    /// A service.
    Service(Service),
    /// A list of services.
    Services(Services),
}

/// What was read so far of an element that is a service or a list of services.
#[derive(Drop)]
pub enum ServiceFrame {
    /// The rows of a service. Its own services stand one level deeper.
    Service(ServicePart),
    /// The services of a list.
    Services(Services),
}

/// The rows in the schema's order; elements that no row has are skipped, and texts are unexpected. A service inside 32
/// services is too deep, at the place of its start and whatever it holds, and a list of services is as deep as the services
/// around it.
#[tactic(auto, unfolding(cdx_machine::proofs::OnRows::on_rows), using(cdx_machine::proofs::OnRows::by_rows))]
impl Nested for ServiceFrame {
    ghost use Rattle.cdx_service.specs.Frames.{kind_of, frame_kind, frame_fields, value_kind, value_tree, reader_of};
    ghost use Rattle.cdx_service.specs.FrameLaws.{children_by_rows, kinds_nested, kinds_no_bill};

    type Sort = ServiceKind;

    type Value = ServiceValue;

    type Leaf = Leaf;

    ghost as_kind = { kind_of };

    ghost sort_of = { frame_kind };

    ghost fields = { frame_fields };

    ghost value_sort = { value_kind };

    ghost tree = { value_tree };

    ghost child_of = { reader_of };

    ghost children = { children_by_rows };

    ghost nested = { kinds_nested };

    ghost no_bill = { kinds_no_bill };

    fn rule(&self) -> Rule {
        match self {
            ServiceFrame::Service(_) => Rule::Lax,
            ServiceFrame::Services(_) => Rule::Lax,
        }
    }

    fn deeper(sort: &ServiceKind, depth: Depth) -> Option<Depth> {
        match sort {
            ServiceKind::Service => {
                if depth.services >= 32 {
                    return None;
                }
                Some(Depth {
                    components: depth.components,
                    services: depth.services + 1,
                })
            }
            ServiceKind::Services => Some(depth),
        }
    }

    fn begin(sort: ServiceKind, opened: &Start<'_>) -> Result<ServiceFrame, XmlReadError> {
        match sort {
            ServiceKind::Service => Ok(ServiceFrame::Service(begin_service(
                opened.alloc,
                opened.attributes,
            )?)),
            ServiceKind::Services => Ok(ServiceFrame::Services(Services::new(opened.alloc))),
        }
    }

    fn find(&self, version: SpecVersion, name: &OwnedName) -> FoundChild {
        match self {
            ServiceFrame::Service(_) => find_in_service(version, name),
            ServiceFrame::Services(_) => {
                if !name.local_name.is("service") {
                    return FoundChild::Unknown;
                }
                FoundChild::At(0)
            }
        }
    }

    fn child(&self, position: usize) -> ChildReader<LeafKind, ServiceKind> {
        match self {
            ServiceFrame::Service(_) => service_child(position),
            ServiceFrame::Services(_) => ChildReader::Nested(ServiceKind::Service),
        }
    }

    fn put(
        &mut self,
        position: usize,
        _alloc: Global,
        value: ServiceValue,
    ) -> Result<(), AllocError> {
        match self {
            ServiceFrame::Service(part) => {
                put_services(part, position, value);
                Ok(())
            }
            ServiceFrame::Services(list) => push_service(list, position, value),
        }
    }

    fn put_leaf(
        &mut self,
        position: usize,
        _alloc: Global,
        value: LeafValue,
    ) -> Result<(), AllocError> {
        let ServiceFrame::Service(part) = self else {
            unreachable!()
        };
        put_service_leaf(part, position, value);
        Ok(())
    }

    fn finish(self, closed: &End<'_>) -> Result<ServiceValue, XmlReadError> {
        match self {
            ServiceFrame::Service(part) => Ok(ServiceValue::Service(finish_service(closed, part)?)),
            ServiceFrame::Services(list) => Ok(ServiceValue::Services(list)),
        }
    }
}
