//! Elements that are services and lists of services, which stand in one another.

ghost use Rattle.cdx_models.specs.Trees.{service};
ghost use Rattle.cdx_schema.specs.Kinds.{services, a_list, a_record};
ghost use Rattle.cdx_schema.specs.Depths.{depth_of};
ghost use Rattle.cdx_leaf.specs.Reading.{IsIn, ReadsAs};
ghost use Rattle.cdx_service.specs.Trees.{service_tree, services_tree};

use crate::frames::{ServiceFrame, ServiceKind, ServiceValue};
use crate::service::{Service, Services};
use cdx_events::EventReader;
use cdx_leaf::{Reading, Start};
use cdx_nest_machine::read_element;
use cdx_schema::Depth;

/// The service that the element is. Inside 32 services it is too deep, at the place of its start and whatever it holds.
pub(crate) fn read_service_element(
    reader: &mut EventReader<'_>,
    opened: &Start<'_>,
    depth: Depth,
) -> Reading<Service>
    requires { IsIn reader.old opened.now.element.now }
    ensures { ReadsAs service_tree reader.old reader.new opened.now.element.now
        opened.now.attributes.now opened.now.version (a_record service)
        (λ _. depth_of depth) result }
{
    match read_element::<ServiceFrame>(reader, opened, ServiceKind::Service, depth)? {
        ServiceValue::Service(service) => Ok(service),
        ServiceValue::Services(_) => unreachable!(),
    }
}

/// The services that the element's children of that name are; other children are skipped, and texts are unexpected.
pub(crate) fn read_services_element(
    reader: &mut EventReader<'_>,
    opened: &Start<'_>,
    depth: Depth,
) -> Reading<Services>
    requires { IsIn reader.old opened.now.element.now }
    ensures { ReadsAs services_tree reader.old reader.new opened.now.element.now
        opened.now.attributes.now opened.now.version (a_list services)
        (λ _. depth_of depth) result }
{
    match read_element::<ServiceFrame>(reader, opened, ServiceKind::Services, depth)? {
        ServiceValue::Services(services) => Ok(services),
        ServiceValue::Service(_) => unreachable!(),
    }
}
