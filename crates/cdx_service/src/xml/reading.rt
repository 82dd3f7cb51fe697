//! Services and lists of services from XML, by the machine with a stack.

ghost use Rattle.std.specs.Prelude.{refl};
ghost use Rattle.cdx_schema.specs.Depth.{top};

pub(crate) mod begin;
mod elements;
pub(crate) mod finish;
pub(crate) mod parts;

use crate::service::{Service, Services};
use crate::xml::reading::elements::{read_service_element, read_services_element};
use cdx_events::EventReader;
use cdx_leaf::{FromXml, Reading, Start};
use cdx_schema::Depth;

/// The rows in the schema's order; elements that no row has are skipped, and texts are unexpected. The services that stand
/// in it are counted from itself on.
impl FromXml for Service {
    ghost depth = { λ d. top };

    ghost at_top = { refl };

    fn read_from(reader: &mut EventReader<'_>, opened: &Start<'_>) -> Reading<Service> {
        read_service_element(reader, opened, Depth::top())
    }
}

/// The services that stand in it are counted from itself on.
impl FromXml for Services {
    ghost depth = { λ d. top };

    ghost at_top = { refl };

    fn read_from(reader: &mut EventReader<'_>, opened: &Start<'_>) -> Reading<Services> {
        read_services_element(reader, opened, Depth::top())
    }
}
