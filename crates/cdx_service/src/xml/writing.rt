//! Services and lists of services as XML events.

ghost use Rattle.std.specs.Prelude.{refl, codes};

mod elements;
mod rows;

use crate::service::{Service, Services};
use cdx_events::EventWriter;
use cdx_schema::Target;
use cdx_write::{Element, HasContent, Item, Tagged, WriteResult};
use elements::{write_service, write_services};

impl Element for Service {
    ghost keeps = { refl };

    fn write_as(&self, writer: &mut EventWriter, tag: &str, target: Target) -> WriteResult {
        write_service(self, writer, tag, target)
    }
}

impl Item for Service {
    #[tactic(auto, using(crate::proofs::Written::service_counts))]
    fn is_passed_over(&self) -> bool {
        false
    }
}

impl HasContent for Service {
    #[tactic(auto, using(crate::proofs::Written::service_will_write))]
    fn has_content(&self) -> bool {
        true
    }
}

impl Tagged for Service {
    ghost own_name = { codes "service" };

    fn own_name() -> &'static str {
        "service"
    }
}

impl Element for Services {
    ghost keeps = { refl };

    fn write_as(&self, writer: &mut EventWriter, tag: &str, target: Target) -> WriteResult {
        write_services(self, writer, tag, target)
    }
}

impl HasContent for Services {
    #[tactic(auto, using(crate::proofs::Written::services_will_write))]
    fn has_content(&self) -> bool {
        true
    }
}

impl Tagged for Services {
    ghost own_name = { codes "services" };

    fn own_name() -> &'static str {
        "services"
    }
}
