//! Services and lists of services in JSON.

ghost use Rattle.cdx_service.specs.Stays.{service_stays, services_stay};

mod keeping;
mod reading;
mod writing;

use crate::service::{Service, Services};
use cdx_json::{Context, FromJson, Keeping, Kept, Spelling, ToJson};
use cdx_models::{JsonReadError, SpecVersion};
use cdx_schema::Target;
use keeping::{keep_service, keep_services};
use reading::{read_service, read_services};
use serde_json::Value;
use std::alloc::{AllocError, Global};
use writing::{write_service, write_services};

impl FromJson for Service {
    fn from_json_at(value: &Value, context: Context) -> Result<Service, JsonReadError> {
        read_service(value, context)
    }
}

impl Kept for Service {
    ghost stays = { service_stays };

    fn kept_as(&self, keeping: Keeping) -> Result<Service, AllocError> {
        keep_service(self, keeping)
    }
}

impl ToJson for Service {
    fn spelling(&self, alloc: Global, version: SpecVersion) -> Result<Spelling<'_>, AllocError> {
        write_service(self, Target { alloc, version })
    }
}

impl FromJson for Services {
    fn from_json_at(value: &Value, context: Context) -> Result<Services, JsonReadError> {
        read_services(value, context)
    }
}

impl Kept for Services {
    ghost stays = { services_stay };

    fn kept_as(&self, keeping: Keeping) -> Result<Services, AllocError> {
        keep_services(self, keeping)
    }
}

impl ToJson for Services {
    fn spelling(&self, alloc: Global, version: SpecVersion) -> Result<Spelling<'_>, AllocError> {
        write_services(self, Target { alloc, version })
    }
}
