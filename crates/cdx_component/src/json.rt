//! Components, pedigrees and lists of components in JSON.

ghost use Rattle.cdx_component.specs.Stays.{component_stays, components_stay, pedigree_stays};

mod keeping;
mod reading;
mod writing;

use crate::component::{Component, Components, Pedigree};
use cdx_json::{Context, FromJson, Keeping, Kept, Spelling, ToJson};
use cdx_models::{JsonReadError, SpecVersion};
use cdx_schema::Target;
use keeping::{keep_component, keep_components, keep_pedigree};
use reading::{read_component, read_components, read_pedigree};
use serde_json::Value;
use std::alloc::{AllocError, Global};
use writing::{write_component, write_components, write_pedigree};

impl FromJson for Component {
    fn from_json_at(value: &Value, context: Context) -> Result<Component, JsonReadError> {
        read_component(value, context)
    }
}

impl Kept for Component {
    ghost stays = { component_stays };

    fn kept_as(&self, keeping: Keeping) -> Result<Component, AllocError> {
        keep_component(self, keeping)
    }
}

impl ToJson for Component {
    fn spelling(&self, alloc: Global, version: SpecVersion) -> Result<Spelling<'_>, AllocError> {
        write_component(self, Target { alloc, version })
    }
}

impl FromJson for Components {
    fn from_json_at(value: &Value, context: Context) -> Result<Components, JsonReadError> {
        read_components(value, context)
    }
}

impl Kept for Components {
    ghost stays = { components_stay };

    fn kept_as(&self, keeping: Keeping) -> Result<Components, AllocError> {
        keep_components(self, keeping)
    }
}

impl ToJson for Components {
    fn spelling(&self, alloc: Global, version: SpecVersion) -> Result<Spelling<'_>, AllocError> {
        write_components(self, Target { alloc, version })
    }
}

impl FromJson for Pedigree {
    fn from_json_at(value: &Value, context: Context) -> Result<Pedigree, JsonReadError> {
        read_pedigree(value, context)
    }
}

impl Kept for Pedigree {
    ghost stays = { pedigree_stays };

    fn kept_as(&self, keeping: Keeping) -> Result<Pedigree, AllocError> {
        keep_pedigree(self, keeping)
    }
}

impl ToJson for Pedigree {
    fn spelling(&self, alloc: Global, version: SpecVersion) -> Result<Spelling<'_>, AllocError> {
        write_pedigree(self, Target { alloc, version })
    }
}
