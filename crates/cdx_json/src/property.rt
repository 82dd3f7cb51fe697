//! Properties in JSON.

ghost use Rattle.cdx_schema.specs.Kinds.{properties};
ghost use Rattle.cdx_json.specs.Stays.{list_stays};

use crate::context::Context;
use crate::keeping::Keeping;
use crate::reading::{list_from_value, required_row};
use crate::seen::SeenMembers;
use crate::spelling::Spelling;
use crate::spelling::members::Members;
use crate::traits::{FromJson, JsonRecord, Kept, ToJson};
use crate::writing::{keep_list, list_spelling, put_required};
use cdx_models::{JsonReadError, Properties, Property, SpecVersion};
use cdx_schema::Target;
use serde_json::Value;
use std::alloc::{AllocError, Global};

impl JsonRecord for Property {
    #[tactic(auto, unfolding(crate::proofs::OnRows::on_rows))]
    fn from_members(map: &SeenMembers<'_>, context: Context) -> Result<Property, JsonReadError> {
        let name = required_row(map, "name", context)?;
        let value = required_row(map, "value", context)?;
        Ok(Property { name, value })
    }

    #[tactic(auto, unfolding(crate::proofs::OnRows::on_rows))]
    fn kept_by_rows(&self, keeping: Keeping) -> Result<Property, AllocError> {
        Ok(Property {
            name: self.name.kept_as(keeping)?,
            value: self.value.kept_as(keeping)?,
        })
    }

    #[tactic(auto, unfolding(crate::proofs::OnRows::on_rows))]
    fn put_members<'b>(&'b self, map: &mut Members<'b>, target: Target) -> Result<(), AllocError> {
        put_required(map, "name", &self.name, target)?;
        put_required(map, "value", &self.value, target)
    }
}

impl FromJson for Properties {
    #[tactic(auto, unfolding(cdx_schema::specs::Table::list))]
    fn from_json_at(value: &Value, context: Context) -> Result<Properties, JsonReadError> {
        Ok(Properties(list_from_value(value, context)?))
    }
}

impl Kept for Properties {
    ghost stays = { λ w l x. list_stays w l properties _ };

    #[tactic(auto, unfolding(cdx_schema::specs::Table::list))]
    fn kept_as(&self, keeping: Keeping) -> Result<Properties, AllocError> {
        Ok(Properties(keep_list(&self.0, keeping)?))
    }
}

impl ToJson for Properties {
    #[tactic(auto, unfolding(cdx_schema::specs::Table::list))]
    fn spelling(&self, alloc: Global, version: SpecVersion) -> Result<Spelling<'_>, AllocError> {
        list_spelling(alloc, &self.0, version)
    }
}
