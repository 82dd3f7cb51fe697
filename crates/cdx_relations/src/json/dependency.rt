//! Dependencies in JSON.

ghost use Rattle.cdx_schema.specs.Kinds.{dependencies};
ghost use Rattle.cdx_json.specs.Stays.{list_stays};

use crate::dependency::{Dependencies, Dependency};
use cdx_json::{
    Context, FromJson, JsonRecord, Keeping, Kept, Members, SeenMembers, Spelling, ToJson,
    keep_list, list_from_value, list_row, list_spelling, put_list, put_required, required_row,
};
use cdx_models::{JsonReadError, SpecVersion};
use cdx_schema::Target;
use serde_json::Value;
use std::alloc::{AllocError, Global};

#[tactic(auto, unfolding(cdx_json::proofs::OnRows::on_rows))]
impl JsonRecord for Dependency {
    fn from_members(map: &SeenMembers<'_>, context: Context) -> Result<Dependency, JsonReadError> {
        let dependency_ref = required_row(map, "ref", context)?;
        let depends_on = list_row(map, "dependsOn", context)?;
        Ok(Dependency {
            dependency_ref,
            depends_on,
        })
    }

    fn kept_by_rows(&self, keeping: Keeping) -> Result<Dependency, AllocError> {
        Ok(Dependency {
            dependency_ref: self.dependency_ref.kept_as(keeping)?,
            depends_on: keep_list(&self.depends_on, keeping)?,
        })
    }

    fn put_members<'b>(&'b self, map: &mut Members<'b>, target: Target) -> Result<(), AllocError> {
        put_required(map, "ref", &self.dependency_ref, target)?;
        put_list(map, "dependsOn", &self.depends_on, target)
    }
}

impl FromJson for Dependencies {
    #[tactic(auto, unfolding(cdx_schema::specs::Table::list))]
    fn from_json_at(value: &Value, context: Context) -> Result<Dependencies, JsonReadError> {
        Ok(Dependencies(list_from_value(value, context)?))
    }
}

impl Kept for Dependencies {
    ghost stays = { λ w l x. list_stays w l dependencies _ };

    #[tactic(auto, unfolding(cdx_schema::specs::Table::list))]
    fn kept_as(&self, keeping: Keeping) -> Result<Dependencies, AllocError> {
        Ok(Dependencies(keep_list(&self.0, keeping)?))
    }
}

impl ToJson for Dependencies {
    #[tactic(auto, unfolding(cdx_schema::specs::Table::list))]
    fn spelling(&self, alloc: Global, version: SpecVersion) -> Result<Spelling<'_>, AllocError> {
        list_spelling(alloc, &self.0, version)
    }
}
