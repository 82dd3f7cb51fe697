//! Patches in JSON.

ghost use Rattle.cdx_schema.specs.Kinds.{patches};
ghost use Rattle.cdx_json.specs.Stays.{list_stays};

use crate::{Diff, Patch, Patches};
use cdx_json::{
    Context, FromJson, JsonRecord, Keeping, Kept, Members, SeenMembers, Spelling, ToJson,
    keep_list, keep_optional_list, keep_row, list_from_value, list_spelling, optional_list_row,
    optional_row, put_optional_list, put_required, put_row, required_row,
};
use cdx_models::{JsonReadError, SpecVersion};
use cdx_schema::Target;
use serde_json::Value;
use std::alloc::{AllocError, Global};

#[tactic(auto, unfolding(cdx_json::proofs::OnRows::on_rows))]
impl JsonRecord for Diff {
    fn from_members(map: &SeenMembers<'_>, context: Context) -> Result<Diff, JsonReadError> {
        let text = optional_row(map, "text", context)?;
        let url = optional_row(map, "url", context)?;
        Ok(Diff { text, url })
    }

    fn kept_by_rows(&self, keeping: Keeping) -> Result<Diff, AllocError> {
        Ok(Diff {
            text: keep_row(&self.text, keeping)?,
            url: keep_row(&self.url, keeping)?,
        })
    }

    fn put_members<'b>(&'b self, map: &mut Members<'b>, target: Target) -> Result<(), AllocError> {
        put_row(map, "text", &self.text, target)?;
        put_row(map, "url", &self.url, target)
    }
}

#[tactic(auto, unfolding(cdx_json::proofs::OnRows::on_rows))]
impl JsonRecord for Patch {
    fn from_members(map: &SeenMembers<'_>, context: Context) -> Result<Patch, JsonReadError> {
        let patch_type = required_row(map, "type", context)?;
        let diff = optional_row(map, "diff", context)?;
        let resolves = optional_list_row(map, "resolves", context)?;
        Ok(Patch {
            patch_type,
            diff,
            resolves,
        })
    }

    fn kept_by_rows(&self, keeping: Keeping) -> Result<Patch, AllocError> {
        Ok(Patch {
            patch_type: self.patch_type.kept_as(keeping)?,
            diff: keep_row(&self.diff, keeping)?,
            resolves: keep_optional_list(&self.resolves, keeping)?,
        })
    }

    fn put_members<'b>(&'b self, map: &mut Members<'b>, target: Target) -> Result<(), AllocError> {
        put_required(map, "type", &self.patch_type, target)?;
        put_row(map, "diff", &self.diff, target)?;
        put_optional_list(map, "resolves", &self.resolves, target)
    }
}

impl FromJson for Patches {
    #[tactic(auto, unfolding(cdx_schema::specs::Table::list))]
    fn from_json_at(value: &Value, context: Context) -> Result<Patches, JsonReadError> {
        Ok(Patches(list_from_value(value, context)?))
    }
}

impl Kept for Patches {
    ghost stays = { λ w l x. list_stays w l patches _ };

    #[tactic(auto, unfolding(cdx_schema::specs::Table::list))]
    fn kept_as(&self, keeping: Keeping) -> Result<Patches, AllocError> {
        Ok(Patches(keep_list(&self.0, keeping)?))
    }
}

impl ToJson for Patches {
    #[tactic(auto, unfolding(cdx_schema::specs::Table::list))]
    fn spelling(&self, alloc: Global, version: SpecVersion) -> Result<Spelling<'_>, AllocError> {
        list_spelling(alloc, &self.0, version)
    }
}
