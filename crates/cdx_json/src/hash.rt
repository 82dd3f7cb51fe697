//! Hashes in JSON.

ghost use Rattle.cdx_schema.specs.Kinds.{hashes};
ghost use Rattle.cdx_json.specs.Stays.{text_stays, list_stays};

use crate::context::Context;
use crate::keeping::Keeping;
use crate::reading::{list_from_value, required_row};
use crate::seen::SeenMembers;
use crate::spelling::Spelling;
use crate::spelling::members::Members;
use crate::traits::{FromJson, JsonRecord, Kept, ToJson};
use crate::writing::{keep_list, list_spelling, put_required};
use cdx_events::Text;
use cdx_models::{HasTree, Hash, HashValue, Hashes, JsonReadError, SpecVersion};
use cdx_schema::Target;
use serde_json::Value;
use std::alloc::{AllocError, Global};

impl FromJson for HashValue {
    fn from_json_at(value: &Value, context: Context) -> Result<HashValue, JsonReadError> {
        Ok(HashValue(Text::from_json_at(value, context)?))
    }
}

impl Kept for HashValue {
    ghost stays = { λ w l x. text_stays w l _ };

    #[tactic(auto, unfolding(cdx_schema::specs::Keeping::kept))]
    fn kept_as(&self, keeping: Keeping) -> Result<HashValue, AllocError> {
        self.copy(keeping.alloc)
    }
}

impl ToJson for HashValue {
    #[tactic(auto, unfolding(crate::proofs::OnRows::on_spelled))]
    fn spelling(&self, alloc: Global, version: SpecVersion) -> Result<Spelling<'_>, AllocError> {
        Ok(Spelling::Text(self.0.as_str()))
    }
}

impl JsonRecord for Hash {
    #[tactic(auto, unfolding(crate::proofs::OnRows::on_rows))]
    fn from_members(map: &SeenMembers<'_>, context: Context) -> Result<Hash, JsonReadError> {
        let alg = required_row(map, "alg", context)?;
        let content = required_row(map, "content", context)?;
        Ok(Hash { alg, content })
    }

    #[tactic(auto, unfolding(crate::proofs::OnRows::on_rows))]
    fn kept_by_rows(&self, keeping: Keeping) -> Result<Hash, AllocError> {
        Ok(Hash {
            alg: self.alg.kept_as(keeping)?,
            content: self.content.kept_as(keeping)?,
        })
    }

    #[tactic(auto, unfolding(crate::proofs::OnRows::on_rows))]
    fn put_members<'b>(&'b self, map: &mut Members<'b>, target: Target) -> Result<(), AllocError> {
        put_required(map, "alg", &self.alg, target)?;
        put_required(map, "content", &self.content, target)
    }
}

impl FromJson for Hashes {
    #[tactic(auto, unfolding(cdx_schema::specs::Table::list))]
    fn from_json_at(value: &Value, context: Context) -> Result<Hashes, JsonReadError> {
        Ok(Hashes(list_from_value(value, context)?))
    }
}

impl Kept for Hashes {
    ghost stays = { λ w l x. list_stays w l hashes _ };

    #[tactic(auto, unfolding(cdx_schema::specs::Table::list))]
    fn kept_as(&self, keeping: Keeping) -> Result<Hashes, AllocError> {
        Ok(Hashes(keep_list(&self.0, keeping)?))
    }
}

impl ToJson for Hashes {
    #[tactic(auto, unfolding(cdx_schema::specs::Table::list))]
    fn spelling(&self, alloc: Global, version: SpecVersion) -> Result<Spelling<'_>, AllocError> {
        list_spelling(alloc, &self.0, version)
    }
}
