//! Serial numbers in JSON.

ghost use Rattle.cdx_json.specs.Stays.{text_stays};

use crate::context::Context;
use crate::keeping::Keeping;
use crate::spelling::Spelling;
use crate::traits::{FromJson, Kept, ToJson};
use cdx_events::Text;
use cdx_models::{HasTree, JsonReadError, SpecVersion, UrnUuid};
use serde_json::Value;
use std::alloc::{AllocError, Global};

impl FromJson for UrnUuid {
    fn from_json_at(value: &Value, context: Context) -> Result<UrnUuid, JsonReadError> {
        Ok(UrnUuid(Text::from_json_at(value, context)?))
    }
}

impl Kept for UrnUuid {
    ghost stays = { λ w l x. text_stays w l _ };

    #[tactic(auto, unfolding(cdx_schema::specs::Keeping::kept))]
    fn kept_as(&self, keeping: Keeping) -> Result<UrnUuid, AllocError> {
        self.copy(keeping.alloc)
    }
}

impl ToJson for UrnUuid {
    #[tactic(auto, unfolding(crate::proofs::OnRows::on_spelled))]
    fn spelling(&self, alloc: Global, version: SpecVersion) -> Result<Spelling<'_>, AllocError> {
        Ok(Spelling::Text(self.0.as_str()))
    }
}
