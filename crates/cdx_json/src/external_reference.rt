//! References to what stands outside the bill in JSON.

ghost use Rattle.std.specs.Prelude.{◌≡◌, option_map, Some, IfOk};
ghost use Rattle.cdx_schema.specs.Kinds.{external_references, a_text};
ghost use Rattle.cdx_json.specs.Stays.{text_stays, list_stays};
ghost use Rattle.serde_json.specs.Find.{as_str};
ghost use Rattle.serde_json.specs.View.{view};
ghost use Rattle.cdx_models.specs.Records.{uri_tree};
ghost use Rattle.cdx_models.specs.Addresses.{uri_of};
ghost use Rattle.cdx_schema.specs.Keeping.{kept};
ghost use Rattle.cdx_schema.specs.JsonReading.{jread};
ghost use Rattle.cdx_schema.specs.Depths.{depth_of};
ghost use Rattle.cdx_json.specs.Gives.{Gives};

use crate::context::Context;
use crate::fault::here;
use crate::keeping::Keeping;
use crate::reading::{list_from_value, optional_row, required_row};
use crate::seen::SeenMembers;
use crate::spelling::Spelling;
use crate::spelling::members::Members;
use crate::traits::{FromJson, JsonRecord, Kept, ToJson};
use crate::writing::{keep_list, keep_row, list_spelling, put_required, put_row};
use cdx_events::Text;
use cdx_models::{
    ExternalReference, ExternalReferences, HasTree, JsonKind, JsonReadError, SpecVersion, Uri,
};
use cdx_schema::Target;
use serde_json::Value;
use std::alloc::{AllocError, Global};

impl FromJson for Uri {
    /// A text, as any `Uri` that a text gives: the variant is the one that `Uri::from_text` gives.
    fn from_json_at(value: &Value, context: Context) -> Result<Uri, JsonReadError>
        ensures gives { Gives uri_tree result
            (jread (view value.now) context.version a_text (depth_of context.depth)) }
        ensures variant { IfOk result
            (λ r. option_map uri_of (as_str (view value.now)) ≡ Some r) }
    {
        match value.as_str() {
            None => Err(here(context.alloc, JsonKind::WrongKind)),
            Some(text) => Ok(Uri::from_text(Text::new(context.alloc, text)?)),
        }
    }
}

impl Kept for Uri {
    ghost stays = { λ w l x. text_stays w l _ };

    #[tactic(auto, unfolding(cdx_schema::specs::Keeping::kept))]
    fn kept_as(&self, keeping: Keeping) -> Result<Uri, AllocError>
        ensures gives { IfOk result
            (λ r. uri_tree r ≡ kept keeping.version keeping.label (uri_tree self.now) a_text) }
        ensures variant { IfOk result (λ r. r ≡ self.now) }
    {
        self.copy(keeping.alloc)
    }
}

impl ToJson for Uri {
    #[tactic(auto, unfolding(crate::proofs::OnRows::on_spelled))]
    fn spelling(&self, alloc: Global, version: SpecVersion) -> Result<Spelling<'_>, AllocError> {
        Ok(Spelling::Text(self.as_str()))
    }
}

impl JsonRecord for ExternalReference {
    #[tactic(auto, unfolding(crate::proofs::OnRows::on_rows))]
    fn from_members(
        map: &SeenMembers<'_>,
        context: Context,
    ) -> Result<ExternalReference, JsonReadError> {
        let external_reference_type = required_row(map, "type", context)?;
        let url = required_row(map, "url", context)?;
        let comment = optional_row(map, "comment", context)?;
        let hashes = optional_row(map, "hashes", context)?;
        Ok(ExternalReference {
            external_reference_type,
            url,
            comment,
            hashes,
        })
    }

    #[tactic(auto, unfolding(crate::proofs::OnRows::on_rows))]
    fn kept_by_rows(&self, keeping: Keeping) -> Result<ExternalReference, AllocError> {
        Ok(ExternalReference {
            external_reference_type: self.external_reference_type.kept_as(keeping)?,
            url: self.url.kept_as(keeping)?,
            comment: keep_row(&self.comment, keeping)?,
            hashes: keep_row(&self.hashes, keeping)?,
        })
    }

    #[tactic(auto, unfolding(crate::proofs::OnRows::on_rows))]
    fn put_members<'b>(&'b self, map: &mut Members<'b>, target: Target) -> Result<(), AllocError> {
        put_required(map, "type", &self.external_reference_type, target)?;
        put_required(map, "url", &self.url, target)?;
        put_row(map, "comment", &self.comment, target)?;
        put_row(map, "hashes", &self.hashes, target)
    }
}

impl FromJson for ExternalReferences {
    #[tactic(auto, unfolding(cdx_schema::specs::Table::list))]
    fn from_json_at(value: &Value, context: Context) -> Result<ExternalReferences, JsonReadError> {
        Ok(ExternalReferences(list_from_value(value, context)?))
    }
}

impl Kept for ExternalReferences {
    ghost stays = { λ w l x. list_stays w l external_references _ };

    #[tactic(auto, unfolding(cdx_schema::specs::Table::list))]
    fn kept_as(&self, keeping: Keeping) -> Result<ExternalReferences, AllocError> {
        Ok(ExternalReferences(keep_list(&self.0, keeping)?))
    }
}

impl ToJson for ExternalReferences {
    #[tactic(auto, unfolding(cdx_schema::specs::Table::list))]
    fn spelling(&self, alloc: Global, version: SpecVersion) -> Result<Spelling<'_>, AllocError> {
        list_spelling(alloc, &self.0, version)
    }
}
