//! Software tags, platform names, media types and evidence in JSON.

ghost use Rattle.cdx_schema.specs.Kinds.{copyright_texts};
ghost use Rattle.cdx_json.specs.Stays.{text_stays, list_stays};

use crate::component::{ComponentEvidence, Copyright, CopyrightTexts, Cpe, MimeType, Swid};
use cdx_events::Text;
use cdx_json::{
    Context, FromJson, JsonRecord, Keeping, Kept, Members, SeenMembers, Spelling, ToJson,
    keep_list, keep_row, list_from_value, list_spelling, optional_row, put_required, put_row,
    required_row,
};
use cdx_models::{HasTree, JsonReadError, SpecVersion};
use cdx_schema::Target;
use serde_json::Value;
use std::alloc::{AllocError, Global};

#[tactic(auto, unfolding(cdx_json::proofs::OnRows::on_rows))]
impl JsonRecord for Swid {
    fn from_members(map: &SeenMembers<'_>, context: Context) -> Result<Swid, JsonReadError> {
        let tag_id = required_row(map, "tagId", context)?;
        let name = required_row(map, "name", context)?;
        let held_version = optional_row(map, "version", context)?;
        let tag_version = optional_row(map, "tagVersion", context)?;
        let patch = optional_row(map, "patch", context)?;
        let text = optional_row(map, "text", context)?;
        let url = optional_row(map, "url", context)?;
        Ok(Swid {
            tag_id,
            name,
            version: held_version,
            tag_version,
            patch,
            text,
            url,
        })
    }

    fn kept_by_rows(&self, keeping: Keeping) -> Result<Swid, AllocError> {
        Ok(Swid {
            tag_id: self.tag_id.kept_as(keeping)?,
            name: self.name.kept_as(keeping)?,
            version: keep_row(&self.version, keeping)?,
            tag_version: keep_row(&self.tag_version, keeping)?,
            patch: keep_row(&self.patch, keeping)?,
            text: keep_row(&self.text, keeping)?,
            url: keep_row(&self.url, keeping)?,
        })
    }

    fn put_members<'b>(&'b self, map: &mut Members<'b>, target: Target) -> Result<(), AllocError> {
        put_required(map, "tagId", &self.tag_id, target)?;
        put_required(map, "name", &self.name, target)?;
        put_row(map, "version", &self.version, target)?;
        put_row(map, "tagVersion", &self.tag_version, target)?;
        put_row(map, "patch", &self.patch, target)?;
        put_row(map, "text", &self.text, target)?;
        put_row(map, "url", &self.url, target)?;
        Ok(())
    }
}

impl FromJson for Cpe {
    fn from_json_at(value: &Value, context: Context) -> Result<Cpe, JsonReadError> {
        Ok(Cpe(Text::from_json_at(value, context)?))
    }
}

impl Kept for Cpe {
    ghost stays = { λ w l x. text_stays w l _ };

    #[tactic(auto, unfolding(cdx_schema::specs::Keeping::kept))]
    fn kept_as(&self, keeping: Keeping) -> Result<Cpe, AllocError> {
        self.copy(keeping.alloc)
    }
}

impl ToJson for Cpe {
    #[tactic(auto, unfolding(cdx_json::proofs::OnRows::on_spelled))]
    fn spelling(&self, alloc: Global, version: SpecVersion) -> Result<Spelling<'_>, AllocError> {
        Ok(Spelling::Text(self.0.as_str()))
    }
}

impl FromJson for MimeType {
    fn from_json_at(value: &Value, context: Context) -> Result<MimeType, JsonReadError> {
        Ok(MimeType(Text::from_json_at(value, context)?))
    }
}

impl Kept for MimeType {
    ghost stays = { λ w l x. text_stays w l _ };

    #[tactic(auto, unfolding(cdx_schema::specs::Keeping::kept))]
    fn kept_as(&self, keeping: Keeping) -> Result<MimeType, AllocError> {
        self.copy(keeping.alloc)
    }
}

impl ToJson for MimeType {
    #[tactic(auto, unfolding(cdx_json::proofs::OnRows::on_spelled))]
    fn spelling(&self, alloc: Global, version: SpecVersion) -> Result<Spelling<'_>, AllocError> {
        Ok(Spelling::Text(self.0.as_str()))
    }
}

#[tactic(auto, unfolding(cdx_json::proofs::OnRows::on_rows))]
impl JsonRecord for ComponentEvidence {
    fn from_members(
        map: &SeenMembers<'_>,
        context: Context,
    ) -> Result<ComponentEvidence, JsonReadError> {
        let licenses = optional_row(map, "licenses", context)?;
        let copyright = optional_row(map, "copyright", context)?;
        Ok(ComponentEvidence {
            licenses,
            copyright,
        })
    }

    fn kept_by_rows(&self, keeping: Keeping) -> Result<ComponentEvidence, AllocError> {
        Ok(ComponentEvidence {
            licenses: keep_row(&self.licenses, keeping)?,
            copyright: keep_row(&self.copyright, keeping)?,
        })
    }

    fn put_members<'b>(&'b self, map: &mut Members<'b>, target: Target) -> Result<(), AllocError> {
        put_row(map, "licenses", &self.licenses, target)?;
        put_row(map, "copyright", &self.copyright, target)
    }
}

#[tactic(auto, unfolding(cdx_json::proofs::OnRows::on_rows))]
impl JsonRecord for Copyright {
    fn from_members(map: &SeenMembers<'_>, context: Context) -> Result<Copyright, JsonReadError> {
        let text = required_row(map, "text", context)?;
        Ok(Copyright { text })
    }

    fn kept_by_rows(&self, keeping: Keeping) -> Result<Copyright, AllocError> {
        Ok(Copyright {
            text: self.text.kept_as(keeping)?,
        })
    }

    fn put_members<'b>(&'b self, map: &mut Members<'b>, target: Target) -> Result<(), AllocError> {
        put_required(map, "text", &self.text, target)
    }
}

impl FromJson for CopyrightTexts {
    #[tactic(auto, unfolding(cdx_schema::specs::Table::list))]
    fn from_json_at(value: &Value, context: Context) -> Result<CopyrightTexts, JsonReadError> {
        Ok(CopyrightTexts(list_from_value(value, context)?))
    }
}

impl Kept for CopyrightTexts {
    ghost stays = { λ w l x. list_stays w l copyright_texts _ };

    #[tactic(auto, unfolding(cdx_schema::specs::Table::list))]
    fn kept_as(&self, keeping: Keeping) -> Result<CopyrightTexts, AllocError> {
        Ok(CopyrightTexts(keep_list(&self.0, keeping)?))
    }
}

impl ToJson for CopyrightTexts {
    #[tactic(auto, unfolding(cdx_schema::specs::Table::list))]
    fn spelling(&self, alloc: Global, version: SpecVersion) -> Result<Spelling<'_>, AllocError> {
        list_spelling(alloc, &self.0, version)
    }
}
