//! Commits, and who made them, in JSON.

ghost use Rattle.cdx_schema.specs.Kinds.{commits};
ghost use Rattle.cdx_json.specs.Stays.{list_stays};

use crate::{Commit, Commits, IdentifiableAction};
use cdx_json::{
    Context, FromJson, JsonRecord, Keeping, Kept, Members, SeenMembers, Spelling, ToJson,
    keep_list, keep_row, list_from_value, list_spelling, optional_row, put_row,
};
use cdx_models::{JsonReadError, SpecVersion};
use cdx_schema::Target;
use serde_json::Value;
use std::alloc::{AllocError, Global};

#[tactic(auto, unfolding(cdx_json::proofs::OnRows::on_rows))]
impl JsonRecord for IdentifiableAction {
    fn from_members(
        map: &SeenMembers<'_>,
        context: Context,
    ) -> Result<IdentifiableAction, JsonReadError> {
        let timestamp = optional_row(map, "timestamp", context)?;
        let name = optional_row(map, "name", context)?;
        let email = optional_row(map, "email", context)?;
        Ok(IdentifiableAction {
            timestamp,
            name,
            email,
        })
    }

    fn kept_by_rows(&self, keeping: Keeping) -> Result<IdentifiableAction, AllocError> {
        Ok(IdentifiableAction {
            timestamp: keep_row(&self.timestamp, keeping)?,
            name: keep_row(&self.name, keeping)?,
            email: keep_row(&self.email, keeping)?,
        })
    }

    fn put_members<'b>(&'b self, map: &mut Members<'b>, target: Target) -> Result<(), AllocError> {
        put_row(map, "timestamp", &self.timestamp, target)?;
        put_row(map, "name", &self.name, target)?;
        put_row(map, "email", &self.email, target)
    }
}

#[tactic(auto, unfolding(cdx_json::proofs::OnRows::on_rows))]
impl JsonRecord for Commit {
    fn from_members(map: &SeenMembers<'_>, context: Context) -> Result<Commit, JsonReadError> {
        let uid = optional_row(map, "uid", context)?;
        let url = optional_row(map, "url", context)?;
        let author = optional_row(map, "author", context)?;
        let committer = optional_row(map, "committer", context)?;
        let message = optional_row(map, "message", context)?;
        Ok(Commit {
            uid,
            url,
            author,
            committer,
            message,
        })
    }

    fn kept_by_rows(&self, keeping: Keeping) -> Result<Commit, AllocError> {
        Ok(Commit {
            uid: keep_row(&self.uid, keeping)?,
            url: keep_row(&self.url, keeping)?,
            author: keep_row(&self.author, keeping)?,
            committer: keep_row(&self.committer, keeping)?,
            message: keep_row(&self.message, keeping)?,
        })
    }

    fn put_members<'b>(&'b self, map: &mut Members<'b>, target: Target) -> Result<(), AllocError> {
        put_row(map, "uid", &self.uid, target)?;
        put_row(map, "url", &self.url, target)?;
        put_row(map, "author", &self.author, target)?;
        put_row(map, "committer", &self.committer, target)?;
        put_row(map, "message", &self.message, target)?;
        Ok(())
    }
}

impl FromJson for Commits {
    #[tactic(auto, unfolding(cdx_schema::specs::Table::list))]
    fn from_json_at(value: &Value, context: Context) -> Result<Commits, JsonReadError> {
        Ok(Commits(list_from_value(value, context)?))
    }
}

impl Kept for Commits {
    ghost stays = { λ w l x. list_stays w l commits _ };

    #[tactic(auto, unfolding(cdx_schema::specs::Table::list))]
    fn kept_as(&self, keeping: Keeping) -> Result<Commits, AllocError> {
        Ok(Commits(keep_list(&self.0, keeping)?))
    }
}

impl ToJson for Commits {
    #[tactic(auto, unfolding(cdx_schema::specs::Table::list))]
    fn spelling(&self, alloc: Global, version: SpecVersion) -> Result<Spelling<'_>, AllocError> {
        list_spelling(alloc, &self.0, version)
    }
}
