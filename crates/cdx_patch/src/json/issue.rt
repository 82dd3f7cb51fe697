//! Issues in JSON.

use crate::{Issue, Source};
use cdx_json::{
    Context, JsonRecord, Keeping, Kept, Members, SeenMembers, keep_optional_list, keep_row,
    optional_list_row, optional_row, put_optional_list, put_required, put_row, required_row,
};
use cdx_models::JsonReadError;
use cdx_schema::Target;
use std::alloc::AllocError;

#[tactic(auto, unfolding(cdx_json::proofs::OnRows::on_rows))]
impl JsonRecord for Source {
    fn from_members(map: &SeenMembers<'_>, context: Context) -> Result<Source, JsonReadError> {
        let name = optional_row(map, "name", context)?;
        let url = optional_row(map, "url", context)?;
        Ok(Source { name, url })
    }

    fn kept_by_rows(&self, keeping: Keeping) -> Result<Source, AllocError> {
        Ok(Source {
            name: keep_row(&self.name, keeping)?,
            url: keep_row(&self.url, keeping)?,
        })
    }

    fn put_members<'b>(&'b self, map: &mut Members<'b>, target: Target) -> Result<(), AllocError> {
        put_row(map, "name", &self.name, target)?;
        put_row(map, "url", &self.url, target)
    }
}

#[tactic(auto, unfolding(cdx_json::proofs::OnRows::on_rows))]
impl JsonRecord for Issue {
    fn from_members(map: &SeenMembers<'_>, context: Context) -> Result<Issue, JsonReadError> {
        let issue_type = required_row(map, "type", context)?;
        let id = optional_row(map, "id", context)?;
        let name = optional_row(map, "name", context)?;
        let description = optional_row(map, "description", context)?;
        let source = optional_row(map, "source", context)?;
        let references = optional_list_row(map, "references", context)?;
        Ok(Issue {
            issue_type,
            id,
            name,
            description,
            source,
            references,
        })
    }

    fn kept_by_rows(&self, keeping: Keeping) -> Result<Issue, AllocError> {
        Ok(Issue {
            issue_type: self.issue_type.kept_as(keeping)?,
            id: keep_row(&self.id, keeping)?,
            name: keep_row(&self.name, keeping)?,
            description: keep_row(&self.description, keeping)?,
            source: keep_row(&self.source, keeping)?,
            references: keep_optional_list(&self.references, keeping)?,
        })
    }

    fn put_members<'b>(&'b self, map: &mut Members<'b>, target: Target) -> Result<(), AllocError> {
        put_required(map, "type", &self.issue_type, target)?;
        put_row(map, "id", &self.id, target)?;
        put_row(map, "name", &self.name, target)?;
        put_row(map, "description", &self.description, target)?;
        put_row(map, "source", &self.source, target)?;
        put_optional_list(map, "references", &self.references, target)?;
        Ok(())
    }
}
