//! Attached texts in JSON.

use crate::context::Context;
use crate::keeping::Keeping;
use crate::reading::{optional_row, required_row};
use crate::seen::SeenMembers;
use crate::spelling::members::Members;
use crate::traits::{JsonRecord, Kept};
use crate::writing::{keep_row, put_required, put_row};
use cdx_models::{AttachedText, JsonReadError};
use cdx_schema::Target;
use std::alloc::AllocError;

impl JsonRecord for AttachedText {
    #[tactic(auto, unfolding(crate::proofs::OnRows::on_rows))]
    fn from_members(
        map: &SeenMembers<'_>,
        context: Context,
    ) -> Result<AttachedText, JsonReadError> {
        let content_type = optional_row(map, "contentType", context)?;
        let encoding = optional_row(map, "encoding", context)?;
        let content = required_row(map, "content", context)?;
        Ok(AttachedText {
            content_type,
            encoding,
            content,
        })
    }

    #[tactic(auto, unfolding(crate::proofs::OnRows::on_rows))]
    fn kept_by_rows(&self, keeping: Keeping) -> Result<AttachedText, AllocError> {
        Ok(AttachedText {
            content_type: keep_row(&self.content_type, keeping)?,
            encoding: keep_row(&self.encoding, keeping)?,
            content: self.content.kept_as(keeping)?,
        })
    }

    #[tactic(auto, unfolding(crate::proofs::OnRows::on_rows))]
    fn put_members<'b>(&'b self, map: &mut Members<'b>, target: Target) -> Result<(), AllocError> {
        put_row(map, "contentType", &self.content_type, target)?;
        put_row(map, "encoding", &self.encoding, target)?;
        put_required(map, "content", &self.content, target)
    }
}
