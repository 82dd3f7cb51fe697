//! Tools in JSON.

use crate::context::Context;
use crate::keeping::Keeping;
use crate::reading::{optional_row, optional_row_since};
use crate::seen::SeenMembers;
use crate::spelling::members::Members;
use crate::traits::JsonRecord;
use crate::writing::{keep_row, keep_row_since, put_row, put_row_since};
use cdx_models::{JsonReadError, SpecVersion, Tool};
use cdx_schema::Target;
use std::alloc::AllocError;

impl JsonRecord for Tool {
    #[tactic(auto, unfolding(crate::proofs::OnRows::on_rows))]
    fn from_members(map: &SeenMembers<'_>, context: Context) -> Result<Tool, JsonReadError> {
        let vendor = optional_row(map, "vendor", context)?;
        let name = optional_row(map, "name", context)?;
        let held_version = optional_row(map, "version", context)?;
        let hashes = optional_row(map, "hashes", context)?;
        let external_references = optional_row_since(
            map,
            "externalReferences",
            SpecVersion::V1_4,
            context,
        )?;
        Ok(Tool {
            vendor,
            name,
            version: held_version,
            hashes,
            external_references,
        })
    }

    #[tactic(auto, unfolding(crate::proofs::OnRows::on_rows))]
    fn kept_by_rows(&self, keeping: Keeping) -> Result<Tool, AllocError> {
        Ok(Tool {
            vendor: keep_row(&self.vendor, keeping)?,
            name: keep_row(&self.name, keeping)?,
            version: keep_row(&self.version, keeping)?,
            hashes: keep_row(&self.hashes, keeping)?,
            external_references: keep_row_since(
                &self.external_references,
                SpecVersion::V1_4,
                keeping,
            )?,
        })
    }

    #[tactic(auto, unfolding(crate::proofs::OnRows::on_rows))]
    fn put_members<'b>(&'b self, map: &mut Members<'b>, target: Target) -> Result<(), AllocError> {
        put_row(map, "vendor", &self.vendor, target)?;
        put_row(map, "name", &self.name, target)?;
        put_row(map, "version", &self.version, target)?;
        put_row(map, "hashes", &self.hashes, target)?;
        put_row_since(
            map,
            "externalReferences",
            &self.external_references,
            SpecVersion::V1_4,
            target,
        )?;
        Ok(())
    }
}
