//! Bills as JSON documents.

ghost use Rattle.std.specs.Prelude.{◌≡◌};
ghost use Rattle.serde_json.specs.View.{view};
ghost use Rattle.cdx_models.specs.declared.bom.SpecVersion.{SpecVersion};
ghost use Rattle.cdx_json.specs.Gives.{Makes};
ghost use Rattle.cdx_bom.specs.Trees.{bom_tree};
ghost use Rattle.cdx_bom.specs.Outputs.{Outputs, kept_json};

use crate::bom::Bom;
use crate::refused::lacks_version;
use cdx_json::ToJson;
use cdx_models::{JsonWriteError, SpecVersion};
use serde_json::Value;
use std::alloc::Global;

impl Bom {
    /// What the version keeps of the bill, as a JSON value. `BomError` with `BomSerializationError(V1_3,
    /// VersionMissing)` exactly where the version is 1.3 and the bill doesn't fit it, since a component lacks a
    /// version, which 1.3 requires. `Memory` comes only where memory runs out.
    pub fn output_json(&self, alloc: Global, version: SpecVersion) -> Result<Value, JsonWriteError>
        ensures { Outputs result version (bom_tree self.now)
            (λ v. view v ≡ kept_json version (bom_tree self.now)) }
    {
        if !self.fits(version) {
            return Err(JsonWriteError::BomError(lacks_version()));
        }
        self.to_json(alloc, version)
    }

    /// What 1.3 keeps of the bill, as a JSON value, with the refusals of `output_json`.
    pub fn output_as_json_v1_3(&self, alloc: Global) -> Result<Value, JsonWriteError>
        ensures { Outputs result SpecVersion.V1_3 (bom_tree self.now)
            (λ v. view v ≡ kept_json SpecVersion.V1_3 (bom_tree self.now)) }
    {
        self.output_json(alloc, SpecVersion::V1_3)
    }

    /// What 1.4 keeps of the bill, as a JSON value. Only want of memory refuses.
    pub fn output_as_json_v1_4(&self, alloc: Global) -> Result<Value, JsonWriteError>
        ensures { Makes result (λ v. view v ≡ kept_json SpecVersion.V1_4 (bom_tree self.now)) }
    {
        self.output_json(alloc, SpecVersion::V1_4)
    }

    /// What 1.5 keeps of the bill, as a JSON value. Only want of memory refuses.
    pub fn output_as_json_v1_5(&self, alloc: Global) -> Result<Value, JsonWriteError>
        ensures { Makes result (λ v. view v ≡ kept_json SpecVersion.V1_5 (bom_tree self.now)) }
    {
        self.output_json(alloc, SpecVersion::V1_5)
    }
}
