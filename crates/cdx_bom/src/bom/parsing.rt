//! Bills from JSON documents.

ghost use Rattle.std.specs.Prelude.{IfOk};
ghost use Rattle.serde_json.specs.View.{view};
ghost use Rattle.cdx_models.specs.declared.bom.SpecVersion.{SpecVersion};
ghost use Rattle.cdx_schema.specs.JsonReading.{json_denotes};
ghost use Rattle.cdx_schema.specs.Laws.{IsShallow};
ghost use Rattle.cdx_json.specs.Gives.{Gives};
ghost use Rattle.cdx_bom.specs.Trees.{bom_tree};

use crate::bom::Bom;
use crate::json::bill_from_owned;
use cdx_json::FromJson;
use cdx_models::{JsonReadError, SpecVersion};
use cdx_owned::refuse_floats;
use cdx_schema::laws;
use serde_json::Value;
use std::alloc::Global;

impl Bom {
    /// The bill that a JSON value denotes in a version, whose label is the `specVersion` that was read. Else
    /// `JsonElementReadError` with the path from the root: of the first floating-point number, where the value holds
    /// one anywhere, members being searched in byte order of their names, depth first; else of the first fault in the
    /// order of the schema's rows. `Memory` comes only where memory runs out. Every bill so read is shallow.
    pub fn parse_json(
        alloc: Global,
        value: &Value,
        version: SpecVersion,
    ) -> Result<Bom, JsonReadError>
        ensures bill { Gives bom_tree result (json_denotes (view value.now) version) }
        ensures shallow { IfOk result (λ b. IsShallow (bom_tree b)) }
    {
        refuse_floats(alloc, value)?;
        laws::denotes_bills();
        Bom::from_json(alloc, value, version)
    }

    // The bill of a value that nothing else needs, as `parse_json` gives it.
    pub(crate) fn parse_owned(
        alloc: Global,
        value: Value,
        version: SpecVersion,
    ) -> Result<Bom, JsonReadError>
        ensures { Gives bom_tree result (json_denotes (view value) version) }
    {
        match value {
            Value::Object(map) => bill_from_owned(alloc, map, version),
            other => Bom::parse_json(alloc, &other, version),
        }
    }

    /// The bill that a JSON value denotes in 1.3, or its first fault, as `parse_json`.
    pub fn parse_from_json_v1_3(alloc: Global, value: &Value) -> Result<Bom, JsonReadError>
        ensures bill { Gives bom_tree result (json_denotes (view value.now) SpecVersion.V1_3) }
        ensures shallow { IfOk result (λ b. IsShallow (bom_tree b)) }
    {
        Bom::parse_json(alloc, value, SpecVersion::V1_3)
    }

    /// The bill that a JSON value denotes in 1.4, or its first fault, as `parse_json`.
    pub fn parse_from_json_v1_4(alloc: Global, value: &Value) -> Result<Bom, JsonReadError>
        ensures bill { Gives bom_tree result (json_denotes (view value.now) SpecVersion.V1_4) }
        ensures shallow { IfOk result (λ b. IsShallow (bom_tree b)) }
    {
        Bom::parse_json(alloc, value, SpecVersion::V1_4)
    }

    /// The bill that a JSON value denotes in 1.5, or its first fault, as `parse_json`.
    pub fn parse_from_json_v1_5(alloc: Global, value: &Value) -> Result<Bom, JsonReadError>
        ensures bill { Gives bom_tree result (json_denotes (view value.now) SpecVersion.V1_5) }
        ensures shallow { IfOk result (λ b. IsShallow (bom_tree b)) }
    {
        Bom::parse_json(alloc, value, SpecVersion::V1_5)
    }
}
