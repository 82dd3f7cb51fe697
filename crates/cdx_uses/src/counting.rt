//! Reading a bill.

ghost use Rattle.serde_json.specs.View.{view};
ghost use Rattle.cdx_models.specs.declared.bom.SpecVersion.{SpecVersion};
ghost use Rattle.cdx_schema.specs.JsonReading.{json_denotes};
ghost use Rattle.cdx_uses.specs.Uses.{CountsComponents};

use cdx_bom::Bom;
use cdx_models::JsonReadError;
use serde_json::Value;
use std::alloc::Global;

/// How many components stand in the list of a bill, which is given in JSON and read in 1.5; those inside other
/// components don't count. Else the first fault of the bill, by `Bom::parse_from_json_v1_5`.
pub fn component_count(alloc: Global, value: &Value) -> Result<usize, JsonReadError>
    ensures { CountsComponents (json_denotes (view value.now) SpecVersion.V1_5) result }
{
    let bill = Bom::parse_from_json_v1_5(alloc, value)?;
    let count = match &bill.components {
        Some(components) => components.len(),
        None => 0,
    };
    Ok(count)
}
