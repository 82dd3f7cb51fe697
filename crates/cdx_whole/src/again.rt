//! A bill of one's own, written as a document and read again.

ghost use Rattle.std.specs.Prelude.{◌≡◌, Ok, IfOk};
ghost use Rattle.serde_json.specs.View.{view};
ghost use Rattle.cdx_models.specs.declared.bom.SpecVersion.{SpecVersion};
ghost use Rattle.cdx_schema.specs.Kinds.{a_bill};
ghost use Rattle.cdx_schema.specs.Keeping.{keep};
ghost use Rattle.cdx_schema.specs.JsonReading.{json_denotes};
ghost use Rattle.cdx_schema.specs.Laws.{IsShallow};
ghost use Rattle.cdx_bom.specs.Trees.{bom_tree};

use crate::bill::is_a_bill;
use cdx_bom::Bom;
use cdx_models::{JsonReadError, JsonWriteError};
use cdx_schema::laws::reads_back_json;
use serde_json::Value;
use std::alloc::{AllocError, Global};

// The JSON document of what 1.5 keeps of a bill, which denotes just that.
fn written(alloc: Global, bill: &Bom) -> Result<Value, AllocError>
    requires { IsShallow (bom_tree bill.now) }
    ensures { IfOk result (λ document. json_denotes (view document) SpecVersion.V1_5
        ≡ Ok (keep SpecVersion.V1_5 (bom_tree bill.now) a_bill)) }
{
    is_a_bill(bill);
    reads_back_json();
    match bill.output_as_json_v1_5(alloc) {
        Ok(document) => Ok(document),
        Err(JsonWriteError::Memory(error)) => Err(error),
        // There is no sink, and every bill fits 1.5.
        Err(JsonWriteError::JsonElementWriteError { .. }) => unreachable!(),
        Err(JsonWriteError::BomError(_)) => unreachable!(),
    }
}

/// What 1.5 keeps of a bill, written as a JSON document and read again. Whoever made the bill, only want of memory
/// refuses. `Bom::shallow` tells whether a bill is shallow.
pub fn read_again(alloc: Global, bill: &Bom) -> Result<Bom, AllocError>
    requires { IsShallow (bom_tree bill.now) }
    ensures { IfOk result
        (λ again. bom_tree again ≡ keep SpecVersion.V1_5 (bom_tree bill.now) a_bill) }
{
    let document = written(alloc, bill)?;
    match Bom::parse_from_json_v1_5(alloc, &document) {
        Ok(again) => Ok(again),
        Err(JsonReadError::Memory(error)) => Err(error),
        // The document denotes a bill.
        Err(JsonReadError::JsonElementReadError { .. }) => unreachable!(),
        Err(JsonReadError::BomError(_)) => unreachable!(),
    }
}
