//! Documents as JSON values.

ghost use Rattle.std.specs.Prelude.{◌≡◌, List, IfOk};
ghost use Rattle.serde_json.specs.View.{view};
ghost use Rattle.cdx_schema.specs.Roads.{Doc as SchemaDoc};
ghost use Rattle.cdx_bom.specs.Docs.{AreDocs};
ghost use Rattle.cdx_request.specs.Refusals.{only as alone};
ghost use Rattle.cdx_request.specs.Replies.{documents_value as documents_in};
ghost use Rattle.cdx_tool.specs.Shows.{doc_shown};

use crate::events::events_to_json;
use crate::json_item::{JsonItem, items_to_json};
use cdx_bom::Doc;
use cdx_events::List as Items;
use serde_json::{Map, Value, put};
use std::alloc::{AllocError, Global};

/// An object with this member alone. Only want of memory refuses.
pub fn only(alloc: Global, name: &str, value: Value) -> Result<Value, AllocError>
    ensures { IfOk result (λ v. view v ≡ alone name.now (view value)) }
{
    let mut map = Map::new(alloc);
    put(&mut map, alloc, name, value)?;
    Ok(Value::Object(map))
}

impl JsonItem for Doc {
    ghost shown = { doc_shown };

    fn to_json(&self, alloc: Global) -> Result<Value, AllocError> {
        match self {
            Doc::Json(value) => only(alloc, "json", value.clone()?),
            Doc::Xml(events) => only(alloc, "xml", events_to_json(alloc, events)?),
        }
    }
}

/// The answer of the documents: `{"documents":[..]}` with each in order, as `{"json":value}` or `{"xml":[events]}`. Only
/// want of memory refuses.
pub fn documents_value(alloc: Global, docs: &Items<Doc>) -> Result<Value, AllocError>
    ensures { (xs : List SchemaDoc) → AreDocs docs.now xs
        → IfOk result (λ v. view v ≡ documents_in xs) }
{
    let values = items_to_json(alloc, docs.as_slice())?;
    only(alloc, "documents", values)
}
