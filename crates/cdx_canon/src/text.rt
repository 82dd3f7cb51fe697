//! The canonical text of a bill.

ghost use Rattle.std.specs.Prelude.{◌≡◌, IfOk, true};
ghost use Rattle.serde_json.specs.View.{view};
ghost use Rattle.cdx_models.specs.declared.bom.SpecVersion.{SpecVersion};
ghost use Rattle.cdx_models.specs.Trees.{metadata};
ghost use Rattle.cdx_schema.specs.Kinds.{a_record, a_bill};
ghost use Rattle.cdx_schema.specs.Trips.{settled};
ghost use Rattle.cdx_schema.specs.JsonSpelling.{jspell};
ghost use Rattle.cdx_nest.specs.Trees.{metadata_tree};
ghost use Rattle.cdx_bom.specs.Trees.{bom_tree};
ghost use Rattle.cdx_canon.specs.Canon as texts;
ghost use Rattle.cdx_canon.specs.Plain.{is_no_tool, with_part};

use cdx_bom::Bom;
use cdx_events::Text;
use cdx_json::ToJson;
use cdx_models::SpecVersion;
use cdx_nest::{Metadata, Tools};
use serde_json::{Map, Value, put};
use std::alloc::{AllocError, Global};

/// The canonical text of the bill: the compact text, by `serde_json`, of the JSON spelling in 1.5 of the bill with the
/// label 1.5 and with a tools object without parts in place of an empty tool list. Only want of memory refuses.
/// The laws that there is one text for each bill and that it reads back hold for shallow bills, as every bill is that is
/// read; `Bom::shallow` tests it.
pub fn canon(alloc: Global, bill: &Bom) -> Result<Text, AllocError>
    ensures { IfOk result (λ t. t ≡ texts.canon (bom_tree bill.now)) }
{
    let value = plain_value(alloc, bill)?;
    let text = value.to_string(alloc)?;
    Ok(Text::from_string(text))
}

// The spelling of the plain bill: that of what 1.5 keeps, which has its label already, with other metadata where that
// has an empty tool list.
pub(crate) fn plain_value(alloc: Global, bill: &Bom) -> Result<Value, AllocError>
    ensures { IfOk result (λ v. view v
        ≡ jspell (texts.plain (bom_tree bill.now)) SpecVersion.V1_5 a_bill) }
{
    let value = bill.to_value(alloc, SpecVersion::V1_5)?;
    match &bill.metadata {
        None => Ok(value),
        Some(metadata) => {
            if !names_no_tool(&metadata.tools) {
                return Ok(value);
            }
            let settled = settled_metadata(alloc, metadata)?;
            set_part(alloc, value, "metadata", settled)
        }
    }
}

fn names_no_tool(tools: &Option<Tools>) -> bool
    ensures { result ≡ is_no_tool tools.now }
{
    match tools {
        Some(Tools::List(tools)) => tools.len() == 0,
        Some(
            Tools::Object {
                services: _,
                components: _,
            },
        ) => false,
        None => false,
    }
}

// The spelling of metadata with an empty tool list, once that counts as a tools object without parts.
fn settled_metadata(alloc: Global, held: &Metadata) -> Result<Value, AllocError>
    requires { is_no_tool held.now.tools ≡ true }
    ensures { IfOk result (λ v. view v
        ≡ jspell (settled (metadata_tree held.now) (a_record metadata)) SpecVersion.V1_5
        (a_record metadata)) }
{
    let value = held.to_value(alloc, SpecVersion::V1_5)?;
    set_part(alloc, value, "tools", Value::Object(Map::new(alloc)))
}

// The object with this member set anew.
pub(crate) fn set_part(
    alloc: Global,
    value: Value,
    name: &str,
    part: Value,
) -> Result<Value, AllocError>
    ensures { IfOk result (λ v. view v ≡ with_part name.now (view part) (view value)) }
{
    match value {
        Value::Object(mut map) => {
            put(&mut map, alloc, name, part)?;
            Ok(Value::Object(map))
        }
        other => Ok(other),
    }
}
