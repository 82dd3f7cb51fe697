//! What the road of a made bill counts.

ghost use Rattle.std.specs.Prelude.{◌≡◌, [], ◌∷◌, List, false, length, IfOk};
ghost use Rattle.serde_json.specs.Data.{Data};
ghost use Rattle.serde_json.specs.View.{view};
ghost use Rattle.serde_json.specs.Written.{has_float, compact_text};
ghost use Rattle.cdx_events.specs.Nodes.{Node, document};
ghost use Rattle.cdx_models.specs.declared.bom.SpecVersion.{SpecVersion};
ghost use Rattle.cdx_schema.specs.JsonSpelling.{jspell};
ghost use Rattle.cdx_schema.specs.Keeping.{keep};
ghost use Rattle.cdx_schema.specs.Kinds.{a_bill};
ghost use Rattle.cdx_schema.specs.Roads.{Doc as SchemaDoc, json, xml};
ghost use Rattle.cdx_bom.specs.Docs.{AreDocs};
ghost use Rattle.cdx_request.specs.Made.{made_bill, made_counts, made_reply};
ghost use Rattle.cdx_request.specs.Served.{IsMade};
ghost use Rattle.cdx_tool.specs.Shows.{reply_of};

use super::made;
use crate::answer::{Answer, answer_value};
use crate::status::Status;
use cdx_bom::{Doc, Form, Hop, RoadError, into_road};
use cdx_json::ToJson;
use cdx_models::SpecVersion;
use serde_json::{Value, json};
use std::alloc::{AllocError, Global};

// How many events the first document has.
fn count_events(docs: &[Doc]) -> usize
    ensures { (root : Node) (more : List SchemaDoc) → AreDocs docs.now (xml root ∷ more)
        → result ≡ length (document root) }
{
    match docs.first() {
        Some(Doc::Xml(events)) => events.len(),
        _ => 0,
    }
}

// How many bytes the text of the second document has.
fn count_bytes(alloc: Global, docs: &[Doc]) -> Result<usize, AllocError>
    ensures { (first : SchemaDoc) (x : Data) → AreDocs docs.now (first ∷ json x ∷ [])
        → has_float x ≡ false → IfOk result (λ n. n ≡ length (compact_text x)) }
{
    match docs {
        [_, Doc::Json(value)] => Ok(value.to_string(alloc)?.len()),
        _ => Ok(0),
    }
}

fn counts_value(alloc: Global, bytes: usize, count: u32, events: usize) -> Result<Value, AllocError>
    ensures { IfOk result (λ v. view v ≡ made_counts bytes count events) }
{
    json!(in alloc; {"made": {"bytes": bytes, "components": count, "events": events}})
}

// The answer that counts the documents of the road of a made bill.
fn answer_counts(alloc: Global, docs: &[Doc], count: u32) -> Result<Answer, AllocError>
    ensures { (m : IsMade count) → AreDocs docs.now (xml m.root ∷ json m.value ∷ [])
        → has_float m.value ≡ false → IfOk result (λ a. reply_of a ≡ made_reply count) }
{
    let bytes = count_bytes(alloc, docs)?;
    let value = counts_value(alloc, bytes, count, count_events(docs))?;
    answer_value(alloc, Status::Served as u8, &value)
}

// A made bill in JSON 1.5.
fn made_value(alloc: Global, count: u32) -> Result<Value, AllocError>
    ensures { IfOk result (λ v. view v
        ≡ jspell (keep SpecVersion.V1_5 (made_bill count) a_bill) SpecVersion.V1_5 a_bill) }
{
    let bom = made(alloc, count)?;
    let value = bom.to_value(alloc, SpecVersion::V1_5);
    drop(bom);
    value
}

/// The answer to the word `make` and a number: the made bill takes the road through XML 1.5 and JSON 1.4, and the answer
/// is `{"made":{"bytes":b,"components":n,"events":e}}`, where the first document has e events and the second one's
/// compact text b bytes. Only want of memory refuses.
pub(crate) fn answer_made(alloc: Global, count: u32) -> Result<Answer, AllocError>
    ensures { IfOk result (λ a. reply_of a ≡ made_reply count) }
{
    cdx_request::made_law();
    cdx_request::no_floats();
    let document = Doc::Json(made_value(alloc, count)?);
    let hops = [
        Hop {
            form: Form::Xml,
            version: SpecVersion::V1_5,
        },
        Hop {
            form: Form::Json,
            version: SpecVersion::V1_4,
        },
    ];
    match into_road(alloc, document, SpecVersion::V1_5, &hops) {
        Ok(docs) => answer_counts(alloc, docs.as_slice(), count),
        Err(error) => match error {
            RoadError::Memory(error) => Err(error),
            _ => unreachable!(),
        },
    }
}
