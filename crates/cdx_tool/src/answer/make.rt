//! The answer to the bytes of a request.

ghost use Rattle.std.specs.Prelude.{◌≡◌, Ok, false, option_map, IfOk};
ghost use Rattle.serde_json.specs.View.{view};
ghost use Rattle.serde_json.specs.Written.{has_float};
ghost use Rattle.cdx_models.specs.declared.bom.SpecVersion.{SpecVersion};
ghost use Rattle.cdx_schema.specs.Roads.{Doc, denotes, road};
ghost use Rattle.cdx_bom.specs.Docs.{hops_of};
ghost use Rattle.cdx_bom.specs.Hops.{IsDenoted};
ghost use Rattle.cdx_bom.specs.Trees.{bom_tree};
ghost use Rattle.cdx_request.specs.Requests.{document_in_json, request_from, request_of, request_in};
ghost use Rattle.cdx_request.specs.Replies.{line_of, reply, no_request, reply_to, reply_to_request, reply_to_road};
ghost use Rattle.cdx_tool.specs.Shows.{reply_of};

use super::text::road_line;
use super::{Answer, LIMIT};
use crate::question::{NoBill, answer_no_bill};
use crate::request::{Asked, take_asked};
use crate::status::Status;
use cdx_bom::{Bom, Hop, fits_all, version_missing};
use cdx_events::{List as Items, Text};
use cdx_print::LongText;
use serde_json::{Category, Value, json};
use std::alloc::{AllocError, Global};

/// The value that the bytes are, or none where `serde_json` has no reading of them. Only want of memory refuses.
pub fn read_json(alloc: Global, bytes: &[u8]) -> Result<Option<Value>, AllocError>
    ensures { IfOk result (λ o. option_map view o ≡ document_in_json bytes.now) }
{
    match Value::from_slice(alloc, bytes) {
        Ok(value) => Ok(Some(value)),
        Err(error) => match error.classify() {
            Category::Memory => Err(AllocError),
            _ => Ok(None),
        },
    }
}

/// `read_json` of bytes that nothing else needs, which are freed once the value is read.
pub fn take_json(alloc: Global, bytes: Items<u8>) -> Result<Option<Value>, AllocError>
    ensures { IfOk result (λ o. option_map view o ≡ document_in_json bytes) }
{
    read_json(alloc, bytes.as_slice())
}

// The value's text and a line feed, where it holds no float.
fn line(alloc: Global, value: &Value) -> Result<Text, AllocError>
    ensures { IfOk result (λ t. has_float (view value.now) ≡ false → t ≡ line_of (view value.now)) }
{
    let mut text = value.to_string(alloc)?;
    text.push('\n')?;
    Ok(Text::from_string(text))
}

/// The answer whose text is the value's and a line feed, where the value holds no float. Only want of memory refuses.
pub fn answer_value(alloc: Global, status: u8, value: &Value) -> Result<Answer, AllocError>
    ensures { IfOk result
        (λ a. has_float (view value.now) ≡ false → reply_of a ≡ reply status (view value.now)) }
{
    let text = LongText::from_text(alloc, line(alloc, value)?)?;
    Ok(Answer { status, text })
}

fn no_request_value(alloc: Global, reason: &str) -> Result<Value, AllocError>
    ensures { IfOk result (λ v. view v ≡ no_request reason.now) }
{
    json!(in alloc; {"request": reason})
}

/// The answer that something is no request, for a reason: `{"request":reason}`. Only want of memory refuses.
pub fn refuse(alloc: Global, status: u8, reason: &str) -> Result<Answer, AllocError>
    ensures { IfOk result (λ a. reply_of a ≡ reply status (no_request reason.now)) }
{
    let value = no_request_value(alloc, reason)?;
    answer_value(alloc, status, &value)
}

// The documents of the road of a bill, or its refusal.
fn answer_bill(alloc: Global, bill: Bom, hops: &[Hop]) -> Result<Answer, AllocError>
    requires { IsDenoted (bom_tree bill) }
    ensures { (x : Doc) (v : SpecVersion) → denotes x v ≡ Ok (bom_tree bill)
        → IfOk result (λ a. reply_of a ≡ reply_to_road (road x v (hops_of hops.now))) }
{
    if !fits_all(&bill, hops) {
        drop(bill);
        return answer_no_bill(alloc, NoBill::Refused(version_missing()));
    }
    match road_line(alloc, bill, hops) {
        Ok(text) => Ok(Answer {
            status: Status::Served as u8,
            text,
        }),
        Err(error) => answer_no_bill(alloc, NoBill::Refused(error)),
    }
}

fn answer_asked(alloc: Global, value: Value) -> Result<Answer, AllocError>
    ensures { IfOk result (λ a. reply_of a ≡ reply_to_request (request_of (view value))) }
{
    let Some(asked) = take_asked(alloc, value)? else {
        return refuse(alloc, Status::Unusable as u8, "shape");
    };
    let Asked { from, sent, hops } = asked;
    match sent.into_bill(alloc, from) {
        Ok(bill) => answer_bill(alloc, bill, hops.as_slice()),
        Err(error) => answer_no_bill(alloc, error),
    }
}

// The answer to the value that the bytes of a request are, if they are one.
fn answer_read(alloc: Global, value: Option<Value>) -> Result<Answer, AllocError>
    ensures { IfOk result
        (λ a. reply_of a ≡ reply_to_request (request_from (option_map view value))) }
{
    match value {
        None => refuse(alloc, Status::Unusable as u8, "not JSON"),
        Some(value) => answer_asked(alloc, value),
    }
}

// The answer to bytes that are no more than the limit, and that nothing else needs.
pub(crate) fn answer_owned(alloc: Global, bytes: Items<u8>) -> Result<Answer, AllocError>
    ensures { IfOk result (λ a. reply_of a ≡ reply_to_request (request_in bytes)) }
{
    let value = take_json(alloc, bytes)?;
    answer_read(alloc, value)
}

/// The answer to these bytes as a request for the word `road`, in this order:
///
/// - status 6, `{"request":"too long"}`: there are more than 67,108,864 bytes.
/// - 2, `{"request":"not JSON"}`: `serde_json` has no reading of them, which ends at 127 nested arrays and objects.
/// - 2, `{"request":"shape"}`: the value is no request by `read_request`.
/// - 1, `{"refused":{"cause":"unbalanced","place":p}}`: its document's events break at p.
/// - 1, `{"refused":{..}}` by `refusal_value`: its document has this first fault, or denotes a bill that lacks a version
///   which a hop asks for.
/// - 0, `{"documents":[..]}` by `documents_value`: the documents of its road, one for each hop.
pub fn answer_bytes(alloc: Global, bytes: &[u8]) -> Result<Answer, AllocError>
    ensures { IfOk result (λ a. reply_of a ≡ reply_to bytes.now) }
{
    if bytes.len() > LIMIT {
        return refuse(alloc, Status::TooLong as u8, "too long");
    }
    let value = read_json(alloc, bytes)?;
    answer_read(alloc, value)
}
