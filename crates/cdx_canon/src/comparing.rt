//! Whether two bills have one text.

ghost use Rattle.std.specs.Prelude.{◌≡◌, false, option_map, Some, IfOk, IsSome, Result as Owed};
ghost use Rattle.serde_json.specs.Data.{Members};
ghost use Rattle.serde_json.specs.View.{view};
ghost use Rattle.serde_json.specs.Written.{has_float};
ghost use Rattle.cdx_models.specs.Trees.{Tree};
ghost use Rattle.cdx_schema.specs.Roads.{Refusal};
ghost use Rattle.cdx_request.specs.Refusals.{refused, refusal_members, unbalanced_members};
ghost use Rattle.cdx_request.specs.Requests.{Misread};
ghost use Rattle.cdx_request.specs.Replies.{Reply, reply};
ghost use Rattle.cdx_bom.specs.Docs.{refusal_of};
ghost use Rattle.cdx_bom.specs.Trees.{bom_tree};
ghost use Rattle.cdx_tool.specs.Shows.{reply_of};
ghost use Rattle.cdx_tool.specs.Asks.{Inquiry, inquiry_of, bill_of as bill_owed, GivesBill, WhyNoBill, IsWhyNoBill};
ghost use Rattle.cdx_canon.specs.Answers.{is_equal, equality_answer, pair_of, refused_on, reply_on, reply_beside, reply_to_bills, reply_to_sides, reply_to_pair};
ghost use Rattle.cdx_canon.specs.Sides.{pair_view, IsSide, ReadsSide};

use crate::text::set_part;
use cdx_bom::{Bom, RoadError, into_bill, same};
use cdx_models::SpecVersion;
use cdx_tool::{
    Answer, NoBill, Question, RequestError, Status, answer_value, imbalance_value, only,
    read_question, refusal_value, refuse,
};
use serde_json::{Map, Value};
use std::alloc::{AllocError, Global};

/// One of the two sides: a question, or one whose document's events break at a place.
#[derive(Drop)]
pub(crate) enum Side {
    Question(Question),
    Unbalanced(usize),
}

// ---- the two sides

// The members `left` and `right`, where there is no other.
fn take_both(mut map: Map<String, Value>) -> Option<(Value, Value)>
    ensures { option_map pair_view result ≡ pair_of (view (Value.Object map)) }
{
    if map.len() != 2 {
        return None;
    }
    let left = map.remove("left")?;
    let right = map.remove("right")?;
    Some((left, right))
}

// The same, taken out of a value without a copy.
fn take_pair(value: Value) -> Option<(Value, Value)>
    ensures { option_map pair_view result ≡ pair_of (view value) }
{
    match value {
        Value::Object(map) => take_both(map),
        _ => None,
    }
}

// The question that a value is, if it has the shape of one. That its events break is kept for later.
fn read_side(alloc: Global, value: Value) -> Result<Option<Side>, AllocError>
    ensures { IfOk result (ReadsSide (inquiry_of (view value))) }
{
    match read_question(alloc, value) {
        Ok(question) => Ok(Some(Side::Question(question))),
        Err(RequestError::Unbalanced { place }) => Ok(Some(Side::Unbalanced(place))),
        Err(RequestError::Shape) => Ok(None),
        Err(RequestError::Memory(error)) => Err(error),
    }
}

fn bill_of(alloc: Global, side: Side) -> Result<Bom, NoBill>
    ensures { (owed : Owed Inquiry Misread) → IsSide owed side → GivesBill (bill_owed owed) result }
{
    match side {
        Side::Question(question) => Ok(into_bill(alloc, question.doc, question.from)?),
        Side::Unbalanced(place) => Err(NoBill::Misread(RequestError::Unbalanced { place })),
    }
}

// ---- refusals

// The refusal with the side as a second member.
fn answer_refusal(alloc: Global, side: &str, refusal: Value) -> Result<Answer, AllocError>
    ensures { (ms : Members) → view refusal ≡ refused ms → has_float (refused ms) ≡ false
        → IfOk result (λ a. reply_of a ≡ reply 1 (refused_on side.now ms)) }
{
    let name = Value::try_from_str(alloc, side)?;
    let value = set_part(alloc, refusal, "side", name)?;
    answer_value(alloc, Status::Refused as u8, &value)
}

fn answer_unbalanced(alloc: Global, side: &str, place: usize) -> Result<Answer, AllocError>
    ensures { IfOk result
        (λ a. reply_of a ≡ reply 1 (refused_on side.now (unbalanced_members place))) }
{
    let refusal = imbalance_value(alloc, place)?;
    answer_refusal(alloc, side, refusal)
}

fn answer_refused(alloc: Global, side: &str, error: &RoadError) -> Result<Answer, AllocError>
    requires { IsSome (refusal_of error.now) }
    ensures { (r : Refusal) → refusal_of error.now ≡ Some r
        → IfOk result (λ a. reply_of a ≡ reply 1 (refused_on side.now (refusal_members r))) }
{
    cdx_request::no_floats();
    let refusal = refusal_value(alloc, error)?;
    answer_refusal(alloc, side, refusal)
}

// The answer where a side has no bill.
fn answer_no_bill_on(alloc: Global, side: &str, lack: NoBill) -> Result<Answer, AllocError>
    requires { (owed : Owed Tree WhyNoBill) × IsWhyNoBill owed lack }
    ensures { (owed : Owed Tree WhyNoBill) (next : Tree → Reply) → IsWhyNoBill owed lack
        → IfOk result (λ a. reply_of a ≡ reply_on side.now next owed) }
{
    match lack {
        NoBill::Misread(RequestError::Shape) => refuse(alloc, Status::Unusable as u8, "shape"),
        NoBill::Misread(RequestError::Unbalanced { place }) => {
            answer_unbalanced(alloc, side, place)
        }
        NoBill::Misread(RequestError::Memory(error)) => Err(error),
        NoBill::Refused(RoadError::Memory(error)) => Err(error),
        NoBill::Refused(error) => answer_refused(alloc, side, &error),
    }
}

// ---- the comparison

// Whether the bills are the same but for their labels.
fn is_same_text(mut left: Bom, mut right: Bom) -> bool
    ensures { result ≡ is_equal (bom_tree left) (bom_tree right) }
{
    left.spec_version = SpecVersion::V1_5;
    right.spec_version = SpecVersion::V1_5;
    same(&left, &right)
}

fn answer_equal(alloc: Global, left: Bom, right: Bom) -> Result<Answer, AllocError>
    ensures { IfOk result
        (λ a. reply_of a ≡ reply 0 (equality_answer (is_equal (bom_tree left) (bom_tree right)))) }
{
    let is_equal = is_same_text(left, right);
    let value = only(alloc, "equal", Value::Bool(is_equal))?;
    answer_value(alloc, Status::Served as u8, &value)
}

// What is answered to the right side, beside the left side's bill.
fn answer_right(alloc: Global, left: Bom, right: Side) -> Result<Answer, AllocError>
    requires { (r : Owed Inquiry Misread) × IsSide r right }
    ensures { (r : Owed Inquiry Misread) → IsSide r right
        → IfOk result (λ a. reply_of a ≡ reply_beside (bill_owed r) (bom_tree left)) }
{
    match bill_of(alloc, right) {
        Err(lack) => answer_no_bill_on(alloc, "right", lack),
        Ok(right) => answer_equal(alloc, left, right),
    }
}

// The left side comes first.
fn answer_sides(alloc: Global, left: Side, right: Side) -> Result<Answer, AllocError>
    requires left { (l : Owed Inquiry Misread) × IsSide l left }
    requires right { (r : Owed Inquiry Misread) × IsSide r right }
    ensures { (l : Owed Inquiry Misread) (r : Owed Inquiry Misread) → IsSide l left → IsSide r right
        → IfOk result (λ a. reply_of a ≡ reply_to_bills (bill_owed l) (bill_owed r)) }
{
    match bill_of(alloc, left) {
        Err(lack) => answer_no_bill_on(alloc, "left", lack),
        Ok(left) => answer_right(alloc, left, right),
    }
}

// The same of a right side that has yet to be read. Its shape comes before all that is refused of either side.
fn answer_beside(alloc: Global, left: Side, right: Value) -> Result<Answer, AllocError>
    requires { (l : Owed Inquiry Misread) × IsSide l left }
    ensures { (l : Owed Inquiry Misread) → IsSide l left
        → IfOk result (λ a. reply_of a ≡ reply_to_sides l (inquiry_of (view right))) }
{
    let right = read_side(alloc, right)?;
    match right {
        None => refuse(alloc, Status::Unusable as u8, "shape"),
        Some(right) => answer_sides(alloc, left, right),
    }
}

fn answer_both(alloc: Global, left: Value, right: Value) -> Result<Answer, AllocError>
    ensures { IfOk result
        (λ a. reply_of a ≡ reply_to_sides (inquiry_of (view left)) (inquiry_of (view right))) }
{
    let left = read_side(alloc, left)?;
    match left {
        None => refuse(alloc, Status::Unusable as u8, "shape"),
        Some(left) => answer_beside(alloc, left, right),
    }
}

/// The answer to a question about two bills: an object with exactly the members `left` and `right`, each a question by
/// `read_question`. The shape of both comes first, then all that is refused of the left side, and then all that is
/// refused of the right side.
pub(crate) fn answer_pair(alloc: Global, value: Value) -> Result<Answer, AllocError>
    ensures { IfOk result (λ a. reply_of a ≡ reply_to_pair (pair_of (view value))) }
{
    match take_pair(value) {
        None => refuse(alloc, Status::Unusable as u8, "shape"),
        Some((left, right)) => answer_both(alloc, left, right),
    }
}
