//! Questions about one bill, and what is answered where there is none.

ghost use Rattle.std.specs.Prelude.{◌≡◌, Some, option_map, IfOk, IsSome, Result as Owed};
ghost use Rattle.cdx_models.specs.Trees.{Tree};
ghost use Rattle.serde_json.specs.Data.{Data};
ghost use Rattle.cdx_tool.specs.Reads.{ReadsOwed};
ghost use Rattle.cdx_tool.specs.Shows.{reply_of};
ghost use Rattle.serde_json.specs.View.{view};
ghost use Rattle.cdx_schema.specs.Roads.{Refusal};
ghost use Rattle.cdx_bom.specs.Docs.{refusal_of};
ghost use Rattle.cdx_request.specs.Refusals.{refusal_value as refused_for, imbalance_value as unbalanced_at};
ghost use Rattle.cdx_request.specs.Replies.{reply};
ghost use Rattle.cdx_tool.specs.Asks.{IsQuestion, inquiry_if, inquiry_of, bill_in, GivesBill, WhyNoBill, IsWhyNoBill, reply_to_bill};

use crate::answer::{Answer, answer_value, imbalance_value, refusal_value, refuse};
use crate::part::{count_members, take_member, version_at};
use crate::request::{RequestError, take_doc, take_unread};
use crate::status::Status;
use cdx_bom::{Bom, Doc, RoadError};
use cdx_models::SpecVersion;
use serde_json::Value;
use std::alloc::{AllocError, Global};

/// A question about the bill of a document.
#[derive(Debug, Drop)]
pub struct Question {
    /// The version in which the document is read.
    pub from: SpecVersion,
    /// The document.
    pub doc: Doc,
}

/// Why there is no bill.
#[derive(Debug, Drop)]
pub enum NoBill {
    /// The value is no question, or memory ran out.
    Misread(RequestError),
    /// The document has this first fault, or memory ran out.
    Refused(RoadError),
}

impl From<RequestError> for NoBill {
    ghost use Rattle.std.specs.Prelude.{◌≡◌};
    ghost use Rattle.cdx_tool.specs.declared.question.NoBill.TheVariants.{Misread};

    ghost from_gives = { λ a e. e ≡ Misread a };

    fn from(error: RequestError) -> NoBill {
        NoBill::Misread(error)
    }
}

impl From<RoadError> for NoBill {
    ghost use Rattle.std.specs.Prelude.{◌≡◌};
    ghost use Rattle.cdx_tool.specs.declared.question.NoBill.TheVariants.{Refused};

    ghost from_gives = { λ a e. e ≡ Refused a };

    fn from(error: RoadError) -> NoBill {
        NoBill::Refused(error)
    }
}

// The version and the document of a question, which isn't read yet.
fn take_inquiry(value: Value) -> Option<(SpecVersion, Value)>
    ensures { inquiry_if (option_map (λ parts. (parts.0, view parts.1)) result)
        ≡ inquiry_of (view value) }
{
    if count_members(&value) != 2 {
        return None;
    }
    let from = version_at(&value, "from")?;
    let document = take_member(value, "doc")?;
    Some((from, document))
}

/// The question that a value is: an object with exactly the members `from` (`"1.3"`, `"1.4"` or `"1.5"`) and `doc`, a
/// document by `read_doc`. The value is taken, so that no JSON is copied.
///
/// `Shape` comes exactly where the value is no such object, and else `Unbalanced` exactly where the document's events
/// aren't balanced. Want of memory comes only as `Memory`.
pub fn read_question(alloc: Global, value: Value) -> Result<Question, RequestError>
    ensures { ReadsOwed IsQuestion (inquiry_of (view value)) result }
{
    let Some((from, document)) = take_inquiry(value) else {
        return Err(RequestError::Shape);
    };
    let doc = take_doc(alloc, document)?;
    Ok(Question { from, doc })
}

/// The bill that a value asks about by `read_question`: the bill of its document, read in its version. No list of its
/// events is made: each is read out of its object, which is then freed.
///
/// `Misread` comes exactly where `read_question` refuses the value, with that refusal, and else `Refused` exactly where
/// the document has a fault, with its first fault. Want of memory comes in either.
pub fn take_bill(alloc: Global, value: Value) -> Result<Bom, NoBill>
    ensures { GivesBill (bill_in (view value)) result }
{
    let Some((from, document)) = take_inquiry(value) else {
        return Err(NoBill::Misread(RequestError::Shape));
    };
    match take_unread(document) {
        None => Err(NoBill::Misread(RequestError::Shape)),
        Some(unread) => unread.into_bill(alloc, from),
    }
}

fn answer_unbalanced(alloc: Global, place: usize) -> Result<Answer, AllocError>
    ensures { IfOk result (λ a. reply_of a ≡ reply 1 (unbalanced_at place)) }
{
    let value = imbalance_value(alloc, place)?;
    answer_value(alloc, Status::Refused as u8, &value)
}

fn answer_refused(alloc: Global, error: &RoadError) -> Result<Answer, AllocError>
    requires { IsSome (refusal_of error.now) }
    ensures { (r : Refusal) → refusal_of error.now ≡ Some r
        → IfOk result (λ a. reply_of a ≡ reply 1 (refused_for r)) }
{
    cdx_request::no_floats();
    let value = refusal_value(alloc, error)?;
    answer_value(alloc, Status::Refused as u8, &value)
}

/// The answer where there is no bill: status 2 and `{"request":"shape"}` for a value that is no question, and status 1
/// and `{"refused":{..}}` for a document whose events aren't balanced or that has a fault, by `imbalance_value` and
/// `refusal_value`. Only want of memory refuses.
pub fn answer_no_bill(alloc: Global, error: NoBill) -> Result<Answer, AllocError>
    requires { (owed : Owed Tree WhyNoBill) × IsWhyNoBill owed error }
    ensures { (owed : Owed Tree WhyNoBill) (f : Tree → Data) → IsWhyNoBill owed error
        → IfOk result (λ a. reply_of a ≡ reply_to_bill f owed) }
{
    match error {
        NoBill::Misread(RequestError::Shape) => refuse(alloc, Status::Unusable as u8, "shape"),
        NoBill::Misread(RequestError::Unbalanced { place }) => answer_unbalanced(alloc, place),
        NoBill::Misread(RequestError::Memory(error)) => Err(error),
        NoBill::Refused(RoadError::Memory(error)) => Err(error),
        NoBill::Refused(error) => answer_refused(alloc, &error),
    }
}
