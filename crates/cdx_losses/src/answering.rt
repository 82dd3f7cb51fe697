//! What is answered to a request: what its road takes of its bill, as JSON.

ghost use Rattle.std.specs.Prelude.{◌≡◌, Ok, IfOk};
ghost use Rattle.serde_json.specs.View.{view};
ghost use Rattle.cdx_schema.specs.Roads as roads;
ghost use Rattle.cdx_bom.specs.Trees.{bom_tree};
ghost use Rattle.cdx_bom.specs.Docs.{IsDoc, hops_of};
ghost use Rattle.cdx_bom.specs.Hops.{DenotesBill};
ghost use Rattle.cdx_request.specs.Requests.{Request as Asked, request_of};
ghost use Rattle.cdx_request.specs.Replies.{reply};
ghost use Rattle.cdx_tool.specs.Reads.{IsRequest};
ghost use Rattle.cdx_tool.specs.Shows.{reply_of};
ghost use Rattle.cdx_losses.specs.Answers.{reason_word, losses_answer as losses_in};
ghost use Rattle.cdx_losses.specs.Report.{if_fit as bill_if_fit, carried as bill_carried, answer_to, losses_reply, owed};
ghost use Rattle.cdx_losses.specs.Told.{all_told};

use crate::loss::{Loss, Reason};
use crate::walking::losses;
use cdx_bom::{Bom, Doc, Hop, RoadError, fits_all, into_bill, version_missing};
use cdx_events::List as Items;
use cdx_models::SpecVersion;
use cdx_tool::{
    Answer, JsonItem, NoBill, Request, Status, answer_no_bill, answer_value, items_to_json, only,
    refuse, take_json, take_request,
};
use serde_json::{Value, json};
use std::alloc::{AllocError, Global};

// ---- the answer

fn word_of(reason: Reason) -> &'static str
    ensures { result.now ≡ reason_word reason }
{
    match reason {
        Reason::Version => "version",
        Reason::Tools => "tools",
        Reason::Flow => "flow",
        Reason::Xml => "xml",
    }
}

impl JsonItem for Loss {
    ghost use Rattle.cdx_losses.specs.Answers.{loss_value};
    ghost use Rattle.cdx_losses.specs.Told.{told};

    ghost shown = { λ l. loss_value (told l) };

    fn to_json(&self, alloc: Global) -> Result<Value, AllocError> {
        let path = self.path.print(alloc)?;
        json!(in alloc; {"path": path.as_str(), "reason": word_of(self.reason)})
    }
}

fn losses_answer(alloc: Global, losses: &Items<Loss>) -> Result<Value, AllocError>
    ensures { IfOk result (λ v. view v ≡ losses_in (all_told losses.now)) }
{
    let values = items_to_json(alloc, losses.as_slice())?;
    only(alloc, "losses", values)
}

#[tactic(auto, using(crate::proofs::Reported::losses_clear))]
fn answer_bill(alloc: Global, bill: &Bom, hops: &[Hop]) -> Result<Answer, AllocError>
    ensures { IfOk result
        (λ a. reply_of a ≡ reply 0 (answer_to (hops_of hops.now) (bom_tree bill.now))) }
{
    let losses = losses(alloc, bill, hops)?;
    let value = losses_answer(alloc, &losses)?;
    answer_value(alloc, Status::Served as u8, &value)
}

// ---- the bill

// The bill, unless a hop's version can't hold it.
fn if_fit(bill: Bom, hops: &[Hop]) -> Result<Bom, RoadError>
    ensures { DenotesBill (bill_if_fit (hops_of hops.now) (bom_tree bill)) result }
{
    if fits_all(&bill, hops) {
        return Ok(bill);
    }
    drop(bill);
    Err(version_missing())
}

// The bill that a road of the document along the hops carries.
fn carried(alloc: Global, doc: Doc, from: SpecVersion, hops: &[Hop]) -> Result<Bom, RoadError>
    ensures { (x : roads.Doc) → IsDoc doc x
        → DenotesBill (bill_carried x from (hops_of hops.now)) result }
{
    let bill = into_bill(alloc, doc, from)?;
    if_fit(bill, hops)
}

// ---- the request

fn answer_request(alloc: Global, request: Request) -> Result<Answer, AllocError>
    requires { (q : Asked) × IsRequest request q }
    ensures { (q : Asked) → IsRequest request q
        → IfOk result (λ a. reply_of a ≡ losses_reply (Ok q)) }
{
    let Request { from, doc, hops } = request;
    let road = hops.as_slice();
    match carried(alloc, doc, from, road) {
        Ok(bill) => answer_bill(alloc, &bill, road),
        Err(error) => answer_no_bill(alloc, NoBill::Refused(error)),
    }
}

fn answer_asked(alloc: Global, value: Value) -> Result<Answer, AllocError>
    ensures { IfOk result (λ a. reply_of a ≡ losses_reply (request_of (view value))) }
{
    match take_request(alloc, value) {
        Ok(request) => answer_request(alloc, request),
        Err(error) => answer_no_bill(alloc, NoBill::Misread(error)),
    }
}

/// The answer to the bytes of a request: what its road takes of its bill, without that road's documents. Only want of
/// memory refuses.
pub(crate) fn answer_bytes(alloc: Global, bytes: Items<u8>) -> Result<Answer, AllocError>
    ensures { IfOk result (λ a. reply_of a ≡ owed bytes) }
{
    match take_json(alloc, bytes)? {
        None => refuse(alloc, Status::Unusable as u8, "not JSON"),
        Some(value) => answer_asked(alloc, value),
    }
}
