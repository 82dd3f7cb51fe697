//! What is answered to a question about a bill: its inventory as JSON.

ghost use Rattle.std.specs.Prelude.{◌≡◌, IfOk, option_map};
ghost use Rattle.serde_json.specs.View.{view};
ghost use Rattle.cdx_bom.specs.Trees.{bom_tree};
ghost use Rattle.cdx_request.specs.Replies.{reply};
ghost use Rattle.cdx_tool.specs.Shows.{reply_of};
ghost use Rattle.cdx_tool.specs.Asks.{bill_in, reply_to_bill, reply_asking};
ghost use Rattle.cdx_inventory.specs.Entries.{all_told};
ghost use Rattle.cdx_inventory.specs.Stock.{components_answer as components_in, to_list, answer_to};

use crate::entry::Entry;
use crate::listing::inventory;
use cdx_bom::Bom;
use cdx_events::List as Items;
use cdx_tool::{
    Answer, JsonItem, Status, answer_no_bill, answer_value, items_to_json, only, refuse, take_bill,
    take_json,
};
use serde_json::{Value, json};
use std::alloc::{AllocError, Global};

impl JsonItem for Entry {
    ghost use Rattle.cdx_inventory.specs.Entries.{told};
    ghost use Rattle.cdx_inventory.specs.Stock.{entry_value};

    ghost shown = { λ e. entry_value (told e) };

    fn to_json(&self, alloc: Global) -> Result<Value, AllocError> {
        let licenses = items_to_json(alloc, self.licenses.as_slice())?;
        let name = self.name.as_str();
        let path = self.path.print(alloc)?;
        match &self.version {
            None => json!(in alloc; {"licenses": licenses, "name": name, "path": path.as_str()}),
            Some(version) => json!(in alloc; {
                "licenses": licenses,
                "name": name,
                "path": path.as_str(),
                "version": version.as_str()
            }),
        }
    }
}

fn components_answer(alloc: Global, entries: &Items<Entry>) -> Result<Value, AllocError>
    ensures { IfOk result (λ v. view v ≡ components_in (all_told entries.now)) }
{
    let values = items_to_json(alloc, entries.as_slice())?;
    only(alloc, "components", values)
}

#[tactic(auto, using(crate::proofs::Owed::components_clear))]
fn answer_bill(alloc: Global, bill: &Bom, license: Option<&str>) -> Result<Answer, AllocError>
    ensures { let asked = to_list (option_map (λ s. s.now) license.entry) in
        IfOk result (λ a. reply_of a ≡ reply 0 (answer_to asked (bom_tree bill.now))) }
{
    let entries = inventory(alloc, bill, license)?;
    let value = components_answer(alloc, &entries)?;
    answer_value(alloc, Status::Served as u8, &value)
}

fn answer_question(alloc: Global, value: Value, license: Option<&str>) -> Result<Answer, AllocError>
    ensures { let asked = to_list (option_map (λ s. s.now) license.entry) in
        IfOk result (λ a. reply_of a ≡ reply_to_bill (answer_to asked) (bill_in (view value))) }
{
    match take_bill(alloc, value) {
        Ok(bill) => answer_bill(alloc, &bill, license),
        Err(error) => answer_no_bill(alloc, error),
    }
}

/// The answer to the bytes of a question about a bill: its components, or those under the license. Only want of memory
/// refuses.
pub(crate) fn answer_bytes(
    alloc: Global,
    bytes: Items<u8>,
    license: Option<&str>,
) -> Result<Answer, AllocError>
    ensures { let asked = to_list (option_map (λ s. s.now) license.entry) in
        IfOk result (λ a. reply_of a ≡ reply_asking (answer_to asked) bytes) }
{
    match take_json(alloc, bytes)? {
        None => refuse(alloc, Status::Unusable as u8, "not JSON"),
        Some(value) => answer_question(alloc, value, license),
    }
}
