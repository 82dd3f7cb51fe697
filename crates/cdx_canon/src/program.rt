//! The top call.

ghost use Rattle.std.specs.Prelude.{◌≡◌, ◌≤◌, ◌<◌, ◌+◌, ◌⊎◌, ◌++◌, [], ◌∷◌, List, ℕ, length, Some, IfOk, IsSome, IsNone};
ghost use Rattle.std.specs.Io.KnownBytes.{Consumes, Appends, IsAtEnd};
ghost use Rattle.serde_json.specs.View.{view};
ghost use Rattle.cdx_events.specs.Causes.{Rose};
ghost use Rattle.cdx_models.specs.Trees.{Tree};
ghost use Rattle.cdx_request.specs.Replies.{limit, reply};
ghost use Rattle.cdx_bom.specs.Trees.{bom_tree};
ghost use Rattle.cdx_tool.specs.Owed.{IsSettled};
ghost use Rattle.cdx_tool.specs.Run.{Tells, Ends};
ghost use Rattle.cdx_tool.specs.Shows.{reply_of};
ghost use Rattle.cdx_tool.specs.Asks.{AsksFor, bill_in, reply_to_bill};
ghost use Rattle.cdx_canon.specs.Answers.{canonical_answer, canonical_reply, AsksForBoth, TellsEqual};
ghost use Rattle.cdx_canon.specs.Canon as texts;
ghost use Rattle.cdx_canon.specs.Words.{command_of};

use crate::comparing::answer_pair;
use crate::text::plain_value;
use crate::words::{Command, read_command};
use cdx_bom::Bom;
use cdx_events::{List as Items, Sink, Source};
use cdx_tool::{
    Answer, Respond, Status, answer_no_bill, answer_value, refuse, respond, take_bill, take_json,
};
use serde_json::Value;
use std::alloc::{AllocError, Global};

// The canonical text and a line feed. The bill is freed once its value is made.
fn answer_bill(alloc: Global, bill: Bom) -> Result<Answer, AllocError>
    ensures { IfOk result (λ a. reply_of a ≡ reply 0 (canonical_answer (bom_tree bill))) }
{
    let value = plain_value(alloc, &bill)?;
    drop(bill);
    answer_value(alloc, Status::Served as u8, &value)
}

// The canonical text of the bill that the value asks about.
fn answer_text(alloc: Global, value: Value) -> Result<Answer, AllocError>
    ensures { IfOk result
        (λ a. reply_of a ≡ reply_to_bill canonical_answer (bill_in (view value))) }
{
    match take_bill(alloc, value) {
        Ok(bill) => answer_bill(alloc, bill),
        Err(lack) => answer_no_bill(alloc, lack),
    }
}

impl Respond for Command {
    ghost use Rattle.cdx_canon.specs.Answers as answers;

    ghost owed = { answers.owed };

    fn answer(&self, alloc: Global, bytes: Items<u8>) -> Result<Answer, AllocError> {
        let Some(value) = take_json(alloc, bytes)? else {
            return refuse(alloc, Status::Unusable as u8, "not JSON");
        };
        match self {
            Command::Text => answer_text(alloc, value),
            Command::Equal => answer_pair(alloc, value),
        }
    }
}

/// Does what the words ask for, and gives the status. There are two commands, each the one word. `text` answers a
/// question about a bill by its canonical text. `equal` answers a question about two bills, an object with exactly the
/// members `left` and `right`, by whether they have one canonical text. A question about a bill is an object with
/// exactly the members `from` and `doc` by `read_question`. The statuses come in this order:
///
/// - 2, `{"request":"words"}`: the words are no command; nothing was read.
/// - 3: the source failed; nothing was written.
/// - 6, `{"request":"too long"}`: the source had more than 67,108,864 bytes left; at most one byte more was taken.
/// - 2, `{"request":"not JSON"}`: `serde_json` has no reading of the bytes.
/// - 2, `{"request":"shape"}`: the value is no question of the command's kind. For `equal` this is so where either side
///   is none.
/// - 1, `{"refused":{"cause":"unbalanced","place":p}}`: the document's events break at p.
/// - 1, `{"refused":{..}}` by `refusal_value`: the document has this first fault. For `equal` each refusal has a second
///   member `side`, `left` or `right`, and all that is refused of the left side comes before all that is refused of the
///   right side.
/// - 0: the source was read to its end and held such a question. For `text` the canonical text and a line feed were
///   written, for `equal` `{"equal":true}` exactly where the bills have one plain bill, and else `{"equal":false}`.
/// - 4: the sink failed, in place of 0, 1, 2 or 6; a front of the answer was written.
/// - 5: memory ran out; nothing was written.
///
/// With 0, 1, 2 and 6 the whole answer was written, a JSON value and a line feed, and all that was written is flushed.
/// No other status is given.
pub fn canonical<S: Source, K: Sink>(
    alloc: Global,
    words: &[String],
    source: &mut S,
    sink: &mut K,
) -> u8
    // For `text`, 0 says that the bytes read, to their end, were a question about one bill, and that the bytes written
    // are its canonical text and a line feed.
    ensures text { command_of words.now ≡ Some Command.Text → result ≡ 0
        → (bytes : List ℕ) × (b : Tree) × Tells (S.left source.old) bytes
        × IsAtEnd (S.left source.new) × AsksFor bytes b
        × Appends (K.written sink.old) (K.written sink.new) (texts.canon b ++ 10 ∷ []) }
    // For `equal`, 0 says that they were a question about two bills, and that the bytes written tell whether the two
    // have one plain bill.
    ensures equal { command_of words.now ≡ Some Command.Equal → result ≡ 0
        → (bytes : List ℕ) × (b : Tree) × (c : Tree) × Tells (S.left source.old) bytes
        × IsAtEnd (S.left source.new) × AsksForBoth bytes b c
        × TellsEqual (K.written sink.old) (K.written sink.new) b c }
    // What is answered to which words and bytes, and what is written with which status.
    ensures table { (bytes : List ℕ) × Tells (S.left source.old) bytes
        × Ends (canonical_reply words.now bytes) result (K.written sink.old) (K.written sink.new)
        (K.flushed sink.new) }
    // Where neither count rises, the status is that of the reply, unless memory runs out.
    ensures served { (bytes : List ℕ) → S.left source.old ≡ Some bytes
        → (Rose (S.faults source.old) (S.faults source.new) → ⊥)
        → (Rose (K.faults sink.old) (K.faults sink.new) → ⊥)
        → (result ≡ (canonical_reply words.now bytes).status) ⊎ (result ≡ 5) }
    // The causes of 3 and 4, and what a count that grew is answered by.
    ensures source_fault { result ≡ 3 → IsSome (command_of words.now)
        × Rose (S.faults source.old) (S.faults source.new) }
    ensures sink_fault { result ≡ 4 → Rose (K.faults sink.old) (K.faults sink.new) }
    ensures source_grew { S.faults source.old < S.faults source.new → (result ≡ 3) ⊎ (result ≡ 5) }
    ensures sink_grew { K.faults sink.old < K.faults sink.new → result ≡ 4 }
    ensures source_later { S.faults source.old ≤ S.faults source.new }
    ensures sink_later { K.faults sink.old ≤ K.faults sink.new }
    // What isn't touched: the source where the words are no command, the sink with 3 and 5.
    ensures words { IsNone (command_of words.now) → source.new ≡ source.old }
    ensures unwritten { (result ≡ 3) ⊎ (result ≡ 5) → sink.new ≡ sink.old }
    // How far the source was read: to its end, or to one byte beyond the limit.
    ensures end { IsSome (command_of words.now) → IsSettled result → IsAtEnd (S.left source.new) }
    ensures end_put { IsSome (command_of words.now) → result ≡ 4
        → (bytes : List ℕ) × Tells (S.left source.old) bytes
        × ((limit < length bytes) ⊎ IsAtEnd (S.left source.new)) }
    ensures taken { (taken : List ℕ) × Consumes (S.left source.old) (S.left source.new) taken
        × (length taken ≤ limit + 1) }
{
    let command = read_command(words);
    respond(alloc, command.as_ref(), source, sink)
}
