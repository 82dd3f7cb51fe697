//! The top call.

ghost use Rattle.std.specs.Prelude.{◌≡◌, ◌≤◌, ◌<◌, ◌+◌, ◌⊎◌, List, ℕ, length, Some, Ok, IsSome, IsNone};
ghost use Rattle.std.specs.Io.KnownBytes.{Consumes, Appends, IsAtEnd};
ghost use Rattle.cdx_events.specs.Causes.{Rose};
ghost use Rattle.cdx_request.specs.Requests.{Request, request_in};
ghost use Rattle.cdx_request.specs.Replies.{line_of, limit};
ghost use Rattle.cdx_request.specs.Served.{IsValid};
ghost use Rattle.cdx_tool.specs.Owed.{IsSettled};
ghost use Rattle.cdx_tool.specs.Run.{Tells, Ends};
ghost use Rattle.cdx_losses.specs.Report.{command_of, answer_to, reply_for};

use crate::answering::answer_bytes;
use cdx_events::{List as Items, Sink, Source};
use cdx_tool::{Answer, Respond, respond};
use std::alloc::{AllocError, Global};

/// What the words ask for: what a road takes of a bill.
#[derive(Clone, Copy)]
pub(crate) enum Command {
    Losses,
}

impl Respond for Command {
    ghost use Rattle.cdx_losses.specs.Report as reports;

    ghost owed = { λ command bytes. reports.owed bytes };

    fn answer(&self, alloc: Global, bytes: Items<u8>) -> Result<Answer, AllocError> {
        answer_bytes(alloc, bytes)
    }
}

// The command of the words: `losses` alone.
fn read_command(words: &[String]) -> Option<Command>
    ensures { result ≡ command_of words.now }
{
    match words {
        [word] => {
            if word.as_str() == "losses" {
                Some(Command::Losses)
            } else {
                None
            }
        }
        _ => None,
    }
}

/// Tells what the road of the request that the source holds takes of its bill, and gives the status. There is one
/// command, the one word `losses`. The source holds one request by `read_request`: an object with exactly the members
/// `from`, `doc` and `hops`. No document of the road is made. The statuses come in this order:
///
/// - 2, `{"request":"words"}`: the words are no command; nothing was read.
/// - 3: the source failed; nothing was written.
/// - 6, `{"request":"too long"}`: the source had more than 67,108,864 bytes left; at most one byte more was taken.
/// - 2, `{"request":"not JSON"}`: `serde_json` has no reading of the bytes.
/// - 2, `{"request":"shape"}`: the value is no request by `read_request`.
/// - 1, `{"refused":{"cause":"unbalanced","place":p}}`: its document's events break at p.
/// - 1, `{"refused":{..}}` by `refusal_value`: its document has this first fault, or denotes a bill that lacks a version
///   which a hop asks for.
/// - 0: the source was read to its end and held a request. `{"losses":[..]}` was written, with an object for each loss by
///   `losses`, in order: `path`, a JSON pointer, and `reason`, which is `version`, `tools`, `flow` or `xml`.
/// - 4: the sink failed, in place of 0, 1, 2 or 6; a front of the answer was written.
/// - 5: memory ran out; nothing was written.
///
/// With 0, 1, 2 and 6 the whole answer was written, a JSON value and a line feed, and all that was written is flushed.
/// No other status is given.
pub fn report<S: Source, K: Sink>(
    alloc: Global,
    words: &[String],
    source: &mut S,
    sink: &mut K,
) -> u8
    // 0 says that the bytes read, to their end, are one request, whose document denotes one bill that fits every hop, and
    // that the bytes written are the line of what the road takes of that bill.
    ensures headline { command_of words.now ≡ Some Command.Losses → result ≡ 0
        → (bytes : List ℕ) × (request : Request) × Tells (S.left source.old) bytes
        × IsAtEnd (S.left source.new) × (request_in bytes ≡ Ok request)
        × ((valid : IsValid request) × Appends (K.written sink.old) (K.written sink.new)
        (line_of (answer_to request.hops valid.the_bill))) }
    // A valid request is answered by 0 where neither count rises, unless memory runs out.
    ensures valid { (bytes : List ℕ) (request : Request)
        → command_of words.now ≡ Some Command.Losses → S.left source.old ≡ Some bytes
        → length bytes ≤ limit → request_in bytes ≡ Ok request → IsValid request
        → (Rose (S.faults source.old) (S.faults source.new) → ⊥)
        → (Rose (K.faults sink.old) (K.faults sink.new) → ⊥) → (result ≡ 0) ⊎ (result ≡ 5) }
    // What is answered to which words and bytes, and what is written with which status.
    ensures table { (bytes : List ℕ) × Tells (S.left source.old) bytes
        × Ends (reply_for words.now bytes) result (K.written sink.old) (K.written sink.new)
        (K.flushed sink.new) }
    // Where neither count rises, the status is that of the reply, unless memory runs out.
    ensures served { (bytes : List ℕ) → S.left source.old ≡ Some bytes
        → (Rose (S.faults source.old) (S.faults source.new) → ⊥)
        → (Rose (K.faults sink.old) (K.faults sink.new) → ⊥)
        → (result ≡ (reply_for words.now bytes).status) ⊎ (result ≡ 5) }
    // The causes of 3 and 4, and what a count that grew is answered by.
    ensures source_fault { result ≡ 3 → IsSome (command_of words.now)
        × Rose (S.faults source.old) (S.faults source.new) }
    ensures sink_fault { result ≡ 4 → Rose (K.faults sink.old) (K.faults sink.new) }
    ensures source_grew { S.faults source.old < S.faults source.new → (result ≡ 3) ⊎ (result ≡ 5) }
    ensures sink_grew { K.faults sink.old < K.faults sink.new → result ≡ 4 }
    ensures source_later { S.faults source.old ≤ S.faults source.new }
    ensures sink_later { K.faults sink.old ≤ K.faults sink.new }
    // What isn't touched: the source where the words are no command, the sink with 3 and 5.
    ensures words { IsNone (command_of words.now) → source.new ≡ source.old }
    ensures unwritten { (result ≡ 3) ⊎ (result ≡ 5) → sink.new ≡ sink.old }
    // How far the source was read: to its end, or to one byte beyond the limit.
    ensures end { IsSome (command_of words.now) → IsSettled result → IsAtEnd (S.left source.new) }
    ensures end_put { IsSome (command_of words.now) → result ≡ 4
        → (bytes : List ℕ) × Tells (S.left source.old) bytes
        × ((limit < length bytes) ⊎ IsAtEnd (S.left source.new)) }
    ensures taken { (taken : List ℕ) × Consumes (S.left source.old) (S.left source.new) taken
        × (length taken ≤ limit + 1) }
{
    let command = read_command(words);
    respond(alloc, command.as_ref(), source, sink)
}
