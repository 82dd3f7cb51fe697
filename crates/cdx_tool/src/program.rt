//! The top call.

ghost use Rattle.std.specs.Prelude.{◌≡◌, ◌≤◌, ◌<◌, ◌+◌, ◌⊎◌, List, ℕ, length, true, false, Some, Ok, IfOk, IfErr, OnOk};
ghost use Rattle.std.specs.Io.KnownBytes.{Consumes, Appends, IsAtEnd};
ghost use Rattle.serde_json.specs.Data.{Data, depth};
ghost use Rattle.cdx_events.specs.Causes.{Rose};
ghost use Rattle.cdx_schema.specs.Roads.{Doc};
ghost use Rattle.cdx_request.specs.Requests.{Request, request_in};
ghost use Rattle.cdx_request.specs.Replies.{line_of, documents_value, limit};
ghost use Rattle.cdx_request.specs.Served.{Serves, IsValid, IsMade};
ghost use Rattle.cdx_request.specs.Made.{count_value};
ghost use Rattle.cdx_tool.specs.Shows.{reply_of};
ghost use Rattle.cdx_tool.specs.Words.{command_of, is_road, a_make};
ghost use Rattle.cdx_tool.specs.Run.{reply_for, Tells, Ends};

use crate::answer::{Answer, answer_owned, refuse};
use crate::command::Respond;
use crate::making::answer_made;
use crate::output::put_answer;
use crate::responding::answer_source;
use crate::status::Status;
use crate::words::{Command, read_command};
use cdx_events::{List as Items, Sink, Source};
use std::alloc::{AllocError, Global};

/// The command `road`, which answers one request.
struct Road;

impl Respond for Road {
    ghost use Rattle.cdx_request.specs.Requests.{request_in};
    ghost use Rattle.cdx_request.specs.Replies.{reply_to_request};

    ghost owed = { λ road bytes. reply_to_request (request_in bytes) };

    fn answer(&self, alloc: Global, bytes: Items<u8>) -> Result<Answer, AllocError> {
        answer_owned(alloc, bytes)
    }
}

// The answer that is owed to the words and to what the source has left, or the status in its place.
fn owed<S: Source>(alloc: Global, words: &[String], source: &mut S) -> Result<Answer, u8>
    ensures ok { IfOk result (λ a. (bytes : List ℕ) × Tells (S.left source.old) bytes
        × (reply_of a ≡ reply_for words.now bytes)) }
    ensures end { IfOk result
        (λ a. is_road words.now ≡ true → (a.status ≡ 6) ⊎ IsAtEnd (S.left source.new)) }
    ensures ok_cause { OnOk result (S.faults source.new ≡ S.faults source.old) }
    ensures err { IfErr result (λ status. ((status ≡ 3) × (is_road words.now ≡ true)
        × Rose (S.faults source.old) (S.faults source.new))
        ⊎ (status ≡ 5)) }
    ensures later { S.faults source.old ≤ S.faults source.new }
    ensures words { is_road words.now ≡ false → source.new ≡ source.old }
    ensures taken { (taken : List ℕ) × Consumes (S.left source.old) (S.left source.new) taken
        × (length taken ≤ limit + 1) }
{
    match read_command(words) {
        Some(Command::Road) => answer_source(alloc, &Road, source),
        Some(Command::Make(count)) => match answer_made(alloc, count) {
            Ok(answer) => Ok(answer),
            Err(_) => Err(Status::NoMemory as u8),
        },
        None => match refuse(alloc, Status::Unusable as u8, "words") {
            Ok(answer) => Ok(answer),
            Err(_) => Err(Status::NoMemory as u8),
        },
    }
}

/// Does what the words ask for, and gives the status. There are two commands: the one word `road`, which answers the one
/// request that the source holds, and the two words `make` and a number from 1 to 20,000, in decimal and without sign or
/// leading zero, which makes a bill of so many components and counts what its road through XML 1.5 and JSON 1.4 writes,
/// and reads nothing from the source. The statuses come in this order:
///
/// - 2, `{"request":"words"}`: the words are no command; nothing was read.
/// - 3: the source failed; nothing was written.
/// - 6, `{"request":"too long"}`: the source had more than 67,108,864 bytes left; at most one byte more was taken.
/// - 2, `{"request":"not JSON"}`: `serde_json` has no reading of the bytes.
/// - 2, `{"request":"shape"}`: the value is no request by `read_request`.
/// - 1, `{"refused":{"cause":"unbalanced","place":p}}`: its document's events break at p.
/// - 1, `{"refused":{..}}` by `refusal_value`: its document has this first fault, or denotes a bill that lacks a version
///   which a hop asks for.
/// - 0: the source was read to its end and held a request; the documents of its road, one for each hop, were written as
///   `{"documents":[..]}`. For `make` it is `{"made":{"bytes":b,"components":n,"events":e}}`.
/// - 4: the sink failed, in place of 0, 1, 2 or 6; a front of the answer was written.
/// - 5: memory ran out; nothing was written.
///
/// With 0, 1, 2 and 6 the whole answer was written, a JSON value and a line feed, and all that was written is flushed.
/// No other status is given.
pub fn run<S: Source, K: Sink>(alloc: Global, words: &[String], source: &mut S, sink: &mut K) -> u8
    // For `road`, 0 says that the bytes read, to their end, were one request whose document denotes one bill, and that
    // the bytes written are the line of its documents: one for each hop, each denoting the bill after the hops up to it.
    ensures headline { is_road words.now ≡ true → result ≡ 0 → (bytes : List ℕ) × (docs : List Doc)
        × Tells (S.left source.old) bytes × IsAtEnd (S.left source.new) × Serves bytes docs
        × Appends (K.written sink.old) (K.written sink.new) (line_of (documents_value docs)) }
    // That line nests at most 107 arrays and objects, so that `serde_json` reads it again.
    ensures nests { is_road words.now ≡ true → result ≡ 0 → (d : Data)
        × Appends (K.written sink.old) (K.written sink.new) (line_of d) × (depth d ≤ 107) }
    // A valid request is answered by 0 where neither count rises, unless memory runs out.
    ensures valid { (bytes : List ℕ) (request : Request) → is_road words.now ≡ true
        → S.left source.old ≡ Some bytes → length bytes ≤ limit → request_in bytes ≡ Ok request
        → IsValid request → (Rose (S.faults source.old) (S.faults source.new) → ⊥)
        → (Rose (K.faults sink.old) (K.faults sink.new) → ⊥) → (result ≡ 0) ⊎ (result ≡ 5) }
    // For `make` and a number, 0 says that the bytes written are the line that counts the documents of that bill's road.
    ensures made { (n : ℕ) → command_of words.now ≡ Some (a_make n) → result ≡ 0
        → IsMade n × Appends (K.written sink.old) (K.written sink.new) (line_of (count_value n)) }
    // What is answered to which words and bytes, and what is written with which status.
    ensures table { (bytes : List ℕ) × Tells (S.left source.old) bytes
        × Ends (reply_for words.now bytes) result (K.written sink.old) (K.written sink.new)
        (K.flushed sink.new) }
    // The causes of 3 and 4, and what a count that grew is answered by.
    ensures source_fault { result ≡ 3
        → (is_road words.now ≡ true) × Rose (S.faults source.old) (S.faults source.new) }
    ensures sink_fault { result ≡ 4 → Rose (K.faults sink.old) (K.faults sink.new) }
    ensures source_grew { S.faults source.old < S.faults source.new → (result ≡ 3) ⊎ (result ≡ 5) }
    ensures sink_grew { K.faults sink.old < K.faults sink.new → result ≡ 4 }
    ensures source_later { S.faults source.old ≤ S.faults source.new }
    ensures sink_later { K.faults sink.old ≤ K.faults sink.new }
    // What isn't touched: the source for other words than `road`, the sink with 3 and 5.
    ensures words { is_road words.now ≡ false → source.new ≡ source.old }
    ensures unwritten { (result ≡ 3) ⊎ (result ≡ 5) → sink.new ≡ sink.old }
    // How far the source was read: to its end, or to one byte beyond the limit.
    ensures end { is_road words.now ≡ true → (result ≡ 0) ⊎ (result ≡ 1) ⊎ (result ≡ 2)
        → IsAtEnd (S.left source.new) }
    ensures end_put { is_road words.now ≡ true → result ≡ 4 → (bytes : List ℕ)
        × Tells (S.left source.old) bytes
        × ((limit < length bytes) ⊎ IsAtEnd (S.left source.new)) }
    ensures taken { (taken : List ℕ) × Consumes (S.left source.old) (S.left source.new) taken
        × (length taken ≤ limit + 1) }
{
    cdx_request::reply_law();
    cdx_request::valid_law();
    cdx_request::answers_nest();
    cdx_request::made_law();
    match owed(alloc, words, source) {
        Err(status) => status,
        Ok(answer) => match put_answer(&answer.text, sink) {
            Ok(()) => answer.status,
            Err(_) => Status::SinkFault as u8,
        },
    }
}
