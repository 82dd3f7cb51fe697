//! The top call.

ghost use Rattle.std.specs.Prelude.{◌≡◌, ◌≤◌, ◌<◌, ◌+◌, ◌⊎◌, List, ℕ, length, Some, IsSome, IsNone, option_map};
ghost use Rattle.std.specs.Io.KnownBytes.{Consumes, Appends, IsAtEnd};
ghost use Rattle.cdx_events.specs.Causes.{Rose};
ghost use Rattle.cdx_models.specs.Trees.{Tree};
ghost use Rattle.cdx_request.specs.Replies.{line_of, limit};
ghost use Rattle.cdx_tool.specs.Owed.{IsSettled};
ghost use Rattle.cdx_tool.specs.Run.{Tells, Ends};
ghost use Rattle.cdx_tool.specs.Asks.{AsksFor};
ghost use Rattle.cdx_inventory.specs.Stock.{Command as Asked, to_list, command_of, answer_to, reply_for};

use crate::answering::answer_bytes;
use cdx_events::{List as Items, Sink, Source};
use cdx_tool::{Answer, Respond, respond};
use std::alloc::{AllocError, Global};

/// The command `list`: of the components under a license, or of all.
#[derive(Drop)]
struct Command<'w> {
    license: Option<&'w str>,
}

impl Respond for Command<'_> {
    ghost use Rattle.std.specs.Prelude.{option_map};
    ghost use Rattle.cdx_inventory.specs.Stock.{to_list, reply_to_command};

    ghost owed = { λ c bytes.
        reply_to_command (to_list (option_map (λ s. s.now) c.license)) bytes };

    fn answer(&self, alloc: Global, bytes: Items<u8>) -> Result<Answer, AllocError> {
        answer_bytes(alloc, bytes, self.license)
    }
}

// The command of the words: `list`, or `list` and a license.
fn read_command(words: &[String]) -> Option<Command<'_>>
    ensures { option_map (λ c. to_list (option_map (λ s. s.now) c.license)) result
        ≡ command_of words.now }
{
    let (word, license) = match words {
        [word] => (word, None),
        [word, license] => (word, Some(license.as_str())),
        _ => return None,
    };
    if word.as_str() == "list" {
        Some(Command { license })
    } else {
        None
    }
}

/// Lists the components of the bill that the source asks about, and gives the status. There are two commands: the one
/// word `list`, which lists all components by `inventory`, and `list` with one word more, any text, which lists those of
/// which a license text is exactly that one. The source holds one question: an object with exactly the members `from` and
/// `doc`, by `read_question`. The statuses come in this order:
///
/// - 2, `{"request":"words"}`: the words are no command; nothing was read.
/// - 3: the source failed; nothing was written.
/// - 6, `{"request":"too long"}`: the source had more than 67,108,864 bytes left; at most one byte more was taken.
/// - 2, `{"request":"not JSON"}`: `serde_json` has no reading of the bytes.
/// - 2, `{"request":"shape"}`: the value is no question by `read_question`.
/// - 1, `{"refused":{"cause":"unbalanced","place":p}}`: its document's events break at p.
/// - 1, `{"refused":{..}}` by `refusal_value`: its document has this first fault.
/// - 0: the source was read to its end and held a question about a bill. `{"components":[..]}` was written, with an
///   object for each entry in order: `licenses`, an array of texts, `name`, `path`, a JSON pointer, and `version` where
///   there is one.
/// - 4: the sink failed, in place of 0, 1, 2 or 6; a front of the answer was written.
/// - 5: memory ran out; nothing was written.
///
/// With 0, 1, 2 and 6 the whole answer was written, a JSON value and a line feed, and all that was written is flushed.
/// No other status is given.
pub fn stock<S: Source, K: Sink>(
    alloc: Global,
    words: &[String],
    source: &mut S,
    sink: &mut K,
) -> u8
    // 0 says that the bytes read, to their end, ask about one bill, and that the bytes written are the line of its
    // inventory.
    ensures headline { (command : Asked) → command_of words.now ≡ Some command → result ≡ 0
        → (bytes : List ℕ) × (bill : Tree) × Tells (S.left source.old) bytes
        × IsAtEnd (S.left source.new) × AsksFor bytes bill
        × Appends (K.written sink.old) (K.written sink.new) (line_of (answer_to command bill)) }
    // A question about a bill is answered by 0 where neither count rises, unless memory runs out.
    ensures valid { (command : Asked) (bytes : List ℕ) (bill : Tree)
        → command_of words.now ≡ Some command → S.left source.old ≡ Some bytes
        → length bytes ≤ limit → AsksFor bytes bill
        → (Rose (S.faults source.old) (S.faults source.new) → ⊥)
        → (Rose (K.faults sink.old) (K.faults sink.new) → ⊥) → (result ≡ 0) ⊎ (result ≡ 5) }
    // What is answered to which words and bytes, and what is written with which status.
    ensures table { (bytes : List ℕ) × Tells (S.left source.old) bytes
        × Ends (reply_for words.now bytes) result (K.written sink.old) (K.written sink.new)
        (K.flushed sink.new) }
    // Where neither count rises, the status is that of the reply, unless memory runs out.
    ensures served { (bytes : List ℕ) → S.left source.old ≡ Some bytes
        → (Rose (S.faults source.old) (S.faults source.new) → ⊥)
        → (Rose (K.faults sink.old) (K.faults sink.new) → ⊥)
        → (result ≡ (reply_for words.now bytes).status) ⊎ (result ≡ 5) }
    // The causes of 3 and 4, and what a count that grew is answered by.
    ensures source_fault { result ≡ 3 → IsSome (command_of words.now)
        × Rose (S.faults source.old) (S.faults source.new) }
    ensures sink_fault { result ≡ 4 → Rose (K.faults sink.old) (K.faults sink.new) }
    ensures source_grew { S.faults source.old < S.faults source.new → (result ≡ 3) ⊎ (result ≡ 5) }
    ensures sink_grew { K.faults sink.old < K.faults sink.new → result ≡ 4 }
    ensures source_later { S.faults source.old ≤ S.faults source.new }
    ensures sink_later { K.faults sink.old ≤ K.faults sink.new }
    // What isn't touched: the source where the words are no command, the sink with 3 and 5.
    ensures words { IsNone (command_of words.now) → source.new ≡ source.old }
    ensures unwritten { (result ≡ 3) ⊎ (result ≡ 5) → sink.new ≡ sink.old }
    // How far the source was read: to its end, or to one byte beyond the limit.
    ensures end { IsSome (command_of words.now) → IsSettled result → IsAtEnd (S.left source.new) }
    ensures end_put { IsSome (command_of words.now) → result ≡ 4
        → (bytes : List ℕ) × Tells (S.left source.old) bytes
        × ((limit < length bytes) ⊎ IsAtEnd (S.left source.new)) }
    ensures taken { (taken : List ℕ) × Consumes (S.left source.old) (S.left source.new) taken
        × (length taken ≤ limit + 1) }
{
    let command = read_command(words);
    respond(alloc, command.as_ref(), source, sink)
}
