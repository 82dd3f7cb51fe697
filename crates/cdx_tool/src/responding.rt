//! The frame of the programs that answer one request: what is taken from the source, what is put into the sink, and
//! with which status it ends. A program gives the answer to bytes.

ghost use Rattle.std.specs.Prelude.{◌≡◌, ◌≤◌, ◌<◌, ◌+◌, ◌⊎◌, List, ℕ, length, Some, IfOk, IfErr, OnOk, IsSome, IsNone, option_copied};
ghost use Rattle.std.specs.Io.KnownBytes.{Consumes, IsAtEnd};
ghost use Rattle.cdx_events.specs.Causes.{Rose};
ghost use Rattle.cdx_request.specs.Replies.{limit};
ghost use Rattle.cdx_tool.specs.Shows.{reply_of};
ghost use Rattle.cdx_tool.specs.Owed.{reply_by, IsSettled};
ghost use Rattle.cdx_tool.specs.Run.{Tells, Ends};

use crate::answer::{Answer, LIMIT, refuse};
use crate::command::Respond;
use crate::input::{InputError, take_input};
use crate::output::put_answer;
use crate::status::Status;
use cdx_events::{Sink, Source};
use std::alloc::Global;

/// The answer of a command to what the source has left, or the status in its place: 3 where the source failed, 5 where
/// memory ran out.
pub(crate) fn answer_source<C: Respond, S: Source>(
    alloc: Global,
    command: &C,
    source: &mut S,
) -> Result<Answer, u8>
    ensures ok { IfOk result (λ a. (bytes : List ℕ) × Tells (S.left source.old) bytes
        × (reply_of a ≡ reply_by C.owed (Some command.now) bytes)) }
    ensures how_far { IfOk result (λ a.
        ((a.status ≡ 6) × ((bytes : List ℕ) × Tells (S.left source.old) bytes
        × (limit < length bytes)))
        ⊎ (IsSettled a.status × IsAtEnd (S.left source.new))) }
    ensures ok_cause { OnOk result (S.faults source.new ≡ S.faults source.old) }
    ensures err { IfErr result (λ status.
        ((status ≡ 3) × Rose (S.faults source.old) (S.faults source.new)) ⊎ (status ≡ 5)) }
    ensures later { S.faults source.old ≤ S.faults source.new }
    ensures taken { (taken : List ℕ) × Consumes (S.left source.old) (S.left source.new) taken
        × (length taken ≤ limit + 1) }
{
    match take_input(alloc, source, LIMIT) {
        Err(InputError::Fault) => Err(Status::SourceFault as u8),
        Err(InputError::Memory(_)) => Err(Status::NoMemory as u8),
        Err(InputError::TooLong) => match refuse(alloc, Status::TooLong as u8, "too long") {
            Ok(answer) => Ok(answer),
            Err(_) => Err(Status::NoMemory as u8),
        },
        Ok(bytes) => match command.answer(alloc, bytes) {
            Ok(answer) => Ok(answer),
            Err(_) => Err(Status::NoMemory as u8),
        },
    }
}

// The answer to the words and to what the source has left, or the status in its place.
fn answer_if<C: Respond, S: Source>(
    alloc: Global,
    command: Option<&C>,
    source: &mut S,
) -> Result<Answer, u8>
    ensures ok { IfOk result (λ a. (bytes : List ℕ) × Tells (S.left source.old) bytes
        × (reply_of a ≡ reply_by C.owed (option_copied command.entry) bytes)) }
    ensures how_far { IfOk result (λ a. IsSome command.entry →
        ((a.status ≡ 6) × ((bytes : List ℕ) × Tells (S.left source.old) bytes
        × (limit < length bytes)))
        ⊎ (IsSettled a.status × IsAtEnd (S.left source.new))) }
    ensures status { IfOk result (λ a. (a.status ≡ 6) ⊎ IsSettled a.status) }
    ensures ok_cause { OnOk result (S.faults source.new ≡ S.faults source.old) }
    ensures err { IfErr result (λ status.
        ((status ≡ 3) × IsSome command.entry
        × Rose (S.faults source.old) (S.faults source.new)) ⊎ (status ≡ 5)) }
    ensures later { S.faults source.old ≤ S.faults source.new }
    ensures words { IsNone command.entry → source.new ≡ source.old }
    ensures taken { (taken : List ℕ) × Consumes (S.left source.old) (S.left source.new) taken
        × (length taken ≤ limit + 1) }
{
    match command {
        Some(command) => answer_source(alloc, command, source),
        None => match refuse(alloc, Status::Unusable as u8, "words") {
            Ok(answer) => Ok(answer),
            Err(_) => Err(Status::NoMemory as u8),
        },
    }
}

/// Answers what the source holds by the command, and gives the status. The statuses come in this order:
///
/// - 2, `{"request":"words"}`: there is no command; nothing was read.
/// - 3: the source failed; nothing was written.
/// - 6, `{"request":"too long"}`: the source had more than 67,108,864 bytes left; at most one byte more was taken.
/// - 0, 1 or 2 by the command's answer: the source was read to its end.
/// - 4: the sink failed, in place of 0, 1, 2 or 6; a front of the answer was written.
/// - 5: memory ran out; nothing was written.
///
/// With 0, 1, 2 and 6 the whole answer was written, and all that was written is flushed. No other status is given.
pub fn respond<C: Respond, S: Source, K: Sink>(
    alloc: Global,
    command: Option<&C>,
    source: &mut S,
    sink: &mut K,
) -> u8
    // What is answered to which bytes, and what is written with which status.
    ensures table { (bytes : List ℕ) × Tells (S.left source.old) bytes
        × Ends (reply_by C.owed (option_copied command.entry) bytes) result
        (K.written sink.old) (K.written sink.new) (K.flushed sink.new) }
    // Where neither count rises, the status is that of the reply, unless memory runs out.
    ensures served { (bytes : List ℕ) → S.left source.old ≡ Some bytes
        → (Rose (S.faults source.old) (S.faults source.new) → ⊥)
        → (Rose (K.faults sink.old) (K.faults sink.new) → ⊥)
        → (result ≡ (reply_by C.owed (option_copied command.entry) bytes).status) ⊎ (result ≡ 5) }
    // The causes of 3 and 4, and what a count that grew is answered by.
    ensures source_fault { result ≡ 3 → IsSome command.entry
        × Rose (S.faults source.old) (S.faults source.new) }
    ensures sink_fault { result ≡ 4 → Rose (K.faults sink.old) (K.faults sink.new) }
    ensures source_grew { S.faults source.old < S.faults source.new → (result ≡ 3) ⊎ (result ≡ 5) }
    ensures sink_grew { K.faults sink.old < K.faults sink.new → result ≡ 4 }
    ensures source_later { S.faults source.old ≤ S.faults source.new }
    ensures sink_later { K.faults sink.old ≤ K.faults sink.new }
    // What isn't touched: the source without a command, the sink with 3 and 5.
    ensures words { IsNone command.entry → source.new ≡ source.old }
    ensures unwritten { (result ≡ 3) ⊎ (result ≡ 5) → sink.new ≡ sink.old }
    // How far the source was read: to its end, or to one byte beyond the limit.
    ensures end { IsSome command.entry → IsSettled result → IsAtEnd (S.left source.new) }
    ensures end_put { IsSome command.entry → result ≡ 4
        → (bytes : List ℕ) × Tells (S.left source.old) bytes
        × ((limit < length bytes) ⊎ IsAtEnd (S.left source.new)) }
    ensures taken { (taken : List ℕ) × Consumes (S.left source.old) (S.left source.new) taken
        × (length taken ≤ limit + 1) }
{
    match answer_if(alloc, command, source) {
        Err(status) => status,
        Ok(answer) => match put_answer(&answer.text, sink) {
            Ok(()) => answer.status,
            Err(_) => Status::SinkFault as u8,
        },
    }
}
