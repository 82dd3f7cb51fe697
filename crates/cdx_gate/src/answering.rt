//! Answering lines.

ghost use Rattle.std.specs.Prelude.{◌≡◌, ◌≤◌, ◌⊎◌, [], ◌++◌, List, ℕ, Option, take, vec_len, IfErr, OnOk};
ghost use Rattle.std.specs.Io.KnownBytes.{Appends};
ghost use Rattle.cdx_events.specs.Causes.{Rose};
ghost use Rattle.cdx_gate.specs.Lines.{ended_lines, lines, line_reply, replies};
ghost use Rattle.cdx_gate.specs.Gate.{most_held, no_words, IsFlushed, PutsFront, HasServed, AnsweringStops};

use crate::line::{find_feed, hold};
use cdx_events::Sink;
use cdx_tool::{LongText, Status, answer_bytes, put_answer, refuse};
use std::alloc::Global;

// Puts a text and flushes, or gives the status in its place.
fn put<K: Sink>(text: &LongText, sink: &mut K) -> Result<(), u8>
    ensures ok { OnOk result (Appends (K.written sink.old) (K.written sink.new) text.now) }
    ensures flushed { OnOk result (IsFlushed (K.written sink.new) (K.flushed sink.new)) }
    ensures ok_cause { OnOk result (K.faults sink.new ≡ K.faults sink.old) }
    ensures err { IfErr result (λ status. (status ≡ 4)
        × PutsFront (K.written sink.old) (K.written sink.new) text.now
        × Rose (K.faults sink.old) (K.faults sink.new)) }
    ensures later { K.faults sink.old ≤ K.faults sink.new }
{
    match put_answer(text, sink) {
        Ok(()) => Ok(()),
        Err(_) => Err(Status::SinkFault as u8),
    }
}

/// Answers words, of which there are none for the gateway.
pub(crate) fn answer_words<K: Sink>(alloc: Global, sink: &mut K) -> u8
    ensures table { ((result ≡ 2) × Appends (K.written sink.old) (K.written sink.new) no_words.text
        × IsFlushed (K.written sink.new) (K.flushed sink.new)
        × (K.faults sink.new ≡ K.faults sink.old))
        ⊎ ((result ≡ 4) × PutsFront (K.written sink.old) (K.written sink.new) no_words.text
        × Rose (K.faults sink.old) (K.faults sink.new))
        ⊎ ((result ≡ 5) × (sink.new ≡ sink.old)) }
    ensures later { K.faults sink.old ≤ K.faults sink.new }
{
    match refuse(alloc, Status::Unusable as u8, "words") {
        Ok(answer) => match put(&answer.text, sink) {
            Ok(()) => answer.status,
            Err(status) => status,
        },
        Err(_) => Status::NoMemory as u8,
    }
}

// Answers one line.
#[tactic(auto, unfolding(crate::specs::Lines::line_reply))]
fn answer_line<K: Sink>(alloc: Global, line: &[u8], sink: &mut K) -> Result<(), u8>
    ensures ok { OnOk result
        (Appends (K.written sink.old) (K.written sink.new) (line_reply line.now)) }
    ensures flushed { OnOk result (IsFlushed (K.written sink.new) (K.flushed sink.new)) }
    ensures ok_cause { OnOk result (K.faults sink.new ≡ K.faults sink.old) }
    ensures err { IfErr result (λ status.
        ((status ≡ 4) × PutsFront (K.written sink.old) (K.written sink.new) (line_reply line.now)
        × Rose (K.faults sink.old) (K.faults sink.new))
        ⊎ ((status ≡ 5) × (sink.new ≡ sink.old))) }
    ensures later { K.faults sink.old ≤ K.faults sink.new }
{
    match answer_bytes(alloc, line) {
        Ok(answer) => put(&answer.text, sink),
        Err(_) => Err(Status::NoMemory as u8),
    }
}

// Answers the line that is held and that these bytes end, and then holds none.
fn end_line<K: Sink>(
    alloc: Global,
    bytes: &[u8],
    line: &mut Vec<u8>,
    sink: &mut K,
) -> Result<(), u8>
    requires { vec_len line.old ≤ most_held }
    ensures ok { OnOk result (Appends (K.written sink.old) (K.written sink.new)
        (line_reply (take most_held (line.old.items ++ bytes.now)))) }
    ensures none { OnOk result (line.new.items ≡ []) }
    ensures flushed { OnOk result (IsFlushed (K.written sink.new) (K.flushed sink.new)) }
    ensures ok_cause { OnOk result (K.faults sink.new ≡ K.faults sink.old) }
    ensures err { IfErr result (λ status.
        ((status ≡ 4) × PutsFront (K.written sink.old) (K.written sink.new)
        (line_reply (take most_held (line.old.items ++ bytes.now)))
        × Rose (K.faults sink.old) (K.faults sink.new))
        ⊎ ((status ≡ 5) × (sink.new ≡ sink.old))) }
    ensures later { K.faults sink.old ≤ K.faults sink.new }
{
    match hold(line, bytes) {
        Ok(()) => {}
        Err(_) => return Err(Status::NoMemory as u8),
    }
    let answered = answer_line(alloc, line.as_slice(), sink);
    line.clear();
    answered
}

/// Answers the last line, which no line feed ends, where it isn't empty, and gives the status. The clauses speak of all
/// bytes.
pub(crate) fn answer_last<K: Sink>(alloc: Global, line: &[u8], sink: &mut K) -> u8
    ensures table { (taken : List ℕ) (first : Option (List ℕ))
        → HasServed taken first (K.written sink.old) line.now
        → ((result ≡ 0) × Appends first (K.written sink.new) (replies (lines taken)))
        ⊎ AnsweringStops (lines taken) result first (K.written sink.new) }
    ensures flushed { result ≡ 0
        → (sink.new ≡ sink.old) ⊎ IsFlushed (K.written sink.new) (K.flushed sink.new) }
    ensures cause { (((result ≡ 0) ⊎ (result ≡ 5)) × (K.faults sink.new ≡ K.faults sink.old))
        ⊎ ((result ≡ 4) × Rose (K.faults sink.old) (K.faults sink.new)) }
    ensures later { K.faults sink.old ≤ K.faults sink.new }
{
    if line.is_empty() {
        return Status::Served as u8;
    }
    match answer_line(alloc, line, sink) {
        Ok(()) => Status::Served as u8,
        Err(status) => status,
    }
}

/// Answers each line that a line feed ends in the bytes, of which the first goes on with the line that is held, and holds
/// what comes after the last. The clauses speak of all bytes so far.
pub(crate) fn answer_ended<K: Sink>(
    alloc: Global,
    bytes: &[u8],
    line: &mut Vec<u8>,
    sink: &mut K,
) -> Result<(), u8>
    requires { vec_len line.old ≤ most_held }
    ensures ok { (taken : List ℕ) (first : Option (List ℕ))
        → HasServed taken first (K.written sink.old) line.old.items
        → OnOk result (HasServed (taken ++ bytes.now) first (K.written sink.new) line.new.items) }
    ensures flushed { OnOk result
        ((sink.new ≡ sink.old) ⊎ IsFlushed (K.written sink.new) (K.flushed sink.new)) }
    ensures ok_cause { OnOk result (K.faults sink.new ≡ K.faults sink.old) }
    ensures few { OnOk result (vec_len line.new ≤ most_held) }
    ensures err { (taken : List ℕ) (first : Option (List ℕ))
        → HasServed taken first (K.written sink.old) line.old.items
        → IfErr result (λ status.
        AnsweringStops (ended_lines (taken ++ bytes.now)) status first (K.written sink.new)) }
    ensures err_cause { IfErr result (λ status.
        ((status ≡ 4) × Rose (K.faults sink.old) (K.faults sink.new))
        ⊎ ((status ≡ 5) × (K.faults sink.new ≡ K.faults sink.old))) }
    ensures later { K.faults sink.old ≤ K.faults sink.new }
{
    let mut rest = bytes;
    while let Some(at) = find_feed(rest) {
        end_line(alloc, &rest[..at], line, sink)?;
        rest = &rest[at + 1..];
    }
    match hold(line, rest) {
        Ok(()) => Ok(()),
        Err(_) => Err(Status::NoMemory as u8),
    }
}
