//! The top call.

ghost use Rattle.std.specs.Prelude.{◌≡◌, ◌≤◌, ◌<◌, ◌+◌, ◌-◌, ◌^◌, ◌⊎◌, [], List, ℕ, length, Some};
ghost use Rattle.std.specs.Io.KnownBytes.{Consumes, IsAtEnd};
ghost use Rattle.cdx_events.specs.Causes.{Rose};
ghost use Rattle.cdx_tool.specs.Run.{Tells};
ghost use Rattle.cdx_gate.specs.Gate.{IsFlushed, PutsTaken, ServingEnds};

use crate::answering::{answer_ended, answer_last, answer_words};
use cdx_events::{Failed, Sink, Source};
use cdx_tool::Status;
use std::alloc::Global;

const CHUNK: usize = 4096;

// Answers the lines that the source has left.
fn serve_lines<S: Source, K: Sink>(alloc: Global, limit: u64, source: &mut S, sink: &mut K) -> u8
    requires { limit + 1 < 2 ^ 64 }
    ensures table { (bytes : List ℕ) × Tells (S.left source.old) bytes
        × ServingEnds [] limit bytes result (K.written sink.old) (K.written sink.new) }
    ensures source_fault { result ≡ 3 → Rose (S.faults source.old) (S.faults source.new)
        × PutsTaken limit (S.left source.old) (S.left source.new)
        (K.written sink.old) (K.written sink.new) }
    ensures sink_fault { result ≡ 4 → Rose (K.faults sink.old) (K.faults sink.new) }
    ensures source_grew { S.faults source.old < S.faults source.new → result ≡ 3 }
    ensures sink_grew { K.faults sink.old < K.faults sink.new → result ≡ 4 }
    ensures source_later { S.faults source.old ≤ S.faults source.new }
    ensures sink_later { K.faults sink.old ≤ K.faults sink.new }
    ensures flushed { (result ≡ 0) ⊎ (result ≡ 3) ⊎ (result ≡ 6)
        → (sink.new ≡ sink.old) ⊎ IsFlushed (K.written sink.new) (K.flushed sink.new) }
    ensures end { result ≡ 0 → IsAtEnd (S.left source.new) }
    ensures taken { (taken : List ℕ) × Consumes (S.left source.old) (S.left source.new) taken
        × (length taken ≤ limit + 1) }
{
    let mut chunk = [0u8; CHUNK];
    let mut line = Vec::new(alloc);
    let mut left = limit as usize;
    loop {
        let room = left.min(CHUNK - 1) + 1;
        let count = match source.take(&mut chunk[..room]) {
            Ok(count) => count,
            Err(Failed) => return Status::SourceFault as u8,
        };
        if count == 0 {
            return answer_last(alloc, line.as_slice(), sink);
        }
        let within = left.min(count);
        if let Err(status) = answer_ended(alloc, &chunk[..within], &mut line, sink) {
            return status;
        }
        if within < count {
            return Status::TooLong as u8;
        }
        left -= count;
    }
}

/// Answers a stream of requests: each line of the source is one, and gets one line of its own in the sink, in order, which
/// depends on that line alone. Lines are what stands between line feeds; where the bytes are empty or end with a line
/// feed, there is none after it. A line's reply is what `answer_bytes` answers to its bytes, whatever its status. It is
/// flushed as soon as it is written, and no more is taken before each line that a line feed ends is answered. Of a line
/// longer than a request may be it keeps one byte more than that, and passes over the rest. The statuses come in this
/// order:
///
/// - 2, `{"request":"words"}`: there are words; nothing was taken.
/// - 3: the source failed; the replies of the lines that a line feed ends in what was taken were written.
/// - 6: the source had more than `limit` bytes left, of which at most one more was taken; the replies of the lines that a
///   line feed ends within the first `limit` bytes were written.
/// - 0: the source was read to its end, and the replies of all its lines were written.
/// - 4: the sink failed, in place of 0, 2, 3 or 6; a front of what stands above was written.
/// - 5: memory ran out; the replies of some first lines were written, each whole.
///
/// With 0, 2, 3 and 6 all that was written is flushed, where anything was written. No other status is given.
pub fn serve<S: Source, K: Sink>(
    alloc: Global,
    words: &[String],
    limit: u64,
    source: &mut S,
    sink: &mut K,
) -> u8
    requires { limit + 1 < 2 ^ 64 }
    // What is answered to which words and bytes, and what is written with which status.
    ensures table { (bytes : List ℕ) × Tells (S.left source.old) bytes
        × ServingEnds words.now limit bytes result (K.written sink.old) (K.written sink.new) }
    // Without words, within the limit and without faults all lines are answered, unless memory runs out.
    ensures complete { (bytes : List ℕ) → words.now ≡ [] → S.left source.old ≡ Some bytes
        → length bytes ≤ limit
        → (Rose (S.faults source.old) (S.faults source.new) → ⊥)
        → (Rose (K.faults sink.old) (K.faults sink.new) → ⊥) → (result ≡ 0) ⊎ (result ≡ 5) }
    // The causes of 3 and 4, and what a count that grew is answered by.
    ensures source_fault { result ≡ 3 → (words.now ≡ [])
        × Rose (S.faults source.old) (S.faults source.new)
        × PutsTaken limit (S.left source.old) (S.left source.new)
        (K.written sink.old) (K.written sink.new) }
    ensures sink_fault { result ≡ 4 → Rose (K.faults sink.old) (K.faults sink.new) }
    ensures source_grew { S.faults source.old < S.faults source.new → result ≡ 3 }
    ensures sink_grew { K.faults sink.old < K.faults sink.new → result ≡ 4 }
    ensures source_later { S.faults source.old ≤ S.faults source.new }
    ensures sink_later { K.faults sink.old ≤ K.faults sink.new }
    // Nothing waits for a flush, unless nothing was written and the sink wasn't touched.
    ensures flushed { (result ≡ 0) ⊎ (result ≡ 2) ⊎ (result ≡ 3) ⊎ (result ≡ 6)
        → (sink.new ≡ sink.old) ⊎ IsFlushed (K.written sink.new) (K.flushed sink.new) }
    // How far the source was read: not at all where there are words, to its end, or to one byte beyond the limit.
    ensures words { (words.now ≡ [] → ⊥) → source.new ≡ source.old }
    ensures end { result ≡ 0 → IsAtEnd (S.left source.new) }
    ensures taken { (taken : List ℕ) × Consumes (S.left source.old) (S.left source.new) taken
        × (length taken ≤ limit + 1) }
{
    if words.is_empty() {
        serve_lines(alloc, limit, source, sink)
    } else {
        answer_words(alloc, sink)
    }
}
