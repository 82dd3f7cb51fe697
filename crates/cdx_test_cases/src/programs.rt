//! What every program does that answers one request, tried of the program's own call.

use crate::checks::{holds, row_holds, row_is};
use crate::inputs::{bytes_of, words_of};
use cdx_events::{List, MemorySink, MemorySource, Sink, SoundSource, Source};
use std::alloc::{AllocError, Global};
use std::test::Fail;

/// A program, by the call behind its `main`.
pub trait Program {
    /// Does what the words ask for of what the source has left, and gives the status.
    fn call<S: Source, K: Sink>(
        alloc: Global,
        words: &[String],
        source: &mut S,
        sink: &mut K,
    ) -> u8;
}

// One byte more than a request may have.
const TOO_MANY: usize = 67_108_865;

// The words, each after a `|`, and then what the source has.
fn asked_by(alloc: Global, words: &[&str], input: &str) -> Result<String, AllocError> {
    let mut asked = String::new(alloc);
    for word in words {
        asked.push('|')?;
        asked.push_str(word)?;
    }
    asked.push(' ')?;
    asked.push_str(input)?;
    Ok(asked)
}

/// A failure where the words and the input don't get the answer with this status, or it isn't flushed.
pub fn answers<P: Program>(
    alloc: Global,
    words: &[&str],
    input: &str,
    status: u8,
    answer: &str,
) -> Result<(), Fail> {
    let asked = asked_by(alloc, words, input)?;
    let words = words_of(alloc, words)?;
    let mut source = SoundSource::new(bytes_of(alloc, input)?);
    let mut sink = MemorySink::new(alloc, 8192, 1000, List::new(alloc))?;
    let found = P::call(alloc, words.as_slice(), &mut source, &mut sink);
    let line = format!(in alloc; "{answer}\n")?;
    let written = str::from_utf8(sink.written()).unwrap_or("no text");
    row_is(asked.as_str(), written, line.as_str())?;
    row_holds(
        asked.as_str(),
        "the answer is flushed",
        sink.flushed() == line.len(),
    )?;
    row_holds(asked.as_str(), "the status is the row's", found == status)
}

/// A failure where the words are a command. Nothing is taken then: the first call of the source would fail.
pub fn refuses_words<P: Program>(alloc: Global, words: &[&str], input: &str) -> Result<(), Fail> {
    let asked = asked_by(alloc, words, input)?;
    let words = words_of(alloc, words)?;
    let fails = List::from_vec([1u64].to_vec(alloc)?);
    let mut source = MemorySource::new(bytes_of(alloc, input)?, 16, fails);
    let mut sink = MemorySink::new(alloc, 64, 10, List::new(alloc))?;
    let found = P::call(alloc, words.as_slice(), &mut source, &mut sink);
    row_holds(
        asked.as_str(),
        "words that are no command end with status 2",
        found == 2,
    )?;
    row_holds(
        asked.as_str(),
        "what is written is the refusal",
        sink.written() == "{\"request\":\"words\"}\n".as_bytes(),
    )?;
    row_holds(asked.as_str(), "nothing is taken", source.calls() == 0)
}

/// A failure where one byte more than a request may have isn't refused.
pub fn refuses_a_byte_more<P: Program>(alloc: Global, words: &[&str]) -> Result<(), Fail> {
    let words = words_of(alloc, words)?;
    let spaces = vec![in alloc; b' '; TOO_MANY]?;
    let mut source = SoundSource::new(List::from_vec(spaces));
    let mut sink = MemorySink::new(alloc, 64, 64, List::new(alloc))?;
    let found = P::call(alloc, words.as_slice(), &mut source, &mut sink);
    holds("a byte too many ends with status 6", found == 6)?;
    holds(
        "what is written is the refusal",
        sink.written() == "{\"request\":\"too long\"}\n".as_bytes(),
    )
}

/// A failure where a call of the source or of the sink that fails isn't told by the status, or something else is written
/// than what had gone out of the answer: nothing where the source's second call fails, ten bytes where the sink's does.
pub fn tells_failing_calls<P: Program>(
    alloc: Global,
    words: &[&str],
    input: &str,
    answer: &str,
) -> Result<(), Fail> {
    let words = words_of(alloc, words)?;
    let answer = format!(in alloc; "{answer}\n")?;
    for (source_fails, sink_fails, status, written) in [
        (2u64, 999u64, 3u8, 0usize),
        (999, 2, 4, 10),
        (999, 999, 0, answer.len()),
    ] {
        let source_fails = List::from_vec([source_fails].to_vec(alloc)?);
        let sink_fails = List::from_vec([sink_fails].to_vec(alloc)?);
        let mut source = MemorySource::new(bytes_of(alloc, input)?, 16, source_fails);
        let mut sink = MemorySink::new(alloc, 8192, 10, sink_fails)?;
        let found = P::call(alloc, words.as_slice(), &mut source, &mut sink);
        holds("the status tells whose call failed", found == status)?;
        holds("so many bytes are written", sink.written().len() == written)?;
        holds(
            "what is written begins the answer",
            answer.as_bytes().starts_with(sink.written()),
        )?;
    }
    Ok(())
}
