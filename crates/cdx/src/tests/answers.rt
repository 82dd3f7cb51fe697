//! Tables of what is asked and of its answers: a text of one row per line, with ` -> ` between the two. Blank lines and
//! comments are passed over.

use cdx_events::{Sink, Source};
use cdx_test_cases::checks::{row_holds, row_is};
use cdx_test_cases::programs::{Program, answers};
use cdx_tool::{answer_bytes, run};
use std::alloc::{AllocError, Global};
use std::test::Fail;

// What the row asks, where spaces count, and its answer. Nothing answers `no answer`, so a row without one fails its test.
fn row(line: &str) -> Option<(&str, &str)> {
    let line = line.trim_ascii();
    if line.is_empty() || line.starts_with("//") {
        return None;
    }
    let (asked, answer) = line.split_once("-> ").unwrap_or((line, "no answer"));
    Some((asked.strip_suffix(' ').unwrap_or(asked), answer))
}

// The words that the program is called with, each after a `|`.
fn words_in(alloc: Global, asked: &str) -> Result<Vec<&str>, AllocError> {
    let mut words = Vec::new(alloc);
    for word in asked.split('|').skip(1) {
        words.push(word)?;
    }
    Ok(words)
}

/// Compares the status and the text that answer each request of the table.
pub fn answered(alloc: Global, status: u8, rows: &str) -> Result<(), Fail> {
    for line in rows.lines() {
        if let Some((request, text)) = row(line) {
            let answer = answer_bytes(alloc, request.as_bytes())?;
            let text = format!(in alloc; "{text}\n")?;
            row_is(request, answer.text.to_text(alloc)?.as_str(), text.as_str())?;
            row_holds(
                request,
                "the status is the table's",
                answer.status == status,
            )?;
        }
    }
    Ok(())
}

/// The program, by its call.
pub struct Tool;

impl Program for Tool {
    fn call<S: Source, K: Sink>(
        alloc: Global,
        words: &[String],
        source: &mut S,
        sink: &mut K,
    ) -> u8 {
        run(alloc, words, source, sink)
    }
}

/// Compares, for the words of each row, the status with which the program ends, what it writes, and that it flushes that.
pub fn ended(alloc: Global, input: &str, status: u8, rows: &str) -> Result<(), Fail> {
    for line in rows.lines() {
        if let Some((asked, text)) = row(line) {
            let words = words_in(alloc, asked)?;
            answers::<Tool>(alloc, words.as_slice(), input, status, text)?;
        }
    }
    Ok(())
}
