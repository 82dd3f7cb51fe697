//! Tables of tests as texts of one row per line: what is given and, after an arrow, what comes of it.

use cdx_models::SpecVersion;
use std::alloc::Global;
use std::test::Fail;

/// What the row gives, and what comes of it: the text after `->`, or where no arrow stands the given itself. A blank line
/// and one that begins with `//` are no rows.
pub fn row(line: &str) -> Option<(&str, &str)> {
    let line = line.trim_ascii();
    if line.is_empty() || line.starts_with("//") {
        return None;
    }
    match line.split_once(" ->") {
        Some((given, answer)) => Some((given, answer.trim_ascii())),
        None => Some((line, line)),
    }
}

/// The first word and the rest.
pub fn parted(text: &str) -> (&str, &str) {
    text.split_once(' ').unwrap_or((text, ""))
}

/// One version and one word of a row of `versions words given -> answer`, where commas stand between versions and between
/// words.
#[derive(Drop)]
pub struct Case<'a> {
    /// The row.
    pub line: &'a str,
    /// The version.
    pub version: SpecVersion,
    /// What is done with what is given.
    pub word: &'a str,
    /// What stands before the arrow.
    pub given: &'a str,
    /// What stands after it.
    pub answer: &'a str,
}

// A version's cases of the row.
fn push_words<'a>(
    cases: &mut Vec<Case<'a>>,
    line: &'a str,
    version: &str,
    rest: &'a str,
) -> Result<(), Fail> {
    let (words, rest) = parted(rest);
    let (given, answer) = row(rest).unwrap_or((rest, rest));
    let Some(version) = SpecVersion::from_text(version) else {
        return Err(Fail::new("a row doesn't begin with versions"));
    };
    for word in words.split(',') {
        cases.push(Case {
            line,
            version,
            word,
            given,
            answer,
        })?;
    }
    Ok(())
}

fn push_cases<'a>(cases: &mut Vec<Case<'a>>, line: &'a str) -> Result<(), Fail> {
    let (versions, rest) = parted(line);
    for version in versions.split(',') {
        push_words(cases, line, version, rest)?;
    }
    Ok(())
}

/// The cases of the rows.
pub fn cases(alloc: Global, rows: &str) -> Result<Vec<Case<'_>>, Fail> {
    let mut cases = Vec::new(alloc);
    for line in rows.lines() {
        if row(line).is_some() {
            push_cases(&mut cases, line.trim_ascii())?;
        }
    }
    Ok(cases)
}
