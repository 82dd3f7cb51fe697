//! A document, and what a reader of bills answers to it. However the events are cut, it answers by all that it was fed.

use crate::lines::{answered, singles};
use cdx_events::XmlEvent;
use cdx_models::SpecVersion;
use cdx_test_cases::checks::{beginning_is, row_is};
use std::alloc::{AllocError, Global};
use std::test::Fail;

/// The events of a document, where its fault stands, and the fault; or the bill as JSON of 1.5, where it has none.
#[derive(Drop)]
pub struct Sample<'a> {
    /// The row.
    pub line: &'a str,
    /// The version in which the document is read.
    pub version: SpecVersion,
    /// The events of the document.
    pub events: &'a [XmlEvent],
    /// Where the fault stands, if there is one.
    pub place: Option<usize>,
    /// The fault, or the bill as JSON.
    pub answer: &'a str,
}

// What `feed` answers to the piece that ends with the first `count` events: the fault where it stands among them.
fn wanted_more(alloc: Global, sample: &Sample<'_>, count: usize) -> Result<String, AllocError> {
    match sample.place {
        Some(place) if place < count => format!(in alloc; "{place}: {}", sample.answer),
        _ => String::from_str(alloc, "more"),
    }
}

// What `finish` answers after the first `count` events.
fn wanted_last(alloc: Global, sample: &Sample<'_>, count: usize) -> Result<String, AllocError> {
    let is_refused = matches!(sample.place, Some(place) if place < count);
    if is_refused || count == sample.events.len() {
        return String::from_str(alloc, sample.answer);
    }
    format!(in alloc; "Unbalanced {count}")
}

fn each_beginning(alloc: Global, sample: &Sample<'_>) -> Result<(), Fail> {
    for count in 0..=sample.events.len() {
        let found = answered(alloc, sample.version, &[&sample.events[..count]])?;
        let more = wanted_more(alloc, sample, count)?;
        let last = wanted_last(alloc, sample, count)?;
        let wanted = format!(in alloc; "{} / {}", more.as_str(), last.as_str())?;
        beginning_is(sample.line, count, found.as_str(), wanted.as_str())?;
    }
    Ok(())
}

fn each_cut(alloc: Global, sample: &Sample<'_>) -> Result<(), Fail> {
    let whole = sample.events.len();
    let more = wanted_more(alloc, sample, whole)?;
    let last = wanted_last(alloc, sample, whole)?;
    for count in 0..=whole {
        let (front, rest) = (&sample.events[..count], &sample.events[count..]);
        let found = answered(alloc, sample.version, &[front, rest])?;
        let first = wanted_more(alloc, sample, count)?;
        let wanted = format!(in alloc;
            "{} / {} / {}",
            first.as_str(),
            more.as_str(),
            last.as_str()
        )?;
        beginning_is(sample.line, count, found.as_str(), wanted.as_str())?;
    }
    Ok(())
}

fn one_by_one(alloc: Global, sample: &Sample<'_>) -> Result<(), Fail> {
    let whole = sample.events.len();
    let mut wanted = String::new(alloc);
    for count in 1..=whole {
        wanted.push_str(wanted_more(alloc, sample, count)?.as_str())?;
        wanted.push_str(" / ")?;
    }
    wanted.push_str(wanted_last(alloc, sample, whole)?.as_str())?;
    let pieces = singles(alloc, sample.events)?;
    let found = answered(alloc, sample.version, pieces.as_slice())?;
    row_is(sample.line, found.as_str(), wanted.as_str())
}

/// A failure where a reader answers otherwise to a beginning of the document as one piece, to the document cut in two
/// at any place, or to its events one by one.
pub fn each_way(alloc: Global, sample: &Sample<'_>) -> Result<(), Fail> {
    each_beginning(alloc, sample)?;
    each_cut(alloc, sample)?;
    one_by_one(alloc, sample)
}
