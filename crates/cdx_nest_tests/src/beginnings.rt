//! Machines that are fed each beginning of an element, beside the reader of the element that this beginning would be, once
//! all that it leaves open is ended. The reader's fault is the machine's where it stands in the beginning, and no other is.

use crate::feeding::Reading;
use crate::readers::read;
use crate::samples::{GOOD, MISSING, PASSED, STRAY, UNKNOWN, UNPARSED};
use crate::told::{fed, reading, told};
use cdx_events::Events;
use cdx_push_tests::pieces::{around, ended, place_of};
use cdx_test_cases::checks::beginning_is;
use cdx_test_cases::faults::xml_fault_line;
use cdx_test_cases::rows::cases;
use std::alloc::Global;
use std::test::Fail;

// What comes of so many events by the reader's answer: the root stands at place 1, so theirs are those up to `count`.
fn wanted(
    alloc: Global,
    element: &str,
    reading: Reading,
    count: usize,
    otherwise: &str,
) -> Result<String, Fail> {
    let line = ended(alloc, element, count)?;
    let events = around(alloc, line.as_str())?;
    let Err(fault) = read(alloc, &events, reading.kind, reading.version) else {
        return Ok(String::from_str(alloc, otherwise)?);
    };
    if place_of(&fault) > count {
        return Ok(String::from_str(alloc, otherwise)?);
    }
    Ok(xml_fault_line(alloc, &fault)?)
}

/// Feeds a machine the first `count` events of the element, whose document the events are.
pub fn begin(
    alloc: Global,
    element: &str,
    events: &Events,
    reading: Reading,
    count: usize,
) -> Result<(), Fail> {
    let found = told(alloc, &fed(alloc, events, reading, count))?;
    let is_whole = count.saturating_add(2) == events.len();
    let otherwise = if is_whole { "done" } else { "more" };
    let wanted = wanted(alloc, element, reading, count, otherwise)?;
    beginning_is(element, count, found.as_str(), wanted.as_str())
}

fn each_beginning(alloc: Global, element: &str, reading: Reading) -> Result<(), Fail> {
    let events = around(alloc, element)?;
    for count in 1..=events.len().saturating_sub(2) {
        begin(alloc, element, &events, reading, count)?;
    }
    Ok(())
}

fn all_beginnings(alloc: Global, rows: &str) -> Result<(), Fail> {
    for case in &cases(alloc, rows)? {
        each_beginning(alloc, case.given, reading(case)?)?;
    }
    Ok(())
}

#[test]
fn of_good_elements(rt: HostRuntime) -> Result<(), Fail> {
    all_beginnings(rt.alloc(), GOOD)
}

#[test]
fn of_passing_elements(rt: HostRuntime) -> Result<(), Fail> {
    all_beginnings(rt.alloc(), PASSED)
}

#[test]
fn of_stray_texts(rt: HostRuntime) -> Result<(), Fail> {
    all_beginnings(rt.alloc(), STRAY)
}

#[test]
fn of_faulty_elements(rt: HostRuntime) -> Result<(), Fail> {
    let alloc = rt.alloc();
    all_beginnings(alloc, UNKNOWN)?;
    all_beginnings(alloc, MISSING)?;
    all_beginnings(alloc, UNPARSED)
}
