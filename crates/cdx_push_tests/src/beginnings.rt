//! Machines that are fed each beginning of an element, beside the reader of the element that this beginning would be, once
//! all that it leaves open is ended. The reader's fault is the machine's where it stands in the beginning, and no other is.

use crate::pieces::{around, ended, place_of};
use crate::readers::read;
use crate::samples::{GOOD, MISSING, PASSED, STRAY, UNKNOWN, UNPARSED};
use crate::told::{fed, kind_of, told};
use cdx_push::LeafKind;
use cdx_test_cases::checks::beginning_is;
use cdx_test_cases::faults::xml_fault_line;
use cdx_test_cases::rows::{Case, cases};
use std::alloc::Global;
use std::test::Fail;

// What comes of so many events by the reader's answer: the root stands at place 1, so theirs are those up to `count`.
fn wanted(
    alloc: Global,
    case: &Case<'_>,
    kind: LeafKind,
    count: usize,
    otherwise: &str,
) -> Result<String, Fail> {
    let line = ended(alloc, case.given, count)?;
    let events = around(alloc, line.as_str())?;
    let Err(fault) = read(alloc, &events, kind, case.version) else {
        return Ok(String::from_str(alloc, otherwise)?);
    };
    if place_of(&fault) > count {
        return Ok(String::from_str(alloc, otherwise)?);
    }
    Ok(xml_fault_line(alloc, &fault)?)
}

fn each_beginning(alloc: Global, case: &Case<'_>) -> Result<(), Fail> {
    let kind = kind_of(case.word)?;
    let events = around(alloc, case.given)?;
    let whole = events.len().saturating_sub(2);
    for count in 1..=whole {
        let heard = fed(alloc, &events, kind, case.version, count);
        let found = told(alloc, &heard)?;
        let otherwise = if count < whole { "more" } else { "done" };
        let wanted = wanted(alloc, case, kind, count, otherwise)?;
        beginning_is(case.line, count, found.as_str(), wanted.as_str())?;
    }
    Ok(())
}

fn all_beginnings(alloc: Global, rows: &str) -> Result<(), Fail> {
    for case in &cases(alloc, rows)? {
        each_beginning(alloc, case)?;
    }
    Ok(())
}

#[test]
fn of_good_elements(rt: HostRuntime) -> Result<(), Fail> {
    all_beginnings(rt.alloc(), GOOD)
}

#[test]
fn of_passing_elements(rt: HostRuntime) -> Result<(), Fail> {
    all_beginnings(rt.alloc(), PASSED)
}

#[test]
fn of_stray_texts(rt: HostRuntime) -> Result<(), Fail> {
    all_beginnings(rt.alloc(), STRAY)
}

#[test]
fn of_faulty_elements(rt: HostRuntime) -> Result<(), Fail> {
    let alloc = rt.alloc();
    all_beginnings(alloc, UNKNOWN)?;
    all_beginnings(alloc, MISSING)?;
    all_beginnings(alloc, UNPARSED)
}
