//! Machines that are fed a whole element.

use crate::feeding::{Heard, Reading};
use crate::kinds::name_of;
use crate::readers::{answered, read};
use crate::samples::{GOOD, MISSING, PASSED, STRAY, UNKNOWN, UNPARSED};
use crate::told::{fed, reading, told};
use crate::values::{as_text, same};
use cdx_events::Events;
use cdx_push_tests::pieces::around;
use cdx_test_cases::checks::row_is;
use cdx_test_cases::rows::cases;
use std::alloc::Global;
use std::test::Fail;

/// The name of the variant of what the machine reads, where the kind's reader reads the same.
pub fn read_alike(alloc: Global, events: &Events, reading: Reading) -> Result<&'static str, Fail> {
    let Heard::Done(value) = fed(alloc, events, reading, usize::MAX) else {
        return Ok("not read by the machine");
    };
    let wanted = read(alloc, events, reading.kind, reading.version)?;
    if !same(&value, &wanted) {
        return Ok("another than the reader's");
    }
    Ok(name_of(&value))
}

// What the machine reads, as JSON of 1.5.
fn text_of(alloc: Global, events: &Events, reading: Reading) -> Result<String, Fail> {
    let Heard::Done(value) = fed(alloc, events, reading, usize::MAX) else {
        return Ok(String::from_str(alloc, "not read by the machine")?);
    };
    as_text(alloc, &value)
}

fn all_read(alloc: Global, rows: &str) -> Result<(), Fail> {
    for case in &cases(alloc, rows)? {
        let reading = reading(case)?;
        let events = around(alloc, case.given)?;
        row_is(case.line, read_alike(alloc, &events, reading)?, case.word)?;
        let text = text_of(alloc, &events, reading)?;
        row_is(case.line, text.as_str(), case.answer)?;
    }
    Ok(())
}

#[test]
fn good_elements(rt: HostRuntime) -> Result<(), Fail> {
    all_read(rt.alloc(), GOOD)
}

#[test]
fn passing_elements(rt: HostRuntime) -> Result<(), Fail> {
    all_read(rt.alloc(), PASSED)
}

fn all_refused(alloc: Global, rows: &str) -> Result<(), Fail> {
    for case in &cases(alloc, rows)? {
        let reading = reading(case)?;
        let events = around(alloc, case.given)?;
        let heard = told(alloc, &fed(alloc, &events, reading, usize::MAX))?;
        row_is(case.line, heard.as_str(), case.answer)?;
        let answer = answered(alloc, &events, reading.kind, reading.version)?;
        row_is(case.line, answer.as_str(), case.answer)?;
    }
    Ok(())
}

#[test]
fn stray_texts(rt: HostRuntime) -> Result<(), Fail> {
    all_refused(rt.alloc(), STRAY)
}

#[test]
fn unknown_children(rt: HostRuntime) -> Result<(), Fail> {
    all_refused(rt.alloc(), UNKNOWN)
}

#[test]
fn missing_parts(rt: HostRuntime) -> Result<(), Fail> {
    all_refused(rt.alloc(), MISSING)
}

#[test]
fn unparsed_texts(rt: HostRuntime) -> Result<(), Fail> {
    all_refused(rt.alloc(), UNPARSED)
}
