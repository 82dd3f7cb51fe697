//! Machines that are fed a whole element.

use crate::feeding::Heard;
use crate::kinds::name_of;
use crate::pieces::around;
use crate::readers::read;
use crate::same::same;
use crate::samples::{GOOD, MISSING, PASSED, STRAY, UNKNOWN, UNPARSED};
use crate::told::{fed, kind_of, told};
use cdx_events::Events;
use cdx_models::{Hashes, SpecVersion};
use cdx_push::{LeafKind, LeafValue};
use cdx_test_cases::checks::{row_holds, row_is};
use cdx_test_cases::faults::xml_fault_line;
use cdx_test_cases::rows::{Case, cases};
use std::alloc::Global;
use std::test::Fail;

// Rows of numbers of events, and what a machine of hashes makes of so many.
const HASHES: &str = r#"
    1.3,1.4,1.5 2,3,4 <hashes|<hash alg=a|=v|>hash|>hashes -> more
    1.3,1.4,1.5 5 <hashes|<hash alg=a|=v|>hash|>hashes -> done
    1.3,1.4,1.5 5 <hashes|<hash alg=a|=v|>hash|=t|>hashes -> unexpected 5 hashes Characters
"#;

fn count_of(word: &str) -> Result<usize, Fail> {
    match word {
        "2" => Ok(2),
        "3" => Ok(3),
        "4" => Ok(4),
        "5" => Ok(5),
        _ => Err(Fail::new("a row has another number of events")),
    }
}

// What the kind's machine makes of so many events, as it is told.
fn heard_line(
    alloc: Global,
    events: &Events,
    kind: LeafKind,
    version: SpecVersion,
    count: usize,
) -> Result<String, Fail> {
    let heard = fed(alloc, events, kind, version, count);
    Ok(told(alloc, &heard)?)
}

// What comes of the row's first events.
fn counted(alloc: Global, case: &Case<'_>) -> Result<String, Fail> {
    let count = count_of(case.word)?;
    let events = around(alloc, case.given)?;
    heard_line(alloc, &events, LeafKind::Hashes, case.version, count)
}

#[test]
fn hashes_step_by_step(rt: HostRuntime) -> Result<(), Fail> {
    let alloc = rt.alloc();
    for case in &cases(alloc, HASHES)? {
        row_is(case.line, counted(alloc, case)?.as_str(), case.answer)?;
    }
    Ok(())
}

fn is_one_hash(hashes: &Hashes) -> bool {
    match hashes.0.as_slice() {
        [hash] => hash.alg.is("a") && hash.content.0.is("v"),
        _ => false,
    }
}

fn reads_one_hash(heard: &Heard) -> bool {
    match heard {
        Heard::Done(LeafValue::Hashes(hashes)) => is_one_hash(hashes),
        _ => false,
    }
}

#[test]
fn one_hash(rt: HostRuntime) -> Result<(), Fail> {
    let alloc = rt.alloc();
    let line = "<hashes|<hash alg=a|=v|>hash|>hashes";
    let events = around(alloc, line)?;
    let heard = fed(alloc, &events, LeafKind::Hashes, SpecVersion::V1_5, 5);
    let is_read = reads_one_hash(&heard);
    drop(heard);
    row_holds(line, "one hash is read", is_read)
}

// The name of the value's variant, where the other is the same.
fn named_alike(value: &LeafValue, wanted: &LeafValue) -> &'static str {
    if same(value, wanted) {
        name_of(value)
    } else {
        "another than the reader's"
    }
}

// A function holds one value alone, since each place where it ends frees what it holds, variant by variant.
fn read_beside(
    alloc: Global,
    events: &Events,
    kind: LeafKind,
    version: SpecVersion,
    heard: &Heard,
) -> Result<&'static str, Fail> {
    let Heard::Done(value) = heard else {
        return Ok("not read by the machine");
    };
    let wanted = read(alloc, events, kind, version)?;
    Ok(named_alike(value, &wanted))
}

// The name of the variant of what the machine reads, where the kind's reader reads the same.
fn read_alike(
    alloc: Global,
    events: &Events,
    kind: LeafKind,
    version: SpecVersion,
) -> Result<&'static str, Fail> {
    let heard = fed(alloc, events, kind, version, usize::MAX);
    read_beside(alloc, events, kind, version, &heard)
}

fn all_read(alloc: Global, rows: &str) -> Result<(), Fail> {
    for case in &cases(alloc, rows)? {
        let kind = kind_of(case.word)?;
        let events = around(alloc, case.given)?;
        let found = read_alike(alloc, &events, kind, case.version)?;
        row_is(case.line, found, case.word)?;
    }
    Ok(())
}

#[test]
fn good_elements(rt: HostRuntime) -> Result<(), Fail> {
    all_read(rt.alloc(), GOOD)?;
    all_read(rt.alloc(), PASSED)
}

// What the kind's reader answers.
fn answered(
    alloc: Global,
    events: &Events,
    kind: LeafKind,
    version: SpecVersion,
) -> Result<String, Fail> {
    match read(alloc, events, kind, version) {
        Ok(_) => Ok(String::from_str(alloc, "done")?),
        Err(fault) => Ok(xml_fault_line(alloc, &fault)?),
    }
}

fn all_refused(alloc: Global, rows: &str) -> Result<(), Fail> {
    for case in &cases(alloc, rows)? {
        let kind = kind_of(case.word)?;
        let events = around(alloc, case.given)?;
        let heard = heard_line(alloc, &events, kind, case.version, usize::MAX)?;
        row_is(case.line, heard.as_str(), case.answer)?;
        let answer = answered(alloc, &events, kind, case.version)?;
        row_is(case.line, answer.as_str(), case.answer)?;
    }
    Ok(())
}

#[test]
fn stray_texts(rt: HostRuntime) -> Result<(), Fail> {
    all_refused(rt.alloc(), STRAY)
}

#[test]
fn unknown_children(rt: HostRuntime) -> Result<(), Fail> {
    all_refused(rt.alloc(), UNKNOWN)
}

#[test]
fn missing_parts(rt: HostRuntime) -> Result<(), Fail> {
    all_refused(rt.alloc(), MISSING)
}

#[test]
fn unparsed_texts(rt: HostRuntime) -> Result<(), Fail> {
    all_refused(rt.alloc(), UNPARSED)
}
