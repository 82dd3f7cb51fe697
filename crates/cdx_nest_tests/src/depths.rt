//! How deep components and services may stand in one another: 32 are read, and one inside them is refused at its start.

use crate::beginnings::begin;
use crate::readers::answered;
use crate::told::{fed, reading, reading_at, told};
use crate::whole::read_alike;
use cdx_nest::Depth;
use cdx_push_tests::pieces::around;
use cdx_test_cases::checks::row_is;
use cdx_test_cases::forms::chain;
use cdx_test_cases::rows::{Case, cases};
use std::alloc::{AllocError, Global};
use std::test::Fail;

// Rows of `versions kind around / level -> fault`. Dots stand where the levels are in one another, and the fault is that of
// one level more than are read.
//
// The first component's start has place 2, and each one inside stands 5 places after the one around it, or 8 with a version
// and 6 in a pedigree.
const LISTED: &str = r#"
    1.4,1.5 Components <components...|>components / |<component type=library|<name|=a|>name|<components...|>components|>component -> too deep 162
    1.3 Components <components...|>components / |<component type=library|<name|=a|>name|<version|=1|>version|<components...|>components|>component -> too deep 258
    1.5 Components <components...|>components / |<component type=file|<name|=n|>name|<pedigree|<variants...|>variants|>pedigree|>component -> too deep 194
    1.5 Pedigree <pedigree|<ancestors...|>ancestors|>pedigree / |<component type=file|<name|=n|>name|<pedigree|<ancestors...|>ancestors|>pedigree|>component -> too deep 195
    1.3,1.4,1.5 Services <services...|>services / |<service|<name|=n|>name|<services...|>services|>service -> too deep 162
    1.5 Tools <tools|<components...|>components|>tools / |<component type=file|<name|=n|>name|<components...|>components|>component -> too deep 163
    1.5 Tools <tools|<services...|>services|>tools / |<service|<name|=n|>name|<services...|>services|>service -> too deep 163
"#;

// The same where what stands around the levels is itself a component or a service, or holds one.
const AROUND: &str = r#"
    1.5 Component <component type=file|<name|=n|>name|<components...|>components|>component / |<component type=file|<name|=n|>name|<components...|>components|>component -> too deep 161
    1.5 Component <component type=file|<name|=n|>name|<pedigree|<ancestors...|>ancestors|>pedigree|>component / |<component type=file|<name|=n|>name|<pedigree|<ancestors...|>ancestors|>pedigree|>component -> too deep 193
    1.5 Service <service|<name|=n|>name|<services...|>services|>service / |<service|<name|=n|>name|<services...|>services|>service -> too deep 161
    1.5 Metadata <metadata|<component type=file|<name|=n|>name|<components...|>components|>component|>metadata / |<component type=file|<name|=n|>name|<components...|>components|>component -> too deep 162
"#;

// What stands before the dots, and after them.
fn ends(text: &str) -> (&str, &str) {
    text.split_once("...").unwrap_or((text, ""))
}

// The row's element around so many levels.
fn element(alloc: Global, case: &Case<'_>, levels: usize) -> Result<String, AllocError> {
    let (around, level) = case.given.split_once(" / ").unwrap_or((case.given, ""));
    let (first, last) = ends(around);
    chain(alloc, first, ends(level), levels, last)
}

// How many events stand before the first end of a level.
fn opened(alloc: Global, case: &Case<'_>, levels: usize) -> Result<usize, AllocError> {
    let (around, level) = case.given.split_once(" / ").unwrap_or((case.given, ""));
    let line = chain(alloc, ends(around).0, (ends(level).0, ""), levels, "")?;
    Ok(line.as_str().split('|').count())
}

// So many levels are read, and one more is refused, as the kind's reader does.
fn all_chains(alloc: Global, levels: usize, rows: &str) -> Result<(), Fail> {
    for case in &cases(alloc, rows)? {
        let reading = reading(case)?;
        let shallow = around(alloc, element(alloc, case, levels)?.as_str())?;
        row_is(case.line, read_alike(alloc, &shallow, reading)?, case.word)?;
        let deep = around(
            alloc,
            element(alloc, case, levels.saturating_add(1))?.as_str(),
        )?;
        let heard = told(alloc, &fed(alloc, &deep, reading, usize::MAX))?;
        row_is(case.line, heard.as_str(), case.answer)?;
        let answer = answered(alloc, &deep, reading.kind, reading.version)?;
        row_is(case.line, answer.as_str(), case.answer)?;
    }
    Ok(())
}

#[test]
fn chains(rt: HostRuntime) -> Result<(), Fail> {
    let alloc = rt.alloc();
    all_chains(alloc, 32, LISTED)?;
    all_chains(alloc, 31, AROUND)
}

// What comes before the start of the level that isn't read, with it and after it, beside the kind's reader.
fn begin_deep(alloc: Global, case: &Case<'_>, levels: usize) -> Result<(), Fail> {
    let reading = reading(case)?;
    let deep = element(alloc, case, levels.saturating_add(1))?;
    let events = around(alloc, deep.as_str())?;
    let before = opened(alloc, case, levels)?;
    for count in before..=before.saturating_add(2) {
        begin(alloc, deep.as_str(), &events, reading, count)?;
    }
    Ok(())
}

fn all_deep(alloc: Global, levels: usize, rows: &str) -> Result<(), Fail> {
    for case in &cases(alloc, rows)? {
        begin_deep(alloc, case, levels)?;
    }
    Ok(())
}

#[test]
fn beginnings_of_chains(rt: HostRuntime) -> Result<(), Fail> {
    let alloc = rt.alloc();
    all_deep(alloc, 32, LISTED)?;
    all_deep(alloc, 31, AROUND)
}

// A machine that has heard only the starts of so many levels is dropped with all of them open.
fn all_dropped(alloc: Global, levels: usize, rows: &str) -> Result<(), Fail> {
    for case in &cases(alloc, rows)? {
        let events = around(alloc, element(alloc, case, levels)?.as_str())?;
        let count = opened(alloc, case, levels)?;
        let heard = told(alloc, &fed(alloc, &events, reading(case)?, count))?;
        row_is(case.line, heard.as_str(), "more")?;
    }
    Ok(())
}

#[test]
fn dropped_inside_chains(rt: HostRuntime) -> Result<(), Fail> {
    let alloc = rt.alloc();
    all_dropped(alloc, 32, LISTED)?;
    all_dropped(alloc, 31, AROUND)
}

// What comes of the row's element where so many components and services stand around it.
fn all_inside(alloc: Global, components: u32, services: u32, rows: &str) -> Result<(), Fail> {
    let depth = Depth {
        components,
        services,
    };
    for case in &cases(alloc, rows)? {
        let events = around(alloc, case.given)?;
        let reading = reading_at(case, depth)?;
        let heard = told(alloc, &fed(alloc, &events, reading, usize::MAX))?;
        row_is(case.line, heard.as_str(), case.answer)?;
    }
    Ok(())
}

const INSIDE_31_COMPONENTS: &str = r#"
    1.4,1.5 Component <component type=file|<name|=n|>name|<components|>components|<pedigree|<variants|>variants|>pedigree|>component -> done
    1.3,1.4,1.5 Component <component|>component -> missing 1 component type
    1.3,1.4,1.5 Component <component type=file|<components|<component|>component|>components|>component -> too deep 3
    1.3,1.4,1.5 Component <component type=file|<pedigree|<ancestors|<component|>component|>ancestors|>pedigree|>component -> too deep 4
    1.4,1.5 Components <components|<component type=file|<name|=n|>name|>component|<component type=file|<name|=n|>name|>component|>components -> done
    1.4,1.5 Components <components|<component type=file|<name|=n|>name|>component|<component type=file|<components|<component|>component|>components|>component|>components -> too deep 9
    1.4,1.5 Pedigree <pedigree|<ancestors|<component type=file|<name|=n|>name|>component|>ancestors|>pedigree -> done
    1.4,1.5 Metadata <metadata|<component type=file|<name|=n|>name|>component|>metadata -> done
"#;

// Lists and pedigrees stand there, and no component in them.
const INSIDE_32_COMPONENTS: &str = r#"
    1.3,1.4,1.5 Component <component type=file|<name|=n|>name|<version|=1|>version|>component -> too deep 1
    1.3,1.4,1.5 Component <component|>component -> too deep 1
    1.3,1.4,1.5 Component <component|=x|>component -> too deep 1
    1.3,1.4,1.5 Components <components|>components -> done
    1.3,1.4,1.5 Components <components|<note|<component|>component|>note|>components -> done
    1.3,1.4,1.5 Components <components|<component|>component|>components -> too deep 2
    1.3,1.4,1.5 Components <components|=x|<component|>component|>components -> unexpected 2 components Characters
    1.3,1.4,1.5 Pedigree <pedigree|<ancestors|>ancestors|<notes|=t|>notes|>pedigree -> done
    1.3,1.4,1.5 Pedigree <pedigree|<ancestors|>ancestors|<variants|<component|>component|>variants|>pedigree -> too deep 5
    1.3,1.4,1.5 Metadata <metadata|<component|>component|>metadata -> too deep 2
    1.5 Tools <tools|<services|<service|<name|=n|>name|>service|>services|<components|>components|>tools -> done
    1.5 Tools <tools|<services|<service|<name|=n|>name|>service|>services|<components|<component|>component|>components|>tools -> too deep 10
    1.3,1.4,1.5 Service <service|<name|=n|>name|<services|<service|<name|=m|>name|>service|>services|>service -> done
"#;

#[test]
fn deep_in_components(rt: HostRuntime) -> Result<(), Fail> {
    let alloc = rt.alloc();
    all_inside(alloc, 31, 0, INSIDE_31_COMPONENTS)?;
    all_inside(alloc, 32, 0, INSIDE_32_COMPONENTS)
}

const INSIDE_31_SERVICES: &str = r#"
    1.3,1.4,1.5 Service <service|<name|=n|>name|<services|>services|>service -> done
    1.3,1.4,1.5 Service <service|>service -> missing 2 service name
    1.3,1.4,1.5 Service <service|<services|<service|>service|>services|>service -> too deep 3
    1.3,1.4,1.5 Services <services|<service|<name|=n|>name|>service|<service|<name|=n|>name|>service|>services -> done
"#;

const INSIDE_32_SERVICES: &str = r#"
    1.3,1.4,1.5 Service <service|<name|=n|>name|>service -> too deep 1
    1.3,1.4,1.5 Service <service|=x|>service -> too deep 1
    1.3,1.4,1.5 Services <services|>services -> done
    1.3,1.4,1.5 Services <services|<note|<service|>service|>note|<service|>service|>services -> too deep 6
    1.5 Tools <tools|<components|<component type=file|<name|=n|>name|>component|>components|<services|<service|>service|>services|>tools -> too deep 10
    1.5 Metadata <metadata|<tools|<services|<service|>service|>services|>tools|>metadata -> too deep 4
    1.4,1.5 Component <component type=file|<name|=n|>name|<components|<component type=file|<name|=m|>name|>component|>components|>component -> done
    1.4,1.5 Metadata <metadata|<component type=file|<name|=n|>name|>component|>metadata -> done
"#;

#[test]
fn inside_services(rt: HostRuntime) -> Result<(), Fail> {
    let alloc = rt.alloc();
    all_inside(alloc, 0, 31, INSIDE_31_SERVICES)?;
    all_inside(alloc, 0, 32, INSIDE_32_SERVICES)
}
