//! What public calls make of a record, as rows of `versions words given -> answer`.
//!
//! Each of the versions does each of the words with what is given, a JSON text or a document of one element. The answer is
//! what is given where no arrow stands, and the fault where reading ends in one.
//! - `reads`: what the text denotes in the version, written in it.
//! - `keeps`: what the version keeps of the text of 1.5, written in 1.5.
//! - `differs`: the text itself, where what it denotes in 1.5 is equal to its copy, and to no other that differs.
//! - `parses`: what the document denotes in the version, as JSON of 1.5.
//! - `writes`: the text of 1.5, written in the version by itself.
//! - `names`: the same under the name `n`.
//! - `fills`: `written` where the text of 1.5 has something to write as an element, and `passed over` where it hasn't.
//! - `rewrites`: what the document denotes in the version, written in it by itself.
//! - `places`: what the document denotes in 1.5, written in the version as a field of its own name.
//! - `carries`: the text of 1.5, written in the version as a field; after an arrow what the version keeps of the text,
//!   where that is not the text; and after another what it reads of the element, where that is not what it keeps.

use cdx_json::{FromJson, ToJson};
use cdx_leaf::FromXml;
use cdx_test_cases::checks::row_is;
use cdx_test_cases::forms::{
    V5, again, denoted, held, kept, named as as_named, placed, read, shown, spelled,
};
use cdx_test_cases::rows::{Case, cases, parted};
use cdx_write::{Element, ToInnerXml, ToXml};
use std::alloc::Global;
use std::test::Fail;

// The text where it differs, as the word says.
fn differing<T: FromJson + PartialEq + Drop>(
    alloc: Global,
    text: &str,
    cases: &[Case<'_>],
) -> Result<String, Fail> {
    let copy = held::<T>(alloc, text, V5)?.copy(alloc)?;
    let (mut equal, mut same) = (0usize, 0usize);
    for case in cases {
        if case.word == "differs" {
            let other = held::<T>(alloc, case.given, V5)?;
            equal = equal.saturating_add(usize::from(copy == other));
            same = same.saturating_add(usize::from(copy.equals(&other)));
        }
    }
    let told = if (equal, same) == (1, 1) {
        text
    } else {
        "not equal to itself alone"
    };
    Ok(String::from_str(alloc, told)?)
}

fn in_json<T: FromJson + ToJson + PartialEq + Drop>(
    alloc: Global,
    case: &Case<'_>,
    cases: &[Case<'_>],
) -> Result<String, Fail> {
    match case.word {
        "reads" => again::<T>(alloc, case.given, case.version),
        "keeps" => kept::<T>(alloc, case.given, case.version),
        "differs" => differing::<T>(alloc, case.given, cases),
        _ => Err(Fail::new("a row has a word that this check doesn't know")),
    }
}

fn told(alloc: Global, will_write: bool) -> Result<String, Fail> {
    let told = if will_write { "written" } else { "passed over" };
    Ok(String::from_str(alloc, told)?)
}

/// A value of JSON.
pub fn values<T: FromJson + ToJson + PartialEq + Drop>(
    alloc: Global,
    rows: &str,
) -> Result<(), Fail> {
    let cases = cases(alloc, rows)?;
    for case in &cases {
        let found = in_json::<T>(alloc, case, cases.as_slice())?;
        row_is(case.line, found.as_str(), case.answer)?;
    }
    Ok(())
}

/// A record that is read from XML, and written as a part of another.
pub fn readings<T: FromJson + ToJson + FromXml + PartialEq>(
    alloc: Global,
    rows: &str,
) -> Result<(), Fail> {
    let cases = cases(alloc, rows)?;
    for case in &cases {
        let found = match case.word {
            "parses" => read::<T>(alloc, case.given, case.version)?,
            _ => in_json::<T>(alloc, case, cases.as_slice())?,
        };
        row_is(case.line, found.as_str(), case.answer)?;
    }
    Ok(())
}

fn of_named<T: FromJson + ToJson + FromXml + ToInnerXml + PartialEq>(
    alloc: Global,
    case: &Case<'_>,
    cases: &[Case<'_>],
) -> Result<String, Fail> {
    match case.word {
        "parses" => read::<T>(alloc, case.given, case.version),
        "names" => {
            let held = held::<T>(alloc, case.given, V5)?;
            as_named(alloc, &held, case.version, "n")
        }
        "fills" => told(alloc, held::<T>(alloc, case.given, V5)?.will_write()),
        _ => in_json::<T>(alloc, case, cases),
    }
}

/// A record that is written under a name that is given.
pub fn named<T: FromJson + ToJson + FromXml + ToInnerXml + PartialEq>(
    alloc: Global,
    rows: &str,
) -> Result<(), Fail> {
    let cases = cases(alloc, rows)?;
    for case in &cases {
        let found = of_named::<T>(alloc, case, cases.as_slice())?;
        row_is(case.line, found.as_str(), case.answer)?;
    }
    Ok(())
}

// The name of the element that the document begins with.
fn tag_of(document: &str) -> &str {
    let (start, _) = document.split_once('|').unwrap_or((document, ""));
    let (name, _) = parted(start);
    name.strip_prefix('<').unwrap_or(name)
}

fn carried<T: FromJson + ToJson + FromXml + Element>(
    alloc: Global,
    case: &Case<'_>,
) -> Result<String, Fail> {
    let (text, v) = (case.given, case.version);
    let kept = kept::<T>(alloc, text, v)?;
    if again::<T>(alloc, kept.as_str(), v)? != kept {
        return Err(Fail::new("what is kept isn't read again"));
    }
    let element = spelled::<T>(alloc, text, v, tag_of(case.answer))?;
    let back = read::<T>(alloc, element.as_str(), v)?;
    if back != kept {
        let (kept, back) = (kept.as_str(), back.as_str());
        return Ok(format!(in alloc; "{} -> {kept} -> {back}", element.as_str())?);
    }
    if kept.as_str() != text {
        return Ok(format!(in alloc; "{} -> {}", element.as_str(), kept.as_str())?);
    }
    Ok(element)
}

fn of_record<T: FromJson + ToJson + FromXml + ToXml + Element + PartialEq>(
    alloc: Global,
    case: &Case<'_>,
    cases: &[Case<'_>],
) -> Result<String, Fail> {
    let (given, v) = (case.given, case.version);
    match case.word {
        "parses" => read::<T>(alloc, given, v),
        "writes" => shown(alloc, &held::<T>(alloc, given, V5)?, v),
        "fills" => told(alloc, held::<T>(alloc, given, V5)?.will_write()),
        "rewrites" => shown(alloc, &denoted::<T>(alloc, given, v)?, v),
        "places" => placed(alloc, &denoted::<T>(alloc, given, V5)?, v, tag_of(given)),
        "carries" => carried::<T>(alloc, case),
        _ => in_json::<T>(alloc, case, cases),
    }
}

/// A record that has an element of its own.
pub fn records<T: FromJson + ToJson + FromXml + ToXml + Element + PartialEq>(
    alloc: Global,
    rows: &str,
) -> Result<(), Fail> {
    let cases = cases(alloc, rows)?;
    for case in &cases {
        let found = of_record::<T>(alloc, case, cases.as_slice())?;
        row_is(case.line, found.as_str(), case.answer)?;
    }
    Ok(())
}
