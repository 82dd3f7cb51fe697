//! How deep components and services may stand in each other: 32 are read, and one inside them isn't.

use cdx_json::{FromJson, ToJson};
use cdx_leaf::FromXml;
use cdx_nest::{Components, Services};
use cdx_test_cases::checks::row_is;
use cdx_test_cases::forms::{V5, again, chain, read};
use cdx_test_cases::rows::row;
use std::alloc::Global;
use std::test::Fail;

// What stands before the next value inside, and after it, where dots stand for that.
fn ends(value: &str) -> (&str, &str) {
    value.split_once("...").unwrap_or((value, ""))
}

// Lists of each value are read and written where 32 stand in each other, and 33 are refused at the last one's path, which
// leads through so many of the row's steps.
fn nest_in_json<T: FromJson + ToJson + Drop>(alloc: Global, rows: &str) -> Result<(), Fail> {
    for line in rows.lines() {
        if let Some((value, step)) = row(line) {
            let shallow = chain(alloc, "[", ends(value), 32, "]")?;
            let answer = again::<T>(alloc, shallow.as_str(), V5)?;
            row_is(value, answer.as_str(), shallow.as_str())?;
            let deep = chain(alloc, "[", ends(value), 33, "]")?;
            let answer = again::<T>(alloc, deep.as_str(), V5)?;
            let fault = chain(alloc, "TooDeep /0", (step, ""), 32, "")?;
            row_is(value, answer.as_str(), fault.as_str())?;
        }
    }
    Ok(())
}

const COMPONENTS: &str = r#"
    {"components":[...],"name":"n","type":"file"} -> /components/0
    {"name":"n","pedigree":{"ancestors":[...]},"type":"file"} -> /pedigree/ancestors/0
"#;

const SERVICES: &str = r#"
    {"name":"n","services":[...]} -> /services/0
"#;

#[test]
fn in_json(rt: HostRuntime) -> Result<(), Fail> {
    let alloc = rt.alloc();
    nest_in_json::<Components>(alloc, COMPONENTS)?;
    nest_in_json::<Services>(alloc, SERVICES)
}

// In the element of a list 32 of each element are read as the row's values, and 33 are refused as it says.
fn nest_in_xml<T: FromXml + ToJson>(alloc: Global, list: &str, rows: &str) -> Result<(), Fail> {
    let (first, last) = ends(list);
    for line in rows.lines() {
        if let Some((element, answer)) = row(line) {
            let (value, fault) = answer.split_once(" -> ").unwrap_or((answer, ""));
            let shallow = chain(alloc, first, ends(element), 32, last)?;
            let found = read::<T>(alloc, shallow.as_str(), V5)?;
            let values = chain(alloc, "[", ends(value), 32, "]")?;
            row_is(element, found.as_str(), values.as_str())?;
            let deep = chain(alloc, first, ends(element), 33, last)?;
            let found = read::<T>(alloc, deep.as_str(), V5)?;
            row_is(element, found.as_str(), fault)?;
        }
    }
    Ok(())
}

// The first component's start has place 2, and each one inside stands 5 places after the one around it, or 6 in a
// pedigree.
const COMPONENT_ELEMENTS: &str = r#"
    <component type=file|<name|=n|>name|<components|...>components|>component| -> {"components":[...],"name":"n","type":"file"} -> too deep 162
    <component type=file|<name|=n|>name|<pedigree|<variants|...>variants|>pedigree|>component| -> {"name":"n","pedigree":{"variants":[...]},"type":"file"} -> too deep 194
"#;

const SERVICE_ELEMENTS: &str = r#"
    <service|<name|=n|>name|<services|...>services|>service| -> {"name":"n","services":[...]} -> too deep 162
"#;

#[test]
fn in_xml(rt: HostRuntime) -> Result<(), Fail> {
    let alloc = rt.alloc();
    nest_in_xml::<Components>(alloc, "<components|...>components", COMPONENT_ELEMENTS)?;
    nest_in_xml::<Services>(alloc, "<services|...>services", SERVICE_ELEMENTS)
}
