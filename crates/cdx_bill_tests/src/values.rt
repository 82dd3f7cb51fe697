//! Bills as values: new ones, copies, which are equal and which the same, and how deep they are.

use crate::short::{bill, label, read_short, shown, whole};
use cdx_bom::{Bom, same};
use cdx_component::{Component, Components};
use cdx_json::FromJson;
use cdx_models::HasTree;
use cdx_test_cases::checks::{holds, row_is, text_is};
use cdx_test_cases::forms::{V3, V4, V5, chain};
use cdx_test_cases::rows::row;
use serde_json::Value;
use std::alloc::{AllocError, Global};
use std::test::Fail;

// Whether the bills are equal, and whether they are the same.
fn compare(one: Bom, other: Bom) -> (bool, bool) {
    (one == other, same(&one, &other))
}

// A new bill of version 2.
fn second() -> Bom {
    let mut second = Bom::new(V5);
    second.version = 2;
    second
}

#[test]
fn new_bills(rt: HostRuntime) -> Result<(), Fail> {
    let alloc = rt.alloc();
    for v in [V3, V4, V5] {
        let label = label(alloc, &Bom::new(v))?;
        text_is(
            label.as_str(),
            format!(in alloc; "{} 1", v.as_str())?.as_str(),
        )?;
        let found = shown(alloc, &Bom::new(v))?;
        text_is(found.as_str(), whole(alloc, "json 1.5")?.as_str())?;
    }
    let read = bill(alloc, "json 1.5")?;
    let is_new = compare(read, Bom::new(V5)).0;
    holds("a bill without members is a new one", is_new)?;
    holds(
        "new bills of two versions differ",
        compare(Bom::new(V4), Bom::new(V5)) == (false, false),
    )?;
    holds(
        "a bill of version 2 is another",
        compare(second(), Bom::new(V5)) == (false, false),
    )
}

// Bills of which no two are equal, and which of them are the same as the one of an empty object of tools.
const DIFFERENT: &str = r#"
    json 1.5 -> another
    json 1.5 "serialNumber":"U", -> another
    json 1.5 "metadata":{}, -> another
    json 1.5 "metadata":{"tools":[]}, -> same
    json 1.5 "metadata":{"tools":{}}, -> same
    json 1.5 "components":[], -> another
    json 1.5 "services":[], -> another
    json 1.5 "externalReferences":[], -> another
    json 1.5 "dependencies":[], -> another
    json 1.5 "compositions":[], -> another
    json 1.5 "properties":[], -> another
    json 1.5 "signature":[], -> another
    json 1.5 "metadata":{"tools":[{"name":"t"}]}, -> another
    json 1.5 "metadata":{"tools":{"services":[]}}, -> another
    json 1.5 "metadata":{"tools":[]},"services":[], -> another
"#;

// How many of them are equal to the bill.
fn equal(alloc: Global, one: &Bom) -> Result<usize, Fail> {
    let mut count = 0usize;
    for line in DIFFERENT.lines() {
        if let Some((short, _)) = row(line) {
            let is_equal = bill(alloc, short)? == *one;
            count = count.saturating_add(usize::from(is_equal));
        }
    }
    Ok(count)
}

// Whether a copy of the bill is equal to it.
fn is_copied(alloc: Global, one: &Bom) -> Result<bool, AllocError> {
    Ok(one.copy(alloc)? == *one)
}

// What of the bill isn't as it should be beside the other, or how the two compare.
fn beside(alloc: Global, one: &Bom, object: &Bom) -> Result<&'static str, Fail> {
    if !is_copied(alloc, one)? {
        return Ok("copied otherwise");
    }
    if equal(alloc, one)? != 1 {
        return Ok("equal to others");
    }
    match (same(one, object), same(object, one)) {
        (true, true) => Ok("same"),
        (false, false) => Ok("another"),
        _ => Ok("the same one way"),
    }
}

fn all_beside(alloc: Global, object: &Bom) -> Result<(), Fail> {
    for line in DIFFERENT.lines() {
        if let Some((short, answer)) = row(line) {
            let found = beside(alloc, &bill(alloc, short)?, object)?;
            row_is(line, found, answer)?;
        }
    }
    Ok(())
}

#[test]
fn copies_and_equals(rt: HostRuntime) -> Result<(), Fail> {
    let alloc = rt.alloc();
    let object = bill(alloc, r#"json 1.5 "metadata":{"tools":{}},"#)?;
    all_beside(alloc, &object)
}

const NESTED: (&str, &str) = (r#"{"components":["#, r#"],"name":"a","type":"library"}"#);

const ELEMENT: (&str, &str) = (
    "<component type=library|<name|=a|>name|<components|",
    ">components|>component|",
);

// The bill of one component around 32, each inside the one before. No document denotes it.
fn deep(alloc: Global) -> Result<Bom, Fail> {
    let inner = Value::from_str(alloc, chain(alloc, "[", NESTED, 32, "]")?.as_str())?;
    let inner = Components::from_json(alloc, &inner, V5)?;
    let outer = Value::from_str(alloc, r#"{"name":"a","type":"library"}"#)?;
    let mut component = Component::from_json(alloc, &outer, V5)?;
    component.components = Some(inner);
    let mut components = Components::new(alloc);
    components.push(component)?;
    let mut deep = Bom::new(V5);
    deep.components = Some(components);
    Ok(deep)
}

// The short document of so many components, each inside the one before.
fn nested(alloc: Global, levels: usize) -> Result<String, AllocError> {
    chain(alloc, r#"json 1.5 "components":["#, NESTED, levels, "],")
}

// 32 components may stand in each other, and one inside them is refused.
#[test]
fn depth(rt: HostRuntime) -> Result<(), Fail> {
    let alloc = rt.alloc();
    let fault = chain(alloc, "TooDeep ", ("/components/0", ""), 33, "")?;
    text_is(
        read_short(alloc, nested(alloc, 33)?.as_str())?.as_str(),
        fault.as_str(),
    )?;
    let short = chain(alloc, "xml 1.5 <components|", ELEMENT, 33, ">components|")?;
    text_is(read_short(alloc, short.as_str())?.as_str(), "too deep 163")
}

#[test]
fn depth_of_values(rt: HostRuntime) -> Result<(), Fail> {
    let alloc = rt.alloc();
    let text = whole(alloc, nested(alloc, 33)?.as_str())?;
    let deep = deep(alloc)?;
    let (is_shallow, found) = (deep.shallow(), shown(alloc, &deep)?);
    drop(deep);
    text_is(found.as_str(), text.as_str())?;
    holds("33 levels aren't shallow", !is_shallow)?;
    let short = nested(alloc, 32)?;
    let is_shallow = bill(alloc, short.as_str())?.shallow();
    holds("32 levels are shallow", is_shallow)?;
    text_is(
        read_short(alloc, short.as_str())?.as_str(),
        whole(alloc, short.as_str())?.as_str(),
    )
}
