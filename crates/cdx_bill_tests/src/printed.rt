//! JSON that is printed after a text, as rows of `word given -> answer`, where `x` is the text.

use cdx_events::Text;
use cdx_json::{FromJson, Members, Spelling, put};
use cdx_models::Hashes;
use cdx_print::{Printed, Printer, print_items, print_members, print_text, print_value};
use cdx_test_cases::checks::{holds, row_is};
use cdx_test_cases::forms::V5;
use cdx_test_cases::rows::{parted, row};
use serde_json::Value;
use std::alloc::Global;
use std::test::Fail;

const PRINTED: &str = r#"
    text a"b -> x:"a\"b"
    value [1,{"b":null,"a":"c"}] -> x[1,{"a":"c","b":null}]
    members two -> x,"a":[true],"b":1}
    members set -> x,"a":2}
    members none -> x}
    first two -> x"a":[true],"b":1}
    hashes [] -> x[]
    hashes [{"content":"1","alg":"MD5"},{"alg":"SHA-1","content":"2"}] -> x[{"alg":"MD5","content":"1"},{"alg":"SHA-1","content":"2"}]
"#;

// The members of a row: two that are set out of order, one that is set anew, or none.
fn members_of(alloc: Global, given: &str) -> Result<Members<'static>, Fail> {
    let mut members = Vec::new(alloc);
    match given {
        "two" => {
            let mut items = Vec::new(alloc);
            items.push(Spelling::Bool(true))?;
            put(&mut members, "b", Spelling::Number(1))?;
            put(&mut members, "a", Spelling::Array(items))?;
        }
        "set" => {
            put(&mut members, "a", Spelling::Text("1"))?;
            put(&mut members, "a", Spelling::Number(2))?;
        }
        _ => {}
    }
    Ok(members)
}

fn push_members(alloc: Global, out: &mut String, given: &str, is_later: bool) -> Result<(), Fail> {
    let members = members_of(alloc, given)?;
    Ok(print_members(&mut Printer::new(alloc), out, &members, is_later)?)
}

fn push_value(alloc: Global, out: &mut String, given: &str) -> Result<(), Fail> {
    Ok(print_value(alloc, out, &Value::from_str(alloc, given)?)?)
}

fn push_hashes(alloc: Global, out: &mut Printed, given: &str) -> Result<(), Fail> {
    let hashes = Hashes::from_json(alloc, &Value::from_str(alloc, given)?, V5)?;
    Ok(print_items(&mut Printer::new(alloc), out, hashes.0.as_slice(), V5)?)
}

fn printed(alloc: Global, word: &str, given: &str) -> Result<Text, Fail> {
    let mut out = Printed::new(alloc);
    out.push_str("x")?;
    match word {
        "text" => print_text(alloc, &mut out.last, ":", given)?,
        "value" => push_value(alloc, &mut out.last, given)?,
        "members" => push_members(alloc, &mut out.last, given, true)?,
        "first" => push_members(alloc, &mut out.last, given, false)?,
        "hashes" => push_hashes(alloc, &mut out, given)?,
        _ => return Err(Fail::new("no such word")),
    }
    Ok(out.finish()?.to_text(alloc)?)
}

#[test]
fn after_a_text(rt: HostRuntime) -> Result<(), Fail> {
    let alloc = rt.alloc();
    for line in PRINTED.lines() {
        if let Some((given, expected)) = row(line) {
            let (word, given) = parted(given);
            row_is(line, printed(alloc, word, given)?.as_str(), expected)?;
        }
    }
    Ok(())
}

// So many items of 27 bytes that a piece ends among them.
const MANY: usize = 3_000;

#[test]
fn in_pieces(rt: HostRuntime) -> Result<(), Fail> {
    let alloc = rt.alloc();
    let mut expected = String::from_str(alloc, "[")?;
    for i in 0..MANY {
        expected.push_str(if i == 0 { "" } else { "," })?;
        expected.push_str(r#"{"alg":"MD5","content":"1"}"#)?;
    }
    expected.push_str("]")?;
    let mut out = Printed::new(alloc);
    push_hashes(alloc, &mut out, expected.as_str())?;
    let text = out.finish()?;
    holds("more pieces than one", text.as_slice().len() > 1)?;
    row_is(
        "the whole text",
        text.to_text(alloc)?.as_str(),
        expected.as_str(),
    )
}
