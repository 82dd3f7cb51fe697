//! Documents that are deep, and attributes that stand twice.

use crate::tests::hostile::short::{bill_text, events, read};
use cdx_bom::Bom;
use cdx_models::SpecVersion;
use cdx_test_cases::checks::{holds, row_is, text_is};
use cdx_test_cases::forms::chain;
use cdx_tool::answer_bytes;
use serde_json::Value;
use std::alloc::{AllocError, Global};
use std::test::Fail;

// What isn't known is passed over, however deep it is.
#[test]
fn unknown_elements(rt: HostRuntime) -> Result<(), Fail> {
    let alloc = rt.alloc();
    let notes = chain(alloc, "", ("<note|", ">note|"), 50_000, "")?;
    let bill = Bom::parse_from_xml_v1_5(alloc, &events(alloc, notes.as_str())?)?;
    let is_new = bill == Bom::new(SpecVersion::V1_5);
    drop(bill);
    holds("a bill of unknown elements is a new one", is_new)
}

// 32 components, each an ancestor of the one before, of which the last has a patch for an issue with a reference.
fn deepest(alloc: Global) -> Result<String, AllocError> {
    let first = r#""metadata":{"tools":{"components":["#;
    let opened = (r#"{"name":"a","pedigree":{"ancestors":["#, "");
    let last =
        r#"{"name":"a","pedigree":{"patches":[{"resolves":[{"references":["r"],"type":"t"}],"type":"t"}]},"type":"library"}"#;
    let outer = chain(alloc, first, opened, 31, last)?;
    chain(
        alloc,
        outer.as_str(),
        ("", r#"]},"type":"library"}"#),
        31,
        "]}},",
    )
}

// How many arrays and objects stand in each other, in a text whose strings hold no bracket.
fn nesting(text: &str) -> u64 {
    let mut depth = 0u64;
    let mut most = 0u64;
    for byte in text.as_bytes() {
        match byte {
            b'[' | b'{' => depth = depth.saturating_add(1),
            b']' | b'}' => depth = depth.saturating_sub(1),
            _ => {}
        }
        most = most.max(depth);
    }
    most
}

// No answer nests deeper, so `serde_json` reads each.
#[test]
fn deepest_answer(rt: HostRuntime) -> Result<(), Fail> {
    let alloc = rt.alloc();
    let bill = bill_text(alloc, deepest(alloc)?.as_str())?;
    let hops = r#"[{"form":"json","version":"1.5"}]"#;
    let request = format!(in alloc;
        "{{\"from\":\"1.5\",\"doc\":{{\"json\":{}}},\"hops\":{hops}}}",
        bill.as_str()
    )?;
    let answer = answer_bytes(alloc, request.as_bytes())?;
    holds("the deepest bill is carried", answer.status == 0)?;
    let wanted = format!(in alloc; "{{\"documents\":[{{\"json\":{}}}]}}\n", bill.as_str())?;
    let found = answer.text.to_text(alloc)?;
    text_is(found.as_str(), wanted.as_str())?;
    holds("its answer nests 107 deep", nesting(found.as_str()) == 107)?;
    let again = Value::from_str(alloc, found.as_str())?.to_string(alloc)?;
    text_is(again.as_str(), wanted.as_str().trim_ascii())
}

// Of an attached text's attributes the last of a name counts, and of others the first.
#[test]
fn repeated_attributes(rt: HostRuntime) -> Result<(), Fail> {
    let alloc = rt.alloc();
    let given =
        "<components|<component type=a type=b|<name|=c|>name|<swid tagId=t tagId=u name=n|<text content-type=p content-type=q|=x|>text|>swid|>component|>components|";
    let wanted =
        r#""components":[{"name":"c","swid":{"name":"n","tagId":"t","text":{"content":"x","contentType":"q"}},"type":"a"}],"#;
    let found = read(alloc, &events(alloc, given)?)?;
    row_is(given, found.as_str(), bill_text(alloc, wanted)?.as_str())
}
