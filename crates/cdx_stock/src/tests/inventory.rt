//! Questions about bills, and the components of a bill.

use cdx_inventory::inventory;
use cdx_models::SpecVersion;
use cdx_test_cases::checks::{holds, text_is};
use cdx_tool::{NoBill, RequestError, read_question, take_bill};
use serde_json::Value;
use std::test::Fail;

const QUESTION: &str =
    r#"{"from":"1.4","doc":{"json":{"bomFormat":"CycloneDX","specVersion":"1.4","version":1,"components":[{"type":"t","name":"a","version":"2","licenses":[{"expression":"E"}]},{"type":"t","name":"b"}]}}}"#;

#[test]
fn entries(rt: HostRuntime) -> Result<(), Fail> {
    let alloc = rt.alloc();
    let bill = take_bill(alloc, Value::from_str(alloc, QUESTION)?)?;
    let all = inventory(alloc, &bill, None)?;
    let licensed = inventory(alloc, &bill, Some("E"))?;
    drop(bill);
    holds("two components are listed", all.len() == 2)?;
    holds("one component is under the license", licensed.len() == 1)?;
    for entry in licensed.as_slice() {
        text_is(entry.path.print(alloc)?.as_str(), "/components/0")?;
        text_is(entry.name.as_str(), "a")?;
        holds("it is under one license", entry.licenses.len() == 1)?;
    }
    Ok(())
}

#[test]
fn questions(rt: HostRuntime) -> Result<(), Fail> {
    let alloc = rt.alloc();
    let from = read_question(alloc, Value::from_str(alloc, QUESTION)?)?.from;
    holds("the question is of 1.4", from == SpecVersion::V1_4)?;
    let is_shapeless = matches!(read_question(alloc, Value::Null), Err(RequestError::Shape));
    holds("null is no question", is_shapeless)?;
    let is_shapeless = matches!(
        take_bill(alloc, Value::Null),
        Err(NoBill::Misread(RequestError::Shape))
    );
    holds("null has no bill", is_shapeless)
}
