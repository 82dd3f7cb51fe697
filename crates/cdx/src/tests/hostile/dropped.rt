//! Documents without their empty texts.

use crate::tests::hostile::short::{bill, bill_text, read};
use cdx_events::without_empty_texts;
use cdx_test_cases::checks::row_is;
use cdx_test_cases::documents::{document, line_of};
use cdx_test_cases::rows::row;
use std::alloc::Global;
use std::test::Fail;

const DOCUMENTS: &str = r#"
    start|<a|>a|end
    start|<a|=|>a|end -> start|<a|>a|end
    start|<a|!|=|=|!|>a|end -> start|<a|>a|end
    // white space isn't empty
    start|<a|= |! |=x|!y|>a|end
    start|<a|=|<b x=|=|=x|>b|=|!y|!|>a|end -> start|<a|<b x=|=x|>b|!y|>a|end
"#;

#[test]
fn events_that_are_left(rt: HostRuntime) -> Result<(), Fail> {
    let alloc = rt.alloc();
    for line in DOCUMENTS.lines() {
        if let Some((given, wanted)) = row(line) {
            let left = without_empty_texts(alloc, &document(alloc, given)?)?;
            let found = line_of(alloc, left.into_list().as_slice())?;
            row_is(line, found.as_str(), wanted)?;
        }
    }
    Ok(())
}

// The members of bills, each with what is read of their XML without its empty texts: the bill as it was, or a fault.
const BILLS: &str = r#"
    // no text is read as an empty one
    "metadata":{"timestamp":""}, -> as it was
    "components":[{"name":"","type":"library","version":""}], -> as it was
    "components":[{"licenses":[{"expression":""}],"name":"a","type":"library"}], -> as it was
    "components":[{"evidence":{"copyright":[{"text":""}]},"name":"a","type":"library"}], -> as it was
    "components":[{"name":" ","swid":{"name":"n","tagId":"t","text":{"content":" "}},"type":"library"}], -> as it was
    // but these have to have one
    "components":[{"name":"a","swid":{"name":"n","tagId":"t","text":{"content":""}},"type":"library"}], -> unexpected 9 text EndElement
    "components":[{"licenses":[{"license":{"id":""}}],"name":"a","type":"library"}], -> unexpected 10 id EndElement
    "components":[{"licenses":[{"license":{"name":""}}],"name":"","type":"library"}], -> unexpected 9 name EndElement
    // and the first of several is the fault
    "components":[{"licenses":[{"license":{"id":"MIT","text":{"content":""}}},{"license":{"id":""}}],"name":"a","type":"library"}], -> unexpected 13 text EndElement
"#;

// What is read of the bill's XML without its empty texts.
fn read_without(alloc: Global, members: &str) -> Result<String, Fail> {
    let written = bill(alloc, members)?.output_as_xml_v1_5(alloc)?;
    read(alloc, &without_empty_texts(alloc, &written)?)
}

#[test]
fn bills_that_are_read(rt: HostRuntime) -> Result<(), Fail> {
    let alloc = rt.alloc();
    for line in BILLS.lines() {
        if let Some((members, answer)) = row(line) {
            let found = read_without(alloc, members)?;
            let same = bill_text(alloc, members)?;
            let wanted = if answer == "as it was" {
                same.as_str()
            } else {
                answer
            };
            row_is(line, found.as_str(), wanted)?;
        }
    }
    Ok(())
}
