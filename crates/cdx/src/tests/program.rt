//! The program by its words.

use crate::tests::answers::{Tool, ended};
use cdx_test_cases::programs::{refuses_a_byte_more, tells_failing_calls};
use std::test::Fail;

const NO_HOP: &str =
    r#"{"from":"1.5","doc":{"json":{"bomFormat":"CycloneDX","specVersion":"1.5","version":1}},"hops":[]}"#;

const WORDS: &str = r#"
    |road -> {"documents":[]}
    |make|1 -> {"made":{"bytes":117,"components":1,"events":14}}
    |make|2 -> {"made":{"bytes":162,"components":2,"events":22}}
"#;

const OTHER_WORDS: &str = r#"
    // no word
    -> {"request":"words"}
    |road|x -> {"request":"words"}
    |roads -> {"request":"words"}
    |make -> {"request":"words"}
    |make|0 -> {"request":"words"}
    |make|020 -> {"request":"words"}
    |make|20001 -> {"request":"words"}
    |make|+5 -> {"request":"words"}
    // a space after the number
    |make|1  -> {"request":"words"}
    // an empty word
    |make| -> {"request":"words"}
    |make|٣ -> {"request":"words"}
    |make|1|2 -> {"request":"words"}
"#;

#[test]
fn words(rt: HostRuntime) -> Result<(), Fail> {
    let alloc = rt.alloc();
    ended(alloc, NO_HOP, 0, WORDS)?;
    ended(alloc, NO_HOP, 2, OTHER_WORDS)
}

#[test]
fn largest_bill_made(rt: HostRuntime) -> Result<(), Fail> {
    let row = r#"|make|20000 -> {"made":{"bytes":1037852,"components":20000,"events":160006}}"#;
    ended(rt.alloc(), "", 0, row)
}

#[test]
fn one_byte_too_many(rt: HostRuntime) -> Result<(), Fail> {
    refuses_a_byte_more::<Tool>(rt.alloc(), &["road"])
}

#[test]
fn failing_calls(rt: HostRuntime) -> Result<(), Fail> {
    tells_failing_calls::<Tool>(rt.alloc(), &["road"], NO_HOP, "{\"documents\":[]}")
}
