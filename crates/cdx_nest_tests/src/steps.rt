//! What a machine answers to the events of an element in turn.

use crate::feeding::Heard;
use crate::told::{fed, reading, told};
use crate::values::as_text;
use cdx_push_tests::pieces::around;
use cdx_test_cases::checks::row_is;
use cdx_test_cases::rows::{Case, cases};
use std::alloc::Global;
use std::test::Fail;

// Rows of `versions kind element -> answers`: how often the answer is More, and what comes then, a fault or the value as
// JSON of 1.5.
const STEPS: &str = r#"
    // a text in a component
    1.3,1.4,1.5 Component <component type=library|=x|>component -> 1 more, unexpected 2 component Characters
    // a tool beside components
    1.5 Tools <tools|<tool|>tool|<components|>components|>tools -> 5 more, missing 6 tools tool array or services & components
    1.3,1.4 Tools <tools|<tool|>tool|<components|>components|>tools -> 3 more, unexpected 4 tools StartElement
    // evidence that holds nothing but a text and an unknown element
    1.4,1.5 Component <component type=file|<name|=n|>name|<evidence|=t|<note|<licenses|>licenses|>note|>evidence|>component -> 11 more, {"evidence":{},"name":"n","type":"file"}
    // a flow among classifications
    1.5 Service <service|<name|=s|>name|<data|<classification flow=inbound|=PII|>classification|<dataflow name=n|<classification flow=outbound|=public|>classification|>dataflow|<classification flow=unknown|=x|>classification|>data|>service -> 17 more, {"data":[{"classification":"public","flow":"outbound","name":"n"}],"name":"s"}
    1.3,1.4 Service <service|<name|=s|>name|<data|<classification flow=inbound|=PII|>classification|<dataflow name=n|<classification flow=outbound|=public|>classification|>dataflow|<classification flow=unknown|=x|>classification|>data|>service -> 17 more, {"data":[{"classification":"PII","flow":"inbound"},{"classification":"x","flow":"unknown"}],"name":"s"}
"#;

// The value or the fault.
fn end(alloc: Global, heard: &Heard) -> Result<String, Fail> {
    match heard {
        Heard::Done(value) => as_text(alloc, value),
        _ => Ok(told(alloc, heard)?),
    }
}

// The answers to the events of the row's element, each beginning of which is fed to a machine of its own.
fn answers(alloc: Global, case: &Case<'_>) -> Result<String, Fail> {
    let reading = reading(case)?;
    let events = around(alloc, case.given)?;
    let mut more = 0usize;
    for count in 1..events.len() {
        let heard = fed(alloc, &events, reading, count);
        if !matches!(heard, Heard::More) {
            let end = end(alloc, &heard)?;
            return Ok(format!(in alloc; "{more} more, {}", end.as_str())?);
        }
        more = count;
    }
    Ok(String::from_str(alloc, "no end")?)
}

#[test]
fn step_by_step(rt: HostRuntime) -> Result<(), Fail> {
    let alloc = rt.alloc();
    for case in &cases(alloc, STEPS)? {
        row_is(case.line, answers(alloc, case)?.as_str(), case.answer)?;
    }
    Ok(())
}
