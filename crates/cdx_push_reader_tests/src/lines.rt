//! All that a reader of bills answers, in a line.

use crate::feeding::{Fed, feed_each};
use cdx_events::XmlEvent;
use cdx_models::SpecVersion;
use cdx_test_cases::faults::xml_fault_line;
use std::alloc::{AllocError, Global};
use std::slice::from_ref;
use std::test::Fail;

/// The pieces of one event each.
pub fn singles(alloc: Global, events: &[XmlEvent]) -> Result<Vec<&[XmlEvent]>, AllocError> {
    let mut pieces = Vec::new(alloc);
    for event in events {
        pieces.push(from_ref(event))?;
    }
    Ok(pieces)
}

// What the reader comes to: the bill as JSON of 1.5, or the fault.
fn finished(alloc: Global, fed: Fed) -> Result<String, Fail> {
    match fed.reader.finish() {
        Ok(bill) => Ok(bill.output_as_json_v1_5(alloc)?.to_string(alloc)?),
        Err(fault) => Ok(xml_fault_line(alloc, &fault)?),
    }
}

/// What a reader of bills of the version answers to each of the pieces, each with ` / ` after it, and what it comes to
/// then: the bill as JSON of 1.5, or the fault.
pub fn answered(
    alloc: Global,
    version: SpecVersion,
    pieces: &[&[XmlEvent]],
) -> Result<String, Fail> {
    let fed = feed_each(alloc, version, pieces)?;
    let mut line = String::new(alloc);
    for answer in &fed.answers {
        line.push_str(answer.as_str())?;
        line.push_str(" / ")?;
    }
    line.push_str(finished(alloc, fed)?.as_str())?;
    Ok(line)
}
