//! Long documents, fed event by event. A reader that reads everything again with each event doesn't come to their end in
//! time, and neither does one that keeps the events of an element until it ends.

use crate::feeding::feed_each;
use crate::lines::singles;
use cdx_bom::Bom;
use cdx_events::{List, Text};
use cdx_relations::{Dependencies, Dependency};
use cdx_test_cases::checks::holds;
use cdx_test_cases::forms::V5;
use cdx_tool::made;
use std::alloc::{AllocError, Global};
use std::test::Fail;

// A failure where the bill's document hasn't so many events, and where a reader that is fed one of them at a time
// comes to another bill.
fn comes_back(alloc: Global, bill: &Bom, count: usize) -> Result<(), Fail> {
    let document = bill.output_as_xml_v1_5(alloc)?;
    holds("the document has so many events", document.len() == count)?;
    let pieces = singles(alloc, document.as_slice())?;
    let fed = feed_each(alloc, V5, pieces.as_slice())?;
    let is_more = fed.answers.iter().all(|answer| answer.as_str() == "more");
    let is_same = fed.reader.finish()? == *bill;
    holds("each event is answered with more", is_more)?;
    holds("the bill comes back", is_same)
}

#[test]
fn components(rt: HostRuntime) -> Result<(), Fail> {
    let alloc = rt.alloc();
    comes_back(alloc, &made(alloc, 20_000)?, 160_006)
}

// So many dependencies that depend on nothing, the first of which is 0.
fn numbered(alloc: Global, count: u32) -> Result<Dependencies, AllocError> {
    let mut dependencies = List::new(alloc);
    for number in 0..count {
        dependencies.push(Dependency {
            dependency_ref: Text::from_string(format!(in alloc; "{number}")?),
            depends_on: List::new(alloc),
        })?;
    }
    Ok(Dependencies(dependencies))
}

#[test]
fn dependencies(rt: HostRuntime) -> Result<(), Fail> {
    let alloc = rt.alloc();
    let mut bill = Bom::new(V5);
    bill.dependencies = Some(numbered(alloc, 100_000)?);
    comes_back(alloc, &bill, 200_006)
}
