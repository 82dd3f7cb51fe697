//! Requests, events and budgets that end early, at each length.

use crate::tests::hostile::tool::{EVENTS, LINE, REQUEST, only, run_road};
use cdx_events::{GatherError, MemoryEventSource, gather};
use cdx_test_cases::checks::{holds, holds_at, text_is};
use cdx_test_cases::documents::{line_of, list_of};
use cdx_tool::answer_bytes;
use std::alloc::{AllocError, Global};
use std::test::Fail;

#[test]
fn each_byte_is_the_last(rt: HostRuntime) -> Result<(), Fail> {
    let alloc = rt.alloc();
    let request = REQUEST.as_bytes();
    let wanted = "{\"request\":\"not JSON\"}\n".as_bytes();
    for len in 0..request.len() {
        let ended = run_road(alloc, &request[..len], 0, 0)?;
        holds_at(
            len as u64,
            "what is no JSON ends with status 2",
            ended.status == 2,
        )?;
        holds_at(
            len as u64,
            "what is written is the refusal",
            ended.sink.written() == wanted,
        )?;
        holds_at(
            len as u64,
            "the refusal is flushed",
            ended.sink.flushed() == wanted.len(),
        )?;
    }
    Ok(())
}

// The request whose document is the first of the events, without a hop.
fn request_of(alloc: Global, events: &[&str]) -> Result<String, AllocError> {
    let mut list = String::new(alloc);
    for event in events {
        if !list.is_empty() {
            list.push(',')?;
        }
        list.push_str(event)?;
    }
    format!(in alloc;
        "{{\"from\":\"1.5\",\"doc\":{{\"xml\":[{}]}},\"hops\":[]}}",
        list.as_str()
    )
}

// All of them are a document.
#[test]
fn each_event_is_the_last(rt: HostRuntime) -> Result<(), Fail> {
    let alloc = rt.alloc();
    let whole = request_of(alloc, &EVENTS)?;
    let answer = answer_bytes(alloc, whole.as_bytes())?;
    holds("all events are a document", answer.status == 0)?;
    for len in 0..EVENTS.len() {
        let request = request_of(alloc, &EVENTS[..len])?;
        let ended = run_road(alloc, request.as_bytes(), 0, 0)?;
        let wanted = format!(in alloc;
            "{{\"refused\":{{\"cause\":\"unbalanced\",\"place\":{len}}}}}\n"
        )?;
        holds_at(
            len as u64,
            "events that break end with status 1",
            ended.status == 1,
        )?;
        holds_at(
            len as u64,
            "what is written is the refusal",
            ended.sink.written() == wanted.as_bytes(),
        )?;
    }
    Ok(())
}

#[test]
fn each_budget_is_spent(rt: HostRuntime) -> Result<(), Fail> {
    let alloc = rt.alloc();
    for budget in 0..13usize {
        let mut source = MemoryEventSource::new(list_of(alloc, LINE)?, only(alloc, 0)?);
        let gathered = gather(alloc, &mut source, budget);
        let is_spent = matches!(gathered, Err(GatherError::Budget { taken }) if taken == budget);
        holds_at(
            budget as u64,
            "the fault tells the budget, which is spent",
            is_spent && source.calls() == budget as u64,
        )?;
    }
    let mut source = MemoryEventSource::new(list_of(alloc, LINE)?, only(alloc, 0)?);
    let events = gather(alloc, &mut source, 13)?;
    text_is(
        line_of(alloc, events.into_list().as_slice())?.as_str(),
        LINE,
    )
}
