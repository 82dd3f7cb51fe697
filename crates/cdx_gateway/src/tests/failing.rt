//! Each call of a source and of a sink fails in turn. What was written when a call of the source failed shows that each
//! line that a line feed ended was answered and flushed before that call: nothing before it could know that it fails.

use crate::tests::stream::{LINES, Pace, SWIFT, Served, replies, serve_text, served_is, stream};
use cdx_test_cases::checks::holds_at;
use std::test::Fail;

const MOST: u64 = 1 << 40;

#[test]
fn each_take_fails(rt: HostRuntime) -> Result<(), Fail> {
    let alloc = rt.alloc();
    let text = stream(alloc)?;
    for step in [1usize, 7, 4096] {
        for call in 1..130u64 {
            let taken = step.saturating_mul(call as usize - 1);
            let calls = text.len().div_ceil(step).saturating_add(1);
            let status = if call as usize <= calls { 3 } else { 0 };
            let served = serve_text(
                alloc,
                text.as_str(),
                MOST,
                Pace { step, fails: call },
                SWIFT,
            )?;
            let wanted = replies(alloc, taken)?;
            served_is(call, &served, status, wanted.as_str())?;
        }
    }
    Ok(())
}

// What is flushed is whole replies, and no more than the next was written beside it.
fn is_flushed_by_line(served: &Served) -> bool {
    let written = served.sink.written().len();
    let flushed = served.sink.flushed();
    let mut end: usize = 0;
    for (_, reply) in &LINES {
        let next = end.saturating_add(reply.len()).saturating_add(1);
        if flushed == end {
            return written <= next;
        }
        end = next;
    }
    flushed == end && written == end
}

// A failure where it didn't end as it should at the fault of a sink, or where there was none.
fn ended_well(call: u64, served: &Served, whole: &str) -> Result<(), Fail> {
    let written = served.sink.written();
    holds_at(
        call,
        "what is written begins the replies",
        whole.as_bytes().starts_with(written),
    )?;
    holds_at(
        call,
        "whole replies are flushed",
        is_flushed_by_line(served),
    )?;
    let is_whole = served.sink.flushed() == whole.len();
    holds_at(
        call,
        "the status tells whether all is flushed",
        served.status == if is_whole { 0 } else { 4 },
    )
}

#[test]
fn each_put_fails(rt: HostRuntime) -> Result<(), Fail> {
    let alloc = rt.alloc();
    let text = stream(alloc)?;
    let whole = replies(alloc, text.len())?;
    for (step, calls) in [(1usize, 63u64), (7, 13), (4096, 6)] {
        for call in 1..70u64 {
            let served = serve_text(
                alloc,
                text.as_str(),
                MOST,
                SWIFT,
                Pace { step, fails: call },
            )?;
            ended_well(call, &served, whole.as_str())?;
            holds_at(
                call,
                "the status tells whether the call is made",
                (served.status == 4) == (call <= calls),
            )?;
        }
    }
    Ok(())
}
