//! Each limit in turn.

use crate::tests::stream::{Pace, SWIFT, replies, serve_text, served_is, stream};
use std::test::Fail;

const SHAPE: &str = "{\"request\":\"shape\"}\n";

#[test]
fn small_limits(rt: HostRuntime) -> Result<(), Fail> {
    let two = "{\"request\":\"shape\"}\n{\"request\":\"shape\"}\n";
    // a limit, the status, and what is written of two lines in five bytes
    for (limit, status, text) in [
        (0u64, 6u8, ""),
        (1, 6, ""),
        (2, 6, SHAPE),
        (3, 6, SHAPE),
        (4, 6, SHAPE),
        (5, 0, two),
        (6, 0, two),
    ] {
        let served = serve_text(rt.alloc(), "1\n22\n", limit, SWIFT, SWIFT)?;
        served_is(limit, &served, status, text)?;
    }
    Ok(())
}

#[test]
fn each_limit(rt: HostRuntime) -> Result<(), Fail> {
    let alloc = rt.alloc();
    let text = stream(alloc)?;
    for step in [1, 7, 4096] {
        let pace = Pace { step, fails: 0 };
        for limit in 0..text.len().saturating_add(2) {
            let status = if limit < text.len() { 6 } else { 0 };
            let served = serve_text(alloc, text.as_str(), limit as u64, pace, SWIFT)?;
            let wanted = replies(alloc, limit)?;
            served_is(limit as u64, &served, status, wanted.as_str())?;
        }
    }
    Ok(())
}
