//! Streams and their replies.

use crate::tests::stream::{Pace, REQUEST, SWIFT, serve_text, served_is};
use cdx_events::{List, MemorySink, SoundSource};
use cdx_gate::serve;
use cdx_test_cases::checks::holds;
use std::test::Fail;

const MOST: u64 = 1 << 40;

const DOCUMENTS: &str = "{\"documents\":[]}\n";

const NOT_JSON: &str = "{\"request\":\"not JSON\"}\n";

const SHAPE: &str = "{\"request\":\"shape\"}\n";

// Each stream with the replies of its lines.
const STREAMS: [(&str, &[&str]); 12] = [
    ("", &[]),
    ("\n", &[NOT_JSON]),
    ("x", &[NOT_JSON]),
    ("x\n", &[NOT_JSON]),
    ("\n\n", &[NOT_JSON, NOT_JSON]),
    ("\n1", &[NOT_JSON, SHAPE]),
    // nothing stops at a line that is refused
    ("x\n1\nx\n1\n", &[NOT_JSON, SHAPE, NOT_JSON, SHAPE]),
    // a carriage return belongs to its line, where JSON takes it for white space
    ("1\r\n", &[SHAPE]),
    ("\r\n\r", &[NOT_JSON, NOT_JSON]),
    // a byte order mark and NUL are none
    ("\u{feff}1\n1", &[NOT_JSON, SHAPE]),
    ("1\0\n\0\n1\n", &[NOT_JSON, NOT_JSON, SHAPE]),
    // other ends of lines are none of a stream's
    ("1\u{b}1\u{85}1\u{2028}1\n", &[NOT_JSON]),
];

#[test]
fn streams(rt: HostRuntime) -> Result<(), Fail> {
    let alloc = rt.alloc();
    let mut at = 0u64;
    for (text, replies) in &STREAMS {
        let wanted = replies.concat(alloc)?;
        for step in [1, 2, 4096] {
            let pace = Pace { step, fails: 0 };
            let served = serve_text(alloc, text, MOST, pace, pace)?;
            served_is(at, &served, 0, wanted.as_str())?;
        }
        at = at.saturating_add(1);
    }
    Ok(())
}

#[test]
fn a_request_and_more(rt: HostRuntime) -> Result<(), Fail> {
    let alloc = rt.alloc();
    let text = format!(in alloc; "{REQUEST}\nx")?;
    let wanted = format!(in alloc; "{DOCUMENTS}{NOT_JSON}")?;
    let served = serve_text(alloc, text.as_str(), MOST, SWIFT, SWIFT)?;
    served_is(0, &served, 0, wanted.as_str())?;
    // a put and a flush for each reply
    holds(
        "a put and a flush are made for each reply",
        served.sink.calls() == 4,
    )
}

#[test]
fn words(rt: HostRuntime) -> Result<(), Fail> {
    let alloc = rt.alloc();
    let words = [String::from_str(alloc, "road")?];
    let mut source = SoundSource::new(List::from_vec("1\n".as_bytes().to_vec(alloc)?));
    let mut sink = MemorySink::new(alloc, 64, 64, List::new(alloc))?;
    let status = serve(alloc, &words, MOST, &mut source, &mut sink);
    let wanted = "{\"request\":\"words\"}\n";
    holds("words end with status 2", status == 2)?;
    holds(
        "what is written is the refusal of words",
        sink.written() == wanted.as_bytes(),
    )?;
    holds(
        "the refusal of words is flushed",
        sink.flushed() == wanted.len(),
    )
}

// A line longer than a request may be is passed over, and the next is answered.
#[test]
fn long_line(rt: HostRuntime) -> Result<(), Fail> {
    let alloc = rt.alloc();
    let mut bytes = vec![in alloc; b' '; 67_108_865]?;
    bytes.extend_from_slice("\n1\n".as_bytes())?;
    let mut source = SoundSource::new(List::from_vec(bytes));
    let mut sink = MemorySink::new(alloc, 64, 64, List::new(alloc))?;
    let status = serve(alloc, &[], MOST, &mut source, &mut sink);
    holds("a long line ends with status 0", status == 0)?;
    let wanted = "{\"request\":\"too long\"}\n{\"request\":\"shape\"}\n";
    holds(
        "what is written is a reply for each line",
        sink.written() == wanted.as_bytes(),
    )
}
