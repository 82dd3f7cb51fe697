//! Streams that are served over objects in memory, and what is expected of them.

ghost use Rattle.std.specs.Prelude.{◌<◌, ◌+◌, ◌^◌};

use cdx_events::{List, MemorySink, MemorySource};
use cdx_gate::serve;
use cdx_test_cases::checks::holds_at;
use std::alloc::{AllocError, Global};
use std::test::Fail;

/// The request of the first worked example.
pub const REQUEST: &str =
    r#"{"from":"1.5","doc":{"json":{"bomFormat":"CycloneDX","specVersion":"1.5","serialNumber":"U","version":1}},"hops":[]}"#;

/// The lines of a stream, each with its reply.
pub const LINES: [(&str, &str); 3] = [
    (REQUEST, r#"{"documents":[]}"#),
    ("x", r#"{"request":"not JSON"}"#),
    ("1", r#"{"request":"shape"}"#),
];

/// The stream of the lines, each with a line feed after it.
pub fn stream(alloc: Global) -> Result<String, AllocError> {
    let mut text = String::new(alloc);
    for (line, _) in &LINES {
        text.push_str(line)?;
        text.push('\n')?;
    }
    Ok(text)
}

/// The replies of the lines whose line feed stands within the first `taken` bytes of the stream.
pub fn replies(alloc: Global, taken: usize) -> Result<String, AllocError> {
    let mut text = String::new(alloc);
    let mut end: usize = 0;
    for (line, reply) in &LINES {
        end = end.saturating_add(line.len()).saturating_add(1);
        if end <= taken {
            text.push_str(reply)?;
            text.push('\n')?;
        }
    }
    Ok(text)
}

/// How a stream was served: the status, and the sink after it.
#[derive(Drop)]
pub struct Served {
    /// The status.
    pub status: u8,
    /// The sink after it.
    pub sink: MemorySink,
}

/// How a source gives bytes, or a sink takes them: at most so many in a call, of which the one with this number fails. No
/// call has the number 0.
#[derive(Clone, Copy)]
pub struct Pace {
    /// How many bytes a call gives or takes at most.
    pub step: usize,
    /// The number of the call that fails.
    pub fails: u64,
}

/// Many bytes a call, and none fails.
pub const SWIFT: Pace = Pace {
    step: 4096,
    fails: 0,
};

/// Serves the text.
pub fn serve_text(
    alloc: Global,
    text: &str,
    limit: u64,
    giving: Pace,
    taking: Pace,
) -> Result<Served, AllocError>
    requires { (0 < giving.step) × (0 < taking.step) × (limit + 1 < 2 ^ 64) }
{
    let bytes = List::from_vec(text.as_bytes().to_vec(alloc)?);
    let fails = List::from_vec([giving.fails].to_vec(alloc)?);
    let mut source = MemorySource::new(bytes, giving.step, fails);
    let fails = List::from_vec([taking.fails].to_vec(alloc)?);
    let mut sink = MemorySink::new(alloc, 4096, taking.step, fails)?;
    let status = serve(alloc, &[], limit, &mut source, &mut sink);
    Ok(Served { status, sink })
}

/// A failure where the status or what was written and flushed isn't as expected.
pub fn served_is(at: u64, served: &Served, status: u8, text: &str) -> Result<(), Fail> {
    holds_at(at, "the status is the stream's", served.status == status)?;
    holds_at(
        at,
        "what is written is the replies",
        served.sink.written() == text.as_bytes(),
    )?;
    holds_at(
        at,
        "the replies are flushed",
        served.sink.flushed() == text.len(),
    )
}
