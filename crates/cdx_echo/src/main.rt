//! Reads one JSON value from standard input and writes its text: what `bench/road` measures the program against. Bytes
//! come in and go out as the program's do, so that only what stands between differs.
#![tactic(auto)]

ghost use Rattle.std.specs.Prelude.{◌≡◌, ◌++◌, [], ◌∷◌, false, IfOk};
ghost use Rattle.serde_json.specs.View.{view};
ghost use Rattle.serde_json.specs.Written.{has_float, compact_text};

use cdx_events::{ReadSource, Text, WriteSink};
use cdx_tool::{InputError, LongText, Status, put_answer, take_input};
use serde_json::Value;
use std::alloc::{AllocError, Global};
use std::io;
use std::process::ExitCode;

// The bytes that are taken in at most.
const LIMIT: usize = 1_073_741_824;

/// The value's compact text and a line feed, or the status where there is none: 2 where the bytes are no JSON value,
/// and 5 where memory ran out.
fn echoed(alloc: Global, bytes: &[u8]) -> Result<LongText, u8> {
    let value = match Value::from_slice(alloc, bytes) {
        Ok(value) => value,
        Err(_) => return Err(Status::Unusable as u8),
    };
    match printed(alloc, &value) {
        Ok(text) => Ok(text),
        Err(_) => Err(Status::NoMemory as u8),
    }
}

// The value's compact text, which the contract tells where it holds no float, and a line feed.
fn printed(alloc: Global, value: &Value) -> Result<LongText, AllocError>
    ensures { IfOk result (λ t. has_float (view value.now) ≡ false
        → t ≡ compact_text (view value.now) ++ 10 ∷ []) }
{
    let mut text = value.to_string(alloc)?;
    text.push('\n')?;
    LongText::from_text(alloc, Text::from_string(text))
}

fn main(rt: HostRuntime) -> ExitCode {
    let alloc = rt.alloc();
    let bytes = match take_input(alloc, &mut ReadSource::new(rt.reader()), LIMIT) {
        Ok(bytes) => bytes,
        Err(InputError::Fault) => return ExitCode::from(Status::SourceFault as u8),
        Err(InputError::TooLong) => return ExitCode::from(Status::TooLong as u8),
        Err(InputError::Memory(_)) => return ExitCode::from(Status::NoMemory as u8),
    };
    match echoed(alloc, bytes.as_slice()) {
        Err(status) => ExitCode::from(status),
        Ok(text) => {
            let mut sink = WriteSink::new(io::writer(&rt));
            match put_answer(&text, &mut sink) {
                Ok(()) => ExitCode::from(Status::Served as u8),
                Err(_) => ExitCode::from(Status::SinkFault as u8),
            }
        }
    }
}
