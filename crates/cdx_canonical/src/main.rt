//! The program of canonical texts: standard input to standard output.
#![tactic(auto)]

#[cfg(test)]
mod tests;

use cdx_events::{ReadSource, WriteSink};
use cdx_words::{status_without_words, words};
use std::io;
use std::process::ExitCode;

fn main(rt: HostRuntime) -> ExitCode {
    let status = match words(&rt) {
        Ok(words) => {
            let mut source = ReadSource::new(rt.reader());
            let mut sink = WriteSink::new(io::writer(&rt));
            cdx_canon::canonical(rt.alloc(), words.as_slice(), &mut source, &mut sink)
        }
        Err(error) => status_without_words(error.kind()),
    };
    ExitCode::from(status)
}
