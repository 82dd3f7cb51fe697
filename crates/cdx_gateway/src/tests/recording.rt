//! A source and a sink that share a count, so that what was flushed is seen at each take. A source that gives too few
//! bytes for a line, and then more, sees that each line that it gave whole was answered before more was taken.

ghost use Rattle.std.specs.Prelude.{None};

use crate::tests::stream::{LINES, stream};
use cdx_events::{Failed, Sink, Source};
use cdx_gate::serve;
use cdx_test_cases::checks::holds_at;
use std::cell::Cell;
use std::test::Fail;

const MOST: u64 = 1 << 40;

// Takes all bytes, and counts how often it was flushed.
#[derive(Drop)]
struct Flushes<'c> {
    count: &'c Cell<u64>,
}

impl<'c> Sink for Flushes<'c> {
    ghost written = { λ s. None };

    ghost flushed = { λ s. None };

    ghost tells = { λ s is. is };

    ghost faults = { λ s. 0 };

    fn put(&mut self, bytes: &[u8]) -> Result<usize, Failed> {
        Ok(bytes.len())
    }

    fn flush(&mut self) -> Result<(), Failed> {
        self.count.set(self.count.get().wrapping_add(1));
        Ok(())
    }
}

// Gives a text so many bytes at a time.
#[derive(Drop)]
struct Slow<'c> {
    text: &'c [u8],
    step: usize,
    // how many bytes of the text were given
    given: usize,
    // the line feeds that were given
    lines: u64,
    // how often more was taken before each of these lines was flushed
    late: u64,
    flushes: &'c Cell<u64>,
}

impl<'c> Source for Slow<'c> {
    ghost left = { λ s. None };

    ghost faults = { λ s. 0 };

    fn take(&mut self, buf: &mut [u8]) -> Result<usize, Failed> {
        if self.flushes.get() != self.lines {
            self.late = self.late.wrapping_add(1);
        }
        let left = self.text.len().saturating_sub(self.given);
        let count = self.step.min(buf.len()).min(left);
        for (held, byte) in buf
            .iter_mut()
            .zip(self.text.iter().skip(self.given).take(count))
        {
            *held = *byte;
            if *byte == b'\n' {
                self.lines = self.lines.wrapping_add(1);
            }
        }
        self.given = self.given.saturating_add(count);
        Ok(count)
    }
}

#[test]
fn answers_before_it_takes(rt: HostRuntime) -> Result<(), Fail> {
    let alloc = rt.alloc();
    let text = stream(alloc)?;
    for step in [1usize, 7, 100, 4096] {
        let flushes = Cell::new(0u64);
        let mut source = Slow {
            text: text.as_bytes(),
            step,
            given: 0,
            lines: 0,
            late: 0,
            flushes: &flushes,
        };
        let mut sink = Flushes { count: &flushes };
        let status = serve(alloc, &[], MOST, &mut source, &mut sink);
        holds_at(step as u64, "the stream ends with status 0", status == 0)?;
        holds_at(
            step as u64,
            "each line is answered before more is taken",
            source.late == 0,
        )?;
        holds_at(
            step as u64,
            "each reply is flushed",
            flushes.get() == LINES.len() as u64,
        )?;
    }
    Ok(())
}
