//! What a reader or a writer answers, with a count of what failed.

ghost use Rattle.std.specs.Prelude.{◌≡◌, ◌≤◌, ◌<◌, length, IfOk, None};
ghost use Rattle.std.specs.Io.{ReadsAtMost, WritesAtMost};
ghost use Rattle.std.specs.Io.KnownBytes.{ReadConsumes, WriteAppends, Keeps};
ghost use Rattle.cdx_events.specs.Causes.{HasCause};
ghost use Rattle.cdx_events.specs.Counts.{counted};

use super::{ReadSource, WriteSink};
use crate::faults::Faults;
use crate::stream::{Failed, Sink, Source};
use std::io::{Read, Write};

impl<R: Read> ReadSource<R> {
    /// A source over this reader, which hasn't failed yet. It takes no memory.
    pub fn new(reader: R) -> ReadSource<R>
        ensures { result ≡ record { object = reader; faults = 0 } }
    {
        ReadSource {
            reader,
            failed: Faults::new(),
        }
    }

    /// How often the reader has failed, up to the last value of the type. It takes no memory.
    pub fn count(&self) -> u64
        ensures { result ≡ self.now.faults }
    {
        self.failed.count()
    }
}

impl<R: Read> Source for ReadSource<R> {
    ghost left = { λ s. R.remaining s.object };

    ghost faults = { λ s. s.faults };

    fn take(&mut self, buf: &mut [u8]) -> Result<usize, Failed>
        ensures bound { ReadsAtMost result buf.new }
        ensures bytes { ReadConsumes (R.remaining self.old.object) (R.remaining self.new.object)
            result buf.new }
        ensures cause { HasCause self.old.faults self.new.faults result }
        ensures count { self.new.faults ≡ counted self.old.faults result }
    {
        match self.reader.read(buf) {
            Ok(count) => Ok(count),
            Err(_) => Err(self.failed.fail()),
        }
    }
}

impl<W: Write> WriteSink<W> {
    /// A sink over this writer, which hasn't failed yet. It takes no memory.
    pub fn new(writer: W) -> WriteSink<W>
        ensures { result ≡ record { object = writer; faults = 0 } }
    {
        WriteSink {
            writer,
            failed: Faults::new(),
        }
    }

    /// How often the writer has failed or took nothing of a piece that isn't empty, up to the last value of the
    /// type. It takes no memory.
    pub fn count(&self) -> u64
        ensures { result ≡ self.now.faults }
    {
        self.failed.count()
    }
}

impl<W: Write> Sink for WriteSink<W> {
    ghost written = { λ _. None };

    ghost flushed = { λ _. None };

    ghost tells = { λ s is. is };

    ghost faults = { λ s. s.faults };

    fn put(&mut self, bytes: &[u8]) -> Result<usize, Failed>
        ensures bound { WritesAtMost result bytes.now }
        ensures some { IfOk result (λ n. 0 < length bytes.now → 0 < n) }
        ensures contents { WriteAppends (W.contents self.old.object) (W.contents self.new.object)
            result bytes.now }
        ensures cause { HasCause self.old.faults self.new.faults result }
        ensures count { self.new.faults ≡ counted self.old.faults result }
    {
        match self.writer.write(bytes) {
            Ok(0) if !bytes.is_empty() => Err(self.failed.fail()),
            Ok(count) => Ok(count),
            Err(_) => Err(self.failed.fail()),
        }
    }

    fn flush(&mut self) -> Result<(), Failed>
        ensures contents { Keeps (W.contents self.old.object) (W.contents self.new.object) }
        ensures cause { HasCause self.old.faults self.new.faults result }
        ensures count { self.new.faults ≡ counted self.old.faults result }
    {
        match self.writer.flush() {
            Ok(()) => Ok(()),
            Err(_) => Err(self.failed.fail()),
        }
    }
}
