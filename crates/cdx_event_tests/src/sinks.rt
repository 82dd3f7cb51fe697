//! Sources and sinks of bytes: what they give and take, and how their faults are counted.

use cdx_events::{
    Failed, List, MemorySink, MemorySource, NullSink, ReadSource, Sink, SoundSource, Source,
    WriteSink,
};
use cdx_test_cases::checks::holds;
use std::alloc::{AllocError, Global};
use std::io::{Error, ErrorKind, Read, Write};
use std::test::Fail;

/// Gives one byte, fails once, and then is at its end.
#[derive(Drop)]
struct Faulty {
    calls: u8,
}

impl Read for Faulty {
    fn read(&mut self, buf: &mut [u8]) -> Result<usize, Error> {
        self.calls = self.calls.saturating_add(1);
        match self.calls {
            1 if !buf.is_empty() => {
                buf[0] = b'x';
                Ok(1)
            }
            2 => Err(Error::from(ErrorKind::Other)),
            _ => Ok(0),
        }
    }
}

/// Takes one byte, then takes nothing, then fails.
impl Write for Faulty {
    fn write(&mut self, buf: &[u8]) -> Result<usize, Error> {
        self.calls = self.calls.saturating_add(1);
        match self.calls {
            1 if !buf.is_empty() => Ok(1),
            2 => Ok(0),
            _ => Err(Error::from(ErrorKind::Other)),
        }
    }

    fn flush(&mut self) -> Result<(), Error> {
        Err(Error::from(ErrorKind::Other))
    }
}

fn takes<S: Source>(source: &mut S) -> Result<usize, Failed> {
    let mut buf = [0u8; 2];
    source.take(&mut buf)
}

#[test]
fn faults_are_counted() -> Result<(), Fail> {
    let mut source = ReadSource::new(Faulty { calls: 0 });
    for (want, count) in [(Ok(1), 0), (Err(Failed), 1), (Ok(0), 1)] {
        holds(
            "a source gives a byte, fails and ends, and its fault is counted",
            takes(&mut source) == want && source.count() == count,
        )?;
    }
    let mut sink = WriteSink::new(Faulty { calls: 0 });
    for (want, count) in [(Ok(1), 0), (Err(Failed), 1), (Err(Failed), 2)] {
        holds(
            "a sink takes a byte and no more, and its faults are counted",
            sink.put(b"ab") == want && sink.count() == count,
        )?;
    }
    holds(
        "a flush that fails is counted",
        sink.flush() == Err(Failed) && sink.count() == 3,
    )?;
    let mut null = NullSink::new();
    holds(
        "a sink for nothing takes all",
        null.put(b"abc") == Ok(3) && null.flush() == Ok(()),
    )
}

fn bytes(alloc: Global) -> Result<List<u8>, AllocError> {
    Ok(List::from_vec(b"abc".to_vec(alloc)?))
}

fn numbers(alloc: Global, numbers: &[u64]) -> Result<List<u64>, AllocError> {
    Ok(List::from_vec(numbers.to_vec(alloc)?))
}

#[test]
fn takes_from_memory(rt: HostRuntime) -> Result<(), Fail> {
    let mut sound = SoundSource::new(bytes(rt.alloc())?);
    for want in [2, 1, 0] {
        holds(
            "a source gives two bytes, one and none",
            takes(&mut sound) == Ok(want),
        )?;
    }
    let fails = numbers(rt.alloc(), &[2])?;
    let mut source = MemorySource::new(bytes(rt.alloc())?, 1, fails);
    for (want, calls) in [
        (Ok(1), 1),
        (Err(Failed), 2),
        (Ok(1), 3),
        (Ok(1), 4),
        (Ok(0), 5),
    ] {
        holds(
            "the second call of the source fails",
            takes(&mut source) == want && source.calls() == calls,
        )?;
    }
    Ok(())
}

fn flushes<K: Sink>(sink: &mut K) -> Result<usize, Failed> {
    sink.flush()?;
    Ok(0)
}

#[test]
fn puts_into_memory(rt: HostRuntime) -> Result<(), Fail> {
    let fails = numbers(rt.alloc(), &[3])?;
    let mut sink = MemorySink::new(rt.alloc(), 3, 2, fails)?;
    for (piece, want, flushed) in [
        (b"abc".as_slice(), Ok(2), 0),
        (b"cde".as_slice(), Ok(1), 0),
        (b"".as_slice(), Err(Failed), 0),
        (b"".as_slice(), Ok(0), 3),
        (b"d".as_slice(), Err(Failed), 3),
    ] {
        let answer = if piece.is_empty() {
            flushes(&mut sink)
        } else {
            sink.put(piece)
        };
        holds(
            "a sink takes what it has room for, and its third call fails",
            answer == want && sink.flushed() == flushed,
        )?;
    }
    holds(
        "the room is full after five calls",
        sink.written() == b"abc".as_slice() && sink.calls() == 5,
    )
}
