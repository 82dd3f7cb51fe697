//! Each call of a source and of a sink fails in turn, through the last that a run without a fault makes.

use crate::tests::hostile::tool::{ANSWER, LINE, REQUEST, STEP, only, run_road};
use cdx_bom::Bom;
use cdx_events::{
    Events, Failed, MemoryEventSink, MemorySink, SendError, Sink, Text, WriteSink, send,
};
use cdx_models::SpecVersion;
use cdx_test_cases::checks::{holds, holds_at};
use cdx_test_cases::documents::{line_of, list_of};
use cdx_tool::{LongText, put_answer};
use std::io::{Error, ErrorKind, Write};
use std::test::Fail;

/// A bill of 1.4 with its version alone.
const BARE_BILL: &str = "{\"bomFormat\":\"CycloneDX\",\"specVersion\":\"1.4\",\"version\":1}";

// Nothing is written where the request can't be taken in.
#[test]
fn each_take_fails(rt: HostRuntime) -> Result<(), Fail> {
    let alloc = rt.alloc();
    let request = REQUEST.as_bytes();
    let sound = run_road(alloc, request, 0, 0)?;
    holds("a run without a fault ends well", sound.status == 0)?;
    holds(
        "what is written is the answer",
        sound.sink.written() == ANSWER.as_bytes(),
    )?;
    holds(
        "each piece of the request is taken",
        sound.taken >= request.len().div_ceil(STEP) as u64,
    )?;
    for before in 0..sound.taken {
        let call = before + 1;
        let ended = run_road(alloc, request, call, 0)?;
        holds_at(
            call,
            "the fault is told, and no more is taken",
            ended.status == 3 && ended.taken == call,
        )?;
        holds_at(call, "nothing is put", ended.sink.calls() == 0)?;
    }
    Ok(())
}

// What is written is a prefix of the answer, and the whole where the last call fails, which is the flush.
#[test]
fn each_put_fails(rt: HostRuntime) -> Result<(), Fail> {
    let alloc = rt.alloc();
    let answer = ANSWER.as_bytes();
    let calls = run_road(alloc, REQUEST.as_bytes(), 0, 0)?.sink.calls();
    for before in 0..calls {
        let call = before + 1;
        let ended = run_road(alloc, REQUEST.as_bytes(), 0, call)?;
        let written = ended.sink.written();
        holds_at(call, "the fault is told", ended.status == 4)?;
        holds_at(
            call,
            "what is written begins the answer",
            answer.starts_with(written),
        )?;
        holds_at(
            call,
            "only the flush comes after the whole answer",
            (written == answer) == (call == calls),
        )?;
        holds_at(call, "nothing is flushed", ended.sink.flushed() == 0)?;
    }
    Ok(())
}

// Whether the sink got the bytes, each call as many as it takes, and then one flush.
fn is_flushed_once(sink: &MemorySink, bytes: &[u8]) -> bool {
    let puts = bytes.len().div_ceil(STEP) as u64;
    sink.written() == bytes
        && sink.flushed() == bytes.len()
        && sink.calls().checked_sub(1) == Some(puts)
}

#[test]
fn one_flush_at_the_end(rt: HostRuntime) -> Result<(), Fail> {
    let alloc = rt.alloc();
    let ended = run_road(alloc, REQUEST.as_bytes(), 0, 0)?;
    holds(
        "the answer of a run is flushed once",
        is_flushed_once(&ended.sink, ANSWER.as_bytes()),
    )?;
    let mut sink = MemorySink::new(alloc, 4096, STEP, only(alloc, 0)?)?;
    let text = LongText::from_text(alloc, Text::new(alloc, ANSWER)?)?;
    holds("the answer is put", put_answer(&text, &mut sink).is_ok())?;
    holds(
        "the answer that is put is flushed once",
        is_flushed_once(&sink, ANSWER.as_bytes()),
    )?;
    let mut sink = MemorySink::new(alloc, 4096, STEP, only(alloc, 0)?)?;
    let bill = Bom::new(SpecVersion::V1_4);
    let is_written = bill.write_json(alloc, SpecVersion::V1_4, &mut sink).is_ok();
    drop(bill);
    holds("the bill is written", is_written)?;
    holds(
        "the bill is flushed once",
        is_flushed_once(&sink, BARE_BILL.as_bytes()),
    )
}

#[test]
fn each_event_put_fails(rt: HostRuntime) -> Result<(), Fail> {
    let alloc = rt.alloc();
    for put in 0..13usize {
        let call = put as u64 + 1;
        let events = Events::from_list(alloc, list_of(alloc, LINE)?)?;
        let mut sink = MemoryEventSink::new(alloc, 13, only(alloc, call)?)?;
        let sent = send(events, &mut sink);
        let is_told = matches!(sent, Err(SendError { put: found }) if found == put);
        holds_at(
            call,
            "the fault tells how many events were put",
            is_told && sink.calls() == call,
        )?;
        let line = line_of(alloc, sink.events())?;
        holds_at(
            call,
            "so many events stand in the sink",
            sink.events().len() == put,
        )?;
        holds_at(
            call,
            "what stands in the sink begins the document",
            LINE.starts_with(line.as_str()),
        )?;
    }
    Ok(())
}

/// Takes one byte, and fails its second call.
#[derive(Drop)]
struct Second {
    calls: u8,
}

impl Write for Second {
    fn write(&mut self, buf: &[u8]) -> Result<usize, Error> {
        self.calls = self.calls.saturating_add(1);
        match self.calls {
            2 => Err(Error::from(ErrorKind::Other)),
            _ => Ok(buf.len().min(1)),
        }
    }

    fn flush(&mut self) -> Result<(), Error> {
        Ok(())
    }
}

#[test]
fn a_fault_is_counted_once() -> Result<(), Fail> {
    let mut sink = WriteSink::new(Second { calls: 0 });
    holds(
        "the first call writes one byte",
        sink.put(b"ab") == Ok(1) && sink.count() == 0,
    )?;
    holds(
        "the second call fails, and is counted",
        sink.put(b"b") == Err(Failed) && sink.count() == 1,
    )?;
    holds(
        "the third call writes one byte",
        sink.put(b"b") == Ok(1) && sink.count() == 1,
    )?;
    holds(
        "the flush doesn't fail",
        sink.flush() == Ok(()) && sink.count() == 1,
    )
}
