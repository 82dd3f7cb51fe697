//! The program's calls one by one: bytes taken in and put out, documents and events read and written.

use cdx_bom::Doc;
use cdx_events::{Events, List, MemorySink, SoundSource, Text};
use cdx_test_cases::checks::{holds, text_is};
use cdx_test_cases::inputs::bytes_of;
use cdx_tool::{
    InputError, LongText, PutError, RequestError, events_from_json, events_to_json, put_answer,
    read_doc, take_input,
};
use serde_json::Value;
use std::test::Fail;

const REQUEST: &str = "{\"request\":\"too long\"}\n";

#[test]
fn bytes(rt: HostRuntime) -> Result<(), Fail> {
    let alloc = rt.alloc();
    let mut source = SoundSource::new(bytes_of(alloc, REQUEST)?);
    match take_input(alloc, &mut source, REQUEST.len()) {
        Ok(bytes) => holds(
            "the bytes are those of the request",
            bytes.as_slice() == REQUEST.as_bytes(),
        )?,
        Err(_) => return Err(Fail::new("a request of so many bytes isn't taken in")),
    }
    let mut source = SoundSource::new(bytes_of(alloc, REQUEST)?);
    let is_refused = matches!(take_input(alloc, &mut source, 10), Err(InputError::TooLong));
    holds("a byte too many is refused", is_refused)?;
    let text = LongText::from_text(alloc, Text::new(alloc, REQUEST)?)?;
    let mut sink = MemorySink::new(alloc, 4096, 10, List::new(alloc))?;
    holds("the answer is put", put_answer(&text, &mut sink).is_ok())?;
    holds(
        "what is written is the answer",
        sink.written() == REQUEST.as_bytes(),
    )?;
    holds("the answer is flushed", sink.flushed() == REQUEST.len())?;
    let fails = List::from_vec([1].to_vec(alloc)?);
    let mut sink = MemorySink::new(alloc, 4096, 10, fails)?;
    holds(
        "the fault of the first call tells that nothing was written",
        matches!(put_answer(&text, &mut sink), Err(PutError { written: 0 })),
    )
}

const EMPTY_BILL: &str =
    r#"[{"document":"start"},{"attributes":[{"name":"version","value":"1"}],"default":"http://cyclonedx.org/schema/bom/1.5","element":"bom"},{"end":"bom"},{"document":"end"}]"#;

#[test]
fn documents_and_events(rt: HostRuntime) -> Result<(), Fail> {
    let alloc = rt.alloc();
    let value = Value::from_str(alloc, "{\"json\":1}")?;
    let is_number = matches!(read_doc(alloc, &value), Ok(Doc::Json(Value::Number(_))));
    holds("a number is a document in JSON", is_number)?;
    let value = Value::from_str(alloc, "{}")?;
    let is_refused = matches!(read_doc(alloc, &value), Err(RequestError::Shape));
    holds("an empty object is no document", is_refused)?;
    let value = Value::from_str(alloc, "[{\"text\":1}]")?;
    let is_refused = matches!(events_from_json(alloc, &value), Err(RequestError::Shape));
    holds("a text that is a number is no event", is_refused)?;
    let value = Value::from_str(alloc, EMPTY_BILL)?;
    let list = events_from_json(alloc, &value)?;
    let events = Events::from_list(alloc, list)?;
    let written = events_to_json(alloc, &events)?.to_string(alloc)?;
    text_is(written.as_str(), EMPTY_BILL)
}
