//! The canonical text of a bill, as a value and in sinks.

use cdx_bom::Bom;
use cdx_canon::{canon, put_canon};
use cdx_events::{List, MemorySink};
use cdx_models::{JsonWriteError, SpecVersion};
use cdx_test_cases::checks::{holds, text_is};
use std::test::Fail;

const TEXT: &str = "{\"bomFormat\":\"CycloneDX\",\"specVersion\":\"1.5\",\"version\":1}";

// The label of the bill is not in its text.
#[test]
fn text_of_a_bill(rt: HostRuntime) -> Result<(), Fail> {
    let alloc = rt.alloc();
    let bill = Bom::new(SpecVersion::V1_3);
    text_is(canon(alloc, &bill)?.as_str(), TEXT)
}

// The text of a bill in a sink that takes all, and in one that fails its second call.
#[test]
fn texts_in_sinks(rt: HostRuntime) -> Result<(), Fail> {
    let alloc = rt.alloc();
    let bill = Bom::new(SpecVersion::V1_3);
    let text = TEXT.as_bytes();
    let mut sink = MemorySink::new(alloc, 4096, 64, List::new(alloc))?;
    holds(
        "the text is put",
        put_canon(alloc, &bill, &mut sink).is_ok(),
    )?;
    holds("what is written is the text", sink.written() == text)?;
    holds("the text is flushed", sink.flushed() == text.len())?;
    let fails = List::from_vec([2u64].to_vec(alloc)?);
    let mut sink = MemorySink::new(alloc, 4096, 10, fails)?;
    let refused = put_canon(alloc, &bill, &mut sink);
    holds(
        "the fault of the second call tells ten bytes",
        matches!(
            refused,
            Err(JsonWriteError::JsonElementWriteError { written: 10 })
        ),
    )?;
    holds("ten bytes are written", sink.written() == &text[..10])
}
