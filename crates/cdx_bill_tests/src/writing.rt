//! Bills written in each version, and put into sinks that may fail.

use crate::faults::{of_json_writing, of_xml_writing};
use crate::last::in_pieces;
use crate::short::{bill, hop_of, only, shown, whole, written};
use cdx_bom::{Bom, Form, Hop, PutError, put_text};
use cdx_events::{EventWriter, MemoryEventSink, MemorySink, Text};
use cdx_models::SpecVersion;
use cdx_test_cases::checks::{holds, row_holds, row_is, text_is};
use cdx_test_cases::documents::line_of;
use cdx_test_cases::forms::{V3, V4, V5};
use cdx_test_cases::rows::row;
use cdx_write::ToXml;
use std::alloc::{AllocError, Global};
use std::test::Fail;

const EVERY: &str =
    r#"json 1.5 "components":[{"name":"a","type":"t","version":"1"}],"compositions":[{"aggregate":"complete"}],"dependencies":[{"ref":"a"}],"externalReferences":[{"type":"t","url":"u"}],"metadata":{"timestamp":"t"},"properties":[{"name":"n","value":"v"}],"services":[{"name":"s"}],"signature":{"algorithm":"ES256","value":"v"},"#;

// The signature is known from 1.4 on, and properties are known from 1.5 on.
const EVERY_WRITTEN: &str = r#"
    json 1.3 "components":[{"name":"a","type":"t","version":"1"}],"compositions":[{"aggregate":"complete"}],"dependencies":[{"ref":"a"}],"externalReferences":[{"type":"t","url":"u"}],"metadata":{"timestamp":"t"},"services":[{"name":"s"}],
    json 1.4 "components":[{"name":"a","type":"t","version":"1"}],"compositions":[{"aggregate":"complete"}],"dependencies":[{"ref":"a"}],"externalReferences":[{"type":"t","url":"u"}],"metadata":{"timestamp":"t"},"services":[{"name":"s"}],"signature":{"algorithm":"ES256","value":"v"},
    json 1.5 "components":[{"name":"a","type":"t","version":"1"}],"compositions":[{"aggregate":"complete"}],"dependencies":[{"ref":"a"}],"externalReferences":[{"type":"t","url":"u"}],"metadata":{"timestamp":"t"},"properties":[{"name":"n","value":"v"}],"services":[{"name":"s"}],"signature":{"algorithm":"ES256","value":"v"},
    xml 1.3 <metadata|<timestamp|=t|>timestamp|>metadata|<components|<component type=t|<name|=a|>name|<version|=1|>version|>component|>components|<services|<service|<name|=s|>name|>service|>services|<externalReferences|<reference type=t|<url|=u|>url|>reference|>externalReferences|<dependencies|<dependency ref=a|>dependency|>dependencies|<compositions|<composition|<aggregate|=complete|>aggregate|>composition|>compositions|
    xml 1.4 <metadata|<timestamp|=t|>timestamp|>metadata|<components|<component type=t|<name|=a|>name|<version|=1|>version|>component|>components|<services|<service|<name|=s|>name|>service|>services|<externalReferences|<reference type=t|<url|=u|>url|>reference|>externalReferences|<dependencies|<dependency ref=a|>dependency|>dependencies|<compositions|<composition|<aggregate|=complete|>aggregate|>composition|>compositions|<signature|<algorithm|=ES256|>algorithm|<value|=v|>value|>signature|
    xml 1.5 <metadata|<timestamp|=t|>timestamp|>metadata|<components|<component type=t|<name|=a|>name|<version|=1|>version|>component|>components|<services|<service|<name|=s|>name|>service|>services|<externalReferences|<reference type=t|<url|=u|>url|>reference|>externalReferences|<dependencies|<dependency ref=a|>dependency|>dependencies|<compositions|<composition|<aggregate|=complete|>aggregate|>composition|>compositions|<properties|<property name=n|=v|>property|>properties|<signature|<algorithm|=ES256|>algorithm|<value|=v|>value|>signature|
"#;

fn is_written(alloc: Global, bill: &Bom) -> Result<(), Fail> {
    for line in EVERY_WRITTEN.lines() {
        if let Some((short, _)) = row(line) {
            let hop = hop_of(short).ok_or("a row begins with no hop")?;
            let found = written(alloc, bill, hop)?;
            let expected = whole(alloc, short)?;
            row_is(line, found.as_str(), expected.as_str())?;
            row_is(
                line,
                in_pieces(alloc, bill, hop)?.as_str(),
                expected.as_str(),
            )?;
        }
    }
    Ok(())
}

#[test]
fn every_field(rt: HostRuntime) -> Result<(), Fail> {
    let bill = bill(rt.alloc(), EVERY)?;
    is_written(rt.alloc(), &bill)
}

// The events that a bill appends to a writer.
fn appended(alloc: Global, bill: &Bom, version: SpecVersion) -> Result<String, Fail> {
    let mut writer = EventWriter::new(alloc);
    bill.write_xml_element(alloc, &mut writer, version)?;
    Ok(line_of(alloc, writer.finish()?.into_list().as_slice())?)
}

// The serial number stands before the version.
#[test]
fn into_writers(rt: HostRuntime) -> Result<(), Fail> {
    let alloc = rt.alloc();
    let bill = bill(alloc, r#"json 1.5 "serialNumber":"U","signature":[],"#)?;
    let (will_write, found) = (bill.will_write(), appended(alloc, &bill, V4)?);
    drop(bill);
    holds("a bill has something to write", will_write)?;
    let line =
        "start|<bom xmlns=1.4 serialNumber=U version=1|<signature|<signers|>signers|>signature|>bom|end";
    text_is(found.as_str(), line)
}

// How putting the bill as JSON ends.
fn put_json(
    alloc: Global,
    bill: &Bom,
    version: SpecVersion,
    sink: &mut MemorySink,
) -> Result<String, AllocError> {
    match bill.write_json(alloc, version, sink) {
        Ok(()) => String::from_str(alloc, "whole"),
        Err(error) => of_json_writing(alloc, &error),
    }
}

// How putting the bill's events ends.
fn put_xml(
    alloc: Global,
    bill: &Bom,
    version: SpecVersion,
    sink: &mut MemoryEventSink,
) -> Result<String, AllocError> {
    match bill.write_xml_events(alloc, version, sink) {
        Ok(()) => String::from_str(alloc, "whole"),
        Err(error) => of_xml_writing(alloc, &error),
    }
}

// Nothing is put before a bill is refused.
fn is_refused(alloc: Global, bill: &Bom) -> Result<(), Fail> {
    let fault = "version missing in 1.3";
    for form in [Form::Json, Form::Xml] {
        let found = written(alloc, bill, Hop { form, version: V3 })?;
        text_is(found.as_str(), fault)?;
    }
    let mut sink = MemorySink::new(alloc, 512, 10, only(alloc, 0)?)?;
    text_is(put_json(alloc, bill, V3, &mut sink)?.as_str(), fault)?;
    holds("nothing is put as JSON", sink.calls() == 0)?;
    let mut sink = MemoryEventSink::new(alloc, 512, only(alloc, 0)?)?;
    text_is(put_xml(alloc, bill, V3, &mut sink)?.as_str(), fault)?;
    holds("nothing is put as XML", sink.calls() == 0)
}

#[test]
fn refused(rt: HostRuntime) -> Result<(), Fail> {
    let bill = bill(
        rt.alloc(),
        r#"json 1.5 "components":[{"name":"a","type":"t"}],"#,
    )?;
    is_refused(rt.alloc(), &bill)
}

const NUMBER: &str = r#"json 1.5 "serialNumber":"urn:uuid:3e671687-395b-41f5-a30f-a58921a69b79","#;

// The call that fails, and how many bytes are put and flushed. Calls are counted from 1, so none fails where that is 0.
// 120 bytes go out by 12 calls of 10 and a flush.
const BYTES: &str = r#"
    0 -> whole: 120 put, 120 flushed
    1 -> written 0: 0 put, 0 flushed
    2 -> written 10: 10 put, 0 flushed
    12 -> written 110: 110 put, 0 flushed
    13 -> written 120: 120 put, 0 flushed
"#;

fn puts_json(alloc: Global, bill: &Bom) -> Result<(), Fail> {
    let text = shown(alloc, bill)?;
    for line in BYTES.lines() {
        if let Some((fails, answer)) = row(line) {
            let fails = only(alloc, fails.parse::<u64>()?)?;
            let mut sink = MemorySink::new(alloc, 512, 10, fails)?;
            let end = put_json(alloc, bill, V5, &mut sink)?;
            let (put, flushed) = (sink.written().len(), sink.flushed());
            let found = format!(in alloc; "{}: {put} put, {flushed} flushed", end.as_str())?;
            row_is(line, found.as_str(), answer)?;
            row_holds(
                line,
                "what is put begins the text",
                text.as_bytes().starts_with(sink.written()),
            )?;
        }
    }
    Ok(())
}

#[test]
fn json_into_sinks(rt: HostRuntime) -> Result<(), Fail> {
    let bill = bill(rt.alloc(), NUMBER)?;
    puts_json(rt.alloc(), &bill)
}

// The same of the events that are put.
const EVENTS: &str = r#"
    0 -> whole: start|<bom xmlns=1.4 version=1|>bom|end
    1 -> put 0:
    2 -> put 1: start
    4 -> put 3: start|<bom xmlns=1.4 version=1|>bom
"#;

fn puts_events(alloc: Global, bill: &Bom) -> Result<(), Fail> {
    for line in EVENTS.lines() {
        if let Some((fails, answer)) = row(line) {
            let fails = only(alloc, fails.parse::<u64>()?)?;
            let mut sink = MemoryEventSink::new(alloc, 512, fails)?;
            let end = put_xml(alloc, bill, V4, &mut sink)?;
            let put = line_of(alloc, sink.events())?;
            let found = format!(in alloc; "{}: {}", end.as_str(), put.as_str())?;
            row_is(line, found.as_str().trim_ascii(), answer)?;
        }
    }
    Ok(())
}

#[test]
fn events_into_sinks(rt: HostRuntime) -> Result<(), Fail> {
    let bill = bill(rt.alloc(), "json 1.5")?;
    puts_events(rt.alloc(), &bill)
}

#[test]
fn texts_into_sinks(rt: HostRuntime) -> Result<(), Fail> {
    let alloc = rt.alloc();
    let text = Text::new(alloc, "{\"documents\":[]}\n")?;
    let mut sink = MemorySink::new(alloc, 512, 10, only(alloc, 0)?)?;
    holds("a text is put", put_text(&text, &mut sink).is_ok())?;
    holds(
        "what is written is the text",
        sink.written() == text.as_str().as_bytes(),
    )?;
    holds("the text is flushed", sink.flushed() == 17)?;
    let mut sink = MemorySink::new(alloc, 512, 10, only(alloc, 2)?)?;
    holds(
        "the fault of the second call tells ten bytes",
        matches!(put_text(&text, &mut sink), Err(PutError { written: 10 })),
    )?;
    holds(
        "ten bytes are written",
        sink.written() == "{\"document".as_bytes(),
    )
}
