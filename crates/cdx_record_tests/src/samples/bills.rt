//! The whole bill, whose element is a document.

use crate::calls::in_json;
use cdx_bom::Bom;
use cdx_events::EventWriter;
use cdx_leaf::FromXmlDocument;
use cdx_test_cases::checks::{holds, text_is};
use cdx_test_cases::documents::{document, line_of};
use cdx_test_cases::forms::{V3, V4, V5, held, shown};
use cdx_write::ToXml;
use std::alloc::Global;
use std::test::Fail;

const BILL: &str =
    r#"{"bomFormat":"CycloneDX","components":[{"name":"n","type":"file"}],"metadata":{"timestamp":"t"},"serialNumber":"u","specVersion":"1.5","version":1}"#;

const LINE: &str =
    "start|<bom xmlns=1.5 serialNumber=u version=1|<metadata|<timestamp|=t|>timestamp|>metadata|<components|<component type=file|<name|=n|>name|>component|>components|>bom|end";

fn read_back(alloc: Global) -> Result<Bom, Fail> {
    let events = document(alloc, LINE)?;
    Ok(Bom::read_xml_document(alloc, &events, V5)?)
}

// What is written of some bill or of none.
fn written<T: ToXml>(alloc: Global, held: &T) -> Result<String, Fail> {
    let mut writer = EventWriter::new(alloc);
    held.write_xml_element(alloc, &mut writer, V5)?;
    let events = writer.finish()?.into_list();
    Ok(line_of(alloc, events.as_slice())?)
}

#[test]
fn bills(rt: HostRuntime) -> Result<(), Fail> {
    let alloc = rt.alloc();
    in_json::<Bom>(alloc, BILL)?;
    let bill = held::<Bom>(alloc, BILL, V5)?;
    let is_read = read_back(alloc)? == bill;
    let (will_write, line) = (bill.will_write(), written(alloc, &bill)?);
    let is_for_1_4 = bill.fits(V4) && !bill.fits(V3);
    drop(bill);
    holds("the document denotes the bill", is_read)?;
    holds("a bill has something to write", will_write)?;
    text_is(line.as_str(), LINE)?;
    holds("the bill fits 1.4 and not 1.3", is_for_1_4)
}

#[test]
fn bills_that_may_be_absent(rt: HostRuntime) -> Result<(), Fail> {
    let alloc = rt.alloc();
    let some = Some(held::<Bom>(alloc, BILL, V5)?);
    let (will_write, line) = (some.will_write(), written(alloc, &some)?);
    drop(some);
    text_is(line.as_str(), LINE)?;
    holds("a bill that is there has something to write", will_write)?;
    let none: Option<Bom> = None;
    let (will_write, line) = (none.will_write(), shown(alloc, &none, V5)?);
    drop(none);
    text_is(line.as_str(), "")?;
    holds("no bill has nothing to write", !will_write)
}
