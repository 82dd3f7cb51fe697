//! Documents in short, read and written by the call of each version.
//!
//! `json 1.5 X` is the JSON text of the bill of version 1 labelled 1.5 whose other members are X, with a comma after each;
//! `xml 1.5 X` is the line of the bill of version 1 in 1.5 whose root holds X, with a `|` after each event.

use crate::faults::{of_json_writing, of_xml_writing};
use cdx_bom::{Bom, Form, Hop};
use cdx_events::{Events, List};
use cdx_models::{JsonReadError, JsonWriteError, SpecVersion, XmlReadError, XmlWriteError};
use cdx_test_cases::documents::{document, line_of};
use cdx_test_cases::faults::{json_fault_line, xml_fault_line};
use cdx_test_cases::forms::V5;
use cdx_test_cases::rows::parted;
use serde_json::Value;
use std::alloc::{AllocError, Global};
use std::test::Fail;

/// The document of the short one. Any other text is itself.
pub fn whole(alloc: Global, short: &str) -> Result<String, AllocError> {
    if let Some(words) = short.strip_prefix("json ") {
        let (label, rest) = parted(words);
        let end = format!(in alloc; "\"specVersion\":\"{label}\",\"version\":1}}")?;
        return format!(in alloc; "{{\"bomFormat\":\"CycloneDX\",{rest}{}", end.as_str());
    }
    if let Some(words) = short.strip_prefix("xml ") {
        let (version, rest) = parted(words);
        return format!(in alloc; "start|<bom xmlns={version} version=1|{rest}>bom|end");
    }
    String::from_str(alloc, short)
}

/// The hop that writes the short document's form and version.
pub fn hop_of(short: &str) -> Option<Hop> {
    let (form, words) = parted(short);
    let form = match form {
        "json" => Form::Json,
        "xml" => Form::Xml,
        _ => return None,
    };
    let version = SpecVersion::from_text(parted(words).0)?;
    Some(Hop { form, version })
}

/// The bill of a JSON value, by the version's own call.
pub fn parse_json(
    alloc: Global,
    value: &Value,
    version: SpecVersion,
) -> Result<Bom, JsonReadError> {
    match version {
        SpecVersion::V1_3 => Bom::parse_from_json_v1_3(alloc, value),
        SpecVersion::V1_4 => Bom::parse_from_json_v1_4(alloc, value),
        SpecVersion::V1_5 => Bom::parse_from_json_v1_5(alloc, value),
    }
}

/// The bill of a document of events, by the version's own call.
pub fn parse_xml(
    alloc: Global,
    events: &Events,
    version: SpecVersion,
) -> Result<Bom, XmlReadError> {
    match version {
        SpecVersion::V1_3 => Bom::parse_from_xml_v1_3(alloc, events),
        SpecVersion::V1_4 => Bom::parse_from_xml_v1_4(alloc, events),
        SpecVersion::V1_5 => Bom::parse_from_xml_v1_5(alloc, events),
    }
}

fn output_json(alloc: Global, bill: &Bom, version: SpecVersion) -> Result<Value, JsonWriteError> {
    match version {
        SpecVersion::V1_3 => bill.output_as_json_v1_3(alloc),
        SpecVersion::V1_4 => bill.output_as_json_v1_4(alloc),
        SpecVersion::V1_5 => bill.output_as_json_v1_5(alloc),
    }
}

fn output_xml(alloc: Global, bill: &Bom, version: SpecVersion) -> Result<Events, XmlWriteError> {
    match version {
        SpecVersion::V1_3 => bill.output_as_xml_v1_3(alloc),
        SpecVersion::V1_4 => bill.output_as_xml_v1_4(alloc),
        SpecVersion::V1_5 => bill.output_as_xml_v1_5(alloc),
    }
}

/// The bill that the short document in JSON denotes in 1.5.
pub fn bill(alloc: Global, short: &str) -> Result<Bom, Fail> {
    let text = whole(alloc, short)?;
    let value = Value::from_str(alloc, text.as_str())?;
    Ok(parse_json(alloc, &value, V5)?)
}

/// The document that a hop makes of the bill, or the refusal.
pub fn written(alloc: Global, bill: &Bom, hop: Hop) -> Result<String, AllocError> {
    match hop.form {
        Form::Json => match output_json(alloc, bill, hop.version) {
            Ok(value) => value.to_string(alloc),
            Err(error) => of_json_writing(alloc, &error),
        },
        Form::Xml => match output_xml(alloc, bill, hop.version) {
            Ok(events) => line_of(alloc, events.into_list().as_slice()),
            Err(error) => of_xml_writing(alloc, &error),
        },
    }
}

/// The bill as JSON of 1.5.
pub fn shown(alloc: Global, bill: &Bom) -> Result<String, AllocError> {
    let (form, version) = (Form::Json, V5);
    written(alloc, bill, Hop { form, version })
}

fn read_xml(alloc: Global, line: &str, version: SpecVersion) -> Result<String, Fail> {
    let events = document(alloc, line)?;
    match parse_xml(alloc, &events, version) {
        Ok(bill) => Ok(shown(alloc, &bill)?),
        Err(error) => Ok(xml_fault_line(alloc, &error)?),
    }
}

fn read_json(alloc: Global, text: &str, version: SpecVersion) -> Result<String, Fail> {
    let value = Value::from_str(alloc, text)?;
    match parse_json(alloc, &value, version) {
        Ok(bill) => Ok(shown(alloc, &bill)?),
        Err(error) => Ok(json_fault_line(alloc, &error)?),
    }
}

/// What a version reads of the document, as JSON of 1.5, or the fault.
pub fn read(alloc: Global, text: &str, version: SpecVersion) -> Result<String, Fail> {
    if text.starts_with("start|") {
        return read_xml(alloc, text, version);
    }
    read_json(alloc, text, version)
}

/// What 1.5 reads of the short document.
pub fn read_short(alloc: Global, short: &str) -> Result<String, Fail> {
    read(alloc, whole(alloc, short)?.as_str(), V5)
}

/// The label and the version of the bill.
pub fn label(alloc: Global, bill: &Bom) -> Result<String, AllocError> {
    format!(in alloc; "{} {}", bill.spec_version.as_str(), bill.version)
}

/// The list of one number.
pub fn only(alloc: Global, number: u64) -> Result<List<u64>, AllocError> {
    let mut numbers = List::new(alloc);
    numbers.push(number)?;
    Ok(numbers)
}
