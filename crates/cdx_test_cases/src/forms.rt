//! What a text or a document denotes, kept and written, or its fault.

use crate::documents::{document, line_of};
use crate::faults::{json_fault_line, xml_fault_line};
use cdx_events::{EventWriter, Events, XmlEvent};
use cdx_json::{FromJson, Kept, ToJson};
use cdx_leaf::{FromXml, read_root};
use cdx_models::SpecVersion;
use cdx_schema::Target;
use cdx_write::{Element, ToInnerXml, ToXml, write_close_tag, write_start_tag};
use serde_json::Value;
use std::alloc::{AllocError, Global};
use std::test::Fail;

/// Version 1.3.
pub const V3: SpecVersion = SpecVersion::V1_3;

/// Version 1.4.
pub const V4: SpecVersion = SpecVersion::V1_4;

/// Version 1.5.
pub const V5: SpecVersion = SpecVersion::V1_5;

fn repeated(alloc: Global, piece: &str, times: usize) -> Result<String, AllocError> {
    let mut text = String::new(alloc);
    for _ in 0..times {
        text.push_str(piece)?;
    }
    Ok(text)
}

/// So many levels, each inside the one before, between two texts. `ends` stands before and after what is inside.
pub fn chain(
    alloc: Global,
    first: &str,
    ends: (&str, &str),
    levels: usize,
    last: &str,
) -> Result<String, AllocError> {
    let opened = repeated(alloc, ends.0, levels)?;
    let closed = repeated(alloc, ends.1, levels)?;
    format!(in alloc; "{first}{}{}{last}", opened.as_str(), closed.as_str())
}

/// What the text denotes in a version.
pub fn held<T: FromJson + Drop>(
    alloc: Global,
    text: &str,
    version: SpecVersion,
) -> Result<T, Fail> {
    let value = Value::from_str(alloc, text)?;
    Ok(T::from_json(alloc, &value, version)?)
}

fn as_text<T: ToJson>(alloc: Global, held: &T, version: SpecVersion) -> Result<String, Fail> {
    Ok(held.to_json(alloc, version)?.to_string(alloc)?)
}

/// What the text denotes in a version, written in it, or the fault.
pub fn again<T: FromJson + ToJson + Drop>(
    alloc: Global,
    text: &str,
    version: SpecVersion,
) -> Result<String, Fail> {
    let value = Value::from_str(alloc, text)?;
    match T::from_json(alloc, &value, version) {
        Ok(held) => as_text(alloc, &held, version),
        Err(error) => Ok(json_fault_line(alloc, &error)?),
    }
}

/// What a version keeps of what the text denotes in 1.5, written in 1.5.
pub fn kept<T: FromJson + ToJson + Drop>(
    alloc: Global,
    text: &str,
    version: SpecVersion,
) -> Result<String, Fail> {
    let held = held::<T>(alloc, text, V5)?;
    as_text(alloc, &held.kept(alloc, version)?, V5)
}

// The document of one element, without its start and its end.
fn around(alloc: Global, line: &str) -> Result<Events, Fail> {
    let whole = format!(in alloc; "start|{line}|end")?;
    document(alloc, whole.as_str())
}

/// What the document denotes in a version.
pub fn denoted<T: FromXml>(alloc: Global, line: &str, version: SpecVersion) -> Result<T, Fail> {
    let events = around(alloc, line)?;
    match read_root::<T>(alloc, &events, version) {
        Ok(held) => Ok(held),
        Err(error) => Err(Fail::from(error)),
    }
}

/// What the document denotes in a version, as JSON of 1.5, or its fault.
pub fn read<T: FromXml + ToJson>(
    alloc: Global,
    line: &str,
    version: SpecVersion,
) -> Result<String, Fail> {
    match read_root::<T>(alloc, &around(alloc, line)?, version) {
        Ok(held) => as_text(alloc, &held, V5),
        Err(error) => Ok(xml_fault_line(alloc, &error)?),
    }
}

/// A writer that stands inside the element `r`.
pub fn opened(alloc: Global) -> Result<EventWriter, Fail> {
    let mut writer = EventWriter::new(alloc);
    writer.write(XmlEvent::StartDocument)?;
    write_start_tag(alloc, &mut writer, "r")?;
    Ok(writer)
}

/// The line of what was written inside `r`.
pub fn closed(alloc: Global, mut writer: EventWriter) -> Result<String, Fail> {
    write_close_tag(alloc, &mut writer, "r")?;
    writer.write(XmlEvent::EndDocument)?;
    let events = writer.finish()?.into_list();
    let line = line_of(alloc, events.as_slice())?;
    Ok(String::from_str(alloc, inside(line.as_str()))?)
}

fn inside(line: &str) -> &str {
    let line = line.strip_prefix("start|<r").unwrap_or(line);
    let line = line.strip_suffix("|>r|end").unwrap_or(line);
    line.strip_prefix('|').unwrap_or(line)
}

/// The line that a version writes of the value by itself.
pub fn shown<T: ToXml>(alloc: Global, held: &T, version: SpecVersion) -> Result<String, Fail> {
    let mut writer = opened(alloc)?;
    held.write_xml_element(alloc, &mut writer, version)?;
    closed(alloc, writer)
}

/// The line that a version writes of the value under a name.
pub fn named<T: ToInnerXml>(
    alloc: Global,
    held: &T,
    version: SpecVersion,
    tag: &str,
) -> Result<String, Fail> {
    let mut writer = opened(alloc)?;
    held.write_xml_named_element(alloc, &mut writer, version, tag)?;
    closed(alloc, writer)
}

/// The line that a version writes of the value where it is a field or an item of this name.
pub fn placed<T: Element>(
    alloc: Global,
    held: &T,
    version: SpecVersion,
    tag: &str,
) -> Result<String, Fail> {
    let mut writer = opened(alloc)?;
    held.write_as(&mut writer, tag, Target { alloc, version })?;
    closed(alloc, writer)
}

/// What the text denotes in 1.5, written in a version as the element of this name.
pub fn spelled<T: FromJson + Element + Drop>(
    alloc: Global,
    text: &str,
    version: SpecVersion,
    tag: &str,
) -> Result<String, Fail> {
    let held = held::<T>(alloc, text, V5)?;
    placed(alloc, &held, version, tag)
}
