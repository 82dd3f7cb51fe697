//! Each call of a type's traits by itself, on a sample: where memory suffices, each gives what is wanted, and none is made
//! only by way of another type.
//!
//! A row is a JSON text of 1.5, after an arrow the line that is written of what it denotes, and after another the element
//! that is read as it and written under its name, where that isn't the line.

use cdx_events::{Events, XmlEvent};
use cdx_json::{FromJson, Kept, ToJson};
use cdx_leaf::{FromXml, Root, root_of};
use cdx_test_cases::checks::{row_holds, row_is};
use cdx_test_cases::documents::document;
use cdx_test_cases::forms::{V5, again, held, named as as_named, shown, spelled};
use cdx_write::{Element, Lone, ToInnerXml, ToXml};
use std::alloc::Global;
use std::test::Fail;

// The JSON text of a row, its line and its element.
fn parts(row: &str) -> (&str, &str, &str) {
    let (text, rest) = row.split_once(" -> ").unwrap_or((row, ""));
    let (line, element) = rest.split_once(" -> ").unwrap_or((rest, rest));
    (text, line, element)
}

// The name of the element.
fn tag_of(element: &str) -> &str {
    let (start, _) = element.split_once('|').unwrap_or((element, ""));
    let (name, _) = start.split_once(' ').unwrap_or((start, ""));
    name.strip_prefix('<').unwrap_or(name)
}

fn is_kept<T: FromJson + Kept + PartialEq + Drop>(alloc: Global, text: &str) -> Result<bool, Fail> {
    let held = held::<T>(alloc, text, V5)?;
    Ok(held.kept(alloc, V5)? == held)
}

fn is_copied<T: FromJson + PartialEq + Drop>(alloc: Global, text: &str) -> Result<bool, Fail> {
    let held = held::<T>(alloc, text, V5)?;
    let copy = held.copy(alloc)?;
    Ok(copy == held && copy.equals(&held))
}

/// `from_json`, `to_json`, `kept`, `copy` and `==`.
pub fn in_json<T: FromJson + ToJson + PartialEq + Drop>(
    alloc: Global,
    row: &str,
) -> Result<(), Fail> {
    let (text, _, _) = parts(row);
    row_is(row, again::<T>(alloc, text, V5)?.as_str(), text)?;
    row_holds(row, "1.5 keeps the value", is_kept::<T>(alloc, text)?)?;
    row_holds(
        row,
        "the value is equal to its copy",
        is_copied::<T>(alloc, text)?,
    )
}

// Whether the root is read as the value, up to its end.
fn is_read<T: FromXml + PartialEq>(
    alloc: Global,
    events: &Events,
    wanted: &T,
) -> Result<bool, Fail> {
    let Root {
        mut reader,
        name,
        attributes,
        ..
    } = root_of(events);
    match T::read_xml_element(alloc, &mut reader, V5, name, attributes) {
        Ok(read) => Ok(read == *wanted && reader.next() == Some(&XmlEvent::EndDocument)),
        Err(error) => Err(Fail::from(error)),
    }
}

/// The same, and `read_xml_element`.
pub fn in_both<T: FromJson + ToJson + FromXml + PartialEq>(
    alloc: Global,
    row: &str,
) -> Result<(), Fail> {
    in_json::<T>(alloc, row)?;
    let (text, _, element) = parts(row);
    let wanted = held::<T>(alloc, text, V5)?;
    let whole = format!(in alloc; "start|{element}|end")?;
    let events = document(alloc, whole.as_str())?;
    row_holds(
        row,
        "the element is read as the value",
        is_read(alloc, &events, &wanted)?,
    )
}

// The value writes the line under the name, and has something to write exactly where the line isn't empty.
fn writes_named<T: ToInnerXml>(alloc: Global, row: &str, held: &T, line: &str) -> Result<(), Fail> {
    let written = as_named(alloc, held, V5, tag_of(line))?;
    row_is(row, written.as_str(), line)?;
    row_holds(
        row,
        "it has something to write where the line isn't empty",
        held.will_write() != line.is_empty(),
    )
}

/// The same, and `write_xml_named_element` and `will_write`, also of `Some` and of `None`, and `write_as`.
pub fn named<T: FromJson + ToJson + FromXml + ToInnerXml + Element + PartialEq>(
    alloc: Global,
    row: &str,
) -> Result<(), Fail> {
    in_both::<T>(alloc, row)?;
    let (text, _, element) = parts(row);
    let placed = spelled::<T>(alloc, text, V5, tag_of(element))?;
    row_is(row, placed.as_str(), element)?;
    let held = held::<T>(alloc, text, V5)?;
    writes_named(alloc, row, &held, element)?;
    writes_named(alloc, row, &Some(held), element)?;
    let none: Option<T> = None;
    writes_named(alloc, row, &none, "")
}

// The value writes the line by itself, and has something to write exactly where the line isn't empty.
fn writes<T: ToXml>(alloc: Global, row: &str, held: &T, line: &str) -> Result<(), Fail> {
    row_is(row, shown(alloc, held, V5)?.as_str(), line)?;
    row_holds(
        row,
        "it has something to write where the line isn't empty",
        held.will_write() != line.is_empty(),
    )
}

// `write_xml_element` and `will_write`, also of `Some` and of `None`.
fn by_itself<T: FromJson + ToXml + Drop>(alloc: Global, row: &str) -> Result<(), Fail> {
    let (text, line, _) = parts(row);
    let held = held::<T>(alloc, text, V5)?;
    writes(alloc, row, &held, line)?;
    writes(alloc, row, &Some(held), line)?;
    let none: Option<T> = None;
    writes(alloc, row, &none, "")
}

/// The same, and `write_xml_element` and its `will_write`, also of `Some` and of `None`.
pub fn record<T: FromJson + ToJson + FromXml + ToXml + ToInnerXml + Element + PartialEq>(
    alloc: Global,
    row: &str,
) -> Result<(), Fail> {
    named::<T>(alloc, row)?;
    by_itself::<T>(alloc, row)
}

/// `xml_text`.
pub fn lone<T: FromJson + Lone + Drop>(alloc: Global, row: &str) -> Result<(), Fail> {
    let (text, wanted, _) = parts(row);
    let held = held::<T>(alloc, text, V5)?;
    row_is(row, held.xml_text(alloc)?.as_str(), wanted)
}
