//! Elements that hold a text at most, and single events.

ghost use Rattle.std.specs.Prelude.{◌≡◌, List, suc};
ghost use Rattle.std.specs.Str.{trim};
ghost use Rattle.cdx_events.specs.declared.event.XmlEvent.{XmlEvent};
ghost use Rattle.cdx_events.specs.Nodes.{Nodes};
ghost use Rattle.cdx_models.specs.Trees.{number, boolean};
ghost use Rattle.cdx_schema.specs.XmlTexts.{number_of};
ghost use Rattle.cdx_schema.specs.XmlReading.{simple_text, exact_text, after_text, number_alone, number_in};
ghost use Rattle.cdx_leaf.specs.Reading.{WithinElement, IsAt, Reads, ReadsRest, behind_end};
ghost use Rattle.cdx_leaf.specs.Tags.{text_or_none, boolean_in, text_in_event, event_text_or_end, ReadsNext};

use crate::error::{invalid_parse_error, refuse};
use crate::xml_type::{FromXmlType, number_of};
use cdx_events::{EventReader, OwnedName, Text, XmlEvent};
use cdx_models::XmlReadError;
use std::alloc::Global;

/// Takes the element's end, which is the next event; any other is unexpected at its place.
pub fn closing_tag_or_error(
    alloc: Global,
    reader: &mut EventReader<'_>,
    element: &OwnedName,
) -> Result<(), XmlReadError>
    requires { IsAt reader.old element.now }
    ensures { ReadsRest (λ u. u) reader.old reader.new element.now
        (λ q nodes. after_text (record {}) nodes element.now.local_name q) result }
{
    let place = reader.place();
    match reader.next() {
        None => unreachable!(),
        Some(XmlEvent::EndElement { .. }) => Ok(()),
        Some(event) => refuse(alloc, place, element, event),
    }
}

/// Takes the next event, which is a text; any other is unexpected at its place.
pub fn inner_text_or_error(
    alloc: Global,
    reader: &mut EventReader<'_>,
    element: &OwnedName,
) -> Result<Text, XmlReadError>
    requires { IsAt reader.old element.now }
    ensures { ReadsNext (λ t. t) reader.old reader.new
        (λ q event. text_in_event event element.now.local_name q) result }
{
    let place = reader.place();
    match reader.next() {
        None => unreachable!(),
        Some(XmlEvent::Characters(text)) => Ok(text.copy(alloc)?),
        Some(XmlEvent::CData(text)) => Ok(text.copy(alloc)?),
        Some(event) => refuse(alloc, place, element, event),
    }
}

/// Takes the next event, which is a text, or the element's end, which is None; any other is unexpected at its place.
pub fn inner_text_or_none(
    alloc: Global,
    reader: &mut EventReader<'_>,
    element: &OwnedName,
) -> Result<Option<Text>, XmlReadError>
    requires { IsAt reader.old element.now }
    ensures { ReadsNext (λ t. t) reader.old reader.new
        (λ q event. event_text_or_end event element.now.local_name q) result }
{
    let place = reader.place();
    match reader.next() {
        None => unreachable!(),
        Some(XmlEvent::Characters(text)) => Ok(Some(text.copy(alloc)?)),
        Some(XmlEvent::CData(text)) => Ok(Some(text.copy(alloc)?)),
        Some(XmlEvent::EndElement { .. }) => Ok(None),
        Some(event) => refuse(alloc, place, element, event),
    }
}

/// The text of the element: no content is the empty text. A second text and a child are unexpected at their place.
pub fn read_simple_tag(
    alloc: Global,
    reader: &mut EventReader<'_>,
    element: &OwnedName,
) -> Result<Text, XmlReadError>
    requires { IsAt reader.old element.now }
    ensures { ReadsRest (λ t. t) reader.old reader.new element.now
        (λ q nodes. simple_text nodes element.now.local_name q) result }
{
    let place = reader.place();
    match reader.next() {
        None => unreachable!(),
        Some(XmlEvent::EndElement { .. }) => Ok(Text::new(alloc, "")?),
        Some(XmlEvent::Characters(text)) => {
            closing_tag_or_error(alloc, reader, element)?;
            Ok(text.copy(alloc)?)
        }
        Some(XmlEvent::CData(text)) => {
            closing_tag_or_error(alloc, reader, element)?;
            Ok(text.copy(alloc)?)
        }
        Some(event) => refuse(alloc, place, element, event),
    }
}

/// The text of the element as `read_simple_tag` reads it, but None for no content.
pub fn read_optional_tag(
    alloc: Global,
    reader: &mut EventReader<'_>,
    element: &OwnedName,
) -> Result<Option<Text>, XmlReadError>
    requires { IsAt reader.old element.now }
    ensures { ReadsRest (λ t. t) reader.old reader.new element.now
        (λ q nodes. text_or_none nodes element.now.local_name q) result }
{
    let place = reader.place();
    match reader.next() {
        None => unreachable!(),
        Some(XmlEvent::EndElement { .. }) => Ok(None),
        Some(XmlEvent::Characters(text)) => {
            closing_tag_or_error(alloc, reader, element)?;
            Ok(Some(text.copy(alloc)?))
        }
        Some(XmlEvent::CData(text)) => {
            closing_tag_or_error(alloc, reader, element)?;
            Ok(Some(text.copy(alloc)?))
        }
        Some(event) => refuse(alloc, place, element, event),
    }
}

/// The text of the element, which must have one: without content its end is unexpected.
pub fn read_exact_tag(
    alloc: Global,
    reader: &mut EventReader<'_>,
    element: &OwnedName,
) -> Result<Text, XmlReadError>
    requires { IsAt reader.old element.now }
    ensures { ReadsRest (λ t. t) reader.old reader.new element.now
        (λ q nodes. exact_text nodes element.now.local_name q) result }
{
    let place = reader.place();
    match reader.next() {
        None => unreachable!(),
        Some(XmlEvent::Characters(text)) => {
            closing_tag_or_error(alloc, reader, element)?;
            Ok(text.copy(alloc)?)
        }
        Some(XmlEvent::CData(text)) => {
            closing_tag_or_error(alloc, reader, element)?;
            Ok(text.copy(alloc)?)
        }
        Some(event) => refuse(alloc, place, element, event),
    }
}

/// The boolean that the element's text is: `true`, `1`, `false` or `0`, not trimmed. The text is read as by
/// `read_simple_tag`; one that is no boolean is an `InvalidParseError` at the element's end.
pub fn read_boolean_tag(
    alloc: Global,
    reader: &mut EventReader<'_>,
    element: &OwnedName,
) -> Result<bool, XmlReadError>
    requires { IsAt reader.old element.now }
    ensures { ReadsRest boolean reader.old reader.new element.now
        (λ q nodes. boolean_in nodes element.now.local_name q) result }
{
    let text = read_simple_tag(alloc, reader, element)?;
    bool::from_xml_value(
        alloc,
        reader.place() - 1,
        element.local_name.as_str(),
        text.as_str(),
    )
}

// The number that the text is, after which the element ends.
fn number_after(
    alloc: Global,
    reader: &mut EventReader<'_>,
    place: usize,
    element: &OwnedName,
    text: &Text,
) -> Result<u32, XmlReadError>
    requires at { IsAt reader.old element.now }
    requires place { reader.old.place ≡ suc place }
    ensures { (nodes : Nodes) (rest : List XmlEvent)
        → WithinElement reader.old element.now nodes rest
        → Reads number reader.old reader.new (behind_end reader.old nodes rest)
        (number_alone (number_of (trim text.now)) text.now nodes element.now.local_name place)
        result }
{
    match number_of(text.as_str().trim()) {
        None => Err(invalid_parse_error(
            alloc,
            place,
            element.local_name.as_str(),
            text.as_str(),
            "u32",
        )?),
        Some(number) => {
            closing_tag_or_error(alloc, reader, element)?;
            Ok(number)
        }
    }
}

/// The number that the element's text is, once white space around it is gone: an optional `+` and ASCII digits, below
/// 2 to the 32nd. Without content the element's end is unexpected. A text that is no number is an `InvalidParseError`
/// of data type `u32` at its place, whatever follows it.
pub fn read_u32_tag(
    alloc: Global,
    reader: &mut EventReader<'_>,
    element: &OwnedName,
) -> Result<u32, XmlReadError>
    requires { IsAt reader.old element.now }
    ensures { ReadsRest number reader.old reader.new element.now
        (λ q nodes. number_in nodes element.now.local_name q) result }
{
    let place = reader.place();
    match reader.next() {
        None => unreachable!(),
        Some(XmlEvent::Characters(text)) => number_after(alloc, reader, place, element, text),
        Some(XmlEvent::CData(text)) => number_after(alloc, reader, place, element, text),
        Some(event) => refuse(alloc, place, element, event),
    }
}

/// Moves past the element's end, whatever stands in it and however deep. It takes no memory.
pub fn read_lax_validation_tag(reader: &mut EventReader<'_>, element: &OwnedName)
    requires { IsAt reader.old element.now }
    ensures { (nodes : Nodes) (rest : List XmlEvent)
        → WithinElement reader.old element.now nodes rest
        → reader.new ≡ behind_end reader.old nodes rest }
{
    let mut depth: usize = 0;
    while let Some(event) = reader.next() {
        match event {
            XmlEvent::StartElement { .. } => depth += 1,
            XmlEvent::EndElement { .. } => {
                if depth == 0 {
                    return;
                }
                depth -= 1;
            }
            _ => {}
        }
    }
}
