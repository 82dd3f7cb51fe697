//! Documents as lines: `start`, `<name` with attributes as `name=value`, `=text`, `!text` for CDATA, `>name` and `end`,
//! parted by `|`. The word `xmlns=1.5` is the default namespace of CycloneDX 1.5.

use cdx_events::{Events, List, Namespace, OwnedAttribute, OwnedName, Text, XmlEvent};
use std::alloc::{AllocError, Global};
use std::test::Fail;

// What the default namespaces of CycloneDX begin with.
const FORMAT: &str = "http://cyclonedx.org/schema/bom/";

fn attribute(alloc: Global, name: &str, value: &str) -> Result<OwnedAttribute, AllocError> {
    let name = OwnedName::local(alloc, name)?;
    let value = Text::new(alloc, value)?;
    Ok(OwnedAttribute { name, value })
}

fn push_attribute(
    alloc: Global,
    attributes: &mut List<OwnedAttribute>,
    word: &str,
) -> Result<(), AllocError> {
    let Some((name, value)) = word.split_once('=') else {
        return Ok(());
    };
    if name == "xmlns" {
        return Ok(());
    }
    attributes.push(attribute(alloc, name, value)?)
}

fn default_of(alloc: Global, words: &str) -> Result<Option<Text>, AllocError> {
    let Some((_, rest)) = words.split_once(" xmlns=") else {
        return Ok(None);
    };
    let version = match rest.split_once(' ') {
        Some((version, _)) => version,
        None => rest,
    };
    let default = format!(in alloc; "{FORMAT}{version}")?;
    Ok(Some(Text::from_string(default)))
}

// The element of the first word.
fn start(alloc: Global, words: &str) -> Result<XmlEvent, AllocError> {
    let mut attributes = List::new(alloc);
    for word in words.split(' ') {
        push_attribute(alloc, &mut attributes, word)?;
    }
    let name = match words.split_once(' ') {
        Some((name, _)) => name,
        None => words,
    };
    Ok(XmlEvent::StartElement {
        name: OwnedName::local(alloc, name)?,
        attributes,
        namespace: Namespace {
            default: default_of(alloc, words)?,
        },
    })
}

fn event(alloc: Global, piece: &str) -> Result<XmlEvent, AllocError> {
    if let Some(words) = piece.strip_prefix('<') {
        return start(alloc, words);
    }
    if let Some(name) = piece.strip_prefix('>') {
        let name = OwnedName::local(alloc, name)?;
        return Ok(XmlEvent::EndElement { name });
    }
    match piece {
        "start" => Ok(XmlEvent::StartDocument),
        "end" => Ok(XmlEvent::EndDocument),
        _ => text_event(alloc, piece),
    }
}

fn text_event(alloc: Global, piece: &str) -> Result<XmlEvent, AllocError> {
    if let Some(text) = piece.strip_prefix('!') {
        return Ok(XmlEvent::CData(Text::new(alloc, text)?));
    }
    let text = piece.strip_prefix('=').unwrap_or(piece);
    Ok(XmlEvent::Characters(Text::new(alloc, text)?))
}

/// The events of the line.
pub fn list_of(alloc: Global, line: &str) -> Result<List<XmlEvent>, AllocError> {
    let mut list = List::new(alloc);
    for piece in line.split('|') {
        list.push(event(alloc, piece)?)?;
    }
    Ok(list)
}

/// The document of the line.
pub fn document(alloc: Global, line: &str) -> Result<Events, Fail> {
    Ok(Events::from_list(alloc, list_of(alloc, line)?)?)
}

// A name with a prefix or a namespace, which none is written with, is marked.
fn put_name(line: &mut String, mark: char, name: &OwnedName) -> Result<(), AllocError> {
    line.push(mark)?;
    if name.prefix.is_some() || name.namespace.is_some() {
        line.push('?')?;
    }
    line.push_str(name.local_name.as_str())
}

fn put_default(line: &mut String, namespace: &Namespace) -> Result<(), AllocError> {
    let Some(default) = &namespace.default else {
        return Ok(());
    };
    let default = default.as_str();
    line.push_str(" xmlns=")?;
    line.push_str(default.strip_prefix(FORMAT).unwrap_or(default))
}

fn put_attributes(line: &mut String, attributes: &List<OwnedAttribute>) -> Result<(), AllocError> {
    for attribute in attributes.as_slice() {
        put_name(line, ' ', &attribute.name)?;
        line.push('=')?;
        line.push_str(attribute.value.as_str())?;
    }
    Ok(())
}

fn put_text(line: &mut String, mark: char, text: &Text) -> Result<(), AllocError> {
    line.push(mark)?;
    line.push_str(text.as_str())
}

fn put_event(line: &mut String, event: &XmlEvent) -> Result<(), AllocError> {
    match event {
        XmlEvent::StartDocument => line.push_str("start"),
        XmlEvent::StartElement {
            name,
            attributes,
            namespace,
        } => {
            put_name(line, '<', name)?;
            put_default(line, namespace)?;
            put_attributes(line, attributes)
        }
        XmlEvent::EndElement { name } => put_name(line, '>', name),
        XmlEvent::Characters(text) => put_text(line, '=', text),
        XmlEvent::CData(text) => put_text(line, '!', text),
        XmlEvent::EndDocument => line.push_str("end"),
    }
}

/// The line of the events.
pub fn line_of(alloc: Global, events: &[XmlEvent]) -> Result<String, AllocError> {
    let mut line = String::new(alloc);
    for event in events {
        if !line.is_empty() {
            line.push('|')?;
        }
        put_event(&mut line, event)?;
    }
    Ok(line)
}
