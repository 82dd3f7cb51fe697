//! Tags, texts and lists of texts under tags.

ghost use Rattle.std.specs.Prelude.{[], ◌∷◌, option_copied};
ghost use Rattle.cdx_write.specs.Spelling.{spelling};
ghost use Rattle.cdx_write.specs.Writing.{Appends, opening, start_tag, end_tag, simple_tag, simple_option_tag, list_tag};

use crate::to_xml::ToXml;
use cdx_events::{EventWriter, List, Namespace, OwnedAttribute, OwnedName, Text, XmlEvent};
use cdx_models::{SpecVersion, XmlWriteError};
use std::alloc::Global;

/// What writing answers: only want of memory refuses.
pub type WriteResult = Result<(), XmlWriteError>;

/// Appends the start of an element with these attributes.
pub fn write_opening(
    alloc: Global,
    writer: &mut EventWriter,
    tag: &str,
    attributes: List<OwnedAttribute>,
) -> Result<(), XmlWriteError>
    ensures { Appends writer.old writer.new (opening tag.now attributes ∷ []) result }
{
    let name = OwnedName::local(alloc, tag)?;
    writer.write(XmlEvent::StartElement {
        name,
        attributes,
        namespace: Namespace { default: None },
    })?;
    Ok(())
}

/// Appends the start of an element without attributes. Only want of memory refuses; the writer is then as before.
pub fn write_start_tag(
    alloc: Global,
    writer: &mut EventWriter,
    tag: &str,
) -> Result<(), XmlWriteError>
    ensures { Appends writer.old writer.new (start_tag tag.now ∷ []) result }
{
    write_opening(alloc, writer, tag, List::new(alloc))
}

/// Appends the end of an element. Only want of memory refuses; the writer is then as before.
pub fn write_close_tag(
    alloc: Global,
    writer: &mut EventWriter,
    tag: &str,
) -> Result<(), XmlWriteError>
    ensures { Appends writer.old writer.new (end_tag tag.now ∷ []) result }
{
    let name = OwnedName::local(alloc, tag)?;
    writer.write(XmlEvent::EndElement { name })?;
    Ok(())
}

/// Appends a text, also an empty one.
pub(crate) fn write_characters(
    alloc: Global,
    writer: &mut EventWriter,
    content: &str,
) -> WriteResult
    ensures { Appends writer.old writer.new (XmlEvent.Characters content.now ∷ []) result }
{
    writer.write(XmlEvent::Characters(Text::new(alloc, content)?))?;
    Ok(())
}

/// Appends an element that holds this text alone, also where it is empty. Only want of memory refuses; the writer
/// then has a prefix of that.
pub fn write_simple_tag(
    alloc: Global,
    writer: &mut EventWriter,
    tag: &str,
    content: &str,
) -> Result<(), XmlWriteError>
    ensures { Appends writer.old writer.new (simple_tag tag.now content.now) result }
{
    write_start_tag(alloc, writer, tag)?;
    write_characters(alloc, writer, content)?;
    write_close_tag(alloc, writer, tag)
}

/// Appends an element that holds this text alone, and nothing for no text. Only want of memory refuses; the writer
/// then has a prefix of that.
pub fn write_simple_option_tag(
    alloc: Global,
    writer: &mut EventWriter,
    tag: &str,
    content: Option<&str>,
) -> Result<(), XmlWriteError>
    ensures { Appends writer.old writer.new
        (simple_option_tag tag.now (option_copied content.entry)) result }
{
    match content {
        None => Ok(()),
        Some(content) => write_simple_tag(alloc, writer, tag, content),
    }
}

/// Appends the items of a list, in order, between the tags of an element. Only want of memory refuses; the writer
/// then has a prefix of that.
pub fn write_list_tag<X: ToXml>(
    alloc: Global,
    writer: &mut EventWriter,
    version: SpecVersion,
    tag: &str,
    list: &List<X>,
) -> Result<(), XmlWriteError>
    ensures { Appends writer.old writer.new
        (list_tag tag.now (λ x. spelling X.tag (X.shown x) version X.shown_kind) list.now) result }
{
    write_start_tag(alloc, writer, tag)?;
    for item in list.as_slice() {
        item.write_xml_element(alloc, writer, version)?;
    }
    write_close_tag(alloc, writer, tag)
}

/// Appends texts, in order and each as an element, between the tags of another element. Only want of memory is
/// refused; the writer then has a prefix of that.
pub fn write_list_string_tag(
    alloc: Global,
    writer: &mut EventWriter,
    tag: &str,
    child_tag: &str,
    list: &List<Text>,
) -> Result<(), XmlWriteError>
    ensures { Appends writer.old writer.new
        (list_tag tag.now (simple_tag child_tag.now) list.now) result }
{
    write_start_tag(alloc, writer, tag)?;
    for item in list.as_slice() {
        write_simple_tag(alloc, writer, child_tag, item.as_str())?;
    }
    write_close_tag(alloc, writer, tag)
}
