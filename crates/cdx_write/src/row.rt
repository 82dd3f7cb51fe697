//! One helper per sort of row. Each appends what the row is written as; only want of memory is refused, and the writer
//! then has a prefix of that.

ghost use Rattle.std.specs.Prelude.{◌≡◌, not};
ghost use Rattle.cdx_models.specs.Trees.{text, present, is_absent};
ghost use Rattle.cdx_schema.specs.Kinds.{a_text};
ghost use Rattle.cdx_write.specs.Spelling.{inner};
ghost use Rattle.cdx_write.specs.WrittenRows.{child_written, filled_written, cdata_written, late_written};
ghost use Rattle.cdx_write.specs.Writing.{Appends};

use crate::element::{Element, Filled};
use crate::tags::{WriteResult, write_characters};
use cdx_events::{EventWriter, Text, XmlEvent};
use cdx_models::{HasTree, SpecVersion};
use cdx_schema::Target;
use std::alloc::Global;

/// Whether a field that may be absent is there. It takes no memory.
pub fn is_there<T: HasTree>(held: &Option<T>) -> bool
    ensures { result ≡ not (is_absent (present T.tree held.now)) }
{
    held.is_some()
}

/// A child that is always there.
pub fn put_required_child<T: Element>(
    writer: &mut EventWriter,
    name: &str,
    held: &T,
    target: Target,
) -> WriteResult
    ensures { Appends writer.old writer.new
        (child_written name.now T.kind (T.tree held.now) target.version) result }
{
    held.write_as(writer, name, target)
}

/// A child, where it is there.
pub fn put_child<T: Element>(
    writer: &mut EventWriter,
    name: &str,
    held: &Option<T>,
    target: Target,
) -> WriteResult
    ensures { Appends writer.old writer.new
        (child_written name.now T.kind (present T.tree held.now) target.version) result }
{
    match held {
        None => Ok(()),
        Some(held) => put_required_child(writer, name, held, target),
    }
}

/// A child, where it is there and the version is not before `since`.
pub fn put_child_since<T: Element>(
    writer: &mut EventWriter,
    since: SpecVersion,
    name: &str,
    held: &Option<T>,
    target: Target,
) -> WriteResult
    ensures { Appends writer.old writer.new
        (late_written since target.version
        (child_written name.now T.kind (present T.tree held.now) target.version)) result }
{
    if since.is_known_to(target.version) {
        put_child(writer, name, held, target)
    } else {
        Ok(())
    }
}

/// A child, where it is there and has a child itself.
pub fn put_filled_child<T: Filled>(
    writer: &mut EventWriter,
    name: &str,
    held: &Option<T>,
    target: Target,
) -> WriteResult
    ensures { Appends writer.old writer.new
        (filled_written name.now T.kind (present T.tree held.now) target.version) result }
{
    match held {
        None => Ok(()),
        Some(held) => {
            if held.is_hollow() {
                Ok(())
            } else {
                put_required_child(writer, name, held, target)
            }
        }
    }
}

/// The text that is an element's content.
pub fn put_content(alloc: Global, writer: &mut EventWriter, held: &Text) -> WriteResult
    ensures { (w : SpecVersion)
        → Appends writer.old writer.new (inner (text held.now) w a_text) result }
{
    write_characters(alloc, writer, held.as_str())
}

/// The same as CDATA.
pub fn put_cdata(alloc: Global, writer: &mut EventWriter, held: &Text) -> WriteResult
    ensures { (w : SpecVersion)
        → Appends writer.old writer.new (cdata_written a_text (text held.now) w) result }
{
    writer.write(XmlEvent::CData(held.copy(alloc)?))?;
    Ok(())
}
