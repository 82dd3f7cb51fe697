//! Records that are written row by row.

ghost use Rattle.std.specs.Prelude.{◌≡◌, refl, IfOk};
ghost use Rattle.cdx_models.specs.Trees.{fields_of};
ghost use Rattle.cdx_schema.specs.Kinds.{a_record};
ghost use Rattle.cdx_schema.specs.Table.{rows};
ghost use Rattle.cdx_write.specs.Spelling.{spelled_events};
ghost use Rattle.cdx_write.specs.WrittenRows.{attributes_written, rows_written};
ghost use Rattle.cdx_write.specs.Writing.{Appends};

use crate::element::Element;
use crate::tags::{WriteResult, write_close_tag, write_opening};
use cdx_events::{EventWriter, List, OwnedAttribute};
use cdx_schema::{Record, Target};
use std::alloc::AllocError;

/// A record that is written row by row. `write_record` makes of it the spelling of the schema.
pub trait WrittenRecord: Record {
    /// The attributes of what a version keeps. Only want of memory refuses.
    fn attributes(&self, target: Target) -> Result<List<OwnedAttribute>, AllocError>
        ensures { IfOk result (λ r.
            r ≡ attributes_written (fields_of (Self.tree self.now)) target.version
            (rows Self.name)) };

    /// Appends the content of what a version keeps. Only want of memory refuses; the writer then has a prefix of
    /// that.
    fn write_rows(&self, writer: &mut EventWriter, target: Target) -> WriteResult
        ensures { Appends writer.old writer.new
            (rows_written (fields_of (Self.tree self.now)) target.version (rows Self.name))
            result };
}

/// Appends the element of what a version keeps of a record, under the name. Only want of memory refuses; the writer
/// then has a prefix of that.
pub fn write_record<T: WrittenRecord>(
    writer: &mut EventWriter,
    tag: &str,
    held: &T,
    target: Target,
) -> WriteResult
    ensures { Appends writer.old writer.new
        (spelled_events (T.tree held.now) target.version tag.now (a_record T.name)) result }
{
    let attributes = held.attributes(target)?;
    write_opening(target.alloc, writer, tag, attributes)?;
    held.write_rows(writer, target)?;
    write_close_tag(target.alloc, writer, tag)
}

/// A record is written row by row.
impl<T: WrittenRecord> Element for T {
    ghost keeps = { refl };

    fn write_as(&self, writer: &mut EventWriter, tag: &str, target: Target) -> WriteResult {
        write_record(writer, tag, self, target)
    }
}
