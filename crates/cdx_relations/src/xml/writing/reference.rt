//! References to parts of the bill as XML events.

ghost use Rattle.std.specs.Prelude.{refl};
ghost use Rattle.cdx_models.specs.Trees.{text, list_tree};
ghost use Rattle.cdx_schema.specs.Kinds.{Lists, a_reference, a_list};
ghost use Rattle.cdx_write.specs.Listed.{IsListOf};
ghost use Rattle.cdx_write.specs.Spelling.{spelled_events, inner};
ghost use Rattle.cdx_write.specs.Writing.{Appends};

use crate::composition::BomReference;
use cdx_events::{EventWriter, List, OwnedAttribute, OwnedName, Text};
use cdx_models::SpecVersion;
use cdx_schema::Target;
use cdx_write::{Element, HasContent, Item, WriteResult, write_close_tag, write_opening};
use std::alloc::Global;

/// An empty element whose attribute `ref` is the reference.
pub(crate) fn write_reference(
    alloc: Global,
    writer: &mut EventWriter,
    tag: &str,
    target: &Text,
) -> WriteResult
    ensures { (w : SpecVersion)
        → Appends writer.old writer.new (spelled_events (text target.now) w tag.now a_reference) result }
{
    let name = OwnedName::local(alloc, "ref")?;
    let value = target.copy(alloc)?;
    let mut attributes = List::new(alloc);
    attributes.push(OwnedAttribute { name, value })?;
    write_opening(alloc, writer, tag, attributes)?;
    write_close_tag(alloc, writer, tag)
}

/// Texts as references, in order and each under the name.
pub(crate) fn write_references(
    alloc: Global,
    writer: &mut EventWriter,
    tag: &str,
    held: &List<Text>,
) -> WriteResult
    ensures { (w : SpecVersion) (l : Lists) → IsListOf a_reference tag.now l
        → Appends writer.old writer.new (inner (list_tree text held.now) w (a_list l)) result }
{
    for item in held.as_slice() {
        write_reference(alloc, writer, tag, item)?;
    }
    Ok(())
}

impl Element for BomReference {
    ghost keeps = { refl };

    fn write_as(&self, writer: &mut EventWriter, tag: &str, target: Target) -> WriteResult {
        write_reference(target.alloc, writer, tag, &self.0)
    }
}

impl Item for BomReference {
    fn is_passed_over(&self) -> bool {
        false
    }
}

impl HasContent for BomReference {
    fn has_content(&self) -> bool {
        true
    }
}
