//! Lists.

ghost use Rattle.cdx_models.specs.Trees.{present, list_tree};
ghost use Rattle.cdx_schema.specs.Kinds.{Lists, a_list};
ghost use Rattle.cdx_write.specs.Listed.{IsListOf, item_put};
ghost use Rattle.cdx_write.specs.Spelling.{spelled_events, inner};
ghost use Rattle.cdx_write.specs.WrittenRows.{child_written, late_written};
ghost use Rattle.cdx_write.specs.Writing.{Appends};

use crate::element::Item;
use crate::tags::{WriteResult, write_close_tag, write_start_tag};
use cdx_events::{EventWriter, List};
use cdx_models::SpecVersion;
use cdx_schema::Target;

fn write_item<T: Item>(writer: &mut EventWriter, tag: &str, held: &T, target: Target) -> WriteResult
    ensures { Appends writer.old writer.new
        (item_put tag.now T.kind (T.tree held.now) target.version) result }
{
    if held.is_passed_over() {
        Ok(())
    } else {
        held.write_as(writer, tag, target)
    }
}

/// Appends the items of a list, each under the name, as any of the schema's lists that has them so. Only want of memory
/// is refused; the writer then has a prefix of that.
pub fn write_items<T: Item>(
    writer: &mut EventWriter,
    tag: &str,
    held: &List<T>,
    target: Target,
) -> WriteResult
    ensures { (l : Lists) → IsListOf T.kind tag.now l
        → Appends writer.old writer.new
        (inner (list_tree T.tree held.now) target.version (a_list l)) result }
{
    for item in held.as_slice() {
        write_item(writer, tag, item, target)?;
    }
    Ok(())
}

/// Appends a list as the element `tag`, with each item under the name `item_tag`. Only want of memory refuses; the
/// writer then has a prefix of that.
pub fn write_list<T: Item>(
    writer: &mut EventWriter,
    tag: &str,
    item_tag: &str,
    held: &List<T>,
    target: Target,
) -> WriteResult
    ensures { (l : Lists) → IsListOf T.kind item_tag.now l
        → Appends writer.old writer.new
        (spelled_events (list_tree T.tree held.now) target.version tag.now (a_list l)) result }
{
    write_start_tag(target.alloc, writer, tag)?;
    write_items(writer, item_tag, held, target)?;
    write_close_tag(target.alloc, writer, tag)
}

/// The row of children all of which count: each item under the name, where the list is there.
pub fn put_each<T: Item>(
    writer: &mut EventWriter,
    tag: &str,
    held: &Option<List<T>>,
    target: Target,
) -> WriteResult
    ensures { (l : Lists) → IsListOf T.kind tag.now l
        → Appends writer.old writer.new
        (inner (present (list_tree T.tree) held.now) target.version (a_list l)) result }
{
    match held {
        None => Ok(()),
        Some(held) => write_items(writer, tag, held, target),
    }
}

/// The row of a list that is one child, where it is there.
pub fn put_list<T: Item>(
    writer: &mut EventWriter,
    name: &str,
    item_tag: &str,
    held: &Option<List<T>>,
    target: Target,
) -> WriteResult
    ensures { (l : Lists) → IsListOf T.kind item_tag.now l
        → Appends writer.old writer.new
        (child_written name.now (a_list l) (present (list_tree T.tree) held.now) target.version)
        result }
{
    match held {
        None => Ok(()),
        Some(held) => write_list(writer, name, item_tag, held, target),
    }
}

/// The row of a list that is one child, where it is there and the version is not before `since`.
pub fn put_list_since<T: Item>(
    writer: &mut EventWriter,
    since: SpecVersion,
    name: &str,
    item_tag: &str,
    held: &Option<List<T>>,
    target: Target,
) -> WriteResult
    ensures { (l : Lists) → IsListOf T.kind item_tag.now l
        → Appends writer.old writer.new
        (late_written since target.version
        (child_written name.now (a_list l) (present (list_tree T.tree) held.now) target.version))
        result }
{
    if since.is_known_to(target.version) {
        put_list(writer, name, item_tag, held, target)
    } else {
        Ok(())
    }
}
