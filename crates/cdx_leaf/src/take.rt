//! Children that are read into a field of what is read: in place of what was there, to the end of a list, or a whole list.

ghost use Rattle.std.specs.Prelude.{◌≡◌, [], ◌∷◌, ◌++◌, Ok, OnOk, Some, true, false, unwrap_or};
ghost use Rattle.cdx_leaf.specs.Reading.{IsIn};
ghost use Rattle.cdx_leaf.specs.Children.{TakesOne, TakesMore};
ghost use Rattle.cdx_models.specs.Trees.{present, list_tree};
ghost use Rattle.cdx_models.specs.Versions.{knows};
ghost use Rattle.cdx_leaf.specs.Listing.{TakesList};
ghost use Rattle.cdx_leaf.specs.Trees.{collected};

use crate::error::Reading;
use crate::from_xml::FromXml;
use crate::lists::read_items;
use crate::rule::Rule;
use crate::start::Start;
use crate::taken::Taken;
use cdx_events::{EventReader, List};
use cdx_models::SpecVersion;
use std::alloc::{AllocError, Global};

/// Reads the element into a field, in place of what was there. The answer is always Read.
pub fn take_one<X: FromXml>(
    reader: &mut EventReader<'_>,
    opened: &Start<'_>,
    field: &mut Option<X>,
) -> Reading<Taken>
    requires { IsIn reader.old opened.now.element.now }
    ensures { TakesOne (present X.tree field.new) reader.old reader.new opened.now.version X.kind
        X.depth opened.now.element.now opened.now.attributes.now result }
{
    *field = Some(X::read_from(reader, opened)?);
    Ok(Taken::Read)
}

/// Reads a child that is there from a version on by `take_one`. In a version that doesn't know it, nothing is read and
/// the answer is Unknown.
pub fn take_one_since<X: FromXml>(
    reader: &mut EventReader<'_>,
    opened: &Start<'_>,
    since: SpecVersion,
    field: &mut Option<X>,
) -> Reading<Taken>
    requires { IsIn reader.old opened.now.element.now }
    ensures known { knows since opened.now.version ≡ true
        → TakesOne (present X.tree field.new) reader.old reader.new opened.now.version X.kind
        X.depth opened.now.element.now opened.now.attributes.now result }
    ensures unknown { knows since opened.now.version ≡ false
        → (field.new ≡ field.old) × (reader.new ≡ reader.old) × (result ≡ Ok Taken.Unknown) }
{
    if since.is_known_to(opened.version) {
        take_one(reader, opened, field)
    } else {
        Ok(Taken::Unknown)
    }
}

/// Appends to a list that may not be there yet.
pub fn push_into<T: Drop>(
    alloc: Global,
    slot: &mut Option<List<T>>,
    item: T,
) -> Result<(), AllocError>
    ensures { OnOk result (slot.new ≡ Some (unwrap_or slot.old [] ++ item ∷ [])) }
{
    match slot {
        Some(list) => list.push(item),
        None => {
            let mut list = List::new(alloc);
            list.push(item)?;
            *slot = Some(list);
            Ok(())
        }
    }
}

/// Reads the element to the end of a list that may not be there yet. The answer is always Read.
pub fn take_more<X: FromXml>(
    reader: &mut EventReader<'_>,
    opened: &Start<'_>,
    field: &mut Option<List<X>>,
) -> Reading<Taken>
    requires { IsIn reader.old opened.now.element.now }
    ensures { TakesMore (present (list_tree X.tree) field.old)
        (present (list_tree X.tree) field.new) reader.old reader.new
        opened.now.version X.kind X.depth opened.now.element.now opened.now.attributes.now result }
{
    let item = X::read_from(reader, opened)?;
    push_into(opened.alloc, field, item)?;
    Ok(Taken::Read)
}

/// Reads the element to the end of a list. The answer is always Read.
pub fn take_into<X: FromXml>(
    reader: &mut EventReader<'_>,
    opened: &Start<'_>,
    field: &mut List<X>,
) -> Reading<Taken>
    requires { IsIn reader.old opened.now.element.now }
    ensures { TakesMore (collected X.tree field.old) (collected X.tree field.new) reader.old
        reader.new opened.now.version X.kind X.depth opened.now.element.now
        opened.now.attributes.now result }
{
    let item = X::read_from(reader, opened)?;
    field.push(item)?;
    Ok(Taken::Read)
}

/// Reads the element's items into a field, in place of what was there. The answer is always Read.
pub fn take_list<X: FromXml>(
    reader: &mut EventReader<'_>,
    opened: &Start<'_>,
    inner: &str,
    rule: Rule,
    field: &mut Option<List<X>>,
) -> Reading<Taken>
    requires { IsIn reader.old opened.now.element.now }
    ensures { TakesList (present (list_tree X.tree) field.new) X.kind X.depth reader.old reader.new
        opened.now.version opened.now.element.now inner.now rule result }
{
    *field = Some(read_items(reader, opened, inner, rule)?);
    Ok(Taken::Read)
}
