//! Attributes, which are chosen by their local name, and required children at an element's end.

ghost use Rattle.std.specs.Prelude.{◌≡◌, ◌+◌, option_map, Ok, IfOk, reverse};
ghost use Rattle.cdx_schema.specs.XmlReading.{find_attribute};
ghost use Rattle.cdx_schema.specs.Faults.{lacking};
ghost use Rattle.cdx_leaf.specs.Attribute.{or_fault, GivesAt, known_since};

use crate::error::{Reading, refuse_missing};
use crate::start::{End, Start};
use cdx_events::{List, OwnedAttribute, OwnedName, Text};
use cdx_models::{SpecVersion, XmlReadError};
use std::alloc::{AllocError, Global};

/// The value of the first attribute of that local name, None where there is none. It takes no memory.
pub fn optional_attribute<'a>(
    attributes: &'a List<OwnedAttribute>,
    expected: &str,
) -> Option<&'a Text>
    ensures { option_map (λ t. t.now) result ≡ find_attribute expected.now attributes.now }
{
    for attribute in attributes.as_slice() {
        if attribute.name.local_name.is(expected) {
            return Some(&attribute.value);
        }
    }
    None
}

/// A copy of the value of the first attribute of that local name.
pub fn attribute_or_none(
    alloc: Global,
    attributes: &List<OwnedAttribute>,
    expected: &str,
) -> Result<Option<Text>, AllocError>
    ensures { IfOk result (λ o. o ≡ find_attribute expected.now attributes.now) }
{
    match optional_attribute(attributes, expected) {
        Some(value) => Ok(Some(value.copy(alloc)?)),
        None => Ok(None),
    }
}

/// A copy of the value of the first attribute of that local name. `RequiredDataMissing` at `place`, that of the
/// element's start, exactly where there is none.
pub fn attribute_or_error(
    alloc: Global,
    place: usize,
    element: &OwnedName,
    attributes: &List<OwnedAttribute>,
    expected: &str,
) -> Result<Text, XmlReadError>
    ensures { GivesAt (λ t. t) (place + 1)
        (or_fault (find_attribute expected.now attributes.now)
        (lacking place element.now.local_name expected.now))
        result }
{
    match optional_attribute(attributes, expected) {
        Some(value) => Ok(value.copy(alloc)?),
        None => Err(XmlReadError::required_data_missing(alloc, place, expected, element)?),
    }
}

/// A copy of the value of the first attribute of that local name. `RequiredDataMissing` at the start exactly where there
/// is none.
pub fn required_attribute(opened: &Start<'_>, expected: &str) -> Reading<Text>
    ensures { GivesAt (λ t. t) (opened.now.place + 1)
        (or_fault (find_attribute expected.now opened.now.attributes.now)
        (lacking opened.now.place opened.now.element.now.local_name expected.now))
        result }
{
    attribute_or_error(
        opened.alloc,
        opened.place,
        opened.element,
        opened.attributes,
        expected,
    )
}

/// A copy of the value where the start's version knows the attribute, which is there from `since` on.
pub fn attribute_since(
    opened: &Start<'_>,
    since: SpecVersion,
    expected: &str,
) -> Result<Option<Text>, AllocError>
    ensures { IfOk result (λ o. o
        ≡ known_since since opened.now.version
        (find_attribute expected.now opened.now.attributes.now)) }
{
    if since.is_known_to(opened.version) {
        attribute_or_none(opened.alloc, opened.attributes, expected)
    } else {
        Ok(None)
    }
}

/// A copy of the value of the last attribute of that local name.
pub fn last_attribute(
    alloc: Global,
    attributes: &List<OwnedAttribute>,
    expected: &str,
) -> Result<Option<Text>, AllocError>
    ensures { IfOk result (λ o. o ≡ find_attribute expected.now (reverse attributes.now)) }
{
    let mut found: Option<&Text> = None;
    for attribute in attributes.as_slice() {
        if attribute.name.local_name.is(expected) {
            found = Some(&attribute.value);
        }
    }
    match found {
        Some(value) => Ok(Some(value.copy(alloc)?)),
        None => Ok(None),
    }
}

/// What was read of a child. `RequiredDataMissing` at the element's end where the child isn't there.
pub fn child_or_error<T: Drop>(closed: &End<'_>, child: Option<T>, expected: &str) -> Reading<T>
    ensures { GivesAt (λ t. t) (closed.now.place + 1)
        (or_fault child (lacking closed.now.place closed.now.element.now.local_name expected.now))
        result }
{
    match child {
        Some(value) => Ok(value),
        None => refuse_missing(closed.alloc, closed.place, closed.element, expected),
    }
}
