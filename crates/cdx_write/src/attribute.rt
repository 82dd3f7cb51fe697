//! Attributes.

ghost use Rattle.std.specs.Prelude.{◌≡◌, ◌++◌, OnOk};
ghost use Rattle.cdx_models.specs.Trees.{present};
ghost use Rattle.cdx_write.specs.WrittenRows.{attribute_written, late_written};

use crate::element::Lone;
use cdx_events::{List, OwnedAttribute, OwnedName};
use cdx_models::SpecVersion;
use cdx_schema::Target;
use std::alloc::AllocError;

/// Adds an attribute that is always there.
pub fn put_required_attribute<T: Lone>(
    attributes: &mut List<OwnedAttribute>,
    name: &str,
    held: &T,
    target: Target,
) -> Result<(), AllocError>
    ensures { OnOk result (attributes.new
        ≡ attributes.old ++ attribute_written name.now T.kind (T.tree held.now) target.version) }
{
    let name = OwnedName::local(target.alloc, name)?;
    let value = held.xml_text(target.alloc)?;
    attributes.push(OwnedAttribute { name, value })
}

/// Adds an attribute, where it is there.
pub fn put_attribute<T: Lone>(
    attributes: &mut List<OwnedAttribute>,
    name: &str,
    held: &Option<T>,
    target: Target,
) -> Result<(), AllocError>
    ensures { OnOk result (attributes.new
        ≡ attributes.old ++ attribute_written name.now T.kind
        (present T.tree held.now) target.version) }
{
    match held {
        None => Ok(()),
        Some(held) => put_required_attribute(attributes, name, held, target),
    }
}

/// Adds an attribute, where it is there and the version is not before `since`.
pub fn put_attribute_since<T: Lone>(
    attributes: &mut List<OwnedAttribute>,
    since: SpecVersion,
    name: &str,
    held: &Option<T>,
    target: Target,
) -> Result<(), AllocError>
    ensures { OnOk result (attributes.new ≡ attributes.old
        ++ late_written since target.version
        (attribute_written name.now T.kind (present T.tree held.now) target.version)) }
{
    if since.is_known_to(target.version) {
        put_attribute(attributes, name, held, target)
    } else {
        Ok(())
    }
}
