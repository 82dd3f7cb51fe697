//! The attributes of a bill.

ghost use Rattle.std.specs.Prelude.{◌≡◌, ◌+◌, IfOk, codes, option_map};
ghost use Rattle.cdx_models.specs.declared.bom.UrnUuid.{UrnUuid};
ghost use Rattle.cdx_models.specs.Trees.{bill};
ghost use Rattle.cdx_schema.specs.Table.{rows};
ghost use Rattle.cdx_schema.specs.XmlReading.{attributes_read, in_force, find_attribute};
ghost use Rattle.cdx_leaf.specs.Attribute.{GivesAt};
ghost use Rattle.cdx_bom.specs.Reading.{bill_slots};
ghost use Rattle.cdx_bom.specs.RootChecks.{version_attribute};

use crate::bom::parts::{Inventory, Relations};
use crate::xml::reading::part::BillPart;
use cdx_events::{List, OwnedAttribute};
use cdx_leaf::{Reading, Start, attribute_or_none, attribute_value};
use cdx_models::{UrnUuid, XmlReadError};
use std::alloc::{AllocError, Global};

// The version of the bill, which is 1 where it isn't there.
fn version_of(opened: &Start<'_>) -> Reading<u32>
    ensures { GivesAt (λ n. n) (opened.now.place + 1)
        (version_attribute opened.now.place opened.now.attributes.now) result }
{
    match attribute_value(opened, "version")? {
        Some(version) => Ok(version),
        None => Ok(1),
    }
}

fn serial_number_of(
    alloc: Global,
    attributes: &List<OwnedAttribute>,
) -> Result<Option<UrnUuid>, AllocError>
    ensures { IfOk result (λ o. option_map (λ (u : UrnUuid). u.0) o
        ≡ find_attribute (codes "serialNumber") attributes.now) }
{
    match attribute_or_none(alloc, attributes, "serialNumber")? {
        Some(text) => Ok(Some(UrnUuid(text))),
        None => Ok(None),
    }
}

// The bill with its attributes, and without a child as yet.
pub(crate) fn begin_bill(opened: &Start<'_>) -> Result<BillPart, XmlReadError>
    ensures { GivesAt bill_slots (opened.now.place + 1)
        (attributes_read (rows bill) (in_force bill opened.now.attributes.now) opened.now.version
        opened.now.element.now.local_name opened.now.place) result }
{
    let version = version_of(opened)?;
    let serial_number = serial_number_of(opened.alloc, opened.attributes)?;
    Ok(BillPart {
        inventory: Inventory {
            spec_version: opened.version,
            version,
            serial_number,
            metadata: None,
            components: None,
            services: None,
        },
        relations: Relations {
            external_references: None,
            dependencies: None,
            compositions: None,
            properties: None,
            signature: None,
        },
    })
}
