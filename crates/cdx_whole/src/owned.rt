//! A bill that its user builds: one library under one license, which tells its owner.

ghost use Rattle.std.specs.Prelude.{◌≡◌, [], ◌∷◌, IfOk};
ghost use Rattle.cdx_models.specs.Trees.{items, one};
ghost use Rattle.cdx_models.specs.Records.{properties_tree};
ghost use Rattle.cdx_license.specs.Records.{licenses_tree};
ghost use Rattle.cdx_component.specs.Trees.{component_tree, components_tree};
ghost use Rattle.cdx_bom.specs.Trees.{bom_tree};
ghost use Rattle.cdx_whole.specs.Owners.{license_of, owner_of, component_with, bill_of_owner};

use crate::again::read_again;
use cdx_bom::Bom;
use cdx_events::{List, Text};
use cdx_license::{License, LicenseChoice, LicenseIdentifier, Licenses};
use cdx_models::{Properties, Property, SpecVersion};
use cdx_nest::{Component, Components};
use std::alloc::{AllocError, Global};

// The list of one item.
fn alone<T: Drop>(alloc: Global, item: T) -> Result<List<T>, AllocError>
    ensures { IfOk result (λ l. l ≡ item ∷ []) }
{
    let mut list = List::new(alloc);
    list.push(item)?;
    Ok(list)
}

// The list of the license with this identifier alone.
fn licensed(alloc: Global, id: &str) -> Result<Licenses, AllocError>
    ensures { IfOk result (λ ls. licenses_tree ls ≡ items (one (license_of id.now))) }
{
    let license = License {
        bom_ref: None,
        license_identifier: LicenseIdentifier::SpdxId(Text::new(alloc, id)?),
        text: None,
        url: None,
        properties: None,
    };
    Ok(Licenses(alone(alloc, LicenseChoice::License(license))?))
}

// The property that tells the owner, alone.
fn owned(alloc: Global, owner: &str) -> Result<Properties, AllocError>
    ensures { IfOk result (λ ps. properties_tree ps ≡ items (one (owner_of owner.now))) }
{
    let property = Property {
        name: Text::new(alloc, "owner")?,
        value: Text::new(alloc, owner)?,
    };
    Ok(Properties(alone(alloc, property)?))
}

// The component of this type and name, with these licenses and properties, and nothing else.
fn component(
    component_type: Text,
    name: Text,
    licenses: Licenses,
    properties: Properties,
) -> Component
    ensures { component_tree result
        ≡ component_with component_type name (licenses_tree licenses)
        (properties_tree properties) }
{
    Component {
        component_type,
        mime_type: None,
        bom_ref: None,
        supplier: None,
        author: None,
        publisher: None,
        group: None,
        name,
        version: None,
        description: None,
        scope: None,
        hashes: None,
        licenses: Some(licenses),
        copyright: None,
        cpe: None,
        purl: None,
        swid: None,
        modified: None,
        pedigree: None,
        external_references: None,
        properties: Some(properties),
        components: None,
        evidence: None,
        signature: None,
    }
}

// The list of one component.
fn listed(alloc: Global, component: Component) -> Result<Components, AllocError>
    ensures { IfOk result (λ cs. components_tree cs ≡ items (one (component_tree component))) }
{
    let mut components = Components::new(alloc);
    components.push(component)?;
    Ok(components)
}

/// The bill of 1.5 with one library of this name, which stands under the license with this SPDX identifier and tells
/// this owner. Only want of memory refuses.
pub fn owned_bill(alloc: Global, name: &str, id: &str, owner: &str) -> Result<Bom, AllocError>
    ensures { IfOk result (λ bill. bom_tree bill ≡ bill_of_owner name.now id.now owner.now) }
{
    let component_type = Text::new(alloc, "library")?;
    let name = Text::new(alloc, name)?;
    let licenses = licensed(alloc, id)?;
    let properties = owned(alloc, owner)?;
    let component = component(component_type, name, licenses, properties);
    let mut bill = Bom::new(SpecVersion::V1_5);
    bill.components = Some(listed(alloc, component)?);
    Ok(bill)
}

/// That bill, as it is read again from the JSON document that is written of it. Only want of memory refuses.
pub fn owned_bill_again(alloc: Global, name: &str, id: &str, owner: &str) -> Result<Bom, AllocError>
    ensures { IfOk result (λ again. bom_tree again ≡ bill_of_owner name.now id.now owner.now) }
{
    let bill = owned_bill(alloc, name, id, owner)?;
    read_again(alloc, &bill)
}
