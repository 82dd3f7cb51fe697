//! Whether bills are equal.

ghost use Rattle.std.specs.Prelude.{◌≡◌};
ghost use Rattle.cdx_models.specs.Equal.{equal, equal_each};
ghost use Rattle.cdx_bom.specs.Trees.{bom_tree, identity, bill_contents, inventory_groups, relations, label_tree};

use crate::bom::Bom;
use cdx_models::{SpecVersion, equal_row};

pub(crate) fn equal_label(one: SpecVersion, other: SpecVersion) -> bool
    ensures { result ≡ equal (label_tree one) (label_tree other) }
{
    one.as_str() == other.as_str()
}

pub(crate) fn equal_identity(one: &Bom, other: &Bom) -> bool
    ensures { result ≡ equal_each (identity one.now) (identity other.now) }
{
    equal_label(one.spec_version, other.spec_version)
        && one.version == other.version
        && equal_row(&one.serial_number, &other.serial_number)
}

pub(crate) fn equal_contents(one: &Bom, other: &Bom) -> bool
    ensures { result ≡ equal_each (bill_contents one.now) (bill_contents other.now) }
{
    equal_row(&one.components, &other.components) && equal_row(&one.services, &other.services)
}

#[tactic(auto, using(crate::proofs::Compared::inventory_compared))]
fn equal_inventory(one: &Bom, other: &Bom) -> bool
    ensures { result ≡ equal_each (inventory_groups one.now) (inventory_groups other.now) }
{
    equal_identity(one, other)
        && equal_row(&one.metadata, &other.metadata)
        && equal_contents(one, other)
}

pub(crate) fn equal_relations(one: &Bom, other: &Bom) -> bool
    ensures { result ≡ equal_each (relations one.now) (relations other.now) }
{
    equal_row(&one.external_references, &other.external_references)
        && equal_row(&one.dependencies, &other.dependencies)
        && equal_row(&one.compositions, &other.compositions)
        && equal_row(&one.properties, &other.properties)
        && equal_row(&one.signature, &other.signature)
}

#[tactic(auto, using(crate::proofs::Compared::bom_compared))]
pub(crate) fn equal_bom(one: &Bom, other: &Bom) -> bool
    ensures { result ≡ equal (bom_tree one.now) (bom_tree other.now) }
{
    equal_inventory(one, other) && equal_relations(one, other)
}
