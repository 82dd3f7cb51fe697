//! Copies of bills.

ghost use Rattle.std.specs.Prelude.{◌≡◌, IfOk};
ghost use Rattle.cdx_bom.specs.Trees.{bom_tree, inventory_groups, relations};
ghost use Rattle.cdx_bom.specs.PartTrees.{inventory_trees, relations_trees};

use crate::bom::Bom;
use crate::bom::parts::{Inventory, Relations, assemble};
use cdx_models::copy_row;
use std::alloc::{AllocError, Global};

fn copy_inventory(bom: &Bom, alloc: Global) -> Result<Inventory, AllocError>
    ensures { IfOk result (λ r. inventory_trees r ≡ inventory_groups bom.now) }
{
    let serial_number = copy_row(alloc, &bom.serial_number)?;
    let components = copy_row(alloc, &bom.components)?;
    let services = copy_row(alloc, &bom.services)?;
    let metadata = copy_row(alloc, &bom.metadata)?;
    Ok(Inventory {
        spec_version: bom.spec_version,
        version: bom.version,
        serial_number,
        metadata,
        components,
        services,
    })
}

fn copy_relations(bom: &Bom, alloc: Global) -> Result<Relations, AllocError>
    ensures { IfOk result (λ r. relations_trees r ≡ relations bom.now) }
{
    let external_references = copy_row(alloc, &bom.external_references)?;
    let dependencies = copy_row(alloc, &bom.dependencies)?;
    let compositions = copy_row(alloc, &bom.compositions)?;
    let properties = copy_row(alloc, &bom.properties)?;
    let signature = copy_row(alloc, &bom.signature)?;
    Ok(Relations {
        external_references,
        dependencies,
        compositions,
        properties,
        signature,
    })
}

pub(crate) fn copy_bom(bom: &Bom, alloc: Global) -> Result<Bom, AllocError>
    ensures { IfOk result (λ r. bom_tree r ≡ bom_tree bom.now) }
{
    let relations = copy_relations(bom, alloc)?;
    let inventory = copy_inventory(bom, alloc)?;
    Ok(assemble(inventory, relations))
}
