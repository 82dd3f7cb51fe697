//! What a version keeps of bills, group by group.

ghost use Rattle.std.specs.Prelude.{◌≡◌, IfOk};
ghost use Rattle.cdx_models.specs.Trees.{bill};
ghost use Rattle.cdx_schema.specs.Groups.{group};
ghost use Rattle.cdx_json.specs.KeptRows.{rows_held};
ghost use Rattle.cdx_bom.specs.Trees.{inventory_groups, relations};
ghost use Rattle.cdx_bom.specs.PartTrees.{inventory_trees, relations_trees};

use crate::bom::Bom;
use crate::bom::parts::{Inventory, Relations};
use crate::json::label::Label;
use cdx_json::{Keeping, Kept, keep_row, keep_row_since};
use cdx_models::SpecVersion;
use std::alloc::AllocError;

#[tactic(auto, unfolding(cdx_json::proofs::OnRows::on_rows))]
pub(crate) fn keep_inventory(held: &Bom, keeping: Keeping) -> Result<Inventory, AllocError>
    ensures { IfOk result
        (λ r. inventory_trees r
        ≡ rows_held keeping.version keeping.label (inventory_groups held.now) (group 0 bill)) }
{
    let old_label = Label {
        version: held.spec_version,
    };
    let new_label = old_label.kept_as(keeping)?;
    let bill_version = held.version.kept_as(keeping)?;
    let serial_number = keep_row(&held.serial_number, keeping)?;
    let components = keep_row(&held.components, keeping)?;
    let services = keep_row(&held.services, keeping)?;
    let metadata = keep_row(&held.metadata, keeping)?;
    Ok(Inventory {
        spec_version: new_label.version,
        version: bill_version,
        serial_number,
        metadata,
        components,
        services,
    })
}

#[tactic(auto, unfolding(cdx_json::proofs::OnRows::on_rows))]
pub(crate) fn keep_relations(held: &Bom, keeping: Keeping) -> Result<Relations, AllocError>
    ensures { IfOk result
        (λ r. relations_trees r ≡ rows_held keeping.version keeping.label (relations held.now)
        (group 1 bill)) }
{
    let external_references = keep_row(&held.external_references, keeping)?;
    let dependencies = keep_row(&held.dependencies, keeping)?;
    let compositions = keep_row(&held.compositions, keeping)?;
    let properties = keep_row_since(&held.properties, SpecVersion::V1_5, keeping)?;
    let signature = keep_row_since(&held.signature, SpecVersion::V1_4, keeping)?;
    Ok(Relations {
        external_references,
        dependencies,
        compositions,
        properties,
        signature,
    })
}
