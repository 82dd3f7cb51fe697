//! Bills to JSON, group by group.

ghost use Rattle.std.specs.Prelude.{◌≡◌, codes, OnOk, option_copied};
ghost use Rattle.cdx_json.specs.Spellings.{spelling_members};
ghost use Rattle.cdx_models.specs.Trees.{bill, present};
ghost use Rattle.cdx_schema.specs.Kinds.{a_list, components};
ghost use Rattle.cdx_schema.specs.Groups.{group};
ghost use Rattle.cdx_json.specs.KeptRows.{put_kept, rows_put};
ghost use Rattle.cdx_nest.specs.Nested.{components_tree};
ghost use Rattle.cdx_bom.specs.Trees.{inventory_beside, relations};

use crate::bom::Bom;
use cdx_json::{Members, Spelling, put, put_required, put_row, put_row_since};
use cdx_models::SpecVersion;
use cdx_nest::Components;
use cdx_schema::Target;
use std::alloc::AllocError;

// With these components in the place of the bill's.
pub(crate) fn put_inventory<'b>(
    held: &'b Bom,
    components: Option<&'b Components>,
    map: &mut Members<'b>,
    target: Target,
) -> Result<(), AllocError>
    ensures { OnOk result (spelling_members map.new.items
        ≡ rows_put
        (inventory_beside (present components_tree (option_copied components.entry)) held.now)
        target.version (group 0 bill) (spelling_members map.old.items)) }
{
    put(map, "specVersion", Spelling::Text(target.version.as_str()))?;
    put_required(map, "version", &held.version, target)?;
    put_row(map, "serialNumber", &held.serial_number, target)?;
    put_row(map, "metadata", &held.metadata, target)?;
    put_components(map, components, target)?;
    put_row(map, "services", &held.services, target)?;
    Ok(())
}

// Sets the components, where they are there.
fn put_components<'b>(
    map: &mut Members<'b>,
    held: Option<&'b Components>,
    target: Target,
) -> Result<(), AllocError>
    ensures { OnOk result (spelling_members map.new.items
        ≡ put_kept (codes "components") (a_list components)
        (present components_tree (option_copied held.entry)) target.version
        (spelling_members map.old.items)) }
{
    match held {
        None => Ok(()),
        Some(held) => put_required(map, "components", held, target),
    }
}

pub(crate) fn put_relations<'b>(
    held: &'b Bom,
    map: &mut Members<'b>,
    target: Target,
) -> Result<(), AllocError>
    ensures { OnOk result (spelling_members map.new.items
        ≡ rows_put (relations held.now) target.version (group 1 bill)
        (spelling_members map.old.items)) }
{
    put_row(map, "externalReferences", &held.external_references, target)?;
    put_row(map, "dependencies", &held.dependencies, target)?;
    put_row(map, "compositions", &held.compositions, target)?;
    put_row_since(
        map,
        "properties",
        &held.properties,
        SpecVersion::V1_5,
        target,
    )?;
    put_row_since(map, "signature", &held.signature, SpecVersion::V1_4, target)?;
    Ok(())
}
