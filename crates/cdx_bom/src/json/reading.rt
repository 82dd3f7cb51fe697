//! Bills from JSON, group by group.

ghost use Rattle.cdx_models.specs.Trees.{bill};
ghost use Rattle.cdx_schema.specs.JsonReading.{Found, seen};
ghost use Rattle.cdx_schema.specs.Depths.{depth_of};
ghost use Rattle.cdx_json.specs.Gives.{Gives};
ghost use Rattle.cdx_json.specs.Groups.{group_read};
ghost use Rattle.cdx_bom.specs.ReadApart.{AreComponents, with_components};
ghost use Rattle.cdx_bom.specs.PartTrees.{inventory_trees, relations_trees};
ghost use Rattle.cdx_json.specs.SeenOf.{seen_of};

use crate::bom::parts::{Inventory, Relations};
use crate::json::label::Label;
use cdx_json::{Context, SeenMembers, optional_row, optional_row_since, required_row};
use cdx_models::{JsonReadError, SpecVersion};
use cdx_nest::Components;

// With components that were read apart.
pub(crate) fn read_inventory(
    map: &SeenMembers<'_>,
    components: Result<Option<Components>, JsonReadError>,
    context: Context,
) -> Result<Inventory, JsonReadError>
    ensures { (held : Found)
        → AreComponents held context.version (depth_of context.depth) components
        → Gives inventory_trees result
        (group_read 0 bill (with_components held (seen (seen_of map.now.members.items)))
        context.version (depth_of context.depth)) }
{
    let label: Label = required_row(map, "specVersion", context)?;
    let bill_version = required_row(map, "version", context)?;
    let serial_number = optional_row(map, "serialNumber", context)?;
    let metadata = optional_row(map, "metadata", context)?;
    let components = match components {
        Ok(components) => components,
        Err(error) => {
            drop(metadata);
            return Err(error);
        }
    };
    let services = match optional_row(map, "services", context) {
        Ok(services) => services,
        Err(error) => {
            drop(metadata);
            return Err(error);
        }
    };
    Ok(Inventory {
        spec_version: label.version,
        version: bill_version,
        serial_number,
        metadata,
        components,
        services,
    })
}

pub(crate) fn read_relations(
    map: &SeenMembers<'_>,
    context: Context,
) -> Result<Relations, JsonReadError>
    ensures { Gives relations_trees result
        (group_read 1 bill (seen (seen_of map.now.members.items)) context.version
        (depth_of context.depth)) }
{
    let external_references = optional_row(map, "externalReferences", context)?;
    let dependencies = optional_row(map, "dependencies", context)?;
    let compositions = optional_row(map, "compositions", context)?;
    let properties = optional_row_since(map, "properties", SpecVersion::V1_5, context)?;
    let signature = optional_row_since(map, "signature", SpecVersion::V1_4, context)?;
    Ok(Relations {
        external_references,
        dependencies,
        compositions,
        properties,
        signature,
    })
}
