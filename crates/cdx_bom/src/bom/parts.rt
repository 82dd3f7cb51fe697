//! A bill in two groups of rows, so that no proof holds a whole one. A group that is alive where a function ends
//! early is freed there by `drop`: else the proof of the function frees each of its fields.

ghost use Rattle.std.specs.Prelude.{◌≡◌};
ghost use Rattle.cdx_models.specs.Trees.{bill, fields, ◌⧺◌};
ghost use Rattle.cdx_bom.specs.Trees.{bom_tree};
ghost use Rattle.cdx_bom.specs.PartTrees.{inventory_trees, relations_trees};

use crate::bom::Bom;
use cdx_models::{ExternalReferences, Properties, SpecVersion, UrnUuid};
use cdx_nest::{Components, Metadata, Services};
use cdx_relations::{Compositions, Dependencies};
use cdx_signature::Signature;

#[derive(Drop)]
pub(crate) struct Inventory {
    pub(crate) spec_version: SpecVersion,
    pub(crate) version: u32,
    pub(crate) serial_number: Option<UrnUuid>,
    pub(crate) metadata: Option<Metadata>,
    pub(crate) components: Option<Components>,
    pub(crate) services: Option<Services>,
}

#[derive(Drop)]
pub(crate) struct Relations {
    pub(crate) external_references: Option<ExternalReferences>,
    pub(crate) dependencies: Option<Dependencies>,
    pub(crate) compositions: Option<Compositions>,
    pub(crate) properties: Option<Properties>,
    pub(crate) signature: Option<Signature>,
}

/// The bill of these rows.
pub(crate) fn assemble(inventory: Inventory, relations: Relations) -> Bom
    ensures { bom_tree result
        ≡ fields bill (inventory_trees inventory ⧺ relations_trees relations) }
{
    Bom {
        spec_version: inventory.spec_version,
        version: inventory.version,
        serial_number: inventory.serial_number,
        metadata: inventory.metadata,
        components: inventory.components,
        services: inventory.services,
        external_references: relations.external_references,
        dependencies: relations.dependencies,
        compositions: relations.compositions,
        properties: relations.properties,
        signature: relations.signature,
    }
}
