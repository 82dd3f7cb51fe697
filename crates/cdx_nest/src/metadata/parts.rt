//! Metadata in two groups of rows, so that no proof holds a whole one. A group that is alive where a function ends
//! early is freed there by `drop`: else the proof of the function frees each of its fields.

ghost use Rattle.std.specs.Prelude.{◌≡◌};
ghost use Rattle.cdx_models.specs.Trees.{metadata, fields, ◌⧺◌};
ghost use Rattle.cdx_nest.specs.Trees.{metadata_tree};
ghost use Rattle.cdx_nest.specs.PartTrees.{makers_trees, terms_trees};

use crate::metadata::Metadata;
use crate::tools::Tools;
use cdx_component::Component;
use cdx_events::{List, Text};
use cdx_license::Licenses;
use cdx_models::{OrganizationalContact, OrganizationalEntity, Properties};

#[derive(Drop)]
pub(crate) struct Makers {
    pub(crate) timestamp: Option<Text>,
    pub(crate) tools: Option<Tools>,
    pub(crate) authors: Option<List<OrganizationalContact>>,
    pub(crate) component: Option<Component>,
    pub(crate) manufacture: Option<OrganizationalEntity>,
    pub(crate) supplier: Option<OrganizationalEntity>,
}

#[derive(Drop)]
pub(crate) struct Terms {
    pub(crate) licenses: Option<Licenses>,
    pub(crate) properties: Option<Properties>,
}

/// The metadata of these rows.
pub(crate) fn assemble(makers: Makers, terms: Terms) -> Metadata
    ensures { metadata_tree result ≡ fields metadata (makers_trees makers ⧺ terms_trees terms) }
{
    Metadata {
        timestamp: makers.timestamp,
        tools: makers.tools,
        authors: makers.authors,
        component: makers.component,
        manufacture: makers.manufacture,
        supplier: makers.supplier,
        licenses: terms.licenses,
        properties: terms.properties,
    }
}
