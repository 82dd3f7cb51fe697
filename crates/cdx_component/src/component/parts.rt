//! A component in four groups of rows, so that no proof holds a whole one. A group that is alive where a function
//! ends early is freed there by `drop`: else the proof of the function frees each of its fields.

ghost use Rattle.std.specs.Prelude.{◌≡◌};
ghost use Rattle.cdx_models.specs.Trees.{component, fields, ◌⧺◌};
ghost use Rattle.cdx_component.specs.Trees.{component_tree};
ghost use Rattle.cdx_component.specs.PartTrees.{origin_trees, naming_trees, marks_trees, contents_trees};

use crate::component::{Component, Components, Pedigree};
use cdx_component_parts::{ComponentEvidence, Cpe, MimeType, Swid};
use cdx_events::Text;
use cdx_license::Licenses;
use cdx_models::{ExternalReferences, Hashes, OrganizationalEntity, Properties};
use cdx_signature::Signature;

#[derive(Drop)]
pub(crate) struct Origin {
    pub(crate) component_type: Text,
    pub(crate) mime_type: Option<MimeType>,
    pub(crate) bom_ref: Option<Text>,
    pub(crate) supplier: Option<OrganizationalEntity>,
    pub(crate) author: Option<Text>,
    pub(crate) publisher: Option<Text>,
}

#[derive(Drop)]
pub(crate) struct Naming {
    pub(crate) group: Option<Text>,
    pub(crate) name: Text,
    pub(crate) version: Option<Text>,
    pub(crate) description: Option<Text>,
    pub(crate) scope: Option<Text>,
    pub(crate) hashes: Option<Hashes>,
}

#[derive(Drop)]
pub(crate) struct Marks {
    pub(crate) licenses: Option<Licenses>,
    pub(crate) copyright: Option<Text>,
    pub(crate) cpe: Option<Cpe>,
    pub(crate) purl: Option<Text>,
    pub(crate) swid: Option<Swid>,
    pub(crate) modified: Option<bool>,
}

#[derive(Drop)]
pub(crate) struct Contents {
    pub(crate) pedigree: Option<Pedigree>,
    pub(crate) external_references: Option<ExternalReferences>,
    pub(crate) properties: Option<Properties>,
    pub(crate) components: Option<Components>,
    pub(crate) evidence: Option<ComponentEvidence>,
    pub(crate) signature: Option<Signature>,
}

/// The component of these rows.
pub(crate) fn assemble(
    origin: Origin,
    naming: Naming,
    marks: Marks,
    contents: Contents,
) -> Component
    ensures { component_tree result ≡ fields component (origin_trees origin ⧺
        (naming_trees naming ⧺ (marks_trees marks ⧺ contents_trees contents))) }
{
    Component {
        component_type: origin.component_type,
        mime_type: origin.mime_type,
        bom_ref: origin.bom_ref,
        supplier: origin.supplier,
        author: origin.author,
        publisher: origin.publisher,
        group: naming.group,
        name: naming.name,
        version: naming.version,
        description: naming.description,
        scope: naming.scope,
        hashes: naming.hashes,
        licenses: marks.licenses,
        copyright: marks.copyright,
        cpe: marks.cpe,
        purl: marks.purl,
        swid: marks.swid,
        modified: marks.modified,
        pedigree: contents.pedigree,
        external_references: contents.external_references,
        properties: contents.properties,
        components: contents.components,
        evidence: contents.evidence,
        signature: contents.signature,
    }
}
