//! A service in three groups of rows, so that no proof holds a whole one. A group that is alive where a function ends
//! early is freed there by `drop`: else the proof of the function frees each of its fields.

ghost use Rattle.std.specs.Prelude.{◌≡◌};
ghost use Rattle.cdx_models.specs.Trees.{service, fields, ◌⧺◌};
ghost use Rattle.cdx_service.specs.Trees.{service_tree};
ghost use Rattle.cdx_service.specs.PartTrees.{service_naming_trees, service_access_trees, service_contents_trees};

use crate::service::{Service, Services};
use cdx_events::{List, Text};
use cdx_license::Licenses;
use cdx_models::{ExternalReferences, OrganizationalEntity, Properties};
use cdx_service_data::Data;
use cdx_signature::Signature;

#[derive(Drop)]
pub(crate) struct ServiceNaming {
    pub(crate) bom_ref: Option<Text>,
    pub(crate) provider: Option<OrganizationalEntity>,
    pub(crate) group: Option<Text>,
    pub(crate) name: Text,
    pub(crate) version: Option<Text>,
    pub(crate) description: Option<Text>,
}

#[derive(Drop)]
pub(crate) struct ServiceAccess {
    pub(crate) endpoints: Option<List<Text>>,
    pub(crate) authenticated: Option<bool>,
    pub(crate) x_trust_boundary: Option<bool>,
    pub(crate) data_items: Option<Data>,
    pub(crate) licenses: Option<Licenses>,
    pub(crate) external_references: Option<ExternalReferences>,
}

#[derive(Drop)]
pub(crate) struct ServiceContents {
    pub(crate) properties: Option<Properties>,
    pub(crate) services: Option<Services>,
    pub(crate) signature: Option<Signature>,
    pub(crate) trust_zone: Option<Text>,
}

/// The service of these rows.
pub(crate) fn assemble(
    service_naming: ServiceNaming,
    service_access: ServiceAccess,
    service_contents: ServiceContents,
) -> Service
    ensures { service_tree result ≡ fields service (service_naming_trees service_naming ⧺
        (service_access_trees service_access ⧺ service_contents_trees service_contents)) }
{
    Service {
        bom_ref: service_naming.bom_ref,
        provider: service_naming.provider,
        group: service_naming.group,
        name: service_naming.name,
        version: service_naming.version,
        description: service_naming.description,
        endpoints: service_access.endpoints,
        authenticated: service_access.authenticated,
        x_trust_boundary: service_access.x_trust_boundary,
        data_items: service_access.data_items,
        licenses: service_access.licenses,
        external_references: service_access.external_references,
        properties: service_contents.properties,
        services: service_contents.services,
        signature: service_contents.signature,
        trust_zone: service_contents.trust_zone,
    }
}
