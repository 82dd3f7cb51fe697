//! A service while its children are read, in the groups of its rows: a name that is required may not be there yet.

use crate::service::parts::{ServiceAccess, ServiceContents};
use cdx_events::Text;
use cdx_models::OrganizationalEntity;

#[derive(Drop)]
pub(crate) struct NamingPart {
    pub(crate) bom_ref: Option<Text>,
    pub(crate) provider: Option<OrganizationalEntity>,
    pub(crate) group: Option<Text>,
    pub(crate) name: Option<Text>,
    pub(crate) version: Option<Text>,
    pub(crate) description: Option<Text>,
}

/// What was read of a service so far.
#[derive(Drop)]
pub struct ServicePart {
    pub(crate) naming: NamingPart,
    pub(crate) access: ServiceAccess,
    pub(crate) contents: ServiceContents,
}
