//! Licenses while their children are read.

use crate::license::{LicenseChoice, LicenseIdentifier};
use cdx_events::{List, Text};
use cdx_models::{AttachedText, Properties};

/// A license while its children are read.
#[derive(Drop)]
pub struct LicensePart {
    /// Its reference, which the attributes give.
    pub bom_ref: Option<Text>,
    /// Its identifier, once there is one.
    pub license_identifier: Option<LicenseIdentifier>,
    /// Its text.
    pub text: Option<AttachedText>,
    /// Its address.
    pub url: Option<Text>,
    /// Its properties.
    pub properties: Option<Properties>,
}

/// Licenses and expressions while they are read.
#[derive(Drop)]
pub struct ChoicesPart {
    /// Those that were read so far.
    pub items: List<LicenseChoice>,
}
