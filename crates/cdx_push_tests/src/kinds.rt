//! Kinds by the names of their variants.

use cdx_push::{LeafKind, LeafValue};

/// The kind of this name.
pub fn kind_named(name: &str) -> Option<LeafKind> {
    match name {
        "Text" => Some(LeafKind::Text),
        "Flag" => Some(LeafKind::Flag),
        "AttachedText" => Some(LeafKind::AttachedText),
        "Endpoints" => Some(LeafKind::Endpoints),
        "Authors" => Some(LeafKind::Authors),
        "Entity" => Some(LeafKind::Entity),
        "Hashes" => Some(LeafKind::Hashes),
        "Properties" => Some(LeafKind::Properties),
        "Commits" => Some(LeafKind::Commits),
        "Patches" => Some(LeafKind::Patches),
        "ExternalReferences" => Some(LeafKind::ExternalReferences),
        "Dependencies" => Some(LeafKind::Dependencies),
        "Compositions" => Some(LeafKind::Compositions),
        "Licenses" => Some(LeafKind::Licenses),
        "Signature" => Some(LeafKind::Signature),
        "Tool" => Some(LeafKind::Tool),
        "Swid" => Some(LeafKind::Swid),
        "Evidence" => Some(LeafKind::Evidence),
        "Data" => Some(LeafKind::Data),
        _ => None,
    }
}

/// The name of the value's variant.
pub fn name_of(value: &LeafValue) -> &'static str {
    match value {
        LeafValue::Text(_) => "Text",
        LeafValue::Flag(_) => "Flag",
        LeafValue::AttachedText(_) => "AttachedText",
        LeafValue::Endpoints(_) => "Endpoints",
        LeafValue::Authors(_) => "Authors",
        LeafValue::Entity(_) => "Entity",
        LeafValue::Hashes(_) => "Hashes",
        LeafValue::Properties(_) => "Properties",
        LeafValue::Commits(_) => "Commits",
        LeafValue::Patches(_) => "Patches",
        LeafValue::ExternalReferences(_) => "ExternalReferences",
        LeafValue::Dependencies(_) => "Dependencies",
        LeafValue::Compositions(_) => "Compositions",
        LeafValue::Licenses(_) => "Licenses",
        LeafValue::Signature(_) => "Signature",
        LeafValue::Tool(_) => "Tool",
        LeafValue::Swid(_) => "Swid",
        LeafValue::Evidence(_) => "Evidence",
        LeafValue::Data(_) => "Data",
    }
}
