//! Kinds by the names of their variants.

use cdx_nest::{NestKind, NestValue};

/// The kind of this name.
pub fn kind_named(name: &str) -> Option<NestKind> {
    match name {
        "Tools" => Some(NestKind::Tools),
        "Component" => Some(NestKind::Component),
        "Components" => Some(NestKind::Components),
        "Pedigree" => Some(NestKind::Pedigree),
        "Service" => Some(NestKind::Service),
        "Services" => Some(NestKind::Services),
        "Metadata" => Some(NestKind::Metadata),
        _ => None,
    }
}

/// The name of the value's variant.
pub fn name_of(value: &NestValue) -> &'static str {
    match value {
        NestValue::Tools(_) => "Tools",
        NestValue::Component(_) => "Component",
        NestValue::Components(_) => "Components",
        NestValue::Pedigree(_) => "Pedigree",
        NestValue::Service(_) => "Service",
        NestValue::Services(_) => "Services",
        NestValue::Metadata(_) => "Metadata",
    }
}
