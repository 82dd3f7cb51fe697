//! Values that are compared.

use cdx_models::HasTree;
use cdx_push::LeafValue;

/// Whether the values stand in the same variant and are the same.
pub fn same(one: &LeafValue, other: &LeafValue) -> bool {
    match (one, other) {
        (LeafValue::Text(one), LeafValue::Text(other)) => one.equals(other),
        (LeafValue::Flag(one), LeafValue::Flag(other)) => one.equals(other),
        (LeafValue::AttachedText(one), LeafValue::AttachedText(other)) => one.equals(other),
        (LeafValue::Endpoints(one), LeafValue::Endpoints(other)) => one.equals(other),
        (LeafValue::Authors(one), LeafValue::Authors(other)) => one.equals(other),
        (LeafValue::Entity(one), LeafValue::Entity(other)) => one.equals(other),
        (LeafValue::Hashes(one), LeafValue::Hashes(other)) => one.equals(other),
        (LeafValue::Properties(one), LeafValue::Properties(other)) => one.equals(other),
        (LeafValue::Commits(one), LeafValue::Commits(other)) => one.equals(other),
        (LeafValue::Patches(one), LeafValue::Patches(other)) => one.equals(other),
        _ => same_second(one, other),
    }
}

// The same, of the variants that are left.
fn same_second(one: &LeafValue, other: &LeafValue) -> bool {
    match (one, other) {
        (LeafValue::ExternalReferences(one), LeafValue::ExternalReferences(other)) => {
            one.equals(other)
        }
        (LeafValue::Dependencies(one), LeafValue::Dependencies(other)) => one.equals(other),
        (LeafValue::Compositions(one), LeafValue::Compositions(other)) => one.equals(other),
        (LeafValue::Licenses(one), LeafValue::Licenses(other)) => one.equals(other),
        (LeafValue::Signature(one), LeafValue::Signature(other)) => one.equals(other),
        (LeafValue::Tool(one), LeafValue::Tool(other)) => one.equals(other),
        (LeafValue::Swid(one), LeafValue::Swid(other)) => one.equals(other),
        (LeafValue::Evidence(one), LeafValue::Evidence(other)) => one.equals(other),
        (LeafValue::Data(one), LeafValue::Data(other)) => one.equals(other),
        _ => false,
    }
}
