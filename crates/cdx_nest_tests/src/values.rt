//! Values that are compared, and as texts.

use cdx_json::ToJson;
use cdx_models::HasTree;
use cdx_nest::NestValue;
use cdx_test_cases::forms::V5;
use std::alloc::Global;
use std::test::Fail;

/// Whether the values stand in the same variant and are the same.
pub fn same(one: &NestValue, other: &NestValue) -> bool {
    match (one, other) {
        (NestValue::Tools(one), NestValue::Tools(other)) => one.equals(other),
        (NestValue::Component(one), NestValue::Component(other)) => one.equals(other),
        (NestValue::Components(one), NestValue::Components(other)) => one.equals(other),
        (NestValue::Pedigree(one), NestValue::Pedigree(other)) => one.equals(other),
        (NestValue::Service(one), NestValue::Service(other)) => one.equals(other),
        (NestValue::Services(one), NestValue::Services(other)) => one.equals(other),
        (NestValue::Metadata(one), NestValue::Metadata(other)) => one.equals(other),
        _ => false,
    }
}

fn text<T: ToJson>(alloc: Global, value: &T) -> Result<String, Fail> {
    Ok(value.to_json(alloc, V5)?.to_string(alloc)?)
}

/// The value as JSON of 1.5.
pub fn as_text(alloc: Global, value: &NestValue) -> Result<String, Fail> {
    match value {
        NestValue::Tools(tools) => text(alloc, tools),
        NestValue::Component(component) => text(alloc, component),
        NestValue::Components(components) => text(alloc, components),
        NestValue::Pedigree(pedigree) => text(alloc, pedigree),
        NestValue::Service(service) => text(alloc, service),
        NestValue::Services(services) => text(alloc, services),
        NestValue::Metadata(metadata) => text(alloc, metadata),
    }
}
