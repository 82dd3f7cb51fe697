//! The namespaces of the versions.

ghost use Rattle.std.specs.Prelude.{◌≡◌};
ghost use Rattle.cdx_models.specs.Versions.{namespace};
ghost use Rattle.cdx_leaf.specs.Fault.{Denotes};
ghost use Rattle.cdx_leaf.specs.Tags.{namespace_read};

use cdx_events::{Namespace, Text};
use cdx_models::{SpecVersion, XmlReadError};
use std::alloc::Global;

/// The default namespace of a document of the version, by CycloneDX.
pub fn namespace_of(version: SpecVersion) -> &'static str
    ensures { result.now ≡ namespace version }
{
    match version {
        SpecVersion::V1_3 => "http://cyclonedx.org/schema/bom/1.3",
        SpecVersion::V1_4 => "http://cyclonedx.org/schema/bom/1.4",
        SpecVersion::V1_5 => "http://cyclonedx.org/schema/bom/1.5",
    }
}

/// Ok where the default namespace is that of `version`. `InvalidNamespaceError` exactly where it is another, the empty one
/// among them, or where there is none.
pub fn expected_namespace_or_error(
    alloc: Global,
    version: SpecVersion,
    namespace: &Namespace,
) -> Result<(), XmlReadError>
    ensures { Denotes (λ u. u) (namespace_read version namespace.now) result }
{
    let expected = namespace_of(version);
    let actual_namespace = match &namespace.default {
        None => None,
        Some(actual) => {
            if actual.is(expected) {
                return Ok(());
            }
            Some(actual.copy(alloc)?)
        }
    };
    Err(XmlReadError::InvalidNamespaceError {
        expected_namespace: Text::new(alloc, expected)?,
        actual_namespace,
    })
}
