//! The version and the serial number of a bill.

ghost use Rattle.std.specs.Prelude.{◌≡◌, refl, ◌↔◌, IsTrue};
ghost use Rattle.cdx_models.specs.Versions.{label, version_of, lowest, knows};
ghost use Rattle.cdx_models.specs.Records.{urn_tree};
ghost use Rattle.cdx_models.specs.Equal.{equal};
ghost use Rattle.cdx_models.specs.EqualLaws.{equal_laws};

use crate::tree::HasTree;
use cdx_events::Text;
use std::alloc::{AllocError, Global};

/// A version of the format.
#[derive(Clone, Copy, Debug, PartialEq, Eq)]
pub enum SpecVersion {
    /// Version 1.3.
    V1_3,
    /// Version 1.4.
    V1_4,
    /// Version 1.5.
    V1_5,
}

impl SpecVersion {
    /// The version's label, as `1.4`.
    pub fn as_str(self) -> &'static str
        ensures { result.now ≡ label self }
    {
        match self {
            SpecVersion::V1_3 => "1.3",
            SpecVersion::V1_4 => "1.4",
            SpecVersion::V1_5 => "1.5",
        }
    }

    /// The version with this label, and None for any other text.
    pub fn from_text(text: &str) -> Option<SpecVersion>
        ensures { result ≡ version_of text.now }
    {
        match text {
            "1.3" => Some(SpecVersion::V1_3),
            "1.4" => Some(SpecVersion::V1_4),
            "1.5" => Some(SpecVersion::V1_5),
            _ => None,
        }
    }

    /// The lower of the two.
    pub fn lowest(self, other: SpecVersion) -> SpecVersion
        ensures { result ≡ lowest self other }
    {
        match (self, other) {
            (SpecVersion::V1_3, _) | (_, SpecVersion::V1_3) => SpecVersion::V1_3,
            (SpecVersion::V1_4, _) | (_, SpecVersion::V1_4) => SpecVersion::V1_4,
            _ => SpecVersion::V1_5,
        }
    }

    /// Whether something that is there from this version on is known to `version`.
    pub fn is_known_to(self, version: SpecVersion) -> bool
        ensures { result ≡ knows self version }
    {
        match self {
            SpecVersion::V1_3 => true,
            SpecVersion::V1_4 => version != SpecVersion::V1_3,
            SpecVersion::V1_5 => version == SpecVersion::V1_5,
        }
    }
}

/// A bill's serial number: a text, `urn:uuid:` and a UUID by CycloneDX, which isn't checked.
#[derive(Debug, Drop)]
pub struct UrnUuid(pub Text);

impl HasTree for UrnUuid {
    ghost tree = { urn_tree };

    ghost there = { λ x. refl };

    fn copy(&self, alloc: Global) -> Result<UrnUuid, AllocError> {
        Ok(UrnUuid(self.0.copy(alloc)?))
    }

    fn agrees(&self, other: &UrnUuid) -> bool {
        self.0.agrees(&other.0)
    }
}

impl PartialEq for UrnUuid {
    ghost eq = { λ a b. equal (urn_tree a) (urn_tree b) };

    ghost laws = { equal_laws urn_tree };

    fn eq(&self, other: &UrnUuid) -> bool
        ensures test { result ≡ equal (urn_tree self.now) (urn_tree other.now) }
        ensures equality { IsTrue result ↔ (urn_tree self.now ≡ urn_tree other.now) }
    {
        self.equals(other)
    }
}
