//! What is refused: a bill that doesn't fit, and the errors of readers as errors of roads.

ghost use Rattle.std.specs.Prelude.{◌≡◌};
ghost use Rattle.cdx_models.specs.declared.bom.SpecVersion.{SpecVersion};
ghost use Rattle.cdx_models.specs.declared.errors.BomError.{BomError};
ghost use Rattle.cdx_models.specs.declared.errors.Lack.{Lack};
ghost use Rattle.cdx_bom.specs.Refused.{is_memory};

use crate::doc::RoadError;
use cdx_models::{BomError, JsonReadError, Lack, SpecVersion, XmlReadError};
use std::alloc::AllocError;

// Why a bill doesn't fit: 1.3 requires the version of a component, and one has none.
pub(crate) fn lacks_version() -> BomError
    ensures { result ≡ BomError.BomSerializationError SpecVersion.V1_3 Lack.VersionMissing }
{
    BomError::BomSerializationError(SpecVersion::V1_3, Lack::VersionMissing)
}

impl From<JsonReadError> for RoadError {
    ghost use Rattle.cdx_bom.specs.Refused.{of_json_error};

    ghost from_gives = { λ r e. e ≡ of_json_error r };

    /// Want of memory becomes `Memory`.
    fn from(error: JsonReadError) -> RoadError {
        match error {
            JsonReadError::Memory(error) => RoadError::Memory(error),
            JsonReadError::BomError(error) => RoadError::Json(JsonReadError::BomError(error)),
            JsonReadError::JsonElementReadError { path, kind } => {
                RoadError::Json(JsonReadError::JsonElementReadError { path, kind })
            }
        }
    }
}

fn is_memory(error: &XmlReadError) -> bool
    ensures { result ≡ is_memory error.now }
{
    matches!(error, XmlReadError::Memory(_))
}

impl From<XmlReadError> for RoadError {
    ghost use Rattle.cdx_bom.specs.Refused.{of_xml_error};

    ghost from_gives = { λ r e. e ≡ of_xml_error r };

    /// Want of memory becomes `Memory`.
    fn from(error: XmlReadError) -> RoadError {
        if is_memory(&error) {
            RoadError::Memory(AllocError)
        } else {
            RoadError::Xml(error)
        }
    }
}
