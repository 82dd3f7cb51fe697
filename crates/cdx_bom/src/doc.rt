//! Documents, and roads of hops from one to the next.

use cdx_events::Events;
use cdx_models::{BomError, JsonReadError, SpecVersion, XmlReadError};
use serde_json::Value;
use std::alloc::AllocError;

/// A bill as a document.
#[derive(Debug, Drop)]
pub enum Doc {
    /// A JSON value.
    Json(Value),
    /// The events of an XML document.
    Xml(Events),
}

/// The form of a document.
#[derive(Clone, Copy, Debug, PartialEq, Eq)]
pub enum Form {
    /// JSON.
    Json,
    /// Events of XML.
    Xml,
}

/// One writing of a bill: the form and the version of the document that is written.
#[derive(Clone, Copy, Debug, PartialEq, Eq)]
pub struct Hop {
    /// The form that is written.
    pub form: Form,
    /// The version that is written.
    pub version: SpecVersion,
}

/// Why a road gives no documents.
#[derive(Debug, Drop)]
pub enum RoadError {
    /// The first fault of the JSON document. It never holds `JsonReadError::Memory`.
    Json(JsonReadError),
    /// The first fault of the document of events. It never holds `XmlReadError::Memory`.
    Xml(XmlReadError),
    /// A hop's version can't hold the bill. It never holds `BomError::Memory`.
    Bom(BomError),
    /// Memory ran out.
    Memory(AllocError),
}

impl From<AllocError> for RoadError {
    ghost use Rattle.std.specs.Prelude.{◌≡◌};
    ghost use Rattle.cdx_bom.specs.declared.doc.RoadError.TheVariants.{Memory};

    ghost from_gives = { λ a e. e ≡ Memory a };

    fn from(error: AllocError) -> RoadError {
        RoadError::Memory(error)
    }
}
