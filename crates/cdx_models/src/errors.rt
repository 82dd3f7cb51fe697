//! What can go wrong with a bill: its faults, each with its place or path, and what a write may meet.

ghost use Rattle.std.specs.Prelude.{◌≡◌, IfOk};

use crate::bom::SpecVersion;
use cdx_events::{EventKind, List, OwnedName, Text};
use std::alloc::{AllocError, Global};

/// What a bill lacks that a version asks for.
#[derive(Clone, Copy, Debug, PartialEq, Eq)]
pub enum Lack {
    /// A component has no version, which 1.3 requires.
    VersionMissing,
}

/// Why a bill can't be written in a version.
#[derive(Debug, Drop)]
pub enum BomError {
    /// Kept for the crate's sake, and never answered.
    JsonSerializationError(Text),
    /// Kept for the crate's sake, and never answered.
    XmlSerializationError(Text),
    /// The version can't hold the bill.
    BomSerializationError(SpecVersion, Lack),
    /// Kept for the crate's sake, and never answered.
    UnsupportedSpecVersion(Text),
    /// Memory ran out.
    Memory(AllocError),
}

/// A step of a path into a JSON value: to a member of an object, or to an item of an array, from 0.
#[derive(Debug, Drop)]
pub enum Step {
    /// To the member of an object with this name.
    Member(Text),
    /// To the item of an array, counted from 0.
    Item(usize),
}

/// A path from the root of a JSON value to a part of it. A missing member has the path that it would have.
#[derive(Debug, Drop)]
pub struct Path(pub List<Step>);

/// What is wrong with a part of a JSON document.
#[derive(Clone, Copy, Debug, PartialEq, Eq)]
pub enum JsonKind {
    /// A floating-point number stands there.
    Float,
    /// A required member isn't there.
    Missing,
    /// The part is of another kind than the format says, or null where it is required.
    WrongKind,
    /// A number is no whole number from 0 to 4,294,967,295.
    OutOfRange,
    /// `bomFormat` isn't `CycloneDX`.
    BadFormat,
    /// `specVersion` is none of `1.3`, `1.4` and `1.5`.
    BadSpecVersion,
    /// A component stands inside 32 components, or a service inside 32 services.
    TooDeep,
}

/// Why a JSON document was refused.
#[derive(Debug, Drop)]
pub enum JsonReadError {
    /// The document's first fault.
    JsonElementReadError { path: Path, kind: JsonKind },
    /// Kept for the crate's sake, and never answered.
    BomError(BomError),
    /// Memory ran out.
    Memory(AllocError),
}

/// Why a bill wasn't written as JSON.
#[derive(Debug, Drop)]
pub enum JsonWriteError {
    /// The sink failed, after so many bytes.
    JsonElementWriteError { written: usize },
    /// The version can't hold the bill. It never holds `BomError::Memory`.
    BomError(BomError),
    /// Memory ran out.
    Memory(AllocError),
}

/// Why events could not be gathered.
#[derive(Clone, Copy, Debug, PartialEq, Eq)]
pub enum ReadKind {
    /// The source failed.
    Fault,
    /// The events are no document.
    Unbalanced,
    /// There were more events than allowed.
    Budget,
}

/// Why a document of events was refused. A place is the number of an event, from 0.
#[derive(Debug, Drop)]
pub enum XmlReadError {
    /// The events could not be gathered, or are no document.
    ElementReadError {
        /// Why no events could be had.
        kind: ReadKind,
        /// The place of the event, counted from 0.
        place: usize,
    },
    /// An event that the format doesn't know there, in the innermost open element.
    UnexpectedElementReadError {
        /// The place of the event, counted from 0.
        place: usize,
        /// The local name of the element in which it is met.
        element: Text,
        /// What stands there.
        found: EventKind,
    },
    /// An element lacks a required attribute, at its start, or a required child, at its end.
    RequiredDataMissing {
        /// The place of the event, counted from 0.
        place: usize,
        /// The local name of the element in which it is met.
        element: Text,
        /// What is missing.
        required_field: Text,
    },
    /// Kept for the crate's sake, and never answered.
    RequiredAttributeMissing {
        /// The place of the event, counted from 0.
        place: usize,
        /// The local name of the element in which it is met.
        element: Text,
        /// The local name of the attribute.
        attribute: Text,
    },
    /// A text that is no value of the data type, in the attribute or the element of this name.
    InvalidParseError {
        /// The place of the event, counted from 0.
        place: usize,
        /// The local name of the element in which it is met.
        element: Text,
        /// The text that is no such value.
        value: Text,
        /// What the text should be.
        data_type: Text,
    },
    /// The root's default namespace isn't that of the version.
    InvalidNamespaceError {
        /// The namespace of the version.
        expected_namespace: Text,
        /// The default namespace of the root, where there is one.
        actual_namespace: Option<Text>,
    },
    /// A component stands inside 32 components, or a service inside 32 services.
    TooDeep {
        /// The place of the event, counted from 0.
        place: usize,
    },
    /// Memory ran out.
    Memory(AllocError),
}

/// Why a bill wasn't written as events.
#[derive(Debug, Drop)]
pub enum XmlWriteError {
    /// The sink failed, after so many events.
    XmlElementWriteError { put: usize },
    /// The version can't hold the bill. It never holds `BomError::Memory`.
    BomError(BomError),
    /// Memory ran out.
    Memory(AllocError),
}

impl From<AllocError> for JsonReadError {
    ghost use Rattle.std.specs.Prelude.{◌≡◌};
    ghost use Rattle.cdx_models.specs.declared.errors.JsonReadError.TheVariants.{Memory};

    ghost from_gives = { λ a e. e ≡ Memory a };

    fn from(error: AllocError) -> JsonReadError {
        JsonReadError::Memory(error)
    }
}

impl From<AllocError> for JsonWriteError {
    ghost use Rattle.cdx_models.specs.declared.errors.JsonWriteError.TheVariants.{Memory};

    ghost from_gives = { λ a e. e ≡ Memory a };

    fn from(error: AllocError) -> JsonWriteError {
        JsonWriteError::Memory(error)
    }
}

impl From<AllocError> for XmlReadError {
    ghost use Rattle.cdx_models.specs.declared.errors.XmlReadError.TheVariants.{Memory};

    ghost from_gives = { λ a e. e ≡ Memory a };

    fn from(error: AllocError) -> XmlReadError {
        XmlReadError::Memory(error)
    }
}

impl From<AllocError> for XmlWriteError {
    ghost use Rattle.cdx_models.specs.declared.errors.XmlWriteError.TheVariants.{Memory};

    ghost from_gives = { λ a e. e ≡ Memory a };

    fn from(error: AllocError) -> XmlWriteError {
        XmlWriteError::Memory(error)
    }
}

impl XmlReadError {
    /// The fault of an element that lacks a required attribute or child, with the element's local name.
    pub fn required_data_missing(
        alloc: Global,
        place: usize,
        required_field: &str,
        element: &OwnedName,
    ) -> Result<XmlReadError, AllocError>
        ensures { IfOk result (λ e. e ≡ XmlReadError.RequiredDataMissing place
            element.now.local_name required_field.now) }
    {
        Ok(XmlReadError::RequiredDataMissing {
            place,
            element: element.local_name.copy(alloc)?,
            required_field: Text::new(alloc, required_field)?,
        })
    }
}
