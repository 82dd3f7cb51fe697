//! Faults, and where they stand.

ghost use Rattle.std.specs.Prelude.{◌≡◌};
ghost use Rattle.cdx_schema.specs.Early.{place_of, unbalanced};

use cdx_models::{ReadKind, XmlReadError};

// A namespace is refused at the root's start.
pub(crate) fn place_of(fault: &XmlReadError) -> usize
    ensures { result ≡ place_of fault.now }
{
    match fault {
        XmlReadError::ElementReadError { place, .. } => *place,
        XmlReadError::UnexpectedElementReadError { place, .. } => *place,
        XmlReadError::RequiredDataMissing { place, .. } => *place,
        XmlReadError::InvalidParseError { place, .. } => *place,
        XmlReadError::InvalidNamespaceError { .. } => 1,
        XmlReadError::TooDeep { place } => *place,
        XmlReadError::RequiredAttributeMissing { .. } => 0,
        XmlReadError::Memory(_) => 0,
    }
}

// Events that are out of balance at this place.
pub(crate) fn unbalanced(place: usize) -> XmlReadError
    ensures { result ≡ unbalanced place }
{
    XmlReadError::ElementReadError {
        kind: ReadKind::Unbalanced,
        place,
    }
}
