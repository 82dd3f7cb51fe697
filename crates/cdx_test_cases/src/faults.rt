//! Faults of reading in one line each: the cause, and where it stands.

use cdx_models::{JsonReadError, XmlReadError};
use std::alloc::{AllocError, Global};

/// The cause, and the path where it isn't the whole value.
pub fn json_fault_line(alloc: Global, fault: &JsonReadError) -> Result<String, AllocError> {
    let JsonReadError::JsonElementReadError { path, kind } = fault else {
        return String::from_str(alloc, "another fault");
    };
    let path = path.print(alloc)?;
    if path.as_str().is_empty() {
        return format!(in alloc; "{kind:?}");
    }
    format!(in alloc; "{kind:?} {}", path.as_str())
}

/// The cause, the place and the texts.
pub fn xml_fault_line(alloc: Global, fault: &XmlReadError) -> Result<String, AllocError> {
    match fault {
        XmlReadError::ElementReadError { kind, place } => format!(in alloc; "{kind:?} {place}"),
        XmlReadError::UnexpectedElementReadError {
            place,
            element,
            found,
        } => format!(in alloc; "unexpected {place} {} {found:?}", element.as_str()),
        XmlReadError::RequiredDataMissing {
            place,
            element,
            required_field,
        } => format!(in alloc;
            "missing {place} {} {}",
            element.as_str(),
            required_field.as_str()
        ),
        XmlReadError::TooDeep { place } => format!(in alloc; "too deep {place}"),
        _ => fault_of_text(alloc, fault),
    }
}

// The fault of a text that is no value, or no namespace of the version.
fn fault_of_text(alloc: Global, fault: &XmlReadError) -> Result<String, AllocError> {
    match fault {
        XmlReadError::InvalidParseError {
            place,
            element,
            value,
            data_type,
        } => format!(in alloc;
            "parse {place} {} {} {}",
            element.as_str(),
            value.as_str(),
            data_type.as_str()
        ),
        XmlReadError::InvalidNamespaceError {
            expected_namespace,
            actual_namespace,
        } => {
            let actual = match actual_namespace {
                Some(actual) => actual.as_str(),
                None => "none",
            };
            format!(in alloc; "{actual} for {}", expected_namespace.as_str())
        }
        _ => String::from_str(alloc, "another fault"),
    }
}
