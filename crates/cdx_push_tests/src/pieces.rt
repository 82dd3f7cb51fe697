//! Elements as lines, for machines that are fed them: the document of a line, the elements that its beginnings would be, and
//! where a fault stands in it.

use cdx_events::Events;
use cdx_models::XmlReadError;
use cdx_test_cases::documents::document;
use cdx_test_cases::rows::parted;
use std::alloc::{AllocError, Global};
use std::test::Fail;

/// The document of the element, whose root stands at place 1.
pub fn around(alloc: Global, element: &str) -> Result<Events, Fail> {
    let whole = format!(in alloc; "start|{element}|end")?;
    document(alloc, whole.as_str())
}

// The names of the elements that the pieces leave open, the outermost first.
fn open_after<'a>(
    alloc: Global,
    element: &'a str,
    count: usize,
) -> Result<Vec<&'a str>, AllocError> {
    let mut open = Vec::new(alloc);
    for piece in element.split('|').take(count) {
        if let Some(words) = piece.strip_prefix('<') {
            open.push(parted(words).0)?;
        } else if piece.starts_with('>') {
            open.pop();
        }
    }
    Ok(open)
}

// The first pieces of the element.
fn first_pieces(alloc: Global, element: &str, count: usize) -> Result<String, AllocError> {
    let mut line = String::new(alloc);
    for piece in element.split('|').take(count) {
        if !line.is_empty() {
            line.push('|')?;
        }
        line.push_str(piece)?;
    }
    Ok(line)
}

/// The first pieces of the element, with the ends of what they leave open, the innermost first.
pub fn ended(alloc: Global, element: &str, count: usize) -> Result<String, AllocError> {
    let mut line = first_pieces(alloc, element, count)?;
    let open = open_after(alloc, element, count)?;
    for name in open.iter().rev() {
        line.push_str("|>")?;
        line.push_str(name)?;
    }
    Ok(line)
}

/// Where the fault stands.
pub fn place_of(fault: &XmlReadError) -> usize {
    match fault {
        XmlReadError::UnexpectedElementReadError { place, .. } => *place,
        XmlReadError::RequiredDataMissing { place, .. } => *place,
        XmlReadError::InvalidParseError { place, .. } => *place,
        XmlReadError::TooDeep { place } => *place,
        _ => 0,
    }
}
