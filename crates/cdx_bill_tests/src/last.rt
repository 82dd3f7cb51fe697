//! The last document of a road, made piece by piece.

use cdx_bom::{Bom, Form, Hop};
use cdx_events::Text;
use cdx_models::SpecVersion;
use cdx_print::Printed;
use cdx_test_cases::documents::line_of;
use std::alloc::{AllocError, Global};

// The pieces of the document's events, each after the one before.
fn joined(alloc: Global, bill: &Bom, version: SpecVersion) -> Result<String, AllocError> {
    let mut pieces = bill.document_pieces(alloc, version);
    let mut line = String::new(alloc);
    while let Some(piece) = pieces.next()? {
        if !line.is_empty() && !piece.as_slice().is_empty() {
            line.push('|')?;
        }
        line.push_str(line_of(alloc, piece.as_slice())?.as_str())?;
    }
    Ok(line)
}

/// The text of the document that the hop makes of the bill.
pub(crate) fn in_pieces(alloc: Global, bill: &Bom, hop: Hop) -> Result<Text, AllocError> {
    match hop.form {
        Form::Json => {
            let mut text = Printed::new(alloc);
            bill.print_json(alloc, hop.version, &mut text)?;
            text.finish()?.to_text(alloc)
        }
        Form::Xml => Ok(Text::from_string(joined(alloc, bill, hop.version)?)),
    }
}
