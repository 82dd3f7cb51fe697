//! Readers that are fed the pieces of a row, as `versions pieces given -> answers`.
//!
//! In what is given ` / ` parts the pieces; `empty` is a piece without an event, and `nothing` is no piece. The answers are
//! those to each piece and, after them, what the reader comes to: the bill as JSON of 1.5, or the fault.

use crate::lines::answered;
use cdx_events::{List, XmlEvent};
use cdx_test_cases::checks::row_is;
use cdx_test_cases::documents::list_of;
use cdx_test_cases::rows::{Case, cases};
use std::alloc::{AllocError, Global};
use std::test::Fail;

const PIECES: &str = r#"
    // no piece, and pieces without an event
    1.3,1.4,1.5 pieces nothing -> Unbalanced 0
    1.3,1.4,1.5 pieces empty / empty -> more / more / Unbalanced 0
    1.5 pieces empty / start|<bom xmlns=1.5 / empty / >bom / end / empty -> more / more / more / more / more / more / {"bomFormat":"CycloneDX","specVersion":"1.5","version":1}

    // a root of another name
    1.5 pieces start|<foo|>foo -> 1: unexpected 1 bom StartElement / unexpected 1 bom StartElement

    // an end of another name
    1.5 pieces start|<bom xmlns=1.5 version=1|>x -> 2: Unbalanced 2 / Unbalanced 2

    // the first five events of the bill of one tool, and a document without its end
    1.5 pieces start|<bom xmlns=1.5 serialNumber=U version=1|<metadata|<tools|<tool -> more / Unbalanced 5
    1.5 pieces start|<bom xmlns=1.5 / >bom -> more / more / Unbalanced 3

    // the place of a fault counts the events of all pieces
    1.4 pieces start|<bom xmlns=1.4 / <components|<component type=library / =x|>component -> more / more / 4: unexpected 4 component Characters / unexpected 4 component Characters

    // refused once, and again whatever comes
    1.5 pieces start|<foo / empty / >foo / end / empty -> 1: unexpected 1 bom StartElement / 1: unexpected 1 bom StartElement / 1: unexpected 1 bom StartElement / 1: unexpected 1 bom StartElement / 1: unexpected 1 bom StartElement / unexpected 1 bom StartElement
    1.5 pieces start|<bom xmlns=1.5 / =x / empty / >x / =y -> more / 2: unexpected 2 bom Characters / 2: unexpected 2 bom Characters / 2: unexpected 2 bom Characters / 2: unexpected 2 bom Characters / unexpected 2 bom Characters
    1.5 pieces start|<bom xmlns=1.5|>x / empty / >bom|end -> 2: Unbalanced 2 / 2: Unbalanced 2 / 2: Unbalanced 2 / Unbalanced 2

    // a whole document, and then more
    1.4 pieces start|<bom xmlns=1.4|>bom|end|end -> 4: Unbalanced 4 / Unbalanced 4
    1.5 pieces start|<bom xmlns=1.5|>bom|end / empty / start / empty -> more / more / 4: Unbalanced 4 / 4: Unbalanced 4 / Unbalanced 4
"#;

fn piece_of(alloc: Global, piece: &str) -> Result<List<XmlEvent>, AllocError> {
    if piece == "empty" {
        return Ok(List::new(alloc));
    }
    list_of(alloc, piece)
}

fn pieces_of(alloc: Global, given: &str) -> Result<Vec<List<XmlEvent>>, AllocError> {
    let mut pieces = Vec::new(alloc);
    if given == "nothing" {
        return Ok(pieces);
    }
    for piece in given.split(" / ") {
        pieces.push(piece_of(alloc, piece)?)?;
    }
    Ok(pieces)
}

fn slices(alloc: Global, pieces: &[List<XmlEvent>]) -> Result<Vec<&[XmlEvent]>, AllocError> {
    let mut slices = Vec::new(alloc);
    for piece in pieces {
        slices.push(piece.as_slice())?;
    }
    Ok(slices)
}

fn found(alloc: Global, case: &Case<'_>) -> Result<String, Fail> {
    let pieces = pieces_of(alloc, case.given)?;
    let slices = slices(alloc, pieces.as_slice())?;
    answered(alloc, case.version, slices.as_slice())
}

#[test]
fn fed_piece_by_piece(rt: HostRuntime) -> Result<(), Fail> {
    let alloc = rt.alloc();
    for case in &cases(alloc, PIECES)? {
        row_is(case.line, found(alloc, case)?.as_str(), case.answer)?;
    }
    Ok(())
}
