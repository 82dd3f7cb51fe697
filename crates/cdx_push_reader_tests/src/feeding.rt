//! A reader of bills that is fed pieces of events.

use crate::told::told;
use cdx_bom::PushReader;
use cdx_events::XmlEvent;
use cdx_models::SpecVersion;
use std::alloc::Global;
use std::test::Fail;

/// A reader of bills that was fed pieces, and what it answered to each of them and told after it, in a line.
#[derive(Drop)]
pub struct Fed {
    /// The reader.
    pub reader: PushReader,
    /// What it answered to each piece, and told after it.
    pub answers: Vec<String>,
}

/// Feeds the pieces to a new reader of bills of the version, whatever it answers to the ones before.
pub fn feed_each(alloc: Global, version: SpecVersion, pieces: &[&[XmlEvent]]) -> Result<Fed, Fail> {
    let mut reader = PushReader::new(alloc, version);
    let mut answers = Vec::new(alloc);
    let mut count = 0usize;
    'pieces: for piece in pieces {
        if piece.len() > usize::MAX - count {
            return Err(Fail::new("more events than can be counted"));
        }
        count += piece.len();
        let answer = reader.feed(piece);
        answers.push(told(alloc, answer, reader.fault())?)?;
    }
    Ok(Fed { reader, answers })
}
