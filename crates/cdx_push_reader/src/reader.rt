//! Readers of documents that are fed piece by piece.

ghost use Rattle.std.specs.Prelude.{◌≡◌, ◌+◌, ◌≤◌, List, [], ◌++◌, length, true, false, None, option_copied};
ghost use Rattle.cdx_events.specs.declared.event.XmlEvent.{XmlEvent};
ghost use Rattle.cdx_schema.specs.Early.{IsEarly};
ghost use Rattle.cdx_push_reader.specs.Pushed.{heard};
ghost use Rattle.cdx_push_reader.specs.PushAnswers.{reader_version, fault_of, is_spent, lacks_memory, is_want, refused_by, spent_by, push_error, Feeds, TellsFault, Finishes};

use crate::hearing::Hearing;
use crate::machine::RootMachine;
use crate::places::place_of;
use cdx_events::XmlEvent;
use cdx_models::{SpecVersion, XmlReadError};
use std::alloc::{AllocError, Global};

/// Why a piece of events wasn't taken.
#[derive(Clone, Copy, Debug, PartialEq, Eq)]
pub enum PushError {
    /// The events fed so far hold a fault, the first of which stands at this place.
    Refused { place: usize },
    /// Memory ran out.
    Memory(AllocError),
}

/// Reads a document from events that come piece by piece, and tells the first fault as soon as it is there. It keeps no
/// event. Once memory has run out it is spent: every later `feed`, and `finish`, answers so.
pub struct DocumentReader<M: RootMachine> {
    fed: usize,
    hearing: Hearing<M>,
    refused: Option<XmlReadError>,
    spent: Option<AllocError>,
}

// By hand, so that one is freed by a call wherever it ends, and not field by field.
impl<M: RootMachine> Drop for DocumentReader<M> {
    fn drop(self) {
        let DocumentReader {
            fed: _,
            hearing: _,
            refused: _,
            spent: _,
        } = self;
    }
}

impl<M: RootMachine> DocumentReader<M> {
    /// A reader of documents of this version that was fed nothing yet. It takes no memory.
    pub fn new(alloc: Global, version: SpecVersion) -> DocumentReader<M>
        ensures heard { heard M.holds M.tree result [] }
        ensures version { reader_version result ≡ version }
        ensures sound { is_spent result ≡ false }
        ensures fault { fault_of result ≡ None }
    {
        DocumentReader {
            fed: 0,
            hearing: Hearing::new(alloc, version),
            refused: None,
            spent: None,
        }
    }

    // Keeps why a piece wasn't taken.
    fn refuse(&mut self, error: XmlReadError) -> PushError
        ensures fed { self.new.fed ≡ self.old.fed }
        ensures hearing { self.new.hearing ≡ self.old.hearing }
        ensures refused { self.new.refused ≡ refused_by error self.old.refused }
        ensures spent { self.new.spent ≡ spent_by error self.old.spent }
        ensures error { result ≡ push_error error }
    {
        match error {
            XmlReadError::Memory(error) => {
                self.spent = Some(error);
                PushError::Memory(error)
            }
            fault => {
                let place = place_of(&fault);
                self.refused = Some(fault);
                PushError::Refused { place }
            }
        }
    }

    /// Takes a piece of events.
    ///
    /// Refused exactly where the events fed so far hold a fault: in the piece that holds its place, and ever after. The
    /// place is that of the first fault; where an imbalance and a fault of the document stand at one place, the imbalance
    /// comes first. Where memory runs out, every later `feed` and `finish` answers so.
    pub fn feed(&mut self, piece: &[XmlEvent]) -> Result<(), PushError>
        requires { (events : List XmlEvent) × heard M.holds M.tree self.old events
            × (length events + length piece.now ≤ usize.MAX) }
        ensures answer { (events : List XmlEvent) → heard M.holds M.tree self.old events
            → Feeds (reader_version self.old) (events ++ piece.now) result }
        ensures heard { (events : List XmlEvent) → heard M.holds M.tree self.old events
            → heard M.holds M.tree self.new (events ++ piece.now) }
        ensures version { reader_version self.new ≡ reader_version self.old }
        ensures spent { is_spent self.new ≡ lacks_memory result }
        ensures again { is_spent self.old ≡ true → lacks_memory result ≡ true }
        ensures told { TellsFault result (fault_of self.old) (fault_of self.new) }
    {
        let first = self.fed;
        self.fed = first + piece.len();
        if let Some(error) = self.spent {
            return Err(PushError::Memory(error));
        }
        if let Some(fault) = &self.refused {
            return Err(PushError::Refused {
                place: place_of(fault),
            });
        }
        match self.hearing.hear_all(first, piece) {
            Ok(()) => Ok(()),
            Err(error) => Err(self.refuse(error)),
        }
    }

    /// The first fault, once `feed` was refused; an imbalance is `ElementReadError` of kind `Unbalanced`. None exactly
    /// where `feed` was never refused. It takes no memory.
    pub fn fault(&self) -> Option<&XmlReadError>
        ensures told { option_copied result ≡ fault_of self.now }
        ensures early { (events : List XmlEvent) → heard M.holds M.tree self.now events
            → is_spent self.now ≡ false
            → IsEarly (reader_version self.now) events (option_copied result) }
    {
        self.refused.as_ref()
    }

    /// The bill, exactly where the events fed are balanced and denote it. Else the first fault of the events fed, where
    /// there is one; else `ElementReadError` of kind `Unbalanced` with their number, where they are no whole document.
    /// Or want of memory, exactly where it ran out in a `feed`: this takes none.
    pub fn finish(self) -> Result<M::Value, XmlReadError>
        ensures answer { (events : List XmlEvent) → heard M.holds M.tree self events
            → is_spent self ≡ false → Finishes M.tree (reader_version self) events result }
        ensures again { is_spent self ≡ true → is_want result ≡ true }
        ensures sound { (events : List XmlEvent) → heard M.holds M.tree self events
            → is_spent self ≡ false → is_want result ≡ false }
    {
        let DocumentReader {
            fed,
            hearing,
            refused,
            spent,
        } = self;
        if let Some(error) = spent {
            return Err(XmlReadError::Memory(error));
        }
        if let Some(fault) = refused {
            return Err(fault);
        }
        hearing.finish(fed)
    }
}
