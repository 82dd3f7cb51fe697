//! The reader of bills that is fed.

ghost use Rattle.std.specs.Prelude.{◌≡◌, ◌+◌, ◌≤◌, List, [], ◌++◌, length, true, false, None, option_copied};
ghost use Rattle.cdx_events.specs.declared.event.XmlEvent.{XmlEvent};
ghost use Rattle.cdx_schema.specs.Early.{IsEarly};
ghost use Rattle.cdx_push_reader.specs.Pushed.{heard};
ghost use Rattle.cdx_push_reader.specs.PushAnswers.{reader_version, fault_of, is_spent, lacks_memory, is_want, Feeds, TellsFault, Finishes};
ghost use Rattle.cdx_bom.specs.Trees.{bom_tree};

use crate::bom::Bom;
use crate::push::machine::BillMachine;
use cdx_events::XmlEvent;
use cdx_models::{SpecVersion, XmlReadError};
use cdx_push_reader::{DocumentReader, PushError, RootMachine};
use std::alloc::Global;
use std::fmt;

/// Reads a bill from the events of an XML document that come piece by piece, and tells the first fault as soon as it is
/// there. It keeps no event and looks at each once. The document start has place 0, the root's start place 1.
///
/// Once memory has run out in a `feed` it is spent: every later `feed`, and `finish`, answers so.
#[derive(Drop)]
pub struct PushReader {
    fed: DocumentReader<BillMachine>,
}

// What it holds may be long, and isn't shown.
impl fmt::Debug for PushReader {
    fn fmt<W: fmt::Write>(&self, f: &mut fmt::Formatter<W>) -> fmt::Result {
        f.write_str("PushReader")
    }
}

impl PushReader {
    /// A reader of bills of this version that was fed nothing yet. It takes no memory.
    pub fn new(alloc: Global, version: SpecVersion) -> PushReader
        ensures heard { heard ⟦<BillMachine as RootMachine>⟧.holds bom_tree result.fed [] }
        ensures version { reader_version result.fed ≡ version }
        ensures sound { is_spent result.fed ≡ false }
        ensures fault { fault_of result.fed ≡ None }
    {
        PushReader {
            fed: DocumentReader::new(alloc, version),
        }
    }

    /// Takes a piece of events.
    ///
    /// Refused exactly where the events fed so far hold a fault: in the piece that holds its place, and ever after. The
    /// place is that of the first fault among all events fed; where an imbalance and a fault of the bill stand at one
    /// place, the imbalance comes first. Where memory runs out, every later `feed` and `finish` answers so.
    pub fn feed(&mut self, piece: &[XmlEvent]) -> Result<(), PushError>
        requires { (events : List XmlEvent)
            × heard ⟦<BillMachine as RootMachine>⟧.holds bom_tree self.old.fed events
            × (length events + length piece.now ≤ usize.MAX) }
        ensures answer { (events : List XmlEvent)
            → heard ⟦<BillMachine as RootMachine>⟧.holds bom_tree self.old.fed events
            → Feeds (reader_version self.old.fed) (events ++ piece.now) result }
        ensures heard { (events : List XmlEvent)
            → heard ⟦<BillMachine as RootMachine>⟧.holds bom_tree self.old.fed events
            → heard ⟦<BillMachine as RootMachine>⟧.holds bom_tree self.new.fed
            (events ++ piece.now) }
        ensures version { reader_version self.new.fed ≡ reader_version self.old.fed }
        ensures spent { is_spent self.new.fed ≡ lacks_memory result }
        ensures again { is_spent self.old.fed ≡ true → lacks_memory result ≡ true }
        ensures told { TellsFault result (fault_of self.old.fed) (fault_of self.new.fed) }
    {
        self.fed.feed(piece)
    }

    /// The first fault, once `feed` was refused; an imbalance is `ElementReadError` of kind `Unbalanced`. None exactly
    /// where `feed` was never refused. It takes no memory.
    pub fn fault(&self) -> Option<&XmlReadError>
        ensures told { option_copied result ≡ fault_of self.now.fed }
        ensures early { (events : List XmlEvent)
            → heard ⟦<BillMachine as RootMachine>⟧.holds bom_tree self.now.fed events
            → is_spent self.now.fed ≡ false
            → IsEarly (reader_version self.now.fed) events (option_copied result) }
    {
        self.fed.fault()
    }

    /// The bill, exactly where the events fed are balanced and denote it. Else the first fault of the events fed, where
    /// there is one; else `ElementReadError` of kind `Unbalanced` with their number, where they are no whole document.
    /// Or want of memory, exactly where it ran out in a `feed`: this takes none.
    pub fn finish(self) -> Result<Bom, XmlReadError>
        ensures answer { (events : List XmlEvent)
            → heard ⟦<BillMachine as RootMachine>⟧.holds bom_tree self.fed events
            → is_spent self.fed ≡ false
            → Finishes bom_tree (reader_version self.fed) events result }
        ensures again { is_spent self.fed ≡ true → is_want result ≡ true }
        ensures sound { (events : List XmlEvent)
            → heard ⟦<BillMachine as RootMachine>⟧.holds bom_tree self.fed events
            → is_spent self.fed ≡ false → is_want result ≡ false }
    {
        self.fed.finish()
    }
}
