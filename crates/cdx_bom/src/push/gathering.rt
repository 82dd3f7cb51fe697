//! The reader of bills that takes events one after another.

ghost use Rattle.std.specs.Prelude.{◌≡◌, List, [], ◌∷◌, ◌++◌, length, IfOk};
ghost use Rattle.cdx_events.specs.declared.event.XmlEvent.{XmlEvent};
ghost use Rattle.cdx_push_reader.specs.Gathered.{Gathered, gathering_version, ReadsList};
ghost use Rattle.cdx_bom.specs.Trees.{bom_tree};

use crate::bom::Bom;
use crate::push::machine::BillMachine;
use cdx_events::XmlEvent;
use cdx_models::{SpecVersion, XmlReadError};
use cdx_push_reader::{Gathering, RootMachine};
use std::alloc::{AllocError, Global};
use std::fmt;

/// Reads a bill from the events of a list that come one after another. It keeps no event and looks at each once. It answers
/// at the end alone, and an imbalance anywhere in the list then goes before each fault of the bill.
#[derive(Drop)]
pub struct GatheringReader {
    gathering: Gathering<BillMachine>,
}

// What it holds may be long, and isn't shown.
impl fmt::Debug for GatheringReader {
    fn fmt<W: fmt::Write>(&self, f: &mut fmt::Formatter<W>) -> fmt::Result {
        f.write_str("GatheringReader")
    }
}

impl GatheringReader {
    /// A reader of bills of this version that has taken nothing yet. It takes no memory.
    pub fn new(alloc: Global, version: SpecVersion) -> GatheringReader
        ensures gathered { Gathered ⟦<BillMachine as RootMachine>⟧.holds bom_tree
            result.gathering [] }
        ensures version { gathering_version result.gathering ≡ version }
    {
        GatheringReader {
            gathering: Gathering::new(alloc, version),
        }
    }

    /// Takes the next event of the list, whose place is the number of those before it. What is wrong with it `finish`
    /// tells: only want of memory refuses, and then nothing is known of the reader.
    pub fn take(&mut self, place: usize, event: &XmlEvent) -> Result<(), AllocError>
        requires { (events : List XmlEvent)
            × Gathered ⟦<BillMachine as RootMachine>⟧.holds bom_tree self.old.gathering events
            × (place ≡ length events) }
        ensures gathered { (events : List XmlEvent)
            → Gathered ⟦<BillMachine as RootMachine>⟧.holds bom_tree self.old.gathering events
            → place ≡ length events
            → IfOk result (λ _. Gathered ⟦<BillMachine as RootMachine>⟧.holds bom_tree
            self.new.gathering (events ++ event.now ∷ [])) }
        ensures version { gathering_version self.new.gathering
            ≡ gathering_version self.old.gathering }
    {
        self.gathering.take(place, event)
    }

    /// The bill that the list of the events taken denotes, of which there are so many.
    ///
    /// `ElementReadError` comes exactly where they aren't balanced, of kind `Unbalanced`, with the place where they break.
    /// Else comes the bill or the first fault: that of the root's name, then of its default namespace, then of its
    /// attributes, and then the first in the order of the events. Or want of memory.
    pub fn finish(self, count: usize) -> Result<Bom, XmlReadError>
        ensures { (events : List XmlEvent)
            → Gathered ⟦<BillMachine as RootMachine>⟧.holds bom_tree self.gathering events
            → count ≡ length events
            → ReadsList bom_tree events (gathering_version self.gathering) result }
    {
        self.gathering.finish(count)
    }
}
