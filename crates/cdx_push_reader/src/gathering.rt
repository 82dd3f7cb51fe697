//! Documents from sources of events.

ghost use Rattle.std.specs.Prelude.{◌≡◌, List, [], ◌∷◌, ◌++◌, length, IfOk, OnOk};
ghost use Rattle.cdx_events.specs.declared.event.XmlEvent.{XmlEvent};
ghost use Rattle.cdx_events.specs.Gather.{is_end};
ghost use Rattle.cdx_schema.specs.Laws.{IsShallow};
ghost use Rattle.cdx_push_reader.specs.Gathered.{Gathered, gathering_version, found_by, Concludes};
ghost use Rattle.cdx_push_reader.specs.Sources.{ReadsSource};

use crate::hearing::Hearing;
use crate::machine::RootMachine;
use crate::places::unbalanced;
use cdx_events::{EventSource, Failed, InUtf8, XmlEvent};
use cdx_models::{ReadKind, SpecVersion, XmlReadError};
use std::alloc::{AllocError, Global};

// What was found to be wrong with the events so far.
#[derive(Drop)]
pub(crate) enum Wrong {
    Nothing,
    // The document has this fault, but an imbalance may still come, which goes before it.
    Fault { fault: XmlReadError },
    // The first event out of balance has this place, and nothing else counts.
    Imbalance { place: usize },
}

/// Reads a document from events that come one after another, whatever they are, and keeps none of them. It answers at the
/// end alone, and an imbalance anywhere then goes before each fault.
pub struct Gathering<M: RootMachine> {
    hearing: Hearing<M>,
    found: Wrong,
}

// By hand, so that it is freed by a call, and not field by field.
impl<M: RootMachine> Drop for Gathering<M> {
    fn drop(self) {
        let Gathering {
            hearing: _,
            found: _,
        } = self;
    }
}

fn found_by(error: XmlReadError) -> Result<Wrong, AllocError>
    ensures { result ≡ found_by error }
{
    match error {
        XmlReadError::Memory(error) => Err(error),
        fault => Ok(Wrong::Fault { fault }),
    }
}

fn is_end(event: &XmlEvent) -> bool
    ensures { result ≡ is_end event.now }
{
    matches!(event, XmlEvent::EndDocument)
}

impl<M: RootMachine> Gathering<M> {
    /// A reader of documents of this version that has taken nothing yet. It takes no memory.
    pub fn new(alloc: Global, version: SpecVersion) -> Gathering<M>
        ensures gathered { Gathered M.holds M.tree result [] }
        ensures version { gathering_version result ≡ version }
    {
        Gathering {
            hearing: Hearing::new(alloc, version),
            found: Wrong::Nothing,
        }
    }

    /// Takes one event, of which so many came before: that number is its place. What is wrong with it is told by `finish`:
    /// only want of memory refuses, and then nothing is known of the reader.
    pub fn take(&mut self, place: usize, event: &XmlEvent) -> Result<(), AllocError>
        requires { (events : List XmlEvent) × Gathered M.holds M.tree self.old events
            × (place ≡ length events) }
        ensures gathered { (events : List XmlEvent) → Gathered M.holds M.tree self.old events
            → place ≡ length events
            → IfOk result (λ _. Gathered M.holds M.tree self.new (events ++ event.now ∷ [])) }
        ensures version { gathering_version self.new ≡ gathering_version self.old }
    {
        if let Wrong::Imbalance { .. } = self.found {
            return Ok(());
        }
        if !self.hearing.balance.step(event)? {
            self.found = Wrong::Imbalance { place };
            return Ok(());
        }
        if let Wrong::Fault { .. } = self.found {
            return Ok(());
        }
        if let Err(error) = self.hearing.go_on(place, event) {
            self.found = found_by(error)?;
        }
        Ok(())
    }

    /// What the events taken are read as, of which there are so many.
    ///
    /// `ElementReadError` of kind `Unbalanced` comes exactly where they aren't balanced, with the place where they break.
    /// Else comes the bill, or the first fault of the events: that of the root's name at its start, then of its default
    /// namespace, then of its attributes, and then the first in the order of the events. Or want of memory.
    pub fn finish(self, count: usize) -> Result<M::Value, XmlReadError>
        ensures { (events : List XmlEvent) → Gathered M.holds M.tree self events
            → count ≡ length events
            → Concludes M.tree (gathering_version self) events result }
    {
        let Gathering { hearing, found } = self;
        if let Wrong::Imbalance { place } = found {
            return Err(unbalanced(place));
        }
        if !hearing.balance.whole() {
            return Err(unbalanced(count));
        }
        match found {
            Wrong::Fault { fault } => Err(fault),
            _ => hearing.finish(count),
        }
    }
}

/// Takes one event at a time until a document end, the end of the source or `budget` events, and reads the bill that
/// the events denote in `version`. It holds no event. After every answer the source stands after what was taken, and
/// want of memory may be answered at any time.
///
/// `ElementReadError` comes where what was taken is no document, whatever the bill's faults are: of kind `Fault`, only
/// where the count of the source rose, and of kind `Budget`, exactly where `budget` events were taken and none of them
/// is a document end, each with the number of events taken; of kind `Unbalanced`, exactly where neither of these comes
/// and what was taken isn't balanced, with the place where it breaks. Else comes the bill, or the first fault of the
/// events: that of the root's name at its start, then of its default namespace, then of its attributes, and then the
/// first in the order of the events.
pub fn read_gathered<M: RootMachine, E: EventSource>(
    alloc: Global,
    source: &mut E,
    version: SpecVersion,
    budget: usize,
) -> Result<M::Value, XmlReadError>
    ensures source { ReadsSource M.tree budget (E.left source.old) (E.left source.new)
        (E.faults source.old) (E.faults source.new) version result }
    ensures shallow { IfOk result (λ b. IsShallow (M.tree b)) }
    ensures sound { OnOk result (E.faults source.new ≡ E.faults source.old) }
{
    let mut gathering: Gathering<M> = Gathering::new(alloc, version);
    for taken in 0..budget {
        let event = match source.next() {
            Ok(Some(event)) => event,
            Ok(None) => return gathering.finish(taken),
            Err(Failed) => {
                return Err(XmlReadError::ElementReadError {
                    kind: ReadKind::Fault,
                    place: taken,
                });
            }
        };
        event.tell();
        gathering.take(taken, &event)?;
        if is_end(&event) {
            return gathering.finish(taken + 1);
        }
    }
    Err(XmlReadError::ElementReadError {
        kind: ReadKind::Budget,
        place: budget,
    })
}
