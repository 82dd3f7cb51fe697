//! Events without a fault, one after the other.

ghost use Rattle.std.specs.Prelude.{◌≡◌, ◌+◌, ◌≤◌, List, [], ◌∷◌, ◌++◌, length, false};
ghost use Rattle.cdx_events.specs.declared.event.XmlEvent.{XmlEvent};
ghost use Rattle.cdx_push_reader.specs.Pushed.{StandsAtStage, Hears, Outcome};
ghost use Rattle.cdx_machine.specs.Machines.{CanYield};
ghost use Rattle.cdx_push_reader.specs.PushSteps.{CanGoOn, Closes, Moves};
ghost use Rattle.cdx_push_reader.specs.declared.hearing.ReadingStage.TheVariants.{Before, Within};
ghost use Rattle.cdx_push_reader.specs.PushAnswers.{is_want, Finishes};

use crate::machine::RootMachine;
use crate::places::unbalanced;
use crate::start::begin;
use cdx_events::{Balance, XmlEvent};
use cdx_models::{SpecVersion, XmlReadError};
use std::alloc::Global;
use std::mem::replace;

// Where a reader stands in the document.
#[derive(Drop)]
pub(crate) enum ReadingStage<M, X> {
    // The root hasn't begun.
    Before,
    // The root is open.
    Within { machine: M },
    // The root has ended.
    After { value: X },
}

// What is kept of events without a fault.
pub(crate) struct Hearing<M: RootMachine> {
    alloc: Global,
    version: SpecVersion,
    pub(crate) balance: Balance,
    stage: ReadingStage<M, M::Value>,
}

// By hand, so that it is freed by a call, and not field by field.
impl<M: RootMachine> Drop for Hearing<M> {
    fn drop(self) {
        let Hearing {
            alloc: _,
            version: _,
            balance: _,
            stage: _,
        } = self;
    }
}

impl<M: RootMachine> Hearing<M> {
    pub(crate) fn new(alloc: Global, version: SpecVersion) -> Hearing<M>
        ensures hears { Hears M.holds M.tree result [] }
        ensures version { result.version ≡ version }
    {
        Hearing {
            alloc,
            version,
            balance: Balance::new(alloc),
            stage: ReadingStage::Before,
        }
    }

    // Goes on from before the root. It and `close` stand apart, since what they move is large, and room for it would be
    // cleared with each event.
    fn open(&mut self, place: usize, event: &XmlEvent) -> Result<(), XmlReadError>
        ensures moves { Moves M.holds M.tree self.old.version Before place event.now
            (λ events _. StandsAtStage M.holds M.tree self.new.version self.new.stage events)
            result }
        ensures balance { self.new.balance ≡ self.old.balance }
        ensures version { self.new.version ≡ self.old.version }
    {
        self.stage = begin(self.alloc, self.version, place, event)?;
        Ok(())
    }

    // Asks the root's machine what the root is read as, which this event ends.
    fn close(&mut self, place: usize, event: &XmlEvent) -> Result<(), XmlReadError>
        requires { (m : M) × (self.old.stage ≡ Within m) × CanYield M.holds m place event.now }
        ensures closes { (m : M) → self.old.stage ≡ Within m
            → Closes M.holds M.tree m place event.now self.new.stage result }
        ensures balance { self.new.balance ≡ self.old.balance }
        ensures version { self.new.version ≡ self.old.version }
    {
        let ReadingStage::Within { machine } = replace(&mut self.stage, ReadingStage::Before) else {
            unreachable!()
        };
        let value = machine.finish(place, event)?;
        self.stage = ReadingStage::After { value };
        Ok(())
    }

    // Goes on with an event that is in balance.
    pub(crate) fn go_on(&mut self, place: usize, event: &XmlEvent) -> Result<(), XmlReadError>
        requires { CanGoOn M.holds M.tree self.old.version self.old.stage place event.now }
        ensures moves { Moves M.holds M.tree self.old.version self.old.stage place event.now
            (λ events _. StandsAtStage M.holds M.tree self.new.version self.new.stage events)
            result }
        ensures balance { self.new.balance ≡ self.old.balance }
        ensures version { self.new.version ≡ self.old.version }
    {
        match &mut self.stage {
            ReadingStage::Before => self.open(place, event),
            ReadingStage::Within { machine } => {
                if !machine.step(place, event)? {
                    return Ok(());
                }
                self.close(place, event)
            }
            ReadingStage::After { .. } => Ok(()),
        }
    }

    // Hears one event.
    fn hear(&mut self, place: usize, event: &XmlEvent) -> Result<(), XmlReadError>
        requires { (events : List XmlEvent) × Hears M.holds M.tree self.old events
            × (place ≡ length events) }
        ensures hears { (events : List XmlEvent) → Hears M.holds M.tree self.old events
            → place ≡ length events
            → Outcome (λ _. Hears M.holds M.tree self.new (events ++ event.now ∷ []))
            self.old.version (events ++ event.now ∷ []) result }
        ensures version { self.new.version ≡ self.old.version }
    {
        if !self.balance.step(event)? {
            return Err(unbalanced(place));
        }
        self.go_on(place, event)
    }

    // Hears a piece of events, the first of which stands at this place.
    pub(crate) fn hear_all(&mut self, first: usize, piece: &[XmlEvent]) -> Result<(), XmlReadError>
        requires room { first + length piece.now ≤ usize.MAX }
        requires heard { (events : List XmlEvent) × Hears M.holds M.tree self.old events
            × (first ≡ length events) }
        ensures hears { (events : List XmlEvent) → Hears M.holds M.tree self.old events
            → first ≡ length events
            → Outcome (λ _. Hears M.holds M.tree self.new (events ++ piece.now))
            self.old.version (events ++ piece.now) result }
        ensures version { self.new.version ≡ self.old.version }
    {
        for (index, event) in piece.iter().enumerate() {
            self.hear(first + index, event)?;
        }
        Ok(())
    }

    // What the root is read as, where the events heard are a whole document; they are so many.
    pub(crate) fn finish(self, count: usize) -> Result<M::Value, XmlReadError>
        ensures answer { (events : List XmlEvent) → Hears M.holds M.tree self events
            → count ≡ length events → Finishes M.tree self.version events result }
        ensures sound { is_want result ≡ false }
    {
        let Hearing {
            alloc: _,
            version: _,
            balance,
            stage,
        } = self;
        if !balance.whole() {
            return Err(unbalanced(count));
        }
        match stage {
            ReadingStage::After { value } => Ok(value),
            _ => Err(unbalanced(count)),
        }
    }
}
