//! What reads one element that holds components or services, or is one, event by event.

ghost use Rattle.std.specs.Prelude.{◌≡◌, ◌+◌, List, [], ◌∷◌, ◌++◌, length, IfOk};
ghost use Rattle.cdx_events.specs.declared.event.XmlEvent.{XmlEvent};
ghost use Rattle.cdx_events.specs.declared.event.XmlEvent.TheVariants.{StartElement};
ghost use Rattle.cdx_events.specs.declared.name.Namespace.{Namespace};
ghost use Rattle.cdx_schema.specs.Soon.{BeginsElement};
ghost use Rattle.cdx_schema.specs.Depths.{depth_of};
ghost use Rattle.cdx_machine.specs.Heard.{OpensAs, Answers, IsListening, Listens, heard_by};
ghost use Rattle.cdx_nest.specs.Frames.{nest_kind, value_tree};
ghost use Rattle.cdx_nest.specs.NestSteps.{IsOfKind, IsMore, IsMemory, step_or_fault};

use crate::frames::{NestFrame, NestKind, NestStep};
use cdx_events::{List, OwnedAttribute, OwnedName, XmlEvent};
use cdx_leaf::Start;
use cdx_machine::Listener;
use cdx_models::{SpecVersion, XmlReadError};
use cdx_nest_machine::{HoldsBegun, StackMachine};
use cdx_schema::Depth;
use std::alloc::Global;

/// Reads one element of a kind event by event. It keeps what was read so far, and no events: elements in one another take
/// memory, and no recursion.
pub struct NestMachine {
    kind: NestKind,
    place: usize,
    version: SpecVersion,
    depth: Depth,
    // None once an event was refused or the element has ended.
    machine: Option<StackMachine<NestFrame>>,
}

// By hand, so that one is freed by a call wherever it ends, and not field by field.
impl Drop for NestMachine {
    fn drop(self) {
        let NestMachine {
            kind: _,
            place: _,
            version: _,
            depth: _,
            machine: _,
        } = self;
    }
}

impl Listener for NestMachine {
    ghost heard = { λ m. heard_by (⟦<StackMachine<NestFrame> as HoldsBegun>⟧.holds m.kind) (λ _. m.kind)
        m.kind m.version m.place (depth_of m.depth) m.machine };
}

impl NestMachine {
    /// Takes the element's start, at `place` and inside so many components and services, as the kind in the version. It is
    /// refused exactly where the start alone has a soonest fault, with that fault: a component inside 32 components and a
    /// service inside 32 services are too deep, whatever the start says.
    pub fn open(
        alloc: Global,
        kind: NestKind,
        version: SpecVersion,
        place: usize,
        depth: Depth,
        element: &OwnedName,
        attributes: &List<OwnedAttribute>,
    ) -> Result<NestMachine, XmlReadError>
        ensures made { IfOk result (λ m. (m.kind ≡ kind) × (m.version ≡ version) × (m.place ≡ place)
            × (m.depth ≡ depth) × IsListening m.machine) }
        ensures opens { (s : Namespace) → OpensAs ⟦<NestMachine as Listener>⟧.heard version
            (nest_kind kind) place (depth_of depth)
            (StartElement element.now attributes.now s ∷ []) result }
    {
        let machine = StackMachine::<NestFrame>::start(
            kind,
            depth,
            &Start {
                alloc,
                place,
                version,
                element,
                attributes,
            },
        )?;
        Ok(NestMachine {
            kind,
            place,
            version,
            depth,
            machine: Some(machine),
        })
    }

    /// Takes the next event, at `place`, the one after the last event's. It is refused exactly where all events so far have a
    /// soonest fault, with that fault, which then stands at `place`. The answer is Done exactly where the element has ended
    /// without one, with the value of its tree, and else More. After a refusal and after Done it may only be dropped.
    pub fn step(&mut self, place: usize, event: &XmlEvent) -> Result<NestStep, XmlReadError>
        requires { Listens (IsListening self.old.machine)
            (⟦<NestMachine as Listener>⟧.heard self.old) self.old.place place event.now }
        ensures kept { (self.new.kind ≡ self.old.kind) × (self.new.version ≡ self.old.version)
            × (self.new.place ≡ self.old.place) × (self.new.depth ≡ self.old.depth) }
        ensures kind { IfOk result (IsOfKind self.old.kind) }
        ensures answers { (events : List XmlEvent)
            → ⟦<NestMachine as Listener>⟧.heard self.old events
            → place ≡ self.old.place + length events → BeginsElement (events ++ event.now ∷ [])
            → Answers (⟦<NestMachine as Listener>⟧.heard self.new) value_tree self.old.version
            (nest_kind self.old.kind) self.old.place (depth_of self.old.depth) place
            (events ++ event.now ∷ []) (step_or_fault result) }
        ensures heard { (events : List XmlEvent)
            → ⟦<NestMachine as Listener>⟧.heard self.old events
            → place ≡ self.old.place + length events → BeginsElement (events ++ event.now ∷ [])
            → (IsMemory result → ⊥)
            → ⟦<NestMachine as Listener>⟧.heard self.new (events ++ event.now ∷ []) }
        ensures listening { IsMore result → IsListening self.new.machine }
    {
        let Some(machine) = &mut self.machine else {
            unreachable!()
        };
        match machine.step(place, event) {
            Ok(false) => Ok(NestStep::More),
            Ok(true) => {
                let Some(machine) = self.machine.take() else {
                    unreachable!()
                };
                Ok(NestStep::Done(machine.finish(place, event)?))
            }
            Err(error) => {
                self.machine = None;
                Err(error)
            }
        }
    }
}
