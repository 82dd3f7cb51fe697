//! What reads one element of a kind that doesn't contain itself, event by event.

ghost use Rattle.std.specs.Prelude.{◌≡◌, ◌+◌, List, [], ◌∷◌, ◌++◌, length, IfOk};
ghost use Rattle.cdx_events.specs.declared.event.XmlEvent.{XmlEvent};
ghost use Rattle.cdx_events.specs.declared.event.XmlEvent.TheVariants.{StartElement};
ghost use Rattle.cdx_events.specs.declared.name.Namespace.{Namespace};
ghost use Rattle.cdx_schema.specs.Depth.{top};
ghost use Rattle.cdx_schema.specs.Soon.{BeginsElement};
ghost use Rattle.cdx_machine.specs.Heard.{OpensAs, Answers, IsListening, Listens};
ghost use Rattle.cdx_push.specs.Leaf.{kind_of, value_tree};
ghost use Rattle.cdx_push.specs.LeafSteps.{IsOfKind, IsMore, IsMemory, step_or_fault};

use crate::kinds::{LeafKind, LeafStep};
use crate::leaf::Leaf;
use cdx_events::{List, OwnedAttribute, OwnedName, XmlEvent};
use cdx_leaf::Start;
use cdx_machine::{Leaves, Listener};
use cdx_models::{SpecVersion, XmlReadError};
use std::alloc::Global;

/// Reads one element of a kind event by event. It keeps what was read so far, and no events.
pub struct LeafMachine {
    kind: LeafKind,
    place: usize,
    version: SpecVersion,
    // None once an event was refused or the element has ended.
    machine: Option<Leaf>,
}

impl Drop for LeafMachine {
    fn drop(self) {
        let LeafMachine {
            kind: _,
            place: _,
            version: _,
            machine: _,
        } = self;
    }
}

impl Listener for LeafMachine {
    ghost use Rattle.cdx_schema.specs.Depth.{top};
    ghost use Rattle.cdx_machine.specs.Heard.{heard_by};
    ghost use Rattle.cdx_push.specs.Leaf.{leaf_kind};

    ghost heard = { λ m. heard_by ⟦<Leaf as Leaves>⟧.holds leaf_kind m.kind m.version m.place
        top m.machine };
}

impl LeafMachine {
    /// Takes the element's start, at `place`, as the kind in the version. It is refused exactly where the start alone has a
    /// soonest fault, with that fault.
    pub fn open(
        alloc: Global,
        kind: LeafKind,
        version: SpecVersion,
        place: usize,
        element: &OwnedName,
        attributes: &List<OwnedAttribute>,
    ) -> Result<LeafMachine, XmlReadError>
        ensures made { IfOk result (λ m. (m.kind ≡ kind) × (m.version ≡ version) × (m.place ≡ place)
            × IsListening m.machine) }
        ensures opens { (s : Namespace) → OpensAs ⟦<LeafMachine as Listener>⟧.heard version
            (kind_of kind) place top (StartElement element.now attributes.now s ∷ []) result }
    {
        let machine = Leaf::start(
            kind,
            &Start {
                alloc,
                place,
                version,
                element,
                attributes,
            },
        )?;
        Ok(LeafMachine {
            kind,
            place,
            version,
            machine: Some(machine),
        })
    }

    /// Takes the next event, at `place`, the one after the last event's. It is refused exactly where all events so far have a
    /// soonest fault, with that fault, which then stands at `place`. The answer is Done exactly where the element has ended
    /// without one, with the value of its tree, and else More. After a refusal and after Done it may only be dropped.
    pub fn step(&mut self, place: usize, event: &XmlEvent) -> Result<LeafStep, XmlReadError>
        requires { Listens (IsListening self.old.machine)
            (⟦<LeafMachine as Listener>⟧.heard self.old) self.old.place place event.now }
        ensures kept { (self.new.kind ≡ self.old.kind) × (self.new.version ≡ self.old.version)
            × (self.new.place ≡ self.old.place) }
        ensures kind { IfOk result (IsOfKind self.old.kind) }
        ensures answers { (events : List XmlEvent)
            → ⟦<LeafMachine as Listener>⟧.heard self.old events
            → place ≡ self.old.place + length events → BeginsElement (events ++ event.now ∷ [])
            → Answers (⟦<LeafMachine as Listener>⟧.heard self.new) value_tree self.old.version
            (kind_of self.old.kind) self.old.place top place (events ++ event.now ∷ [])
            (step_or_fault result) }
        ensures heard { (events : List XmlEvent)
            → ⟦<LeafMachine as Listener>⟧.heard self.old events
            → place ≡ self.old.place + length events → BeginsElement (events ++ event.now ∷ [])
            → (IsMemory result → ⊥)
            → ⟦<LeafMachine as Listener>⟧.heard self.new (events ++ event.now ∷ []) }
        ensures listening { IsMore result → IsListening self.new.machine }
    {
        let Some(leaf) = &mut self.machine else {
            unreachable!()
        };
        match leaf.step(place, event) {
            Ok(false) => Ok(LeafStep::More),
            Ok(true) => {
                let Some(ended) = self.machine.take() else {
                    unreachable!()
                };
                Ok(LeafStep::Done(ended.finish(place, event)?))
            }
            Err(error) => {
                self.machine = None;
                Err(error)
            }
        }
    }
}
