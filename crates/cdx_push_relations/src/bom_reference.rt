//! References to other parts of the bill.

use cdx_events::{OwnedName, Text, XmlEvent};
use cdx_leaf::{End, Rule, Start, required_attribute};
use cdx_machine::{FoundChild, Frame, FrameMachine, Machine, NoMachine};
use cdx_models::{SpecVersion, XmlReadError};
use cdx_relations::BomReference;
use std::alloc::{AllocError, Global};

/// A reference whose element hasn't ended.
#[derive(Drop)]
pub struct BegunReference {
    reference: Text,
}

/// The machine of a reference.
#[derive(Drop)]
pub struct BomReferenceMachine {
    machine: FrameMachine<BegunReference>,
}

impl Machine for BomReferenceMachine {
    ghost use Rattle.cdx_relations.specs.Records.{bom_reference_tree};
    ghost use Rattle.cdx_schema.specs.Kinds.{a_reference};

    type Value = BomReference;

    ghost tree = { bom_reference_tree };

    ghost kind = { a_reference };

    ghost holds = { λ m. ⟦<FrameMachine<BegunReference> as Machine>⟧.holds m.machine };

    fn start(opened: &Start<'_>) -> Result<BomReferenceMachine, XmlReadError> {
        Ok(BomReferenceMachine {
            machine: FrameMachine::<BegunReference>::start(opened)?,
        })
    }

    fn step(&mut self, place: usize, event: &XmlEvent) -> Result<bool, XmlReadError> {
        self.machine.step(place, event)
    }

    fn finish(self, place: usize, event: &XmlEvent) -> Result<BomReference, XmlReadError> {
        self.machine.finish(place, event)
    }
}

impl Frame for BegunReference {
    ghost use Rattle.std.specs.Prelude.{refl};
    ghost use Rattle.cdx_models.specs.Trees.{text, one};
    ghost use Rattle.cdx_schema.specs.Kinds.{a_reference};
    ghost use Rattle.cdx_schema.specs.XmlReading.{no_plan};
    ghost use Rattle.cdx_relations.specs.Records.{bom_reference_tree};
    ghost use Rattle.cdx_push_relations.specs.BomReferences.{reference_first, reference_last, reference_frame};

    type Value = BomReference;

    type Child = NoMachine;

    ghost tree = { bom_reference_tree };

    ghost kind = { a_reference };

    ghost plan = { no_plan };

    ghost first = { reference_first };

    ghost last = { reference_last };

    ghost slots = { λ r. one (text r.reference) };

    ghost child_kinds = { refl };

    ghost frame = { reference_frame };

    fn rule(&self) -> Rule {
        Rule::Strict
    }

    fn begin(opened: &Start<'_>) -> Result<BegunReference, XmlReadError> {
        Ok(BegunReference {
            reference: required_attribute(opened, "ref")?,
        })
    }

    fn find(&self, _version: SpecVersion, _name: &OwnedName) -> FoundChild {
        FoundChild::Unknown
    }

    fn put(&mut self, _alloc: Global, _value: NoMachine) -> Result<(), AllocError> {
        Ok(())
    }

    fn finish(self, _closed: &End<'_>) -> Result<BomReference, XmlReadError> {
        Ok(BomReference(self.reference))
    }
}
