//! References to what stands outside the bill, and tools.

use crate::hashes::HashesMachine;
use cdx_events::{OwnedName, Text, XmlEvent};
use cdx_leaf::{Rule, Start, XmlRecord};
use cdx_machine::{
    FoundChild, ListMachine, ListOf, Machine, Only, Or, PushRecord, RecordMachine, TextMachine,
};
use cdx_models::{ExternalReference, ExternalReferences, Hashes, SpecVersion, Tool, XmlReadError};
use std::alloc::{AllocError, Global};

/// The children of a reference.
pub struct ReferenceChildren;

/// The machine of a reference.
#[derive(Drop)]
pub struct ReferenceMachine {
    machine: RecordMachine<ReferenceChildren>,
}

impl Machine for ReferenceMachine {
    ghost use Rattle.cdx_models.specs.Trees.{reference};
    ghost use Rattle.cdx_models.specs.Records.{reference_tree};
    ghost use Rattle.cdx_schema.specs.Kinds.{a_record};

    type Value = ExternalReference;

    ghost tree = { reference_tree };

    ghost kind = { a_record reference };

    ghost holds = { λ m. ⟦<RecordMachine<ReferenceChildren> as Machine>⟧.holds m.machine };

    fn start(opened: &Start<'_>) -> Result<ReferenceMachine, XmlReadError> {
        Ok(ReferenceMachine {
            machine: RecordMachine::<ReferenceChildren>::start(opened)?,
        })
    }

    fn step(&mut self, place: usize, event: &XmlEvent) -> Result<bool, XmlReadError> {
        self.machine.step(place, event)
    }

    fn finish(self, place: usize, event: &XmlEvent) -> Result<ExternalReference, XmlReadError> {
        self.machine.finish(place, event)
    }
}

#[tactic(auto, unfolding(cdx_machine::proofs::OnRows::on_rows), using(cdx_machine::proofs::OnRows::by_rows))]
impl PushRecord for ReferenceChildren {
    ghost use Rattle.cdx_push_models.specs.RecordKinds.{reference_kinds};

    type Record = ExternalReference;

    type Child = Or<TextMachine, Or<TextMachine, Only<HashesMachine>>>;

    ghost child_kinds = { reference_kinds };

    fn find(
        _part: &<ExternalReference as XmlRecord>::Part,
        _version: SpecVersion,
        name: &OwnedName,
    ) -> FoundChild {
        match name.local_name.as_str() {
            "url" => FoundChild::At(0),
            "comment" => FoundChild::At(1),
            "hashes" => FoundChild::At(2),
            _ => FoundChild::Unknown,
        }
    }

    fn put(
        part: &mut <ExternalReference as XmlRecord>::Part,
        _alloc: Global,
        value: Or<Text, Or<Text, Hashes>>,
    ) -> Result<(), AllocError> {
        match value {
            Or::This(url) => part.url = Some(url),
            Or::Other(Or::This(comment)) => part.comment = Some(comment),
            Or::Other(Or::Other(hashes)) => part.hashes = Some(hashes),
        }
        Ok(())
    }
}

/// References as a list.
pub struct ReferenceList;

/// The machine of references.
pub struct ExternalReferencesMachine {
    machine: ListMachine<ReferenceList>,
}

impl Drop for ExternalReferencesMachine {
    fn drop(self) {
        let ExternalReferencesMachine { machine: _ } = self;
    }
}

impl Machine for ExternalReferencesMachine {
    ghost use Rattle.cdx_models.specs.Records.{references_tree};
    ghost use Rattle.cdx_schema.specs.Kinds.{a_list, external_references};

    type Value = ExternalReferences;

    ghost tree = { references_tree };

    ghost kind = { a_list external_references };

    ghost holds = { λ m. ⟦<ListMachine<ReferenceList> as Machine>⟧.holds m.machine };

    fn start(opened: &Start<'_>) -> Result<ExternalReferencesMachine, XmlReadError> {
        Ok(ExternalReferencesMachine {
            machine: ListMachine::<ReferenceList>::start(opened)?,
        })
    }

    fn step(&mut self, place: usize, event: &XmlEvent) -> Result<bool, XmlReadError> {
        self.machine.step(place, event)
    }

    fn finish(self, place: usize, event: &XmlEvent) -> Result<ExternalReferences, XmlReadError> {
        let ExternalReferencesMachine { machine } = self;
        Ok(ExternalReferences(machine.finish(place, event)?))
    }
}

#[tactic(auto, unfolding(cdx_machine::proofs::OnRows::on_rows), using(cdx_machine::proofs::OnRows::by_rows))]
impl ListOf for ReferenceList {
    ghost use Rattle.cdx_schema.specs.Kinds.{external_references};
    ghost use Rattle.cdx_push_models.specs.ItemKinds.{external_references_item};

    type Item = ReferenceMachine;

    ghost list_name = { external_references };

    ghost one_name = { tt };

    ghost item_kind = { external_references_item };

    fn inner() -> &'static str {
        "reference"
    }

    fn rule() -> Rule {
        Rule::Strict
    }
}

/// The children of a tool.
pub struct ToolChildren;

/// The machine of a tool.
pub struct ToolMachine {
    machine: RecordMachine<ToolChildren>,
}

impl Drop for ToolMachine {
    fn drop(self) {
        let ToolMachine { machine: _ } = self;
    }
}

impl Machine for ToolMachine {
    ghost use Rattle.cdx_models.specs.Trees.{tool};
    ghost use Rattle.cdx_models.specs.Records.{tool_tree};
    ghost use Rattle.cdx_schema.specs.Kinds.{a_record};

    type Value = Tool;

    ghost tree = { tool_tree };

    ghost kind = { a_record tool };

    ghost holds = { λ m. ⟦<RecordMachine<ToolChildren> as Machine>⟧.holds m.machine };

    fn start(opened: &Start<'_>) -> Result<ToolMachine, XmlReadError> {
        Ok(ToolMachine {
            machine: RecordMachine::<ToolChildren>::start(opened)?,
        })
    }

    fn step(&mut self, place: usize, event: &XmlEvent) -> Result<bool, XmlReadError> {
        self.machine.step(place, event)
    }

    fn finish(self, place: usize, event: &XmlEvent) -> Result<Tool, XmlReadError> {
        let ToolMachine { machine } = self;
        machine.finish(place, event)
    }
}

#[tactic(auto, unfolding(cdx_machine::proofs::OnRows::on_rows), using(cdx_machine::proofs::OnRows::by_rows))]
impl PushRecord for ToolChildren {
    ghost use Rattle.cdx_push_models.specs.RecordKinds.{tool_kinds};

    type Record = Tool;

    type Child = Or<
        TextMachine,
        Or<TextMachine, Or<TextMachine, Or<HashesMachine, Only<ExternalReferencesMachine>>>>,
    >;

    ghost child_kinds = { tool_kinds };

    fn find(_part: &Tool, version: SpecVersion, name: &OwnedName) -> FoundChild {
        match name.local_name.as_str() {
            "vendor" => FoundChild::At(0),
            "name" => FoundChild::At(1),
            "version" => FoundChild::At(2),
            "hashes" => FoundChild::At(3),
            "externalReferences" => FoundChild::since(SpecVersion::V1_4, version, 4),
            _ => FoundChild::Unknown,
        }
    }

    fn put(
        part: &mut Tool,
        _alloc: Global,
        value: Or<Text, Or<Text, Or<Text, Or<Hashes, ExternalReferences>>>>,
    ) -> Result<(), AllocError> {
        match value {
            Or::This(vendor) => part.vendor = Some(vendor),
            Or::Other(Or::This(name)) => part.name = Some(name),
            Or::Other(Or::Other(Or::This(version))) => part.version = Some(version),
            Or::Other(Or::Other(Or::Other(Or::This(hashes)))) => part.hashes = Some(hashes),
            Or::Other(Or::Other(Or::Other(Or::Other(external_references)))) =>
                part.external_references = Some(external_references),
        }
        Ok(())
    }
}
