//! Patches, and the issues that they resolve.

use cdx_events::{List, OwnedName, Text, XmlEvent};
use cdx_leaf::{Rule, Start};
use cdx_machine::{
    FoundChild, ListMachine, ListOf, Machine, Only, Or, PushRecord, RecordMachine, TextMachine,
};
use cdx_models::{AttachedText, SpecVersion, XmlReadError};
use cdx_patch::{Diff, Issue, Patch, Patches, Source};
use cdx_push_models::{AttachedTextMachine, LinksMachine};
use std::alloc::{AllocError, Global};

/// The children of a diff.
pub struct DiffChildren;

/// The machine of a diff.
#[derive(Drop)]
pub struct DiffMachine {
    machine: RecordMachine<DiffChildren>,
}

impl Machine for DiffMachine {
    ghost use Rattle.cdx_models.specs.Trees.{diff};
    ghost use Rattle.cdx_patch.specs.Records.{diff_tree};
    ghost use Rattle.cdx_schema.specs.Kinds.{a_record};

    type Value = Diff;

    ghost tree = { diff_tree };

    ghost kind = { a_record diff };

    ghost holds = { λ m. ⟦<RecordMachine<DiffChildren> as Machine>⟧.holds m.machine };

    fn start(opened: &Start<'_>) -> Result<DiffMachine, XmlReadError> {
        Ok(DiffMachine {
            machine: RecordMachine::<DiffChildren>::start(opened)?,
        })
    }

    fn step(&mut self, place: usize, event: &XmlEvent) -> Result<bool, XmlReadError> {
        self.machine.step(place, event)
    }

    fn finish(self, place: usize, event: &XmlEvent) -> Result<Diff, XmlReadError> {
        self.machine.finish(place, event)
    }
}

#[tactic(auto, unfolding(cdx_machine::proofs::OnRows::on_rows), using(cdx_machine::proofs::OnRows::by_rows))]
impl PushRecord for DiffChildren {
    ghost use Rattle.cdx_push_code.specs.RecordKinds.{diff_kinds};

    type Record = Diff;

    type Child = Or<AttachedTextMachine, Only<TextMachine>>;

    ghost child_kinds = { diff_kinds };

    fn find(_part: &Diff, _version: SpecVersion, name: &OwnedName) -> FoundChild {
        match name.local_name.as_str() {
            "text" => FoundChild::At(0),
            "url" => FoundChild::At(1),
            _ => FoundChild::Unknown,
        }
    }

    fn put(
        part: &mut Diff,
        _alloc: Global,
        value: Or<AttachedText, Text>,
    ) -> Result<(), AllocError> {
        match value {
            Or::This(text) => part.text = Some(text),
            Or::Other(url) => part.url = Some(url),
        }
        Ok(())
    }
}

/// The children of a source.
pub struct SourceChildren;

/// The machine of a source.
#[derive(Drop)]
pub struct SourceMachine {
    machine: RecordMachine<SourceChildren>,
}

impl Machine for SourceMachine {
    ghost use Rattle.cdx_models.specs.Trees.{source};
    ghost use Rattle.cdx_patch.specs.Records.{source_tree};
    ghost use Rattle.cdx_schema.specs.Kinds.{a_record};

    type Value = Source;

    ghost tree = { source_tree };

    ghost kind = { a_record source };

    ghost holds = { λ m. ⟦<RecordMachine<SourceChildren> as Machine>⟧.holds m.machine };

    fn start(opened: &Start<'_>) -> Result<SourceMachine, XmlReadError> {
        Ok(SourceMachine {
            machine: RecordMachine::<SourceChildren>::start(opened)?,
        })
    }

    fn step(&mut self, place: usize, event: &XmlEvent) -> Result<bool, XmlReadError> {
        self.machine.step(place, event)
    }

    fn finish(self, place: usize, event: &XmlEvent) -> Result<Source, XmlReadError> {
        self.machine.finish(place, event)
    }
}

#[tactic(auto, unfolding(cdx_machine::proofs::OnRows::on_rows), using(cdx_machine::proofs::OnRows::by_rows))]
impl PushRecord for SourceChildren {
    ghost use Rattle.cdx_push_code.specs.RecordKinds.{source_kinds};

    type Record = Source;

    type Child = Or<TextMachine, Only<TextMachine>>;

    ghost child_kinds = { source_kinds };

    fn find(_part: &Source, _version: SpecVersion, name: &OwnedName) -> FoundChild {
        match name.local_name.as_str() {
            "name" => FoundChild::At(0),
            "url" => FoundChild::At(1),
            _ => FoundChild::Unknown,
        }
    }

    fn put(part: &mut Source, _alloc: Global, value: Or<Text, Text>) -> Result<(), AllocError> {
        match value {
            Or::This(name) => part.name = Some(name),
            Or::Other(url) => part.url = Some(url),
        }
        Ok(())
    }
}

/// The children of an issue.
pub struct IssueChildren;

/// The machine of an issue.
#[derive(Drop)]
pub struct IssueMachine {
    machine: RecordMachine<IssueChildren>,
}

impl Machine for IssueMachine {
    ghost use Rattle.cdx_models.specs.Trees.{issue};
    ghost use Rattle.cdx_patch.specs.Records.{issue_tree};
    ghost use Rattle.cdx_schema.specs.Kinds.{a_record};

    type Value = Issue;

    ghost tree = { issue_tree };

    ghost kind = { a_record issue };

    ghost holds = { λ m. ⟦<RecordMachine<IssueChildren> as Machine>⟧.holds m.machine };

    fn start(opened: &Start<'_>) -> Result<IssueMachine, XmlReadError> {
        Ok(IssueMachine {
            machine: RecordMachine::<IssueChildren>::start(opened)?,
        })
    }

    fn step(&mut self, place: usize, event: &XmlEvent) -> Result<bool, XmlReadError> {
        self.machine.step(place, event)
    }

    fn finish(self, place: usize, event: &XmlEvent) -> Result<Issue, XmlReadError> {
        self.machine.finish(place, event)
    }
}

#[tactic(auto, unfolding(cdx_machine::proofs::OnRows::on_rows), using(cdx_machine::proofs::OnRows::by_rows))]
impl PushRecord for IssueChildren {
    ghost use Rattle.cdx_push_code.specs.RecordKinds.{issue_kinds};

    type Record = Issue;

    type Child = Or<
        TextMachine,
        Or<TextMachine, Or<TextMachine, Or<SourceMachine, Only<LinksMachine>>>>,
    >;

    ghost child_kinds = { issue_kinds };

    fn find(_part: &Issue, _version: SpecVersion, name: &OwnedName) -> FoundChild {
        match name.local_name.as_str() {
            "id" => FoundChild::At(0),
            "name" => FoundChild::At(1),
            "description" => FoundChild::At(2),
            "source" => FoundChild::At(3),
            "references" => FoundChild::At(4),
            _ => FoundChild::Unknown,
        }
    }

    fn put(
        part: &mut Issue,
        _alloc: Global,
        value: Or<Text, Or<Text, Or<Text, Or<Source, List<Text>>>>>,
    ) -> Result<(), AllocError> {
        match value {
            Or::This(id) => part.id = Some(id),
            Or::Other(Or::This(name)) => part.name = Some(name),
            Or::Other(Or::Other(Or::This(description))) => part.description = Some(description),
            Or::Other(Or::Other(Or::Other(Or::This(source)))) => part.source = Some(source),
            Or::Other(Or::Other(Or::Other(Or::Other(references)))) => part.references = Some(
                references,
            ),
        }
        Ok(())
    }
}

/// Issues as a list.
pub struct IssueList;

/// The machine of issues.
#[derive(Drop)]
pub struct IssuesMachine {
    machine: ListMachine<IssueList>,
}

impl Machine for IssuesMachine {
    ghost use Rattle.cdx_models.specs.Trees.{list_tree};
    ghost use Rattle.cdx_patch.specs.Records.{issue_tree};
    ghost use Rattle.cdx_schema.specs.Kinds.{a_list, resolved};

    type Value = List<Issue>;

    ghost tree = { list_tree issue_tree };

    ghost kind = { a_list resolved };

    ghost holds = { λ m. ⟦<ListMachine<IssueList> as Machine>⟧.holds m.machine };

    fn start(opened: &Start<'_>) -> Result<IssuesMachine, XmlReadError> {
        Ok(IssuesMachine {
            machine: ListMachine::<IssueList>::start(opened)?,
        })
    }

    fn step(&mut self, place: usize, event: &XmlEvent) -> Result<bool, XmlReadError> {
        self.machine.step(place, event)
    }

    fn finish(self, place: usize, event: &XmlEvent) -> Result<List<Issue>, XmlReadError> {
        self.machine.finish(place, event)
    }
}

#[tactic(auto, unfolding(cdx_machine::proofs::OnRows::on_rows), using(cdx_machine::proofs::OnRows::by_rows))]
impl ListOf for IssueList {
    ghost use Rattle.cdx_schema.specs.Kinds.{resolved};
    ghost use Rattle.cdx_push_code.specs.ItemKinds.{resolved_item};

    type Item = IssueMachine;

    ghost list_name = { resolved };

    ghost one_name = { tt };

    ghost item_kind = { resolved_item };

    fn inner() -> &'static str {
        "issue"
    }

    fn rule() -> Rule {
        Rule::Strict
    }
}

/// The children of a patch.
pub struct PatchChildren;

/// The machine of a patch.
#[derive(Drop)]
pub struct PatchMachine {
    machine: RecordMachine<PatchChildren>,
}

impl Machine for PatchMachine {
    ghost use Rattle.cdx_models.specs.Trees.{patch};
    ghost use Rattle.cdx_patch.specs.Records.{patch_tree};
    ghost use Rattle.cdx_schema.specs.Kinds.{a_record};

    type Value = Patch;

    ghost tree = { patch_tree };

    ghost kind = { a_record patch };

    ghost holds = { λ m. ⟦<RecordMachine<PatchChildren> as Machine>⟧.holds m.machine };

    fn start(opened: &Start<'_>) -> Result<PatchMachine, XmlReadError> {
        Ok(PatchMachine {
            machine: RecordMachine::<PatchChildren>::start(opened)?,
        })
    }

    fn step(&mut self, place: usize, event: &XmlEvent) -> Result<bool, XmlReadError> {
        self.machine.step(place, event)
    }

    fn finish(self, place: usize, event: &XmlEvent) -> Result<Patch, XmlReadError> {
        self.machine.finish(place, event)
    }
}

#[tactic(auto, unfolding(cdx_machine::proofs::OnRows::on_rows), using(cdx_machine::proofs::OnRows::by_rows))]
impl PushRecord for PatchChildren {
    ghost use Rattle.cdx_push_code.specs.RecordKinds.{patch_kinds};

    type Record = Patch;

    type Child = Or<DiffMachine, Only<IssuesMachine>>;

    ghost child_kinds = { patch_kinds };

    fn find(_part: &Patch, _version: SpecVersion, name: &OwnedName) -> FoundChild {
        match name.local_name.as_str() {
            "diff" => FoundChild::At(0),
            "resolves" => FoundChild::At(1),
            _ => FoundChild::Unknown,
        }
    }

    fn put(
        part: &mut Patch,
        _alloc: Global,
        value: Or<Diff, List<Issue>>,
    ) -> Result<(), AllocError> {
        match value {
            Or::This(diff) => part.diff = Some(diff),
            Or::Other(resolves) => part.resolves = Some(resolves),
        }
        Ok(())
    }
}

/// Patches as a list.
pub struct PatchList;

/// The machine of patches.
pub struct PatchesMachine {
    machine: ListMachine<PatchList>,
}

impl Drop for PatchesMachine {
    fn drop(self) {
        let PatchesMachine { machine: _ } = self;
    }
}

impl Machine for PatchesMachine {
    ghost use Rattle.cdx_patch.specs.Records.{patches_tree};
    ghost use Rattle.cdx_schema.specs.Kinds.{a_list, patches};

    type Value = Patches;

    ghost tree = { patches_tree };

    ghost kind = { a_list patches };

    ghost holds = { λ m. ⟦<ListMachine<PatchList> as Machine>⟧.holds m.machine };

    fn start(opened: &Start<'_>) -> Result<PatchesMachine, XmlReadError> {
        Ok(PatchesMachine {
            machine: ListMachine::<PatchList>::start(opened)?,
        })
    }

    fn step(&mut self, place: usize, event: &XmlEvent) -> Result<bool, XmlReadError> {
        self.machine.step(place, event)
    }

    fn finish(self, place: usize, event: &XmlEvent) -> Result<Patches, XmlReadError> {
        let PatchesMachine { machine } = self;
        Ok(Patches(machine.finish(place, event)?))
    }
}

#[tactic(auto, unfolding(cdx_machine::proofs::OnRows::on_rows), using(cdx_machine::proofs::OnRows::by_rows))]
impl ListOf for PatchList {
    ghost use Rattle.cdx_schema.specs.Kinds.{patches};
    ghost use Rattle.cdx_push_code.specs.ItemKinds.{patches_item};

    type Item = PatchMachine;

    ghost list_name = { patches };

    ghost one_name = { tt };

    ghost item_kind = { patches_item };

    fn inner() -> &'static str {
        "patch"
    }

    fn rule() -> Rule {
        Rule::Lax
    }
}
