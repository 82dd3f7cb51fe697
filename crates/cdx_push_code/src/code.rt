//! Commits.

use cdx_code::{Commit, Commits, IdentifiableAction};
use cdx_events::{OwnedName, Text, XmlEvent};
use cdx_leaf::{Rule, Start};
use cdx_machine::{
    FoundChild, ListMachine, ListOf, Machine, Only, Or, PushRecord, RecordMachine, TextMachine,
};
use cdx_models::{SpecVersion, XmlReadError};
use std::alloc::{AllocError, Global};

/// The children of an action.
pub struct IdentifiableActionChildren;

/// The machine of an action.
#[derive(Drop)]
pub struct IdentifiableActionMachine {
    machine: RecordMachine<IdentifiableActionChildren>,
}

impl Machine for IdentifiableActionMachine {
    ghost use Rattle.cdx_models.specs.Trees.{action};
    ghost use Rattle.cdx_code.specs.Records.{action_tree};
    ghost use Rattle.cdx_schema.specs.Kinds.{a_record};

    type Value = IdentifiableAction;

    ghost tree = { action_tree };

    ghost kind = { a_record action };

    ghost holds = { λ m. ⟦<RecordMachine<IdentifiableActionChildren> as Machine>⟧.holds m.machine };

    fn start(opened: &Start<'_>) -> Result<IdentifiableActionMachine, XmlReadError> {
        Ok(IdentifiableActionMachine {
            machine: RecordMachine::<IdentifiableActionChildren>::start(opened)?,
        })
    }

    fn step(&mut self, place: usize, event: &XmlEvent) -> Result<bool, XmlReadError> {
        self.machine.step(place, event)
    }

    fn finish(self, place: usize, event: &XmlEvent) -> Result<IdentifiableAction, XmlReadError> {
        self.machine.finish(place, event)
    }
}

#[tactic(auto, unfolding(cdx_machine::proofs::OnRows::on_rows), using(cdx_machine::proofs::OnRows::by_rows))]
impl PushRecord for IdentifiableActionChildren {
    ghost use Rattle.cdx_push_code.specs.RecordKinds.{action_kinds};

    type Record = IdentifiableAction;

    type Child = Or<TextMachine, Or<TextMachine, Only<TextMachine>>>;

    ghost child_kinds = { action_kinds };

    fn find(_part: &IdentifiableAction, _version: SpecVersion, name: &OwnedName) -> FoundChild {
        match name.local_name.as_str() {
            "timestamp" => FoundChild::At(0),
            "name" => FoundChild::At(1),
            "email" => FoundChild::At(2),
            _ => FoundChild::Unknown,
        }
    }

    fn put(
        part: &mut IdentifiableAction,
        _alloc: Global,
        value: Or<Text, Or<Text, Text>>,
    ) -> Result<(), AllocError> {
        match value {
            Or::This(timestamp) => part.timestamp = Some(timestamp),
            Or::Other(Or::This(name)) => part.name = Some(name),
            Or::Other(Or::Other(email)) => part.email = Some(email),
        }
        Ok(())
    }
}

/// The children of a commit.
pub struct CommitChildren;

/// The machine of a commit.
#[derive(Drop)]
pub struct CommitMachine {
    machine: RecordMachine<CommitChildren>,
}

impl Machine for CommitMachine {
    ghost use Rattle.cdx_models.specs.Trees.{commit};
    ghost use Rattle.cdx_code.specs.Records.{commit_tree};
    ghost use Rattle.cdx_schema.specs.Kinds.{a_record};

    type Value = Commit;

    ghost tree = { commit_tree };

    ghost kind = { a_record commit };

    ghost holds = { λ m. ⟦<RecordMachine<CommitChildren> as Machine>⟧.holds m.machine };

    fn start(opened: &Start<'_>) -> Result<CommitMachine, XmlReadError> {
        Ok(CommitMachine {
            machine: RecordMachine::<CommitChildren>::start(opened)?,
        })
    }

    fn step(&mut self, place: usize, event: &XmlEvent) -> Result<bool, XmlReadError> {
        self.machine.step(place, event)
    }

    fn finish(self, place: usize, event: &XmlEvent) -> Result<Commit, XmlReadError> {
        self.machine.finish(place, event)
    }
}

#[tactic(auto, unfolding(cdx_machine::proofs::OnRows::on_rows), using(cdx_machine::proofs::OnRows::by_rows))]
impl PushRecord for CommitChildren {
    ghost use Rattle.cdx_push_code.specs.RecordKinds.{commit_kinds};

    type Record = Commit;

    type Child = Or<
        TextMachine,
        Or<
            TextMachine,
            Or<IdentifiableActionMachine, Or<IdentifiableActionMachine, Only<TextMachine>>>,
        >,
    >;

    ghost child_kinds = { commit_kinds };

    fn find(_part: &Commit, _version: SpecVersion, name: &OwnedName) -> FoundChild {
        match name.local_name.as_str() {
            "uid" => FoundChild::At(0),
            "url" => FoundChild::At(1),
            "author" => FoundChild::At(2),
            "committer" => FoundChild::At(3),
            "message" => FoundChild::At(4),
            _ => FoundChild::Unknown,
        }
    }

    fn put(
        part: &mut Commit,
        _alloc: Global,
        value: Or<Text, Or<Text, Or<IdentifiableAction, Or<IdentifiableAction, Text>>>>,
    ) -> Result<(), AllocError> {
        match value {
            Or::This(uid) => part.uid = Some(uid),
            Or::Other(Or::This(url)) => part.url = Some(url),
            Or::Other(Or::Other(Or::This(author))) => part.author = Some(author),
            Or::Other(Or::Other(Or::Other(Or::This(committer)))) => part.committer = Some(
                committer,
            ),
            Or::Other(Or::Other(Or::Other(Or::Other(message)))) => part.message = Some(message),
        }
        Ok(())
    }
}

/// Commits as a list.
pub struct CommitList;

/// The machine of commits.
pub struct CommitsMachine {
    machine: ListMachine<CommitList>,
}

impl Drop for CommitsMachine {
    fn drop(self) {
        let CommitsMachine { machine: _ } = self;
    }
}

impl Machine for CommitsMachine {
    ghost use Rattle.cdx_code.specs.Records.{commits_tree};
    ghost use Rattle.cdx_schema.specs.Kinds.{a_list, commits};

    type Value = Commits;

    ghost tree = { commits_tree };

    ghost kind = { a_list commits };

    ghost holds = { λ m. ⟦<ListMachine<CommitList> as Machine>⟧.holds m.machine };

    fn start(opened: &Start<'_>) -> Result<CommitsMachine, XmlReadError> {
        Ok(CommitsMachine {
            machine: ListMachine::<CommitList>::start(opened)?,
        })
    }

    fn step(&mut self, place: usize, event: &XmlEvent) -> Result<bool, XmlReadError> {
        self.machine.step(place, event)
    }

    fn finish(self, place: usize, event: &XmlEvent) -> Result<Commits, XmlReadError> {
        let CommitsMachine { machine } = self;
        Ok(Commits(machine.finish(place, event)?))
    }
}

#[tactic(auto, unfolding(cdx_machine::proofs::OnRows::on_rows), using(cdx_machine::proofs::OnRows::by_rows))]
impl ListOf for CommitList {
    ghost use Rattle.cdx_schema.specs.Kinds.{commits};
    ghost use Rattle.cdx_push_code.specs.ItemKinds.{commits_item};

    type Item = CommitMachine;

    ghost list_name = { commits };

    ghost one_name = { tt };

    ghost item_kind = { commits_item };

    fn inner() -> &'static str {
        "commit"
    }

    fn rule() -> Rule {
        Rule::Lax
    }
}
