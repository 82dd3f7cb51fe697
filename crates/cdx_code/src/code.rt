//! Commits.

ghost use Rattle.cdx_models.specs.Trees.{action, commit};
ghost use Rattle.cdx_schema.specs.Kinds.{a_list, commits};
ghost use Rattle.std.specs.Prelude.{refl, ◌≡◌, ◌↔◌, IsTrue};
ghost use Rattle.cdx_models.specs.Equal.{equal};
ghost use Rattle.cdx_models.specs.EqualLaws.{equal_laws};
ghost use Rattle.cdx_code.specs.Records.{action_tree, commit_tree, commits_tree};

use cdx_events::{List, Text};
use cdx_models::{HasTree, copy_row, equal_row};
use cdx_schema::{Kinded, Record};
use std::alloc::{AllocError, Global};

/// Who did something, and when.
#[derive(Debug, Drop)]
pub struct IdentifiableAction {
    /// A date with time and zone by CycloneDX, which isn't checked.
    pub timestamp: Option<Text>,
    /// The name of who did it.
    pub name: Option<Text>,
    /// The address for mail.
    pub email: Option<Text>,
}

impl HasTree for IdentifiableAction {
    ghost tree = { action_tree };

    ghost there = { λ x. refl };

    fn copy(&self, alloc: Global) -> Result<IdentifiableAction, AllocError> {
        Ok(IdentifiableAction {
            timestamp: copy_row(alloc, &self.timestamp)?,
            name: copy_row(alloc, &self.name)?,
            email: copy_row(alloc, &self.email)?,
        })
    }

    fn agrees(&self, other: &IdentifiableAction) -> bool {
        equal_row(&self.timestamp, &other.timestamp)
            && equal_row(&self.name, &other.name)
            && equal_row(&self.email, &other.email)
    }
}

impl Record for IdentifiableAction {
    ghost name = { action };

    ghost is_record = { λ x. refl };

    ghost plain = { refl };
}

impl PartialEq for IdentifiableAction {
    ghost eq = { λ a b. equal (action_tree a) (action_tree b) };

    ghost laws = { equal_laws action_tree };

    fn eq(&self, other: &IdentifiableAction) -> bool
        ensures test { result ≡ equal (action_tree self.now) (action_tree other.now) }
        ensures equality { IsTrue result ↔ (action_tree self.now ≡ action_tree other.now) }
    {
        self.equals(other)
    }
}

/// A commit of a component's source.
#[derive(Debug)]
pub struct Commit {
    /// The name that the version control system gives it.
    pub uid: Option<Text>,
    /// Where it can be seen.
    pub url: Option<Text>,
    /// Who wrote it, and when.
    pub author: Option<IdentifiableAction>,
    /// Who committed it, and when.
    pub committer: Option<IdentifiableAction>,
    /// Its message.
    pub message: Option<Text>,
}

// By hand, so that one is freed by a call wherever it ends, and not field by field.
impl Drop for Commit {
    fn drop(self) {
        let Commit {
            uid: _,
            url: _,
            author: _,
            committer: _,
            message: _,
        } = self;
    }
}

impl HasTree for Commit {
    ghost tree = { commit_tree };

    ghost there = { λ x. refl };

    fn copy(&self, alloc: Global) -> Result<Commit, AllocError> {
        Ok(Commit {
            uid: copy_row(alloc, &self.uid)?,
            url: copy_row(alloc, &self.url)?,
            author: copy_row(alloc, &self.author)?,
            committer: copy_row(alloc, &self.committer)?,
            message: copy_row(alloc, &self.message)?,
        })
    }

    fn agrees(&self, other: &Commit) -> bool {
        equal_row(&self.uid, &other.uid)
            && equal_row(&self.url, &other.url)
            && equal_row(&self.author, &other.author)
            && equal_row(&self.committer, &other.committer)
            && equal_row(&self.message, &other.message)
    }
}

impl Record for Commit {
    ghost name = { commit };

    ghost is_record = { λ x. refl };

    ghost plain = { refl };
}

impl PartialEq for Commit {
    ghost eq = { λ a b. equal (commit_tree a) (commit_tree b) };

    ghost laws = { equal_laws commit_tree };

    fn eq(&self, other: &Commit) -> bool
        ensures test { result ≡ equal (commit_tree self.now) (commit_tree other.now) }
        ensures equality { IsTrue result ↔ (commit_tree self.now ≡ commit_tree other.now) }
    {
        self.equals(other)
    }
}

/// Commits, in order.
#[derive(Debug, Drop)]
pub struct Commits(pub List<Commit>);

impl HasTree for Commits {
    ghost tree = { commits_tree };

    ghost there = { λ x. refl };

    fn copy(&self, alloc: Global) -> Result<Commits, AllocError> {
        Ok(Commits(self.0.copy(alloc)?))
    }

    fn agrees(&self, other: &Commits) -> bool {
        self.0.agrees(&other.0)
    }
}

impl Kinded for Commits {
    ghost kind = { a_list commits };
}

impl PartialEq for Commits {
    ghost eq = { λ a b. equal (commits_tree a) (commits_tree b) };

    ghost laws = { equal_laws commits_tree };

    fn eq(&self, other: &Commits) -> bool
        ensures test { result ≡ equal (commits_tree self.now) (commits_tree other.now) }
        ensures equality { IsTrue result ↔ (commits_tree self.now ≡ commits_tree other.now) }
    {
        self.equals(other)
    }
}
