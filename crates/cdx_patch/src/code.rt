//! Patches and what they resolve.

ghost use Rattle.cdx_models.specs.Trees.{diff, issue, patch, source};
ghost use Rattle.cdx_schema.specs.Kinds.{a_list, patches};
ghost use Rattle.std.specs.Prelude.{refl, ◌≡◌, ◌↔◌, IsTrue};
ghost use Rattle.cdx_models.specs.Equal.{equal};
ghost use Rattle.cdx_models.specs.EqualLaws.{equal_laws};
ghost use Rattle.cdx_patch.specs.Records.{diff_tree, source_tree, issue_tree, patch_tree, patches_tree};

use cdx_events::{List, Text};
use cdx_models::{AttachedText, HasTree, copy_row, equal_row};
use cdx_schema::{Kinded, Record};
use std::alloc::{AllocError, Global};

/// What a patch changes.
#[derive(Debug, Drop)]
pub struct Diff {
    /// The change itself.
    pub text: Option<AttachedText>,
    /// Where the change can be found.
    pub url: Option<Text>,
}

impl HasTree for Diff {
    ghost tree = { diff_tree };

    ghost there = { λ x. refl };

    fn copy(&self, alloc: Global) -> Result<Diff, AllocError> {
        Ok(Diff {
            text: copy_row(alloc, &self.text)?,
            url: copy_row(alloc, &self.url)?,
        })
    }

    fn agrees(&self, other: &Diff) -> bool {
        equal_row(&self.text, &other.text) && equal_row(&self.url, &other.url)
    }
}

impl Record for Diff {
    ghost name = { diff };

    ghost is_record = { λ x. refl };

    ghost plain = { refl };
}

impl PartialEq for Diff {
    ghost eq = { λ a b. equal (diff_tree a) (diff_tree b) };

    ghost laws = { equal_laws diff_tree };

    fn eq(&self, other: &Diff) -> bool
        ensures test { result ≡ equal (diff_tree self.now) (diff_tree other.now) }
        ensures equality { IsTrue result ↔ (diff_tree self.now ≡ diff_tree other.now) }
    {
        self.equals(other)
    }
}

/// Where an issue is told of.
#[derive(Debug, Drop)]
pub struct Source {
    /// Its name.
    pub name: Option<Text>,
    /// Where it can be found.
    pub url: Option<Text>,
}

impl HasTree for Source {
    ghost tree = { source_tree };

    ghost there = { λ x. refl };

    fn copy(&self, alloc: Global) -> Result<Source, AllocError> {
        Ok(Source {
            name: copy_row(alloc, &self.name)?,
            url: copy_row(alloc, &self.url)?,
        })
    }

    fn agrees(&self, other: &Source) -> bool {
        equal_row(&self.name, &other.name) && equal_row(&self.url, &other.url)
    }
}

impl Record for Source {
    ghost name = { source };

    ghost is_record = { λ x. refl };

    ghost plain = { refl };
}

impl PartialEq for Source {
    ghost eq = { λ a b. equal (source_tree a) (source_tree b) };

    ghost laws = { equal_laws source_tree };

    fn eq(&self, other: &Source) -> bool
        ensures test { result ≡ equal (source_tree self.now) (source_tree other.now) }
        ensures equality { IsTrue result ↔ (source_tree self.now ≡ source_tree other.now) }
    {
        self.equals(other)
    }
}

/// A defect, a wish or a weakness that a patch resolves.
#[derive(Debug)]
pub struct Issue {
    /// What it is, as `defect` or `security`.
    pub issue_type: Text,
    /// The identifier that its source gives it.
    pub id: Option<Text>,
    /// Its name.
    pub name: Option<Text>,
    /// What it is about.
    pub description: Option<Text>,
    /// Where it is told.
    pub source: Option<Source>,
    /// Addresses of what else tells of it.
    pub references: Option<List<Text>>,
}

// By hand, so that one is freed by a call wherever it ends, and not field by field.
impl Drop for Issue {
    fn drop(self) {
        let Issue {
            issue_type: _,
            id: _,
            name: _,
            description: _,
            source: _,
            references: _,
        } = self;
    }
}

impl HasTree for Issue {
    ghost tree = { issue_tree };

    ghost there = { λ x. refl };

    fn copy(&self, alloc: Global) -> Result<Issue, AllocError> {
        Ok(Issue {
            issue_type: self.issue_type.copy(alloc)?,
            id: copy_row(alloc, &self.id)?,
            name: copy_row(alloc, &self.name)?,
            description: copy_row(alloc, &self.description)?,
            source: copy_row(alloc, &self.source)?,
            references: copy_row(alloc, &self.references)?,
        })
    }

    fn agrees(&self, other: &Issue) -> bool {
        self.issue_type.agrees(&other.issue_type)
            && equal_row(&self.id, &other.id)
            && equal_row(&self.name, &other.name)
            && equal_row(&self.description, &other.description)
            && equal_row(&self.source, &other.source)
            && equal_row(&self.references, &other.references)
    }
}

impl Record for Issue {
    ghost name = { issue };

    ghost is_record = { λ x. refl };

    ghost plain = { refl };
}

impl PartialEq for Issue {
    ghost eq = { λ a b. equal (issue_tree a) (issue_tree b) };

    ghost laws = { equal_laws issue_tree };

    fn eq(&self, other: &Issue) -> bool
        ensures test { result ≡ equal (issue_tree self.now) (issue_tree other.now) }
        ensures equality { IsTrue result ↔ (issue_tree self.now ≡ issue_tree other.now) }
    {
        self.equals(other)
    }
}

/// A change of a component that is not in its own source.
#[derive(Debug, Drop)]
pub struct Patch {
    /// What it is, as `backport`.
    pub patch_type: Text,
    /// What it changes.
    pub diff: Option<Diff>,
    /// The issues that it resolves.
    pub resolves: Option<List<Issue>>,
}

impl HasTree for Patch {
    ghost tree = { patch_tree };

    ghost there = { λ x. refl };

    fn copy(&self, alloc: Global) -> Result<Patch, AllocError> {
        Ok(Patch {
            patch_type: self.patch_type.copy(alloc)?,
            diff: copy_row(alloc, &self.diff)?,
            resolves: copy_row(alloc, &self.resolves)?,
        })
    }

    fn agrees(&self, other: &Patch) -> bool {
        self.patch_type.agrees(&other.patch_type)
            && equal_row(&self.diff, &other.diff)
            && equal_row(&self.resolves, &other.resolves)
    }
}

impl Record for Patch {
    ghost name = { patch };

    ghost is_record = { λ x. refl };

    ghost plain = { refl };
}

impl PartialEq for Patch {
    ghost eq = { λ a b. equal (patch_tree a) (patch_tree b) };

    ghost laws = { equal_laws patch_tree };

    fn eq(&self, other: &Patch) -> bool
        ensures test { result ≡ equal (patch_tree self.now) (patch_tree other.now) }
        ensures equality { IsTrue result ↔ (patch_tree self.now ≡ patch_tree other.now) }
    {
        self.equals(other)
    }
}

/// Patches, in order.
#[derive(Debug, Drop)]
pub struct Patches(pub List<Patch>);

impl HasTree for Patches {
    ghost tree = { patches_tree };

    ghost there = { λ x. refl };

    fn copy(&self, alloc: Global) -> Result<Patches, AllocError> {
        Ok(Patches(self.0.copy(alloc)?))
    }

    fn agrees(&self, other: &Patches) -> bool {
        self.0.agrees(&other.0)
    }
}

impl Kinded for Patches {
    ghost kind = { a_list patches };
}

impl PartialEq for Patches {
    ghost eq = { λ a b. equal (patches_tree a) (patches_tree b) };

    ghost laws = { equal_laws patches_tree };

    fn eq(&self, other: &Patches) -> bool
        ensures test { result ≡ equal (patches_tree self.now) (patches_tree other.now) }
        ensures equality { IsTrue result ↔ (patches_tree self.now ≡ patches_tree other.now) }
    {
        self.equals(other)
    }
}
