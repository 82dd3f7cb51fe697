//! Which component or service depends on which.

ghost use Rattle.cdx_models.specs.Trees.{dependency};
ghost use Rattle.cdx_schema.specs.Kinds.{a_list, dependencies};
ghost use Rattle.std.specs.Prelude.{refl, ◌≡◌, ◌↔◌, IsTrue};
ghost use Rattle.cdx_relations.specs.Records.{dependency_tree, dependencies_tree};
ghost use Rattle.cdx_models.specs.Equal.{equal};
ghost use Rattle.cdx_models.specs.EqualLaws.{equal_laws};

use cdx_events::{List, Text};
use cdx_models::HasTree;
use cdx_schema::{Kinded, Record};
use std::alloc::{AllocError, Global};

/// What a component or service depends on directly.
#[derive(Debug, Drop)]
pub struct Dependency {
    /// The reference of what depends on the others.
    pub dependency_ref: Text,
    /// The references of the others.
    pub depends_on: List<Text>,
}

impl HasTree for Dependency {
    ghost tree = { dependency_tree };

    ghost there = { λ x. refl };

    fn copy(&self, alloc: Global) -> Result<Dependency, AllocError> {
        Ok(Dependency {
            dependency_ref: self.dependency_ref.copy(alloc)?,
            depends_on: self.depends_on.copy(alloc)?,
        })
    }

    fn agrees(&self, other: &Dependency) -> bool {
        self.dependency_ref.agrees(&other.dependency_ref)
            && self.depends_on.agrees(&other.depends_on)
    }
}

impl Record for Dependency {
    ghost name = { dependency };

    ghost is_record = { λ x. refl };

    ghost plain = { refl };
}

impl PartialEq for Dependency {
    ghost eq = { λ a b. equal (dependency_tree a) (dependency_tree b) };

    ghost laws = { equal_laws dependency_tree };

    fn eq(&self, other: &Dependency) -> bool
        ensures test { result ≡ equal (dependency_tree self.now) (dependency_tree other.now) }
        ensures equality { IsTrue result ↔ (dependency_tree self.now ≡ dependency_tree other.now) }
    {
        self.equals(other)
    }
}

/// The graph of the bill's dependencies.
#[derive(Debug, Drop)]
pub struct Dependencies(pub List<Dependency>);

impl HasTree for Dependencies {
    ghost tree = { dependencies_tree };

    ghost there = { λ x. refl };

    fn copy(&self, alloc: Global) -> Result<Dependencies, AllocError> {
        Ok(Dependencies(self.0.copy(alloc)?))
    }

    fn agrees(&self, other: &Dependencies) -> bool {
        self.0.agrees(&other.0)
    }
}

impl Kinded for Dependencies {
    ghost kind = { a_list dependencies };
}

impl PartialEq for Dependencies {
    ghost eq = { λ a b. equal (dependencies_tree a) (dependencies_tree b) };

    ghost laws = { equal_laws dependencies_tree };

    fn eq(&self, other: &Dependencies) -> bool
        ensures test { result ≡ equal (dependencies_tree self.now) (dependencies_tree other.now) }
        ensures equality { IsTrue result
            ↔ (dependencies_tree self.now ≡ dependencies_tree other.now) }
    {
        self.equals(other)
    }
}
