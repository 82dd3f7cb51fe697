//! How complete the parts of a bill are known.

ghost use Rattle.cdx_models.specs.Trees.{composition};
ghost use Rattle.cdx_schema.specs.Kinds.{a_list, a_reference, compositions};
ghost use Rattle.std.specs.Prelude.{◌≡◌, refl, IfOk, ◌↔◌, IsTrue};
ghost use Rattle.cdx_relations.specs.Records.{bom_reference_tree, composition_tree, compositions_tree};
ghost use Rattle.cdx_models.specs.Equal.{equal};
ghost use Rattle.cdx_models.specs.EqualLaws.{equal_laws};

use cdx_events::{List, Text};
use cdx_models::{HasTree, copy_row, equal_row};
use cdx_schema::{Kinded, Record};
use cdx_signature::Signature;
use std::alloc::{AllocError, Global};

/// A reference to a part of the bill, by that part's `bom_ref`.
#[derive(Debug, Drop)]
pub struct BomReference(pub Text);

impl BomReference {
    /// The reference with this text.
    pub fn new(alloc: Global, input: &str) -> Result<BomReference, AllocError>
        ensures { IfOk result (λ r. r.0 ≡ input.now) }
    {
        Ok(BomReference(Text::new(alloc, input)?))
    }
}

impl HasTree for BomReference {
    ghost tree = { bom_reference_tree };

    ghost there = { λ x. refl };

    fn copy(&self, alloc: Global) -> Result<BomReference, AllocError> {
        Ok(BomReference(self.0.copy(alloc)?))
    }

    fn agrees(&self, other: &BomReference) -> bool {
        self.0.agrees(&other.0)
    }
}

impl Kinded for BomReference {
    ghost kind = { a_reference };
}

impl PartialEq for BomReference {
    ghost eq = { λ a b. equal (bom_reference_tree a) (bom_reference_tree b) };

    ghost laws = { equal_laws bom_reference_tree };

    fn eq(&self, other: &BomReference) -> bool
        ensures test { result ≡ equal (bom_reference_tree self.now) (bom_reference_tree other.now) }
        ensures equality { IsTrue result
            ↔ (bom_reference_tree self.now ≡ bom_reference_tree other.now) }
    {
        self.equals(other)
    }
}

/// How complete the bill knows some of its parts.
#[derive(Debug)]
pub struct Composition {
    /// The name by which the rest of the bill refers to it. Known from 1.5 on.
    pub bom_ref: Option<Text>,
    /// How complete, as `complete` or `unknown`.
    pub aggregate: Text,
    /// The parts whose own parts are meant.
    pub assemblies: Option<List<BomReference>>,
    /// The parts whose dependencies are meant.
    pub dependencies: Option<List<BomReference>>,
    /// The vulnerabilities that are meant. Known from 1.5 on.
    pub vulnerabilities: Option<List<BomReference>>,
    /// Known from 1.4 on.
    pub signature: Option<Signature>,
}

// By hand, so that one is freed by a call wherever it ends, and not field by field.
impl Drop for Composition {
    fn drop(self) {
        let Composition {
            bom_ref: _,
            aggregate: _,
            assemblies: _,
            dependencies: _,
            vulnerabilities: _,
            signature: _,
        } = self;
    }
}

impl HasTree for Composition {
    ghost tree = { composition_tree };

    ghost there = { λ x. refl };

    fn copy(&self, alloc: Global) -> Result<Composition, AllocError> {
        Ok(Composition {
            bom_ref: copy_row(alloc, &self.bom_ref)?,
            aggregate: self.aggregate.copy(alloc)?,
            assemblies: copy_row(alloc, &self.assemblies)?,
            dependencies: copy_row(alloc, &self.dependencies)?,
            vulnerabilities: copy_row(alloc, &self.vulnerabilities)?,
            signature: copy_row(alloc, &self.signature)?,
        })
    }

    fn agrees(&self, other: &Composition) -> bool {
        equal_row(&self.bom_ref, &other.bom_ref)
            && self.aggregate.agrees(&other.aggregate)
            && equal_row(&self.assemblies, &other.assemblies)
            && equal_row(&self.dependencies, &other.dependencies)
            && equal_row(&self.vulnerabilities, &other.vulnerabilities)
            && equal_row(&self.signature, &other.signature)
    }
}

impl Record for Composition {
    ghost name = { composition };

    ghost is_record = { λ x. refl };

    ghost plain = { refl };
}

impl PartialEq for Composition {
    ghost eq = { λ a b. equal (composition_tree a) (composition_tree b) };

    ghost laws = { equal_laws composition_tree };

    fn eq(&self, other: &Composition) -> bool
        ensures test { result ≡ equal (composition_tree self.now) (composition_tree other.now) }
        ensures equality { IsTrue result
            ↔ (composition_tree self.now ≡ composition_tree other.now) }
    {
        self.equals(other)
    }
}

/// Compositions, in order.
#[derive(Debug, Drop)]
pub struct Compositions(pub List<Composition>);

impl HasTree for Compositions {
    ghost tree = { compositions_tree };

    ghost there = { λ x. refl };

    fn copy(&self, alloc: Global) -> Result<Compositions, AllocError> {
        Ok(Compositions(self.0.copy(alloc)?))
    }

    fn agrees(&self, other: &Compositions) -> bool {
        self.0.agrees(&other.0)
    }
}

impl Kinded for Compositions {
    ghost kind = { a_list compositions };
}

impl PartialEq for Compositions {
    ghost eq = { λ a b. equal (compositions_tree a) (compositions_tree b) };

    ghost laws = { equal_laws compositions_tree };

    fn eq(&self, other: &Compositions) -> bool
        ensures test { result ≡ equal (compositions_tree self.now) (compositions_tree other.now) }
        ensures equality { IsTrue result
            ↔ (compositions_tree self.now ≡ compositions_tree other.now) }
    {
        self.equals(other)
    }
}
