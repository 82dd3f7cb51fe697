//! Hashes of files.

ghost use Rattle.std.specs.Prelude.{refl, ◌≡◌, ◌↔◌, IsTrue};
ghost use Rattle.cdx_models.specs.Records.{hash_value_tree, hash_tree, hashes_tree};
ghost use Rattle.cdx_models.specs.Equal.{equal};
ghost use Rattle.cdx_models.specs.EqualLaws.{equal_laws};

use crate::tree::HasTree;
use cdx_events::{List, Text};
use std::alloc::{AllocError, Global};

/// The value of a hash, in hexadecimal digits by CycloneDX, which isn't checked.
#[derive(Debug, Drop)]
pub struct HashValue(pub Text);

impl HasTree for HashValue {
    ghost tree = { hash_value_tree };

    ghost there = { λ x. refl };

    fn copy(&self, alloc: Global) -> Result<HashValue, AllocError> {
        Ok(HashValue(self.0.copy(alloc)?))
    }

    fn agrees(&self, other: &HashValue) -> bool {
        self.0.agrees(&other.0)
    }
}

impl PartialEq for HashValue {
    ghost eq = { λ a b. equal (hash_value_tree a) (hash_value_tree b) };

    ghost laws = { equal_laws hash_value_tree };

    fn eq(&self, other: &HashValue) -> bool
        ensures test { result ≡ equal (hash_value_tree self.now) (hash_value_tree other.now) }
        ensures equality { IsTrue result ↔ (hash_value_tree self.now ≡ hash_value_tree other.now) }
    {
        self.equals(other)
    }
}

/// A hash of a file.
#[derive(Debug, Drop)]
pub struct Hash {
    /// The algorithm, as `SHA-256`.
    pub alg: Text,
    /// The value, as the algorithm gives it.
    pub content: HashValue,
}

impl HasTree for Hash {
    ghost tree = { hash_tree };

    ghost there = { λ x. refl };

    fn copy(&self, alloc: Global) -> Result<Hash, AllocError> {
        Ok(Hash {
            alg: self.alg.copy(alloc)?,
            content: self.content.copy(alloc)?,
        })
    }

    fn agrees(&self, other: &Hash) -> bool {
        self.alg.agrees(&other.alg) && self.content.agrees(&other.content)
    }
}

impl PartialEq for Hash {
    ghost eq = { λ a b. equal (hash_tree a) (hash_tree b) };

    ghost laws = { equal_laws hash_tree };

    fn eq(&self, other: &Hash) -> bool
        ensures test { result ≡ equal (hash_tree self.now) (hash_tree other.now) }
        ensures equality { IsTrue result ↔ (hash_tree self.now ≡ hash_tree other.now) }
    {
        self.equals(other)
    }
}

/// Hashes, in order.
#[derive(Debug, Drop)]
pub struct Hashes(pub List<Hash>);

impl HasTree for Hashes {
    ghost tree = { hashes_tree };

    ghost there = { λ x. refl };

    fn copy(&self, alloc: Global) -> Result<Hashes, AllocError> {
        Ok(Hashes(self.0.copy(alloc)?))
    }

    fn agrees(&self, other: &Hashes) -> bool {
        self.0.agrees(&other.0)
    }
}

impl PartialEq for Hashes {
    ghost eq = { λ a b. equal (hashes_tree a) (hashes_tree b) };

    ghost laws = { equal_laws hashes_tree };

    fn eq(&self, other: &Hashes) -> bool
        ensures test { result ≡ equal (hashes_tree self.now) (hashes_tree other.now) }
        ensures equality { IsTrue result ↔ (hashes_tree self.now ≡ hashes_tree other.now) }
    {
        self.equals(other)
    }
}
