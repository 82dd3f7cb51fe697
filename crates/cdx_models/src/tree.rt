//! Values that have a tree: copies, comparisons, and the same for fields that may be absent.

ghost use Rattle.std.specs.Prelude.{◌≡◌, ◌↔◌, IfOk, IsTrue, refl, false};
ghost use Rattle.cdx_models.specs.Trees.{Tree, text, number, boolean, present, list_tree, is_absent};
ghost use Rattle.cdx_models.specs.Equal.{equal};

use cdx_events::{List, Text};
use std::alloc::{AllocError, Global};

/// A value that contracts see as a tree.
pub trait HasTree {
    ghost tree: { Self → Tree };

    /// A copy, whose tree is the original's.
    fn copy(&self, alloc: Global) -> Result<Self, AllocError>
        ensures { IfOk result (λ r. tree r ≡ tree self.now) };

    /// What the test of the trees answers, row by row. It takes no memory.
    fn agrees(&self, other: &Self) -> bool
        ensures { result ≡ equal (tree self.now) (tree other.now) };

    /// Whether the trees are equal. It takes no memory.
    final fn equals(&self, other: &Self) -> bool
        ensures test { result ≡ equal (tree self.now) (tree other.now) }
        ensures equality { IsTrue result ↔ (tree self.now ≡ tree other.now) }
    {
        self.agrees(other)
    }

    // The tree isn't absent.
    ghost there: { (x : Self) → is_absent (tree x) ≡ false };
}

impl HasTree for Text {
    ghost tree = { text };

    ghost there = { λ x. refl };

    fn copy(&self, alloc: Global) -> Result<Text, AllocError> {
        Text::new(alloc, self.as_str())
    }

    fn agrees(&self, other: &Text) -> bool {
        self.is(other.as_str())
    }
}

impl HasTree for bool {
    ghost tree = { boolean };

    ghost there = { λ x. refl };

    fn copy(&self, alloc: Global) -> Result<bool, AllocError> {
        Ok(*self)
    }

    fn agrees(&self, other: &bool) -> bool {
        *self == *other
    }
}

impl HasTree for u32 {
    ghost tree = { number };

    ghost there = { λ x. refl };

    fn copy(&self, alloc: Global) -> Result<u32, AllocError> {
        Ok(*self)
    }

    fn agrees(&self, other: &u32) -> bool {
        *self == *other
    }
}

impl<T: HasTree + Drop> HasTree for List<T> {
    ghost tree = { list_tree T.HasTree.tree };

    ghost there = { λ x. refl };

    fn copy(&self, alloc: Global) -> Result<List<T>, AllocError> {
        let mut copies = List::with_capacity(alloc, self.len())?;
        for item in self.as_slice() {
            copies.push(item.copy(alloc)?)?;
        }
        Ok(copies)
    }

    fn agrees(&self, other: &List<T>) -> bool {
        let one = self.as_slice();
        let other = other.as_slice();
        if one.len() != other.len() {
            return false;
        }
        for i in 0..one.len() {
            if !one[i].agrees(&other[i]) {
                return false;
            }
        }
        true
    }
}

/// A copy of a field that may be absent.
pub fn copy_row<T: HasTree>(alloc: Global, held: &Option<T>) -> Result<Option<T>, AllocError>
    ensures { IfOk result (λ r. present T.tree r ≡ present T.tree held.now) }
{
    match held {
        None => Ok(None),
        Some(held) => Ok(Some(held.copy(alloc)?)),
    }
}

/// Whether two fields that may be absent are equal.
pub fn equal_row<T: HasTree>(one: &Option<T>, other: &Option<T>) -> bool
    ensures { result ≡ equal (present T.tree one.now) (present T.tree other.now) }
{
    match (one, other) {
        (None, None) => true,
        (Some(one), Some(other)) => one.agrees(other),
        (None, Some(_)) => false,
        (Some(_), None) => false,
    }
}
