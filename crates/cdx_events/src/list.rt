//! Lists that can only grow.

ghost use Rattle.std.specs.Prelude.{◌≡◌, [], ◌∷◌, ◌++◌, IfOk, OnOk, OnErr, length, ◌<◌, ◌^◌, slice_get, option_copied, is_some, nat_lt};

use crate::copied::Copied;
use std::alloc::{AllocError, Global};
use std::marker::Model;

/// A list, which contracts see as the list of its items.
#[derive(Debug, Drop)]
pub struct List<T> {
    items: Vec<T>,
}

impl<T> Model for List<T> {
    ghost use Rattle.std.specs.Prelude.{List};

    ghost Value = { List T };

    ghost view = { λ l. l.items.items };
}

impl<T> List<T> {
    /// The empty list. It takes no memory.
    pub fn new(alloc: Global) -> List<T>
        ensures { result ≡ [] }
    {
        List {
            items: Vec::new(alloc),
        }
    }

    /// The empty list, with room for so many items. Only want of memory refuses.
    pub fn with_capacity(alloc: Global, capacity: usize) -> Result<List<T>, AllocError>
        ensures { IfOk result (λ l. l ≡ []) }
    {
        let items = Vec::with_capacity(alloc, capacity)?;
        Ok(List { items })
    }

    /// The list of a vector's items. It takes no memory.
    pub fn from_vec(items: Vec<T>) -> List<T>
        ensures { result ≡ items.items }
    {
        List { items }
    }

    /// How many items there are. It takes no memory.
    pub fn len(&self) -> usize
        ensures { result ≡ length self.now }
    {
        self.items.len()
    }

    /// The item at a place, counted from 0, or `None` exactly from the length on. It takes no memory.
    pub fn get(&self, at: usize) -> Option<&T>
        ensures item { option_copied result ≡ slice_get self.now at }
        ensures there { is_some result ≡ nat_lt at (length self.now) }
    {
        self.items.get(at)
    }

    /// The items. It takes no memory.
    pub fn as_slice(&self) -> &[T]
        ensures { result.now ≡ self.now }
    {
        self.items.as_slice()
    }
}

impl<T> List<T> {
    /// The vector of its items. It takes no memory.
    pub fn into_vec(self) -> Vec<T>
        ensures { result.items ≡ self }
    {
        self.items
    }
}

impl<T: Copied> List<T> {
    /// A copy, equal to its original. Only want of memory refuses.
    pub fn copy(&self, alloc: Global) -> Result<List<T>, AllocError>
        ensures { IfOk result (λ l. l ≡ self.now) }
    {
        let originals = self.as_slice();
        let mut items = Vec::with_capacity(alloc, originals.len())?;
        for item in originals {
            items.push(item.copied(alloc)?)?;
        }
        Ok(List { items })
    }
}

impl<T: Copied> Copied for List<T> {
    fn copied(&self, alloc: Global) -> Result<List<T>, AllocError> {
        self.copy(alloc)
    }
}

impl<T: Drop> List<T> {
    /// Appends an item. Where memory runs out, the list is as before and the item is dropped.
    pub fn push(&mut self, item: T) -> Result<(), AllocError>
        ensures ok { OnOk result (self.new ≡ self.old ++ item ∷ []) }
        ensures err { OnErr result (self.new ≡ self.old) }
    {
        self.items.push(item)?;
        Ok(())
    }
}

/// Two lists are equal where they are as long as each other and their items are equal one by one.
impl<T: PartialEq> PartialEq for List<T> {
    ghost use Rattle.std.specs.Cmp.Lexicographic.{pointwise, lists_per};

    ghost eq = { pointwise T.eq };

    ghost laws = { lists_per T.laws };

    fn eq(&self, other: &List<T>) -> bool {
        self.items.as_slice() == other.items.as_slice()
    }
}

impl<T: Eq> Eq for List<T> {
    ghost use Rattle.std.specs.Cmp.Lexicographic.{lists_equiv};

    ghost laws = { lists_equiv T.Eq.laws };
}
