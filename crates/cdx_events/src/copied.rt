//! Values that have copies.

ghost use Rattle.std.specs.Prelude.{◌≡◌, IfOk};

use std::alloc::{AllocError, Global};

/// What can be copied where memory is left.
pub trait Copied: Drop + Sized {
    /// A copy, equal to its original. Only want of memory refuses.
    fn copied(&self, alloc: Global) -> Result<Self, AllocError>
        ensures { IfOk result (λ c. c ≡ self.now) };
}
