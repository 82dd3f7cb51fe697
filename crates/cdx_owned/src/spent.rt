//! Values that were read.

ghost use Rattle.std.specs.Prelude.{◌≡◌, ◌≤◌, [], IfOk, length};

use std::alloc::{AllocError, Global};

// So many are held at most before they are freed: few enough that what lies in their room still lies near, and enough that
// their room is joined again.
const MOST: usize = 96;

/// Values that were read and that nothing needs any more, freed some dozens at once. Freed one by one, each would leave
/// room for a part of what is made of the next ones, which then would lie scattered. The first ones are freed sooner, since
/// what is made of them finds no room yet: one by itself, and then each time some twice as many.
#[derive(Drop)]
pub struct Spent<T> {
    alloc: Global,
    held: Vec<T>,
}

impl<T: Drop> Spent<T> {
    /// None yet. Only want of memory refuses.
    pub fn new(alloc: Global) -> Result<Spent<T>, AllocError>
        ensures { IfOk result (λ s. s.held.items ≡ []) }
    {
        let held = Vec::with_capacity(alloc, 1)?;
        Ok(Spent { alloc, held })
    }

    /// Takes one more. At most 96 are held: where there is no room for one more, they are freed first. Only want of memory
    /// refuses.
    pub fn put(&mut self, item: T) -> Result<(), AllocError>
        ensures { length self.old.held.items ≤ 96 → length self.new.held.items ≤ 96 }
    {
        let count = self.held.len();
        if count >= MOST || count >= self.held.capacity() {
            let more = if count < MOST / 2 {
                2 * count + 1
            } else {
                MOST
            };
            // Before room for the next ones is taken, which may then be that of these.
            self.held = Vec::new(self.alloc);
            self.held = Vec::with_capacity(self.alloc, more)?;
        }
        self.held.push(item)?;
        Ok(())
    }
}
