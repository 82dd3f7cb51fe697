//! The steps of a walk.

ghost use Rattle.std.specs.Prelude.{◌≡◌, ◌∷◌, ◌++◌, [], length, take, OnOk};
ghost use Rattle.cdx_schema.specs.Faults.{to_member, to_item};
ghost use Rattle.cdx_ways.specs.Ways.{behind_step};
ghost use Rattle.cdx_losses.specs.Losses.{entry_or};
ghost use Rattle.cdx_losses.specs.Walks.{AddsLosses};

use super::Walk;
use crate::loss::{Loss, Reason};
use cdx_events::{List as Items, Text};
use cdx_models::Step;
use cdx_ways::copy_path;
use std::alloc::{AllocError, Global};

impl Walk {
    /// At the root, with nothing found. It takes no memory.
    pub(crate) fn new(alloc: Global) -> Walk
        ensures path { result.path.items ≡ [] }
        ensures losses { result.losses ≡ [] }
    {
        Walk {
            alloc,
            path: Vec::new(alloc),
            losses: Items::new(alloc),
        }
    }

    /// What it found.
    pub(crate) fn into_losses(self) -> Items<Loss>
        ensures { result ≡ self.losses }
    {
        let Walk { losses, .. } = self;
        losses
    }

    /// The walk goes on to a member.
    pub(crate) fn enter_member(&mut self, name: &str) -> Result<(), AllocError>
        ensures path { OnOk result
            (self.new.path.items ≡ self.old.path.items ++ to_member name.now ∷ []) }
        ensures losses { self.new.losses ≡ self.old.losses }
    {
        let name = Text::new(self.alloc, name)?;
        self.path.push(Step::Member(name))?;
        Ok(())
    }

    /// The walk goes on to an item.
    pub(crate) fn enter_item(&mut self, number: usize) -> Result<(), AllocError>
        ensures path { OnOk result
            (self.new.path.items ≡ self.old.path.items ++ to_item number ∷ []) }
        ensures losses { self.new.losses ≡ self.old.losses }
    {
        self.path.push(Step::Item(number))?;
        Ok(())
    }

    /// How many steps lead to where the walk stands.
    pub(crate) fn depth(&self) -> usize
        ensures { result ≡ length self.now.path.items }
    {
        self.path.len()
    }

    /// The walk goes back to so many steps.
    pub(crate) fn leave(&mut self, depth: usize)
        ensures path { self.new.path.items ≡ take depth self.old.path.items }
        ensures losses { self.new.losses ≡ self.old.losses }
    {
        self.path.truncate(depth);
    }

    /// Adds what stands where the walk stands.
    pub(crate) fn record(&mut self, reason: Reason) -> Result<(), AllocError>
        ensures { OnOk result (AddsLosses (([], reason) ∷ []) self.old self.new) }
    {
        let path = copy_path(self.alloc, self.path.as_slice())?;
        self.losses.push(Loss { path, reason })?;
        Ok(())
    }

    /// Adds a member, where there is a reason.
    pub(crate) fn record_member(
        &mut self,
        name: &str,
        reason: Option<Reason>,
    ) -> Result<(), AllocError>
        ensures { OnOk result
            (AddsLosses (behind_step (to_member name.now) (entry_or reason [])) self.old self.new) }
    {
        match reason {
            None => Ok(()),
            Some(reason) => {
                let depth = self.depth();
                self.enter_member(name)?;
                self.record(reason)?;
                self.leave(depth);
                Ok(())
            }
        }
    }
}
