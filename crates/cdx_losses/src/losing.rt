//! What a road takes of a value, of a member and of the items of a list.

ghost use Rattle.std.specs.Prelude.{OnOk};
ghost use Rattle.cdx_models.specs.Trees.{Tree, present, each};
ghost use Rattle.cdx_schema.specs.Kinds.{Kind};
ghost use Rattle.cdx_schema.specs.Faults.{to_member};
ghost use Rattle.cdx_ways.specs.Ways.{behind_step};
ghost use Rattle.cdx_losses.specs.Losses.{entry_or, items_lost};
ghost use Rattle.cdx_losses.specs.Walks.{AddsLosses, value_lost};

use crate::loss::Reason;
use crate::road::Road;
use crate::walk::Walk;
use std::alloc::AllocError;

/// A value of which a road may take something.
pub(crate) trait Losing {
    ghost tree: { Self → Tree };

    ghost kind: { Kind };

    /// Adds what the road takes: the value whole, or what stands inside it. Only want of memory refuses.
    fn lose(&self, road: Road, walk: &mut Walk) -> Result<(), AllocError>
        ensures { OnOk result
            (AddsLosses (value_lost road (tree self.now) kind) walk.old walk.new) };
}

/// What the road takes of a member.
pub(crate) fn lose_row<T: Losing>(
    road: Road,
    name: &str,
    held: &Option<T>,
    walk: &mut Walk,
) -> Result<(), AllocError>
    ensures { OnOk result
        (AddsLosses
        (behind_step (to_member name.now) (value_lost road (present T.tree held.now) T.kind))
        walk.old walk.new) }
{
    match held {
        None => Ok(()),
        Some(held) => {
            let depth = walk.depth();
            walk.enter_member(name)?;
            held.lose(road, walk)?;
            walk.leave(depth);
            Ok(())
        }
    }
}

/// The same where there may be a reason to take the member whole.
pub(crate) fn lose_row_or<T: Losing>(
    road: Road,
    name: &str,
    reason: Option<Reason>,
    held: &Option<T>,
    walk: &mut Walk,
) -> Result<(), AllocError>
    ensures { OnOk result
        (AddsLosses (behind_step (to_member name.now)
        (entry_or reason (value_lost road (present T.tree held.now) T.kind))) walk.old walk.new) }
{
    if reason.is_some() {
        walk.record_member(name, reason)
    } else {
        lose_row(road, name, held, walk)
    }
}

/// What the road takes of items.
pub(crate) fn lose_items<T: Losing>(
    road: Road,
    items: &[T],
    walk: &mut Walk,
) -> Result<(), AllocError>
    ensures { OnOk result
        (AddsLosses (items_lost road.version road.trips (each T.tree items.now) T.kind 0)
        walk.old walk.new) }
{
    let depth = walk.depth();
    for (i, item) in items.iter().enumerate() {
        walk.enter_item(i)?;
        item.lose(road, walk)?;
        walk.leave(depth);
    }
    Ok(())
}
