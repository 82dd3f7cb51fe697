//! The laws of losses. Each is the contract of a function that does nothing.

ghost use Rattle.cdx_losses.specs.Laws.{LeadsToLosses, ListsApart, StrikesRoads};

/// The path of each loss leads to something that the bill holds.
pub fn losses_lead()
    ensures { LeadsToLosses }
{}

/// No loss lies at or below another: none of their paths begins with another.
pub fn losses_lie_apart()
    ensures { ListsApart }
{}

/// Less its losses and labelled with the last hop's version, a bill is the same as after the road: each flow that the
/// road takes is replaced by its classification and each tools object by the empty tool list, and all else that it takes
/// is removed.
pub fn losses_are_all()
    ensures { StrikesRoads }
{}
