//! Several machines in a row, of which one runs.

use crate::machine::Machine;
use cdx_events::XmlEvent;
use cdx_leaf::Start;
use cdx_models::XmlReadError;

/// Several machines in a row, of which one runs.
pub trait Machines: Drop {
    ghost use Rattle.std.specs.Prelude.{◌≡◌, ℕ, List, Some, IfOk};
    ghost use Rattle.cdx_models.specs.declared.bom.SpecVersion.{SpecVersion};
    ghost use Rattle.cdx_models.specs.Trees.{Tree};
    ghost use Rattle.cdx_schema.specs.Kinds.{Kind};
    ghost use Rattle.cdx_schema.specs.Depth.{Depth};
    ghost use Rattle.cdx_machine.specs.Begun.{Begun};
    ghost use Rattle.cdx_machine.specs.Machines.{StartsAs, CanStep, ProceedsAs, CanYield, YieldsAs};
    ghost use Rattle.cdx_machine.specs.Several.{at_position, IsThere};

    /// What the element is read as, by whichever machine runs.
    type Value: Drop;

    /// The kinds that they read, in a row.
    ghost kinds: { List Kind };

    /// The position of the one that runs; the first has position 0.
    ghost position_of: { Self → ℕ };

    /// What it keeps of the events so far: in a version, with the element's start at a place, at a depth.
    ghost holds: { Self → SpecVersion → ℕ → Depth → Begun → Type 0 };

    /// The position of the one that gave a value.
    ghost source: { Self.Value → ℕ };

    /// The tree of the value.
    ghost tree: { Self.Value → Tree };

    /// Takes the element's start, by the machine at the position. A refusal is the fault of the start alone, or want of
    /// memory.
    fn start(position: usize, opened: &Start<'_>) -> Result<Self, XmlReadError>
        ensures runs { IsThere kinds position → IfOk result (λ m. position_of m ≡ position) }
        ensures starts { (k : Kind) → at_position kinds position ≡ Some k → StartsAs holds k
            opened.now.version opened.now.place opened.now.element.now opened.now.attributes.now
            result };

    /// Takes the next event, at `place`, as a machine does, and says whether it is the element's end.
    fn step(&mut self, place: usize, event: &XmlEvent) -> Result<bool, XmlReadError>
        requires { CanStep holds self.old place event.now }
        ensures runs { position_of self.new ≡ position_of self.old }
        ensures proceeds { (k : Kind) → at_position kinds (position_of self.old) ≡ Some k
            → ProceedsAs holds k self.old self.new place event.now result };

    /// What the element is read as that this event ends, at `place`, by the machine that runs.
    fn finish(self, place: usize, event: &XmlEvent) -> Result<Self::Value, XmlReadError>
        requires { CanYield holds self place event.now }
        ensures source { IfOk result (λ x. source x ≡ position_of self) }
        ensures yields { (k : Kind) → at_position kinds (position_of self) ≡ Some k
            → YieldsAs holds tree k self place event.now result };
}

/// One machine, or one of those that follow it; and what one of them read.
#[derive(Drop)]
pub enum Or<M, R> {
    /// The first of the row.
    This(M),
    /// One of the others.
    Other(R),
}

/// The last machine of a row.
#[derive(Drop)]
pub struct Only<M> {
    machine: M,
}

impl<M: Machine, R: Machines> Machines for Or<M, R> {
    ghost use Rattle.std.specs.Prelude.{◌∷◌};
    ghost use Rattle.cdx_machine.specs.Several.{or_position, or_holds, or_tree};

    type Value = Or<M::Value, R::Value>;

    ghost kinds = { M.kind ∷ R.kinds };

    ghost position_of = { or_position R.position_of };

    ghost holds = { or_holds M.holds R.holds };

    ghost source = { or_position R.source };

    ghost tree = { or_tree M.tree R.tree };

    fn start(position: usize, opened: &Start<'_>) -> Result<Or<M, R>, XmlReadError> {
        if position == 0 {
            return Ok(Or::This(M::start(opened)?));
        }
        Ok(Or::Other(R::start(position - 1, opened)?))
    }

    fn step(&mut self, place: usize, event: &XmlEvent) -> Result<bool, XmlReadError> {
        match self {
            Or::This(machine) => machine.step(place, event),
            Or::Other(machines) => machines.step(place, event),
        }
    }

    fn finish(
        self,
        place: usize,
        event: &XmlEvent,
    ) -> Result<Or<M::Value, R::Value>, XmlReadError> {
        match self {
            Or::This(machine) => Ok(Or::This(machine.finish(place, event)?)),
            Or::Other(machines) => Ok(Or::Other(machines.finish(place, event)?)),
        }
    }
}

impl<M: Machine> Machines for Only<M> {
    ghost use Rattle.std.specs.Prelude.{[], ◌∷◌};

    type Value = M::Value;

    ghost kinds = { M.kind ∷ [] };

    ghost position_of = { λ m. 0 };

    ghost holds = { λ m. M.holds m.machine };

    ghost source = { λ x. 0 };

    ghost tree = { M.tree };

    fn start(_position: usize, opened: &Start<'_>) -> Result<Only<M>, XmlReadError> {
        Ok(Only {
            machine: M::start(opened)?,
        })
    }

    fn step(&mut self, place: usize, event: &XmlEvent) -> Result<bool, XmlReadError> {
        self.machine.step(place, event)
    }

    fn finish(self, place: usize, event: &XmlEvent) -> Result<M::Value, XmlReadError> {
        self.machine.finish(place, event)
    }
}

/// No machine: where an element has no children.
#[derive(Drop)]
pub struct NoMachine;

impl Machines for NoMachine {
    ghost use Rattle.std.specs.Prelude.{[]};
    ghost use Rattle.cdx_models.specs.Trees.{absent};

    type Value = NoMachine;

    ghost kinds = { [] };

    ghost position_of = { λ m. 0 };

    ghost holds = { λ m v p d o. Unit {0} };

    ghost source = { λ x. 0 };

    ghost tree = { λ x. absent };

    fn start(_position: usize, _opened: &Start<'_>) -> Result<NoMachine, XmlReadError> {
        Ok(NoMachine)
    }

    fn step(&mut self, _place: usize, _event: &XmlEvent) -> Result<bool, XmlReadError> {
        Ok(false)
    }

    fn finish(self, _place: usize, _event: &XmlEvent) -> Result<NoMachine, XmlReadError> {
        Ok(NoMachine)
    }
}
