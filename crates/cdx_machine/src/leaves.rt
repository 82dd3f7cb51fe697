//! Machines of kinds that don't contain themselves.

use cdx_events::XmlEvent;
use cdx_leaf::Start;
use cdx_models::XmlReadError;

/// What reads one element of any leaf kind, event by event.
pub trait Leaves: Drop {
    ghost use Rattle.std.specs.Prelude.{◌≡◌, ℕ, IfOk};
    ghost use Rattle.cdx_models.specs.declared.bom.SpecVersion.{SpecVersion};
    ghost use Rattle.cdx_models.specs.Trees.{Tree};
    ghost use Rattle.cdx_schema.specs.Kinds.{Kind};
    ghost use Rattle.cdx_schema.specs.Depth.{Depth};
    ghost use Rattle.cdx_machine.specs.Begun.{Begun};
    ghost use Rattle.cdx_machine.specs.Machines.{StartsAs, CanStep, ProceedsAs, CanYield, YieldsAs};

    /// The names of the kinds.
    type Sort: Drop;

    /// What an element is read as.
    type Value: Drop;

    /// The kind of each name.
    ghost as_kind: { Self.Sort → Kind };

    /// What the machine reads its element as.
    ghost sort_of: { Self → Self.Sort };

    /// What a value was read as.
    ghost value_sort: { Self.Value → Self.Sort };

    /// The tree of a value.
    ghost tree: { Self.Value → Tree };

    /// What the machine keeps of the events so far: in a version, with the element's start at a place, at a depth.
    ghost holds: { Self → SpecVersion → ℕ → Depth → Begun → Type 0 };

    /// Takes the element's start. A refusal is the fault of the start alone, or want of memory.
    fn start(sort: Self::Sort, opened: &Start<'_>) -> Result<Self, XmlReadError>
        ensures sort { IfOk result (λ m. sort_of m ≡ sort) }
        ensures starts { StartsAs holds (as_kind sort) opened.now.version opened.now.place
            opened.now.element.now opened.now.attributes.now result };

    /// Takes the next event, at `place`, and says whether it is the element's end, of which the machine keeps nothing. A
    /// refusal comes with the first event through which the element has a fault; that is the fault, and it stands at this
    /// event. Or else memory ran out.
    fn step(&mut self, place: usize, event: &XmlEvent) -> Result<bool, XmlReadError>
        requires { CanStep holds self.old place event.now }
        ensures same { sort_of self.new ≡ sort_of self.old }
        ensures proceeds { ProceedsAs holds (as_kind (sort_of self.old)) self.old self.new place
            event.now result };

    /// What the element is read as that this event ends, at `place`. A refusal is its fault, at its end, or want of memory.
    fn finish(self, place: usize, event: &XmlEvent) -> Result<Self::Value, XmlReadError>
        requires { CanYield holds self place event.now }
        ensures value { IfOk result (λ x. value_sort x ≡ sort_of self) }
        ensures yields { YieldsAs holds tree (as_kind (sort_of self)) self place event.now
            result };
}
