//! What reads the root of a document.

use cdx_events::XmlEvent;
use cdx_leaf::Start;
use cdx_models::XmlReadError;

/// What reads a bill's root event by event, whatever its name and its default namespace are.
pub trait RootMachine: Drop {
    ghost use Rattle.std.specs.Prelude.{ℕ};
    ghost use Rattle.cdx_events.specs.declared.name.Namespace.{Namespace};
    ghost use Rattle.cdx_events.specs.Nodes.{no_nodes};
    ghost use Rattle.cdx_models.specs.declared.bom.SpecVersion.{SpecVersion};
    ghost use Rattle.cdx_models.specs.Trees.{bill, Tree};
    ghost use Rattle.cdx_schema.specs.Depth.{Depth, top};
    ghost use Rattle.cdx_schema.specs.Kinds.{a_record};
    ghost use Rattle.cdx_schema.specs.XmlReading.{xread};
    ghost use Rattle.cdx_machine.specs.Begun.{Begun, innermost};
    ghost use Rattle.cdx_machine.specs.Machines.{Opens, CanStep, ProceedsAs, CanYield, YieldsAs};

    /// The bill.
    type Value: Drop;

    /// The tree of a bill.
    ghost tree: { Self.Value → Tree };

    /// What the machine keeps of the events so far: in a version, with the root's start at a place, at a depth.
    ghost holds: { Self → SpecVersion → ℕ → Depth → Begun → Type 0 };

    /// Takes the root's start. A refusal is the fault of the start alone, or want of memory.
    fn start(opened: &Start<'_>) -> Result<Self, XmlReadError>
        ensures { (z : Namespace) → Opens (λ m o. holds m opened.now.version opened.now.place top o)
            (λ x. xread x opened.now.version (a_record bill) opened.now.place top) opened.now.place
            (innermost opened.now.element.now opened.now.attributes.now z no_nodes) result };

    /// Takes the next event, at `place`, and says whether it is the root's end, of which the machine keeps nothing. A refusal
    /// comes with the first event through which the root has a fault; that is the fault, and it stands at this event.
    /// Or else memory ran out.
    fn step(&mut self, place: usize, event: &XmlEvent) -> Result<bool, XmlReadError>
        requires { CanStep holds self.old place event.now }
        ensures { ProceedsAs holds (a_record bill) self.old self.new place event.now result };

    /// The bill of the root that this event ends, at `place`. A refusal is the root's fault, which stands at its end.
    fn finish(self, place: usize, event: &XmlEvent) -> Result<Self::Value, XmlReadError>
        requires { CanYield holds self place event.now }
        ensures { YieldsAs holds tree (a_record bill) self place event.now result };
}
