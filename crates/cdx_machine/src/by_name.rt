//! Kinds that are read by the name of their element.

use crate::machine::Machine;
use crate::or::Or;
use cdx_events::XmlEvent;
use cdx_leaf::{Start, refuse_missing};
use cdx_models::XmlReadError;

/// A kind that is one of two, by the name of its element.
pub trait ByName {
    ghost use Rattle.std.specs.Prelude.{◌≡◌, ℕ, List};
    ghost use Rattle.cdx_models.specs.Trees.{Tree};
    ghost use Rattle.cdx_schema.specs.Kinds.{Kind};
    ghost use Rattle.cdx_machine.specs.Named.{IsByName};

    /// What reads an element of the first name.
    type First: Machine;

    /// What reads one of the second.
    type Second: Machine;

    /// What the element is read as.
    type Value: Drop;

    /// The tree of what it is read as.
    ghost tree: { Self.Value → Tree };

    /// The kind.
    ghost kind: { Kind };

    /// The first name.
    ghost one: { List ℕ };

    /// The second.
    ghost other: { List ℕ };

    /// What an element of another name lacks.
    ghost lacked: { List ℕ };

    /// The first name.
    fn first() -> &'static str
        ensures { result.now ≡ one };

    /// The second.
    fn second() -> &'static str
        ensures { result.now ≡ other };

    /// What an element of another name lacks, as its refusal says.
    fn lacks() -> &'static str
        ensures { result.now ≡ lacked };

    /// What was read by the first.
    fn from_first(value: <Self::First as Machine>::Value) -> Self::Value
        ensures { tree result ≡ Self.First.tree value };

    /// What was read by the second.
    fn from_second(value: <Self::Second as Machine>::Value) -> Self::Value
        ensures { tree result ≡ Self.Second.tree value };

    // The kind is read by the name.
    ghost by_name: { IsByName kind one other lacked Self.First.kind Self.Second.kind };
}

/// The machine of such a kind.
#[derive(Drop)]
pub struct NamedMachine<K: ByName> {
    machine: Or<K::First, K::Second>,
}

impl<K: ByName> Machine for NamedMachine<K> {
    ghost use Rattle.cdx_machine.specs.Named.{named_holds};

    type Value = K::Value;

    ghost tree = { K.tree };

    ghost kind = { K.kind };

    ghost holds = { λ m. named_holds K.one K.other K.First.holds K.Second.holds m.machine };

    fn start(opened: &Start<'_>) -> Result<NamedMachine<K>, XmlReadError> {
        if opened.element.local_name.is(K::first()) {
            return Ok(NamedMachine {
                machine: Or::This(K::First::start(opened)?),
            });
        }
        if opened.element.local_name.is(K::second()) {
            return Ok(NamedMachine {
                machine: Or::Other(K::Second::start(opened)?),
            });
        }
        refuse_missing(opened.alloc, opened.place, opened.element, K::lacks())
    }

    fn step(&mut self, place: usize, event: &XmlEvent) -> Result<bool, XmlReadError> {
        match &mut self.machine {
            Or::This(machine) => machine.step(place, event),
            Or::Other(machine) => machine.step(place, event),
        }
    }

    fn finish(self, place: usize, event: &XmlEvent) -> Result<K::Value, XmlReadError> {
        match self.machine {
            Or::This(machine) => Ok(K::from_first(machine.finish(place, event)?)),
            Or::Other(machine) => Ok(K::from_second(machine.finish(place, event)?)),
        }
    }
}
