//! Lists.

use crate::frame::{FoundChild, Frame, FrameMachine};
use crate::machine::Machine;
use crate::or::Only;
use cdx_events::{List, OwnedName};
use cdx_leaf::{End, Rule, Start};
use cdx_models::{SpecVersion, XmlReadError};
use std::alloc::{AllocError, Global};

/// A list of the schema, whose items are elements of one name.
pub trait ListOf {
    ghost use Rattle.std.specs.Prelude.{◌≡◌};
    ghost use Rattle.cdx_schema.specs.Kinds.{Lists};
    ghost use Rattle.cdx_schema.specs.Table.{list};
    ghost use Rattle.cdx_leaf.specs.Rules.{as_rule};
    ghost use Rattle.cdx_machine.specs.Records.{HasOneName};

    /// The machine of an item.
    type Item: Machine;

    /// The list in the schema.
    ghost list_name: { Lists };

    /// The name of an item's element.
    fn inner() -> &'static str
        ensures { result.now ≡ (list list_name).name };

    /// What becomes of what is no item.
    fn rule() -> Rule
        ensures { (list list_name).rule ≡ as_rule result };

    // Its items have one name.
    ghost one_name: { HasOneName Self.Item.kind };

    // Their machine reads the kind of the list's items.
    ghost item_kind: { Self.Item.kind ≡ (list list_name).kind };
}

/// A list while its items are read.
#[derive(Drop)]
pub struct Items<L: ListOf> {
    items: List<<L::Item as Machine>::Value>,
}

/// The machine of a list.
pub type ListMachine<L> = FrameMachine<Items<L>>;

impl<L: ListOf> Frame for Items<L> {
    ghost use Rattle.cdx_models.specs.Trees.{list_tree};
    ghost use Rattle.cdx_schema.specs.Kinds.{a_list};
    ghost use Rattle.cdx_schema.specs.XmlReading.{plan_of_list};
    ghost use Rattle.cdx_machine.specs.Records.{list_first, list_last, list_frame, items_slots};
    ghost use Rattle.cdx_machine.specs.Records.{item_kinds};

    type Value = List<<L::Item as Machine>::Value>;

    type Child = Only<L::Item>;

    ghost tree = { list_tree L.Item.tree };

    ghost kind = { a_list L.list_name };

    ghost plan = { plan_of_list L.list_name };

    ghost first = { list_first };

    ghost last = { list_last };

    ghost slots = { λ r. items_slots L.Item.tree r.items };

    ghost child_kinds = { item_kinds L.list_name L.Item.kind L.item_kind L.one_name };

    ghost frame = { list_frame L.list_name };

    fn rule(&self) -> Rule {
        L::rule()
    }

    fn begin(opened: &Start<'_>) -> Result<Items<L>, XmlReadError> {
        Ok(Items {
            items: List::new(opened.alloc),
        })
    }

    fn find(&self, _version: SpecVersion, name: &OwnedName) -> FoundChild {
        if name.local_name.is(L::inner()) {
            return FoundChild::At(0);
        }
        FoundChild::Unknown
    }

    fn put(
        &mut self,
        _alloc: Global,
        value: <L::Item as Machine>::Value,
    ) -> Result<(), AllocError> {
        self.items.push(value)
    }

    fn finish(self, _closed: &End<'_>) -> Result<List<<L::Item as Machine>::Value>, XmlReadError> {
        Ok(self.items)
    }
}
