//! Kinds that stand in themselves.

use cdx_events::OwnedName;
use cdx_leaf::{End, Rule, Start};
use cdx_machine::{FoundChild, Leaves};
use cdx_models::{SpecVersion, XmlReadError};
use cdx_schema::Depth;
use std::alloc::{AllocError, Global};

/// What reads a child.
#[derive(Drop)]
pub enum ChildReader<L, S> {
    /// A machine of a leaf kind, which doesn't contain itself.
    Leaf(L),
    /// A frame of a nested kind.
    Nested(S),
}

/// What is read of an element of one of several nested kinds, while it is read: the fields so far.
pub trait Nested: Drop {
    ghost use Rattle.std.specs.Prelude.{◌≡◌, ◌+◌, ℕ, Option, Some, IfOk, OnOk};
    ghost use Rattle.cdx_models.specs.Trees.{Tree, Trees};
    ghost use Rattle.cdx_schema.specs.Kinds.{Kind};
    ghost use Rattle.cdx_schema.specs.Depths.{depth_of};
    ghost use Rattle.cdx_leaf.specs.Attribute.{GivesAt};
    ghost use Rattle.cdx_leaf.specs.Rules.{as_rule};
    ghost use Rattle.cdx_machine.specs.Feeding.{IsNoBill};
    ghost use Rattle.cdx_machine.specs.Several.{found_from, Puts};
    ghost use Rattle.cdx_nest_machine.specs.declared.nested.ChildReader.{ChildReader};
    ghost use Rattle.cdx_nest_machine.specs.declared.nested.ChildReader.TheVariants.{Leaf, Nested};
    ghost use Rattle.cdx_nest_machine.specs.Forms.{plan_of, first_of, last_step, IsNested};
    ghost use Rattle.cdx_nest_machine.specs.Children.{Deepens, HasReader, ReadsEach};

    /// The names of the nested kinds.
    type Sort: Drop;

    /// What an element is read as.
    type Value: Drop;

    /// The machine of an open child of a leaf kind.
    type Leaf: Leaves;

    /// The kind of each name.
    ghost as_kind: { Self.Sort → Kind };

    /// What the element is read as.
    ghost sort_of: { Self → Self.Sort };

    /// The fields so far.
    ghost fields: { Self → Trees };

    /// What a value was read as.
    ghost value_sort: { Self.Value → Self.Sort };

    /// The tree of a value.
    ghost tree: { Self.Value → Tree };

    /// What reads the child of a position in the plan of a kind: none where there is no such position.
    ghost child_of: { Self.Sort → ℕ → Option (ChildReader Self.Leaf.Sort Self.Sort) };

    /// What becomes of what the plan has no child for.
    fn rule(&self) -> Rule
        ensures { (plan_of (as_kind (sort_of self.now))).rule ≡ as_rule result };

    /// How deep the parts of an element of the kind stand, or `None` where it is too deep itself.
    fn deeper(sort: &Self::Sort, depth: Depth) -> Option<Depth>
        ensures { Deepens (as_kind sort.now) (depth_of depth) result };

    /// What the attributes begin, or their first fault, at the element's start.
    fn begin(sort: Self::Sort, opened: &Start<'_>) -> Result<Self, XmlReadError>
        ensures sort { IfOk result (λ x. sort_of x ≡ sort) }
        ensures gives { GivesAt fields (opened.now.place + 1)
            (first_of (as_kind sort) opened.now.element.now.local_name opened.now.attributes.now
            opened.now.version opened.now.place) result };

    /// The child that the version knows by the name.
    fn find(&self, version: SpecVersion, name: &OwnedName) -> FoundChild
        ensures { result ≡ found_from 0 (plan_of (as_kind (sort_of self.now))).children
            (fields self.now) version name.now.local_name };

    /// What reads the child of the position.
    fn child(&self, position: usize) -> ChildReader<<Self::Leaf as Leaves>::Sort, Self::Sort>
        requires { HasReader (child_of (sort_of self.now)) position }
        ensures { child_of (sort_of self.now) position ≡ Some result };

    /// Puts what the child of the position was read as into its field.
    fn put(&mut self, position: usize, alloc: Global, value: Self::Value) -> Result<(), AllocError>
        requires { child_of (sort_of self.old) position ≡ Some (Nested (value_sort value)) }
        ensures sort { sort_of self.new ≡ sort_of self.old }
        ensures puts { OnOk result (Puts (plan_of (as_kind (sort_of self.old))).children position
            (tree value) (fields self.old) (fields self.new)) };

    /// Puts what the child of the position, which is of a leaf kind, was read as into its field.
    fn put_leaf(
        &mut self,
        position: usize,
        alloc: Global,
        value: <Self::Leaf as Leaves>::Value,
    ) -> Result<(), AllocError>
        requires { child_of (sort_of self.old) position ≡ Some (Leaf (Self.Leaf.value_sort value)) }
        ensures sort { sort_of self.new ≡ sort_of self.old }
        ensures puts { OnOk result (Puts (plan_of (as_kind (sort_of self.old))).children position
            (Self.Leaf.tree value) (fields self.old) (fields self.new)) };

    /// The value, or the fault of the first required child that is missing, at the element's end; or want of memory.
    fn finish(self, closed: &End<'_>) -> Result<Self::Value, XmlReadError>
        ensures sort { IfOk result (λ x. value_sort x ≡ sort_of self) }
        ensures gives { GivesAt tree (closed.now.place + 1)
            (last_step (as_kind (sort_of self)) closed.now.element.now.local_name closed.now.version
            closed.now.place (fields self)) result };

    // The child of each position is read as its kind.
    ghost children: { (s : Self.Sort)
        → ReadsEach Self.Leaf.as_kind as_kind (child_of s) (plan_of (as_kind s)).children };

    // Each kind is read like this.
    ghost nested: { (s : Self.Sort) → IsNested (as_kind s) };

    // None of them is a whole document.
    ghost no_bill: { (s : Self.Sort) → IsNoBill (as_kind s) };
}
