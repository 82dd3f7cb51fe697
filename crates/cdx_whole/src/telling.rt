//! Values whose trees are of their kinds. Contracts see a text as its bytes alone and a number as any, so a value is gone
//! through once to tell them.

ghost use Rattle.cdx_models.specs.Trees.{present, list_tree, each};
ghost use Rattle.cdx_schema.specs.Kinds.{optional};
ghost use Rattle.cdx_schema.specs.Membership.{IsOf};
ghost use Rattle.cdx_whole.specs.Fields.{AreOf, IsField, IsListField};

use cdx_events::{List, Text};
use cdx_schema::Kinded;

/// A value whose tree is of its kind.
pub(crate) trait TellsKind: Kinded {
    /// Tells contracts that its tree is of its kind, texts in UTF-8 included. It does nothing else.
    fn tell(&self)
        ensures { IsOf (Self.tree self.now) Self.kind };
}

/// Tells it of a field that may be absent.
pub(crate) fn tell_row<T: TellsKind>(held: &Option<T>)
    ensures { IsField (present T.tree held.now) optional T.kind }
{
    match held {
        None => {}
        Some(held) => held.tell(),
    }
}

/// Tells it of each item of a list.
pub(crate) fn tell_list<T: TellsKind>(items: &List<T>)
    ensures { AreOf (each T.tree items.now) T.kind }
{
    for item in items.as_slice() {
        item.tell();
    }
}

/// Tells it of a list that may be absent.
pub(crate) fn tell_list_row<T: TellsKind>(held: &Option<List<T>>)
    ensures { IsListField (present (list_tree T.tree) held.now) T.kind }
{
    match held {
        None => {}
        Some(held) => tell_list(held),
    }
}

impl TellsKind for Text {
    fn tell(&self) {
        let _text = self.as_str();
    }
}

impl TellsKind for bool {
    fn tell(&self) {}
}

impl TellsKind for u32 {
    fn tell(&self) {
        let _number = *self;
    }
}
