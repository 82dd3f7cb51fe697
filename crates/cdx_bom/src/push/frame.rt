//! A bill while its root is open, and all that stands in it: one machine with a stack of these reads a document.

ghost use Rattle.std.specs.Prelude.{◌≡◌};
ghost use Rattle.cdx_bom.specs.Trees.{bom_tree};
ghost use Rattle.cdx_bom.specs.Frames.{value_kind, value_tree, IsNest};
ghost use Rattle.cdx_bom.specs.declared.push.frame.BillKind.TheVariants.{Bill};
ghost use Rattle.cdx_bom.specs.declared.push.frame.BillValue.TheVariants.{Nest};

use crate::bom::Bom;
use crate::push::children::{bill_child, find_in_bill, nest_reader};
use crate::push::putting::{put_nested, put_relation};
use crate::xml::reading::part::{BillPart, finish_bill};
use crate::xml::reading::start::begin_bill;
use cdx_events::OwnedName;
use cdx_leaf::{End, Rule, Start};
use cdx_machine::FoundChild;
use cdx_models::{SpecVersion, XmlReadError};
use cdx_nest::{NestFrame, NestKind, NestValue};
use cdx_nest_machine::{ChildReader, Nested};
use cdx_push::{Leaf, LeafKind, LeafValue};
use cdx_schema::Depth;
use std::alloc::{AllocError, Global};

/// What an element is read as.
#[derive(Clone, Copy, Debug)]
pub(crate) enum BillKind {
    /// Something that stands in a bill.
    Nest(NestKind),
    /// A bill.
    Bill,
}

/// What an element was read as.
#[derive(Drop)]
pub(crate) enum BillValue {
    /// Something that stands in a bill.
    Nest(NestValue),
    /// A bill.
    Bill(Bom),
}

/// What was read of an element while it is open.
#[derive(Drop)]
pub(crate) enum BillFrame {
    /// Of something that stands in a bill.
    Nest(NestFrame),
    /// Of a bill.
    Bill(BillPart),
}

/// The value, where it was read as a bill.
pub(crate) fn bill_of(value: BillValue) -> Bom
    requires { value_kind value ≡ Bill }
    ensures { bom_tree result ≡ value_tree value }
{
    let BillValue::Bill(bill) = value else {
        unreachable!()
    };
    bill
}

// The value, where it was read as something that stands in a bill.
fn nest_of(value: BillValue) -> NestValue
    requires { IsNest (value_kind value) }
    ensures { value ≡ Nest result }
{
    let BillValue::Nest(value) = value else {
        unreachable!()
    };
    value
}

impl Nested for BillFrame {
    ghost use Rattle.cdx_bom.specs.Frames.{kind_of, frame_kind, frame_fields, value_kind, value_tree, reader_of};
    ghost use Rattle.cdx_bom.specs.FrameLaws.{children_by_rows, kinds_nested, kinds_no_bill};

    type Sort = BillKind;

    type Value = BillValue;

    type Leaf = Leaf;

    ghost as_kind = { kind_of };

    ghost sort_of = { frame_kind };

    ghost fields = { frame_fields };

    ghost value_sort = { value_kind };

    ghost tree = { value_tree };

    ghost child_of = { reader_of };

    fn rule(&self) -> Rule {
        match self {
            BillFrame::Nest(frame) => frame.rule(),
            BillFrame::Bill(_) => Rule::Lax,
        }
    }

    fn deeper(sort: &BillKind, depth: Depth) -> Option<Depth> {
        match sort {
            BillKind::Nest(kind) => NestFrame::deeper(kind, depth),
            BillKind::Bill => Some(depth),
        }
    }

    fn begin(sort: BillKind, opened: &Start<'_>) -> Result<BillFrame, XmlReadError> {
        match sort {
            BillKind::Nest(kind) => {
                let frame = NestFrame::begin(kind, opened)?;
                Ok(BillFrame::Nest(frame))
            }
            BillKind::Bill => {
                let part = begin_bill(opened)?;
                Ok(BillFrame::Bill(part))
            }
        }
    }

    fn find(&self, version: SpecVersion, name: &OwnedName) -> FoundChild {
        match self {
            BillFrame::Nest(frame) => frame.find(version, name),
            BillFrame::Bill(_) => find_in_bill(version, name),
        }
    }

    fn child(&self, position: usize) -> ChildReader<LeafKind, BillKind> {
        match self {
            BillFrame::Nest(frame) => nest_reader(frame.child(position)),
            BillFrame::Bill(_) => bill_child(position),
        }
    }

    fn put(&mut self, position: usize, alloc: Global, value: BillValue) -> Result<(), AllocError> {
        let nest = nest_of(value);
        match self {
            BillFrame::Nest(frame) => frame.put(position, alloc, nest),
            BillFrame::Bill(part) => {
                put_nested(part, position, nest);
                Ok(())
            }
        }
    }

    fn put_leaf(
        &mut self,
        position: usize,
        alloc: Global,
        value: LeafValue,
    ) -> Result<(), AllocError> {
        match self {
            BillFrame::Nest(frame) => frame.put_leaf(position, alloc, value),
            BillFrame::Bill(part) => {
                put_relation(part, position, value);
                Ok(())
            }
        }
    }

    fn finish(self, closed: &End<'_>) -> Result<BillValue, XmlReadError> {
        match self {
            BillFrame::Nest(frame) => {
                let value = frame.finish(closed)?;
                Ok(BillValue::Nest(value))
            }
            BillFrame::Bill(part) => Ok(BillValue::Bill(finish_bill(part))),
        }
    }

    ghost children = { children_by_rows };

    ghost nested = { kinds_nested };

    ghost no_bill = { kinds_no_bill };
}
