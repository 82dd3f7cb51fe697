//! Whole bills.

ghost use Rattle.cdx_schema.specs.Laws.{IsBill, HasBillShape};
ghost use Rattle.cdx_bom.specs.Trees.{bom_tree};

use crate::telling::{TellsKind, tell_row};
use cdx_bom::Bom;
use cdx_schema::laws::bills_have_shape;

/// Every bill is one: the laws that ask for a bill, or for the shape of one, hold of each `Bom`, whoever made it. It
/// goes over the bill once, changes nothing, gives nothing and takes no memory.
pub fn is_a_bill(bill: &Bom)
    ensures bill { IsBill (bom_tree bill.now) }
    ensures shape { HasBillShape (bom_tree bill.now) }
{
    bill.version.tell();
    tell_row(&bill.serial_number);
    tell_row(&bill.metadata);
    tell_row(&bill.components);
    tell_row(&bill.services);
    tell_row(&bill.external_references);
    tell_row(&bill.dependencies);
    tell_row(&bill.compositions);
    tell_row(&bill.properties);
    tell_row(&bill.signature);
    bills_have_shape();
}
