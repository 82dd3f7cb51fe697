//! The machine of a document's root.

use crate::bom::Bom;
use crate::push::frame::{BillFrame, BillKind, bill_of};
use cdx_events::XmlEvent;
use cdx_leaf::Start;
use cdx_models::XmlReadError;
use cdx_nest_machine::{HoldsBegun, StackMachine};
use cdx_push_reader::RootMachine;
use cdx_schema::Depth;

/// Reads a bill, whatever its root's name and namespace are. The frames of the open elements wait in a stack, so depth
/// takes memory and no recursion.
pub(crate) struct BillMachine {
    stack: StackMachine<BillFrame>,
}

// By hand, so that one is freed by a call wherever it ends, and not field by field.
impl Drop for BillMachine {
    fn drop(self) {
        let BillMachine { stack: _ } = self;
    }
}

impl RootMachine for BillMachine {
    ghost use Rattle.cdx_bom.specs.Trees.{bom_tree};
    ghost use Rattle.cdx_bom.specs.declared.push.frame.BillKind.TheVariants.{Bill};

    type Value = Bom;

    ghost tree = { bom_tree };

    ghost holds = { λ m v p d o.
        ⟦<StackMachine<BillFrame> as HoldsBegun>⟧.holds Bill m.stack v p d o };

    fn start(opened: &Start<'_>) -> Result<BillMachine, XmlReadError> {
        let depth = Depth {
            components: 0,
            services: 0,
        };
        let stack = StackMachine::<BillFrame>::start(BillKind::Bill, depth, opened)?;
        Ok(BillMachine { stack })
    }

    fn step(&mut self, place: usize, event: &XmlEvent) -> Result<bool, XmlReadError> {
        self.stack.step(place, event)
    }

    fn finish(self, place: usize, event: &XmlEvent) -> Result<Bom, XmlReadError> {
        let BillMachine { stack } = self;
        Ok(bill_of(stack.finish(place, event)?))
    }
}
