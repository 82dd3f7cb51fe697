//! Bills of which XML takes nothing.

ghost use Rattle.std.specs.Prelude.{◌≡◌};
ghost use Rattle.cdx_schema.specs.Kinds.{a_bill};
ghost use Rattle.cdx_trips.specs.Surviving.{survives};
ghost use Rattle.cdx_bom.specs.Trees.{bom_tree};

use crate::bom::Bom;
use cdx_trips::{components_row_survives, metadata_row_survives, services_row_survives};

impl Bom {
    // Whether a trip through XML takes nothing of the bill. It takes no memory.
    #[tactic(auto, using(crate::proofs::Carried::bill_rows))]
    pub(crate) fn survives(&self) -> bool
        ensures { result ≡ survives (bom_tree self.now) a_bill }
    {
        metadata_row_survives(&self.metadata)
            && components_row_survives(&self.components)
            && services_row_survives(&self.services)
    }
}
