//! Whole bills.

ghost use Rattle.std.specs.Prelude.{IfOk, IfErr};
ghost use Rattle.cdx_schema.specs.Laws.{IsShallow};
ghost use Rattle.cdx_bom.specs.Trees.{bom_tree};
ghost use Rattle.cdx_bom.specs.BillReading.{ReadsBill};
ghost use Rattle.cdx_push_reader.specs.Documents.{IsRefusal};

use crate::bom::Bom;
use crate::push::BillMachine;
use cdx_events::Events;
use cdx_leaf::FromXmlDocument;
use cdx_models::{SpecVersion, XmlReadError};
use cdx_push_reader::read_fed;
use std::alloc::Global;

// The bill that the events denote, or their first fault.
pub(crate) fn read_document(
    alloc: Global,
    events: &Events,
    version: SpecVersion,
) -> Result<Bom, XmlReadError>
    ensures bill { ReadsBill events.now.list version result }
    ensures shallow { IfOk result (λ b. IsShallow (bom_tree b)) }
    ensures faults { IfErr result IsRefusal }
{
    read_fed::<BillMachine>(alloc, events, version)
}

impl FromXmlDocument for Bom {
    /// The root's name is asked first, then its default namespace, then its attributes; its children are read in the
    /// order of the events, and the last child of a name counts.
    fn read_xml_document(
        alloc: Global,
        events: &Events,
        version: SpecVersion,
    ) -> Result<Bom, XmlReadError> {
        read_document(alloc, events, version)
    }
}
