//! Whole documents of events.

ghost use Rattle.std.specs.Prelude.{IfOk, IfErr};
ghost use Rattle.cdx_schema.specs.Laws.{IsShallow};
ghost use Rattle.cdx_push_reader.specs.Documents.{ReadsDocument, IsRefusal};

use crate::machine::RootMachine;
use crate::reader::DocumentReader;
use cdx_events::Events;
use cdx_models::{SpecVersion, XmlReadError};
use std::alloc::Global;

/// The bill that the events denote in the version, or their first fault. Its name is asked first of the root, then its
/// default namespace, then its attributes; its children are read in the order of the events. Or want of memory.
pub fn read_fed<M: RootMachine>(
    alloc: Global,
    events: &Events,
    version: SpecVersion,
) -> Result<M::Value, XmlReadError>
    ensures reads { ReadsDocument M.tree events.now.list version result }
    ensures shallow { IfOk result (λ b. IsShallow (M.tree b)) }
    ensures faults { IfErr result IsRefusal }
{
    let mut reader: DocumentReader<M> = DocumentReader::new(alloc, version);
    let _ = reader.feed(events.as_slice());
    reader.finish()
}
