//! Elements that are read by a machine.

ghost use Rattle.cdx_leaf.specs.Reading.{IsIn, ReadsAs};
ghost use Rattle.cdx_machine.specs.Feeding.{IsNoBill};

use crate::machine::Machine;
use cdx_events::{EventReader, List, OwnedAttribute, OwnedName};
use cdx_leaf::Start;
use cdx_models::{SpecVersion, XmlReadError};
use std::alloc::Global;

/// What the element denotes, whose start the reader has just taken: its events are fed to a machine one by one.
pub fn read_by_machine<M: Machine>(
    alloc: Global,
    reader: &mut EventReader<'_>,
    version: SpecVersion,
    element: &OwnedName,
    attributes: &List<OwnedAttribute>,
) -> Result<M::Value, XmlReadError>
    requires inside { IsIn reader.old element.now }
    requires kind { IsNoBill M.kind }
    ensures { ReadsAs M.tree reader.old reader.new element.now attributes.now version M.kind
        (λ d. d) result }
{
    let mut machine = M::start(&Start {
        alloc,
        place: reader.place() - 1,
        version,
        element,
        attributes,
    })?;
    'events: loop {
        let place = reader.place();
        let Some(event) = reader.next() else {
            unreachable!()
        };
        if machine.step(place, event)? {
            return machine.finish(place, event);
        }
    }
}
