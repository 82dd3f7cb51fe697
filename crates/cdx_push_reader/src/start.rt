//! The start of the root.

ghost use Rattle.cdx_leaf.specs.Fault.{Denotes};
ghost use Rattle.cdx_push_reader.specs.Starting.{root_name_read};
ghost use Rattle.cdx_push_reader.specs.Pushed.{StandsAtStage};
ghost use Rattle.cdx_push_reader.specs.PushSteps.{Moves};
ghost use Rattle.cdx_push_reader.specs.declared.hearing.ReadingStage.TheVariants.{Before};

use crate::hearing::ReadingStage;
use crate::machine::RootMachine;
use cdx_events::{EventKind, OwnedName, Text, XmlEvent};
use cdx_leaf::{Start, expected_namespace_or_error};
use cdx_models::{SpecVersion, XmlReadError};
use std::alloc::Global;

// `UnexpectedElementReadError` at place 1 exactly where the root isn't named `bom`.
fn check_name(alloc: Global, name: &OwnedName) -> Result<(), XmlReadError>
    ensures { Denotes (λ u. u) (root_name_read name.now) result }
{
    if name.local_name.is("bom") {
        return Ok(());
    }
    Err(XmlReadError::UnexpectedElementReadError {
        place: 1,
        element: Text::new(alloc, "bom")?,
        found: EventKind::StartElement,
    })
}

// Goes on from before the root. Its name is asked first, then its default namespace, then the rest of its start.
pub(crate) fn begin<M: RootMachine>(
    alloc: Global,
    version: SpecVersion,
    place: usize,
    event: &XmlEvent,
) -> Result<ReadingStage<M, M::Value>, XmlReadError>
    ensures { Moves M.holds M.tree version ReadingStage.Before place event.now
        (λ events stage. StandsAtStage M.holds M.tree version stage events) result }
{
    match event {
        XmlEvent::StartElement {
            name,
            attributes,
            namespace,
        } => {
            check_name(alloc, name)?;
            expected_namespace_or_error(alloc, version, namespace)?;
            let machine = M::start(&Start {
                alloc,
                place,
                version,
                element: name,
                attributes,
            })?;
            Ok(ReadingStage::Within { machine })
        }
        _ => Ok(ReadingStage::Before),
    }
}
