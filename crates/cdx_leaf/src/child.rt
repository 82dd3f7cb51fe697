//! The pieces of a loop over an element's children: the next child, and what becomes of it once it was offered.

ghost use Rattle.std.specs.Prelude.{◌≡◌, List, IfOk, IfSome};
ghost use Rattle.cdx_events.specs.Nodes.{Nodes};
ghost use Rattle.cdx_events.specs.declared.event.XmlEvent.{XmlEvent};
ghost use Rattle.cdx_events.specs.declared.event.EventKind.TheVariants as kinds;
ghost use Rattle.cdx_schema.specs.Faults.{unexpected};
ghost use Rattle.cdx_leaf.specs.declared.taken.Taken.TheVariants as answers;
ghost use Rattle.cdx_leaf.specs.Fault.{Refused};
ghost use Rattle.cdx_leaf.specs.Reading.{IsAt, WithinElement};
ghost use Rattle.cdx_leaf.specs.NextChild.{Meets, LeavesChild};

use crate::error::{Reading, refuse};
use crate::rule::Rule;
use crate::start::Start;
use crate::tags::read_lax_validation_tag;
use crate::taken::Taken;
use cdx_events::{EventKind, EventReader, List, XmlEvent};
use cdx_models::XmlReadError;

// The next child of the element, whose start is taken, or None where the element's end was taken. The rule says whether
// texts before it are passed over; else a text is unexpected at its place.
pub(crate) fn next_child<'a>(
    reader: &mut EventReader<'a>,
    opened: &Start<'_>,
    rule: Rule,
) -> Reading<Option<Start<'a>>>
    requires { IsAt reader.old opened.now.element.now }
    ensures meets { (nodes : Nodes) (rest : List XmlEvent)
        → WithinElement reader.old opened.now.element.now nodes rest
        → Meets rule reader.old reader.new opened.now.element.now nodes rest result }
    ensures version { IfOk result
        (λ o. IfSome o (λ child. child.version ≡ opened.now.version)) }
{
    'texts: loop {
        let place = reader.place();
        let Some(event) = reader.next() else {
            unreachable!()
        };
        match event {
            XmlEvent::EndElement { .. } => return Ok(None),
            XmlEvent::StartElement {
                name: element,
                attributes,
                ..
            } => {
                return Ok(Some(Start {
                    alloc: opened.alloc,
                    place,
                    version: opened.version,
                    element,
                    attributes,
                }));
            }
            _ => {
                if !rule.passes() {
                    return refuse(opened.alloc, place, opened.element, event);
                }
            }
        }
    }
}

// Refuses a child of the element, which starts at this place.
fn refuse_child(opened: &Start<'_>, place: usize) -> Reading<()>
    ensures { Refused result
        (unexpected place opened.now.element.now.local_name kinds.StartElement) }
{
    Err(XmlReadError::UnexpectedElementReadError {
        place,
        element: opened.element.local_name.copy(opened.alloc)?,
        found: EventKind::StartElement,
    })
}

// Leaves a child that was offered to what is read: nothing is left of one that was read. An unknown one is skipped whole
// where the rule skips, and else unexpected at its place, as is a second one where one may stand.
pub(crate) fn after_child(
    reader: &mut EventReader<'_>,
    opened: &Start<'_>,
    rule: Rule,
    child: &Start<'_>,
    taken: Taken,
) -> Reading<()>
    requires { taken ≡ answers.Unknown → IsAt reader.old child.now.element.now }
    ensures { LeavesChild rule taken reader.old reader.new opened.now.element.now child.now result }
{
    match taken {
        Taken::Read => Ok(()),
        Taken::Unknown => {
            if !rule.skips() {
                return refuse_child(opened, child.place);
            }
            read_lax_validation_tag(reader, child.element);
            Ok(())
        }
        Taken::Second => refuse_child(opened, child.place),
    }
}
