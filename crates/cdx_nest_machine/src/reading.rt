//! Elements of nested kinds that are read whole.

ghost use Rattle.std.specs.Prelude.{◌≡◌, IfOk};
ghost use Rattle.cdx_schema.specs.Depths.{depth_of};
ghost use Rattle.cdx_leaf.specs.Reading.{IsIn, ReadsAs};

use crate::nested::Nested;
use crate::stack::StackMachine;
use cdx_events::EventReader;
use cdx_leaf::{Reading, Start};
use cdx_schema::Depth;

/// What the element denotes, as one of the nested kinds, whose start the reader has just taken, inside so many components
/// and services. A refusal is the fault of the element, too great a depth among them, or want of memory.
pub fn read_element<F: Nested>(
    reader: &mut EventReader<'_>,
    opened: &Start<'_>,
    sort: F::Sort,
    depth: Depth,
) -> Reading<F::Value>
    requires { IsIn reader.old opened.now.element.now }
    ensures reads { ReadsAs F.tree reader.old reader.new opened.now.element.now
        opened.now.attributes.now opened.now.version (F.as_kind sort) (λ _. depth_of depth)
        result }
    ensures sort { IfOk result (λ x. F.value_sort x ≡ sort) }
{
    let mut machine = StackMachine::<F>::start(
        sort,
        depth,
        &Start {
            place: reader.place() - 1,
            ..*opened
        },
    )?;
    'events: loop {
        let place = reader.place();
        let Some(event) = reader.next() else {
            unreachable!()
        };
        if machine.step(place, event)? {
            return machine.finish(place, event);
        }
    }
}
