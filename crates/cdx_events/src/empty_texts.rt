//! Documents without their empty texts.

ghost use Rattle.std.specs.Prelude.{◌≡◌, ◌∷◌, [], IfOk, if◌then◌else◌};
ghost use Rattle.cdx_events.specs.EmptyTexts.{without_empty};
ghost use Rattle.cdx_events.specs.Nodes.{IsBalanced};

use crate::event::XmlEvent;
use crate::events::Events;
use crate::list::List;
use std::alloc::{AllocError, Global};

fn is_empty_text(event: &XmlEvent) -> bool
    ensures { without_empty (event.now ∷ []) ≡ (if result then [] else event.now ∷ []) }
{
    match event {
        XmlEvent::Characters(text) => text.as_str().is_empty(),
        XmlEvent::CData(text) => text.as_str().is_empty(),
        _ => false,
    }
}

/// The same events in order without the `Characters` and `CData` events whose text is empty, as a reader of XML may
/// give them that leaves such events out; white space isn't empty. They are balanced, as the events are. Only want of
/// memory refuses.
pub fn without_empty_texts(alloc: Global, events: &Events) -> Result<Events, AllocError>
    ensures events { IfOk result (λ e. e.list ≡ without_empty events.now.list) }
    ensures balanced { IfOk result (λ e. IsBalanced e.list) }
{
    let mut kept = List::new(alloc);
    for event in events.as_slice() {
        if !is_empty_text(event) {
            kept.push(event.copy(alloc)?)?;
        }
    }
    Ok(Events::from_balanced(kept))
}
