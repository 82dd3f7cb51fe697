//! Where events come from and go to.

ghost use Rattle.std.specs.Prelude.{◌≡◌, List, ℕ, Option, [], ◌∷◌, MatchResult};
ghost use Rattle.cdx_events.specs.declared.event.XmlEvent.{XmlEvent};
ghost use Rattle.cdx_events.specs.Causes.{HasCause};
ghost use Rattle.cdx_events.specs.Told.{Keeps, Gains, GivesNext};

use crate::event::XmlEvent;
use crate::stream::Failed;

/// Where events come from.
pub trait EventSource {
    /// The events that are left, where they are told.
    ghost left: { Self → Option (List XmlEvent) };

    /// How often it has failed, a number that never falls.
    ghost faults: { Self → ℕ };

    /// Takes the first event that is left, or gives `None` exactly where none is. `Failed` comes only where the
    /// count rose, and leaves what is left.
    fn next(&mut self) -> Result<Option<XmlEvent>, Failed>
        ensures events { MatchResult result
            (λ given. GivesNext (left self.old) (left self.new) given)
            (λ _. Keeps (left self.old) (left self.new)) }
        ensures cause { HasCause (faults self.old) (faults self.new) result };
}

/// Where events go.
pub trait EventSink {
    /// The events that were put, where they are told.
    ghost written: { Self → Option (List XmlEvent) };

    /// How often it has failed, a number that never falls.
    ghost faults: { Self → ℕ };

    /// Appends the event. `Failed` comes only where the count rose, and leaves what was written.
    fn put(&mut self, event: XmlEvent) -> Result<(), Failed>
        ensures events { MatchResult result
            (λ _. Gains (written self.old) (written self.new) (event ∷ []))
            (λ _. Keeps (written self.old) (written self.new)) }
        ensures cause { HasCause (faults self.old) (faults self.new) result };
}
