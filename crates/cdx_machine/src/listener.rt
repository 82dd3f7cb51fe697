//! What contracts say of the events that were heard.

/// What takes events one by one, as contracts see it.
pub trait Listener {
    ghost use Rattle.std.specs.Prelude.{List};
    ghost use Rattle.cdx_events.specs.declared.event.XmlEvent.{XmlEvent};

    /// These are all events so far. What is kept needs no history, so other events may fit as well.
    ghost heard: { Self → List XmlEvent → Type 0 };
}
