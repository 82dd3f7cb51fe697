//! What survives a trip, as a law.

ghost use Rattle.cdx_trips.specs.Laws.{ComesBack};

/// What a version keeps of a bill, where a trip takes nothing of it, is read back from its XML as it was.
pub fn survivors_come_back()
    ensures { ComesBack }
{}
