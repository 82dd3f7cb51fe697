//! The law of the lines of bytes. It is the contract of a function that does nothing.

ghost use Rattle.cdx_gate.specs.Lines.{ArePieces, GoesOnBehind};

/// What makes the lines of bytes their lines: the pieces between the line feeds, joined by line feeds, are the bytes,
/// and no other list of pieces without a line feed is. After a line feed the lines are those of what follows it.
pub fn lines_law()
    ensures pieces { ArePieces }
    ensures behind { GoesOnBehind }
{}
