//! JSON values whose members stand in order are read from their text as they are: a law, and what it speaks of.
#![tactic(auto)]

ghost use Rattle.cdx_ordered.specs.Ordered.{ReadsBack};

/// `serde_json` reads a value from its compact text, where each object's members stand in byte order of their names,
/// each name once, each number is a natural number below 2^64, and the value nests no deeper than `serde_json` reads.
pub fn reads_back()
    ensures { ReadsBack }
{}
