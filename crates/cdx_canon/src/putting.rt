//! Canonical texts into sinks.

ghost use Rattle.std.specs.Prelude.{◌≡◌, length, IfErr, IfSome, OnOk};
ghost use Rattle.std.specs.Io.KnownBytes.{Appends};
ghost use Rattle.cdx_bom.specs.Trees.{bom_tree};
ghost use Rattle.cdx_canon.specs.Canon as texts;
ghost use Rattle.cdx_canon.specs.Plain.{IsUnput};

use crate::text::canon;
use cdx_bom::{Bom, put_text};
use cdx_events::Sink;
use cdx_models::JsonWriteError;
use std::alloc::Global;

/// Writes the bill's canonical text into a sink and then flushes. The text is made once, before the first `put`, and
/// there is no second one in memory. `Memory` comes only where memory runs out, before the first `put`.
/// `JsonElementWriteError` comes only where the sink's count of faults rose, and tells how many of the text's first
/// bytes went out. `Ok` comes only where the count stayed: then the whole text went out, and all that was written is
/// flushed. `BomError` never comes.
pub fn put_canon<K: Sink>(alloc: Global, bill: &Bom, sink: &mut K) -> Result<(), JsonWriteError>
    ensures ok { OnOk result
        (Appends (K.written sink.old) (K.written sink.new) (texts.canon (bom_tree bill.now))) }
    ensures flushed { OnOk result
        (IfSome (K.flushed sink.new)
        (λ n. IfSome (K.written sink.new) (λ bytes. n ≡ length bytes))) }
    ensures steady { OnOk result (K.faults sink.new ≡ K.faults sink.old) }
    ensures err { IfErr result
        (λ e. IsUnput (texts.canon (bom_tree bill.now)) K.written K.faults sink.old sink.new e) }
{
    match canon(alloc, bill) {
        Err(error) => Err(JsonWriteError::Memory(error)),
        Ok(text) => match put_text(&text, sink) {
            Ok(()) => Ok(()),
            Err(error) => Err(JsonWriteError::JsonElementWriteError {
                written: error.written,
            }),
        },
    }
}
