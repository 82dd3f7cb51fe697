//! Bills as JSON texts into sinks.

ghost use Rattle.std.specs.Prelude.{◌≡◌, length, IfErr, IfOk, IfSome, OnOk};
ghost use Rattle.std.specs.Io.KnownBytes.{Appends};
ghost use Rattle.cdx_schema.specs.Laws.{Fits};
ghost use Rattle.cdx_bom.specs.Trees.{bom_tree};
ghost use Rattle.cdx_bom.specs.Outputs.{compact_kept, Outputs, IsRefused};

use crate::bom::Bom;
use crate::putting::put_long_text;
use crate::refused::lacks_version;
use cdx_events::Sink;
use cdx_models::{JsonWriteError, SpecVersion};
use cdx_print::{LongText, Printed};
use std::alloc::{AllocError, Global};

impl Bom {
    /// Writes what the version keeps of the bill into a sink, as `serde_json`'s compact text of the value that
    /// `output_json` answers, and then flushes. `BomError` exactly as there, and `Memory` comes only where memory runs out,
    /// both before the first `put`. `JsonElementWriteError` comes only where the sink's count of faults rose, and
    /// tells how many of the text's first bytes went out. `Ok` comes only where the count stayed: then the whole text
    /// went out, and all that was written is flushed.
    pub fn write_json<K: Sink>(
        &self,
        alloc: Global,
        version: SpecVersion,
        sink: &mut K,
    ) -> Result<(), JsonWriteError>
        ensures fits { OnOk result (Fits version (bom_tree self.now)) }
        ensures ok { OnOk result (Appends (K.written sink.old) (K.written sink.new)
            (compact_kept version (bom_tree self.now))) }
        ensures flushed { OnOk result (IfSome (K.flushed sink.new)
            (λ n. IfSome (K.written sink.new) (λ bytes. n ≡ length bytes))) }
        ensures steady { OnOk result (K.faults sink.new ≡ K.faults sink.old) }
        ensures err { IfErr result
            (λ e. IsRefused version (bom_tree self.now) K.written K.faults sink.old sink.new e) }
    {
        let text = self.json_text(alloc, version)?;
        match put_long_text(&text, sink) {
            Ok(()) => Ok(()),
            Err(error) => Err(JsonWriteError::JsonElementWriteError {
                written: error.written,
            }),
        }
    }

    // The compact text of the value that `output_json` answers.
    fn json_text(&self, alloc: Global, version: SpecVersion) -> Result<LongText, JsonWriteError>
        ensures { Outputs result version (bom_tree self.now)
            (λ t. t ≡ compact_kept version (bom_tree self.now)) }
    {
        if !self.fits(version) {
            return Err(JsonWriteError::BomError(lacks_version()));
        }
        match self.kept_text(alloc, version) {
            Ok(text) => Ok(text),
            Err(error) => Err(JsonWriteError::Memory(error)),
        }
    }

    // The compact text of what the version keeps of the bill.
    fn kept_text(&self, alloc: Global, version: SpecVersion) -> Result<LongText, AllocError>
        ensures { IfOk result (λ t. t ≡ compact_kept version (bom_tree self.now)) }
    {
        let mut text = Printed::new(alloc);
        self.print_json(alloc, version, &mut text)?;
        text.finish()
    }
}
