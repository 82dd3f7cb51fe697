//! A sink of one's own.

ghost use Rattle.std.specs.Prelude.{◌≡◌, []};
ghost use Rattle.cdx_bom.specs.Trees.{bom_tree};
ghost use Rattle.cdx_bom.specs.Outputs.{Outputs, compact_kept};

use cdx_bom::Bom;
use cdx_events::{Failed, Sink};
use cdx_models::{JsonWriteError, SpecVersion};
use std::alloc::{AllocError, Global};
use std::marker::Model;

/// A sink that holds what is written, and grows with it. It fails where memory runs out.
#[derive(Debug, Drop)]
pub struct Buffer {
    bytes: Vec<u8>,
    // How many of the bytes are flushed.
    safe: usize,
    // How often it has failed, up to the last value of the type.
    failed: u64,
}

impl Model for Buffer {
    ghost use Rattle.std.specs.Prelude.{◌<◌, ◌^◌};
    ghost use Rattle.cdx_uses.specs.Buffers.{Held};

    ghost Value = { Held };

    ghost view = { λ b. record { written = b.bytes.items; flushed = b.safe; faults = b.failed } };

    ghost invariant = { λ b. b.failed < 2 ^ 64 };
}

impl Buffer {
    /// An empty buffer. It takes no memory.
    pub fn new(alloc: Global) -> Buffer
        ensures { result ≡ record { written = []; flushed = 0; faults = 0 } }
    {
        Buffer {
            bytes: Vec::new(alloc),
            safe: 0,
            failed: 0,
        }
    }

    /// What was written. It takes no memory.
    pub fn into_bytes(self) -> Vec<u8>
        ensures { result.items ≡ self.written }
    {
        self.bytes
    }
}

impl Sink for Buffer {
    ghost use Rattle.std.specs.Prelude.{Some, refl};

    ghost written = { λ b. Some b.written };

    ghost flushed = { λ b. Some b.flushed };

    ghost tells = { λ b is. refl };

    ghost faults = { λ b. b.faults };

    /// Takes every byte, or fails where memory runs out.
    fn put(&mut self, bytes: &[u8]) -> Result<usize, Failed> {
        match self.bytes.extend_from_slice(bytes) {
            Ok(()) => Ok(bytes.len()),
            Err(_) => {
                self.failed = self.failed.saturating_add(1);
                Err(Failed)
            }
        }
    }

    fn flush(&mut self) -> Result<(), Failed> {
        self.safe = self.bytes.len();
        Ok(())
    }
}

/// The compact text of what a version keeps of a bill, in bytes. `BomError` exactly where the bill doesn't fit the
/// version, as `Bom::output_json` says, and else only want of memory refuses.
pub fn json_bytes(
    alloc: Global,
    bill: &Bom,
    version: SpecVersion,
) -> Result<Vec<u8>, JsonWriteError>
    ensures { Outputs result version (bom_tree bill.now)
        (λ bytes. bytes.items ≡ compact_kept version (bom_tree bill.now)) }
{
    let mut buffer = Buffer::new(alloc);
    match bill.write_json(alloc, version, &mut buffer) {
        Ok(()) => Ok(buffer.into_bytes()),
        // The buffer fails where memory runs out, and nowhere else.
        Err(JsonWriteError::JsonElementWriteError { .. }) => {
            Err(JsonWriteError::Memory(AllocError))
        }
        Err(error) => Err(error),
    }
}
