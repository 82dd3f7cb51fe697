//! A sink that drops what it is given.

ghost use Rattle.std.specs.Prelude.{◌≡◌, length, None};

use super::NullSink;
use crate::stream::{Failed, Sink};

impl NullSink {
    /// A sink that keeps nothing.
    pub fn new() -> NullSink {
        NullSink
    }
}

impl Sink for NullSink {
    ghost written = { λ _. None };

    ghost flushed = { λ _. None };

    ghost tells = { λ s is. is };

    ghost faults = { λ _. 0 };

    /// Takes every byte.
    fn put(&mut self, bytes: &[u8]) -> Result<usize, Failed>
        ensures { result ≡ Ok (length bytes.now) }
    {
        Ok(bytes.len())
    }

    fn flush(&mut self) -> Result<(), Failed> {
        Ok(())
    }
}
