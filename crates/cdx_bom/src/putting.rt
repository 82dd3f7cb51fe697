//! Putting a text into a sink.

ghost use Rattle.std.specs.Prelude.{◌≡◌, ◌≤◌, length, take, IfErr, IfSome, OnOk};
ghost use Rattle.std.specs.Io.KnownBytes.{Appends};
ghost use Rattle.cdx_events.specs.Causes.{HasCause};

use cdx_events::{Failed, Sink, Text};
use cdx_print::LongText;

/// The sink failed. So many of the text's first bytes went out.
#[derive(Debug, Drop)]
pub struct PutError {
    /// How many bytes went out before the sink failed.
    pub written: usize,
}

/// Puts the bytes, and doesn't flush. `Ok` comes only where the sink's count of faults stayed: then all bytes went out.
/// `PutError` comes only where the count rose. It takes no memory.
pub fn put_bytes<K: Sink>(bytes: &[u8], sink: &mut K) -> Result<(), PutError>
    ensures ok { OnOk result (Appends (K.written sink.old) (K.written sink.new) bytes.now) }
    ensures err { IfErr result (λ e. (e.written ≤ length bytes.now)
        × Appends (K.written sink.old) (K.written sink.new) (take e.written bytes.now)) }
    ensures cause { HasCause (K.faults sink.old) (K.faults sink.new) result }
{
    let mut at = 0;
    while at < bytes.len() {
        match sink.put(&bytes[at..]) {
            Ok(count) => at += count,
            Err(Failed) => return Err(PutError { written: at }),
        }
    }
    Ok(())
}

/// Puts the text's bytes and then flushes. `Ok` comes only where the sink's count of faults stayed: then the whole
/// text went out, and all that was written is flushed. `PutError` comes only where the count rose. It takes no memory.
pub fn put_text<K: Sink>(text: &Text, sink: &mut K) -> Result<(), PutError>
    ensures ok { OnOk result (Appends (K.written sink.old) (K.written sink.new) text.now) }
    ensures flushed { OnOk result (IfSome (K.flushed sink.new)
        (λ n. IfSome (K.written sink.new) (λ bytes. n ≡ length bytes))) }
    ensures err { IfErr result (λ e. (e.written ≤ length text.now)
        × Appends (K.written sink.old) (K.written sink.new) (take e.written text.now)) }
    ensures cause { HasCause (K.faults sink.old) (K.faults sink.new) result }
{
    let bytes = text.as_str().as_bytes();
    put_bytes(bytes, sink)?;
    match sink.flush() {
        Ok(()) => Ok(()),
        Err(Failed) => Err(PutError {
            written: bytes.len(),
        }),
    }
}

/// `put_text` of a text in pieces.
pub fn put_long_text<K: Sink>(text: &LongText, sink: &mut K) -> Result<(), PutError>
    ensures ok { OnOk result (Appends (K.written sink.old) (K.written sink.new) text.now) }
    ensures flushed { OnOk result (IfSome (K.flushed sink.new)
        (λ n. IfSome (K.written sink.new) (λ bytes. n ≡ length bytes))) }
    ensures err { IfErr result (λ e. (e.written ≤ length text.now)
        × Appends (K.written sink.old) (K.written sink.new) (take e.written text.now)) }
    ensures cause { HasCause (K.faults sink.old) (K.faults sink.new) result }
{
    let mut at = 0;
    for piece in text.as_slice() {
        let bytes = piece.as_str().as_bytes();
        match put_bytes(bytes, sink) {
            Ok(()) => at += bytes.len(),
            Err(error) => {
                return Err(PutError {
                    written: at + error.written,
                });
            }
        }
    }
    match sink.flush() {
        Ok(()) => Ok(()),
        Err(Failed) => Err(PutError { written: at }),
    }
}
