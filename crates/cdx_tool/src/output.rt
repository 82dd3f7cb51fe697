//! Putting an answer into a sink.

ghost use Rattle.std.specs.Prelude.{◌≡◌, ◌≤◌, length, take, IfErr, IfSome, OnOk};
ghost use Rattle.std.specs.Io.KnownBytes.{Appends};
ghost use Rattle.cdx_events.specs.Causes.{HasCause};

pub use cdx_bom::PutError;
use cdx_bom::put_long_text;
use cdx_events::Sink;
use cdx_print::LongText;

/// Puts the text's bytes and then flushes. `Ok` comes only where the sink's count of faults stayed: then the whole
/// text went out, and all that was written is flushed. `PutError` comes only where the count rose. It takes no memory.
pub fn put_answer<K: Sink>(text: &LongText, sink: &mut K) -> Result<(), PutError>
    ensures ok { OnOk result (Appends (K.written sink.old) (K.written sink.new) text.now) }
    ensures flushed { OnOk result (IfSome (K.flushed sink.new)
        (λ n. IfSome (K.written sink.new) (λ bytes. n ≡ length bytes))) }
    ensures err { IfErr result (λ e. (e.written ≤ length text.now)
        × Appends (K.written sink.old) (K.written sink.new) (take e.written text.now)) }
    ensures cause { HasCause (K.faults sink.old) (K.faults sink.new) result }
{
    put_long_text(text, sink)
}
