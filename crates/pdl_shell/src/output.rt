//! Writing to the sink, with the answers of a run.
ghost use Rattle.std.specs.Prelude.{◌≡◌, ◌≢◌, true, Err, OnOk, OnErr, []};
ghost use Rattle.std.specs.Io.KnownBytes.{Appends, Keeps};
ghost use Rattle.pdl_io.specs.Told.{Says, KeepsTelling, AppendsPrefix};
ghost use Rattle.pdl_shell.specs.Stops.{HasSinkCause};

use crate::stop::Stop;
use pdl_io::{Sink, write_all};

// Writes the whole text. No write is made for an empty one.
pub(crate) fn write_text<K: Sink>(sink: &mut K, text: &[u8]) -> Result<(), Stop>
    ensures whole { OnOk result (Appends (K.taken sink.old) (K.taken sink.new) text.now) }
    ensures prefix { OnErr result (AppendsPrefix (K.taken sink.old) (K.taken sink.new) text.now) }
    ensures nothing { text.now ≡ [] → sink.new ≡ sink.old }
    ensures tells { KeepsTelling (K.is_flushed sink.old) (K.is_flushed sink.new) }
    ensures cause { HasSinkCause (K.faults sink.old) (K.faults sink.new) result }
    ensures memory { result ≢ Err Stop.NoMemory }
{
    match write_all(sink, text) {
        Ok(()) => Ok(()),
        Err(_) => Err(Stop::Sink),
    }
}

// Flushes what was written.
pub(crate) fn flush<K: Sink>(sink: &mut K) -> Result<(), Stop>
    ensures same { Keeps (K.taken sink.old) (K.taken sink.new) }
    ensures flushed { OnOk result (Says (K.is_flushed sink.new) true) }
    ensures tells { KeepsTelling (K.is_flushed sink.old) (K.is_flushed sink.new) }
    ensures cause { HasSinkCause (K.faults sink.old) (K.faults sink.new) result }
    ensures memory { result ≢ Err Stop.NoMemory }
{
    match sink.flush() {
        Ok(()) => Ok(()),
        Err(_) => Err(Stop::Sink),
    }
}
