//! The line that says why a statement wasn't run.
ghost use Rattle.std.specs.Prelude.{◌≡◌, ◌≢◌, ◌+◌, ◌++◌, ◌≤◌, [], length, Err, OnOk, OnErr};
ghost use Rattle.std.specs.Io.KnownBytes.{Appends};
ghost use Rattle.pdl_io.specs.Told.{AppendsPrefix, KeepsTelling};
ghost use Rattle.pdl_machine.specs.Run.{report};
ghost use Rattle.pdl_shell.specs.Stops.{HasSinkCause};
ghost use Rattle.pdl_shell.specs.declared.line.TheConstants.{LONGEST_REASON, ROOM};

use crate::output::write_text;
use crate::stop::Stop;
use itoa::Buffer;
use pdl_io::Sink;
use std::marker::Model;

// How many bytes a line has at most.
const ROOM: usize = 128;

// How many bytes a reason has at most.
const LONGEST_REASON: usize = 64;

// A line, which is spelled where it is written: what answers one is small.
#[derive(Drop)]
pub(crate) struct Line {
    number: u64,
    reason: &'static str,
}

impl Model for Line {
    ghost use Rattle.std.specs.Prelude.{ℕ, List, ◌≤◌, length};
    ghost use Rattle.pdl_machine.specs.Run.{report};
    ghost use Rattle.pdl_shell.specs.declared.line.TheConstants.{LONGEST_REASON};

    ghost Value = { List ℕ };

    ghost view = { λ line. report line.number line.reason.now };

    ghost invariant = { λ line. length line.reason.now ≤ LONGEST_REASON };
}

// The bytes of a line, which stand in place and take no memory.
#[derive(Drop)]
struct Spelled {
    bytes: [u8; ROOM],
    length: usize,
}

impl Model for Spelled {
    ghost use Rattle.std.specs.Prelude.{ℕ, List, take, ◌≤◌};
    ghost use Rattle.pdl_shell.specs.declared.line.TheConstants.{ROOM};

    ghost Value = { List ℕ };

    ghost view = { λ spelled. take spelled.length spelled.bytes };

    ghost invariant = { λ spelled. spelled.length ≤ ROOM };
}

impl Spelled {
    // No bytes.
    fn empty() -> Spelled
        ensures { result ≡ [] }
    {
        Spelled {
            bytes: [0; ROOM],
            length: 0,
        }
    }

    // Adds bytes, for which there is room.
    fn push(&mut self, piece: &[u8])
        requires { length self.old + length piece.now ≤ ROOM }
        ensures { self.new ≡ self.old ++ piece.now }
    {
        let end = self.length + piece.len();
        self.bytes[self.length..end].copy_from_slice(piece);
        self.length = end;
    }

    // What was added so far.
    fn bytes(&self) -> &[u8]
        ensures { result.now ≡ self.now }
    {
        &self.bytes[..self.length]
    }
}

impl Line {
    // The line as it is written, with its newline.
    fn spelled(&self) -> Spelled
        ensures { result ≡ self.now }
    {
        let mut buffer = Buffer::new();
        let mut spelled = Spelled::empty();
        spelled.push(b"pdl: line ");
        spelled.push(buffer.format(self.number).as_bytes());
        spelled.push(b": ");
        spelled.push(self.reason.as_bytes());
        spelled.push(b"\n");
        spelled
    }

    // Writes it, or its beginning where the sink fails.
    pub(crate) fn write<K: Sink>(&self, sink: &mut K) -> Result<(), Stop>
        ensures whole { OnOk result (Appends (K.taken sink.old) (K.taken sink.new) self.now) }
        ensures prefix { OnErr result
            (AppendsPrefix (K.taken sink.old) (K.taken sink.new) self.now) }
        ensures nothing { self.now ≡ [] → sink.new ≡ sink.old }
        ensures tells { KeepsTelling (K.is_flushed sink.old) (K.is_flushed sink.new) }
        ensures cause { HasSinkCause (K.faults sink.old) (K.faults sink.new) result }
        ensures memory { result ≢ Err Stop.NoMemory }
    {
        write_text(sink, self.spelled().bytes())
    }
}

// The line that says for this reason that the statement wasn't run which begins on this line of the
// script.
pub(crate) fn report(number: u64, reason: &'static str) -> Line
    requires { length reason.now ≤ LONGEST_REASON }
    ensures { result ≡ report number reason.now }
{
    Line { number, reason }
}
