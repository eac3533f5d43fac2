//! The run of the generated script, of which one line is written.
ghost use Rattle.std.specs.Prelude.{◌≡◌, ℕ, ◌==◌, Option, ◌+◌, ◌≤◌, List, [], length, false, true, Some, IfOk, OnOk, OnErr, if◌then◌else◌};
ghost use Rattle.std.specs.Io.KnownBytes.{Appends};
ghost use Rattle.std.specs.String.{string_bytes};
ghost use Rattle.pdl_io.specs.Told.{Says, KeepsTelling, AppendsPrefix};
ghost use Rattle.pdl_lex.specs.Pieces.{pieces};
ghost use Rattle.pdl_machine.specs.Run.{run};
ghost use Rattle.pdl_shell.specs.declared.words.Command.TheVariants.{Generate};
ghost use Rattle.pdl_shell.specs.Generated.{generated_script};
ghost use Rattle.pdl_watch.specs.Slots.{Slots};
ghost use Rattle.pdl_shell.specs.Outside.{outlets, beside};
ghost use Rattle.pdl_shell.specs.Summary.{unwatched, summary};
ghost use Rattle.pdl_shell.specs.Stops.{HasSinkCause};
ghost use Rattle.pdl_shell.specs.Calls.{IsAnswered};

use crate::generated::generated_script;
use crate::output::{flush, write_text};
use crate::refused::Refused;
use crate::run::run_script;
use crate::status::Status;
use crate::stop::{Stop, status_after};
use pdl_io::{CountSink, MemSource, Sink};
use pdl_lex::joining_laws;
use pdl_watch::{Recorder, slot_laws, telling_laws};
use std::alloc::{AllocError, Global};

// The most bytes of the generated script that a read gives: as many as are asked for.
const MOST: usize = usize::MAX;

// How many statements the generated script of so many rounds has: one a line.
fn statement_count(rounds: u16) -> u64
    ensures { result ≡ length (pieces (generated_script rounds)) }
{
    joining_laws();
    if rounds == 0 {
        0
    } else {
        u64::from(rounds) + 2
    }
}

// Runs the generated script of so many rounds, and counts what it prints. A text
// that is too long to be counted is answered as `NoMemory`. Nobody watches.
fn count_printed(alloc: Global, keep_going: bool, rounds: u16) -> Result<CountSink, AllocError>
    ensures { let ran = run (unwatched keep_going) (generated_script rounds) in
        IfOk result (λ counted. counted.bytes ≡ ran.printed) }
{
    let script = generated_script(alloc, rounds)?;
    let mut source = MemSource::new(script, MOST, Vec::new(alloc));
    let mut printed = CountSink::new();
    let mut nobody: Vec<Option<Recorder>> = Vec::new(alloc);
    let mut refused = Refused::new();
    match run_script(
        alloc,
        keep_going,
        &mut source,
        &mut printed,
        &mut nobody,
        &mut refused,
    ) {
        Status::Done => Ok(printed),
        Status::ScriptFault => Ok(printed),
        _ => Err(AllocError),
    }
}

// The line that sums up the run of the generated script of so many rounds.
fn summary(alloc: Global, keep_going: bool, rounds: u16) -> Result<String, AllocError>
    ensures { IfOk result (λ line. string_bytes line ≡ summary keep_going rounds) }
{
    let printed = count_printed(alloc, keep_going, rounds)?;
    let statements = statement_count(rounds);
    let bytes = printed.count();
    let sum = printed.sum();
    let line = format!(in alloc; "statements {statements} bytes {bytes} sum {sum}\n")?;
    Ok(line)
}

// Writes that line, and flushes it.
fn write_summary<K: Sink>(
    alloc: Global,
    keep_going: bool,
    rounds: u16,
    sink: &mut K,
) -> Result<(), Stop>
    ensures whole { let line = summary keep_going rounds in
        OnOk result (Appends (K.taken sink.old) (K.taken sink.new) line) }
    ensures prefix { let line = summary keep_going rounds in
        OnErr result (AppendsPrefix (K.taken sink.old) (K.taken sink.new) line) }
    ensures flushed { OnOk result (Says (K.is_flushed sink.new) true) }
    ensures tells { KeepsTelling (K.is_flushed sink.old) (K.is_flushed sink.new) }
    ensures cause { HasSinkCause (K.faults sink.old) (K.faults sink.new) result }
{
    let line = summary(alloc, keep_going, rounds)?;
    write_text(sink, line.as_bytes())?;
    flush(sink)
}

// Runs the generated script of so many rounds, and writes the line that sums it up.
pub(crate) fn summarize<K: Sink>(
    alloc: Global,
    keep_going: bool,
    rounds: u16,
    sink: &mut K,
) -> Status
    ensures { (left : Option (List ℕ)) (faults : ℕ) (slots : Slots) →
        IsAnswered (Some (Generate keep_going rounds)) [] result
        (beside left faults (outlets K.taken K.is_flushed K.faults sink.old slots))
        (beside left faults (outlets K.taken K.is_flushed K.faults sink.new slots)) }
{
    slot_laws();
    telling_laws();
    match write_summary(alloc, keep_going, rounds, sink) {
        Ok(()) => Status::Done,
        Err(stop) => status_after(Err(stop), &Refused::new()),
    }
}
