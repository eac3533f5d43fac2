//! The call that runs a script.
ghost use Rattle.std.specs.Prelude.{◌≡◌, ◌≢◌, ℕ, ◌+◌, ◌<◌, ◌≤◌, List, [], length, Bool, true, false, Option, Some, None, OnOk, OnErr};
ghost use Rattle.std.specs.List.Sorted.{IsStrictlyIncreasing};
ghost use Rattle.std.specs.Io.KnownBytes.{Appends};
ghost use Rattle.pdl_io.specs.Counts.{HasCause};
ghost use Rattle.pdl_io.specs.Told.{Says, KeepsTelling, AppendsPrefix};
ghost use Rattle.pdl_lex.specs.Limits.{script_limit};
ghost use Rattle.pdl_watch.specs.Slots.{Slots, slots_by, present_in, AreOpen};
ghost use Rattle.pdl_scope.specs.Scope.{slots_limit};
ghost use Rattle.pdl_shell.specs.Command.{asked_by, reads_source, usage_line};
ghost use Rattle.pdl_shell.specs.Outside.{outlets, beside, outside};
ghost use Rattle.pdl_shell.specs.Course.{IsFresh};
ghost use Rattle.pdl_shell.specs.Answers.{CameToItsEnd, ending, Gives, CanAnswer, HasReason, TakesAtMost, IsUndisturbed};
ghost use Rattle.pdl_shell.specs.Taken.{Reads};
ghost use Rattle.pdl_shell.specs.Calls.{RunsScript, IsAnswered};

use crate::laws::course_laws;
use crate::reading::read_parts;
use crate::refused::Refused;
use crate::runner::Runner;
use crate::status::Status;
use crate::stop::{Stop, status_after};
use crate::summary::summarize;
use crate::words::{Command, read_words};
use pdl_buf::{Steps, new_steps};
use pdl_io::{Failed, Sink, Source, write_all};
use pdl_machine::run_laws;
use pdl_watch::{Watcher, slot_laws, telling_laws};
use std::alloc::Global;
use std::marker::Brand;
use std::sync::ledger::{Blank, Ledger};

// What is written where the words are no spelling of the command.
const USAGE_LINE: &[u8] = b"usage: pdl [--keep-going] [--generate N]\n";

// Runs the script that the source gives by a new runner: each statement as soon as it is whole, and
// at the end what is left.
fn drive<S: Source, K: Sink, W: Watcher, L: Ledger, M: Ledger>(
    runner: &mut Runner,
    source: &mut S,
    sink: &mut K,
    watchers: &mut Vec<Option<W>>,
    steps: &mut Steps<L>,
    runs: &mut Steps<M>,
) -> Result<bool, Stop>
    requires fresh { IsFresh runner.old }
    requires ready { (runner.old.cutter.failed ≡ false) × (runner.old.cutter.taken ≡ 0) }
    requires unfinished { AreOpen (slots_by W.seen watchers.old.items) }
    requires few { length watchers.old.items ≤ slots_limit }
    ensures { RunsScript runner.old.keep_going runner.new.refused result
        (outside S.left S.faults source.old (outlets K.taken K.is_flushed K.faults sink.old
        (slots_by W.seen watchers.old.items)))
        (outside S.left S.faults source.new (outlets K.taken K.is_flushed K.faults sink.new
        (slots_by W.seen watchers.new.items))) }
{
    course_laws();
    run_laws();
    let is_cut = read_parts(runner, source, sink, watchers, steps, runs)?;
    runner.finish(is_cut, sink, watchers, steps, runs)
}

// Runs the script that the source gives, and leaves in `refused` the statements that memory
// refused.
fn run_parts<S: Source, K: Sink, W: Watcher, L: Ledger, M: Ledger>(
    alloc: Global,
    keep_going: bool,
    source: &mut S,
    sink: &mut K,
    watchers: &mut Vec<Option<W>>,
    refused: &mut Refused,
    blank: Blank,
    runs: Blank,
) -> Result<bool, Stop>
    requires name { blank.name ≡ L.name }
    requires parts { blank.parts ≡ L.parts }
    requires some { 0 < blank.parts }
    requires runs_name { runs.name ≡ M.name }
    requires runs_parts { runs.parts ≡ M.parts }
    requires runs_some { 0 < runs.parts }
    requires unfinished { AreOpen (slots_by W.seen watchers.old.items) }
    requires few { length watchers.old.items ≤ slots_limit }
    ensures { RunsScript keep_going refused.new result
        (outside S.left S.faults source.old (outlets K.taken K.is_flushed K.faults sink.old
        (slots_by W.seen watchers.old.items)))
        (outside S.left S.faults source.new (outlets K.taken K.is_flushed K.faults sink.new
        (slots_by W.seen watchers.new.items))) }
{
    let mut runner = Runner::new(alloc, keep_going);
    let mut steps = new_steps::<L>(blank);
    let mut runs = new_steps::<M>(runs);
    let ran = drive(&mut runner, source, sink, watchers, &mut steps, &mut runs);
    refused.take_over(runner.refused());
    ran
}

// Runs the script that the source gives, answers the status, and leaves in `refused` the statements
// that memory refused.
pub(crate) fn run_script<S: Source, K: Sink, W: Watcher>(
    alloc: Global,
    keep_going: bool,
    source: &mut S,
    sink: &mut K,
    watchers: &mut Vec<Option<W>>,
    refused: &mut Refused,
) -> Status
    requires unfinished { AreOpen (slots_by W.seen watchers.old.items) }
    requires few { length watchers.old.items ≤ slots_limit }
    ensures { IsAnswered (Some (Command.Run keep_going)) refused.new result
        (outside S.left S.faults source.old (outlets K.taken K.is_flushed K.faults sink.old
        (slots_by W.seen watchers.old.items)))
        (outside S.left S.faults source.new (outlets K.taken K.is_flushed K.faults sink.new
        (slots_by W.seen watchers.new.items))) }
{
    run_laws();
    let blank = Blank::new(1);
    let runs = Blank::new(1);
    let ran = run_parts::<S, K, W, Brand, Brand>(
        alloc, keep_going, source, sink, watchers, refused, blank, runs,
    );
    status_after(ran, refused)
}

// Writes the usage line, and flushes it.
fn write_usage<K: Sink>(sink: &mut K) -> Result<(), Failed>
    ensures whole { OnOk result (Appends (K.taken sink.old) (K.taken sink.new) usage_line) }
    ensures prefix { OnErr result (AppendsPrefix (K.taken sink.old) (K.taken sink.new) usage_line) }
    ensures flushed { OnOk result (Says (K.is_flushed sink.new) true) }
    ensures tells { KeepsTelling (K.is_flushed sink.old) (K.is_flushed sink.new) }
    ensures cause { HasCause (K.faults sink.old) (K.faults sink.new) result }
{
    write_all(sink, USAGE_LINE)?;
    sink.flush()
}

// Answers words that are no spelling of the command.
fn usage<K: Sink>(sink: &mut K) -> Status
    ensures { (left : Option (List ℕ)) (faults : ℕ) (slots : Slots) → IsAnswered None [] result
        (beside left faults (outlets K.taken K.is_flushed K.faults sink.old slots))
        (beside left faults (outlets K.taken K.is_flushed K.faults sink.new slots)) }
{
    slot_laws();
    telling_laws();
    match write_usage(sink) {
        Ok(()) => Status::Usage,
        Err(_) => Status::SinkFault,
    }
}

// Does what the words of the command line ask for.
fn run_command<S: Source, K: Sink, W: Watcher>(
    alloc: Global,
    asked: Option<Command>,
    source: &mut S,
    sink: &mut K,
    watchers: &mut Vec<Option<W>>,
    refused: &mut Refused,
) -> Status
    requires none { refused.old ≡ [] }
    requires unfinished { AreOpen (slots_by W.seen watchers.old.items) }
    requires few { length watchers.old.items ≤ slots_limit }
    ensures answered { IsAnswered asked refused.new result
        (outside S.left S.faults source.old (outlets K.taken K.is_flushed K.faults sink.old
        (slots_by W.seen watchers.old.items)))
        (outside S.left S.faults source.new (outlets K.taken K.is_flushed K.faults sink.new
        (slots_by W.seen watchers.new.items))) }
    ensures unread { reads_source asked ≡ false → source.new ≡ source.old }
    ensures unwatched { reads_source asked ≡ false → watchers.new ≡ watchers.old }
    ensures unrefused { reads_source asked ≡ false → refused.new ≡ [] }
{
    match asked {
        Some(Command::Run { keep_going }) => {
            run_script(alloc, keep_going, source, sink, watchers, refused)
        }
        Some(Command::Generate { keep_going, rounds }) => {
            summarize(alloc, keep_going, rounds, sink)
        }
        None => usage(sink),
    }
}

/// Runs the script that the source gives, or the generated one, and writes what it prints to the
/// sink.
///
/// `words` are the words of the command line without the program's name: none, `--keep-going`,
/// `--generate N` or `--generate=N`, or both, in either order. N is one to four decimal digits, at
/// most 2000. Where they are no spelling of the command, the usage line is written. With
/// `--generate` the generated script of N rounds is run, on after faults with `--keep-going`, what
/// it prints is counted, and one line is written: how many statements it has, how many bytes they
/// print, and what these sum to. In both cases the source isn't touched (`unread`).
///
/// Else the script is read in parts of at most 4,096 bytes, and its statements are run in order,
/// each as soon as its last byte is there. After each of them its text is written, or the line of
/// its fault. The first fault ends the run, unless it is to keep going, and no more is read then;
/// that the script is too long always ends it. At the end the sink is flushed.
///
/// A statement that memory refuses has its line written, which says out of memory, and its number
/// added to `refused`; nothing else changes. The run goes on then as after a fault, but the 64th
/// refused statement ends it. The status is NoMemory then. At the call `refused` is empty.
///
/// The statements `watch` and `unwatch` attach the watchers of these slots to arrays, and let them
/// go. After each statement those that are attached are told what it changed. Once the sink is
/// flushed those that are attached then are finished, slot by slot; they stay in their slots. With
/// `--generate`, and where the words are no spelling, no watcher is touched (`unwatched`). No
/// watcher may be finished before, and there are at most 1,024 slots.
///
/// What is written and told and the status are those of the ending that the words ask for, with the
/// statements in `refused` refused, to all of which the run came; where the call stops short, a
/// prefix is written and a front is told (`model`), and where the source fails, just what the
/// statements print and tell that were whole by then, with just those in `refused` that the run
/// met; whatever the status, the statements in `refused` are ones of the bytes taken (`reads`), and
/// their numbers rise (`rising`). A fault of the source, the sink or a watcher is answered only
/// where its count rose in this call (`reason`). It takes no memory where the words are no spelling.
///
/// No clause says that the call ends at once after such a fault, nor that it is only outside of a
/// statement that it stops short for lack of memory.
pub fn run_shell<S: Source, K: Sink>(
    alloc: Global,
    words: &[String],
    source: &mut S,
    sink: &mut K,
    watchers: &mut Vec<Option<Box<dyn Watcher>>>,
    refused: &mut Refused,
) -> Status
    requires none { refused.old ≡ [] }
    requires unfinished { AreOpen (slots_by (λ b. seen b) watchers.old.items) }
    requires few { length watchers.old.items ≤ slots_limit }
    ensures model { (script : List ℕ) →
        (reads_source (asked_by words.now) ≡ true → S.left source.old ≡ Some script) →
        let slots = slots_by (λ b. seen b) watchers.old.items in
        Gives result (ending (asked_by words.now) (present_in slots) refused.new script)
        (outlets K.taken K.is_flushed K.faults sink.old slots)
        (outlets K.taken K.is_flushed K.faults sink.new
        (slots_by (λ b. seen b) watchers.new.items)) }
    ensures answers { CanAnswer (asked_by words.now) result }
    ensures unread { reads_source (asked_by words.now) ≡ false → source.new ≡ source.old }
    ensures unwatched { reads_source (asked_by words.now) ≡ false → watchers.new ≡ watchers.old }
    ensures unrefused { reads_source (asked_by words.now) ≡ false → refused.new ≡ [] }
    ensures reads { (keep : Bool) → asked_by words.now ≡ Some (Command.Run keep) →
        Reads keep refused.new result
        (outside S.left S.faults source.old (outlets K.taken K.is_flushed K.faults sink.old
        (slots_by (λ b. seen b) watchers.old.items)))
        (outside S.left S.faults source.new (outlets K.taken K.is_flushed K.faults sink.new
        (slots_by (λ b. seen b) watchers.new.items))) }
    ensures rising { IsStrictlyIncreasing refused.new }
    ensures at_most { TakesAtMost (script_limit + 1) (S.left source.old) (S.left source.new) }
    ensures reason { HasReason result
        (outside S.left S.faults source.old (outlets K.taken K.is_flushed K.faults sink.old
        (slots_by (λ b. seen b) watchers.old.items)))
        (outside S.left S.faults source.new (outlets K.taken K.is_flushed K.faults sink.new
        (slots_by (λ b. seen b) watchers.new.items))) }
    ensures complete { IsUndisturbed
        (outside S.left S.faults source.old (outlets K.taken K.is_flushed K.faults sink.old
        (slots_by (λ b. seen b) watchers.old.items)))
        (outside S.left S.faults source.new (outlets K.taken K.is_flushed K.faults sink.new
        (slots_by (λ b. seen b) watchers.new.items))) →
        result ≢ Status.NoMemory → CameToItsEnd result }
    ensures flushed { CameToItsEnd result → Says (K.is_flushed sink.new) true }
    ensures tells { KeepsTelling (K.is_flushed sink.old) (K.is_flushed sink.new) }
{
    run_command(alloc, read_words(words), source, sink, watchers, refused)
}
