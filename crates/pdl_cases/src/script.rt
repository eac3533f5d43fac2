//! `script [word=W ..] [reads=N] [room=N] [fail-read=N ..] [fail-write=N ..] [slots=ROOMS]
//! [fail-call=SLOT,N ..] TEXT => STATUS TEXT`
//!
//! A script is run with these words of the command line. The source gives at most N bytes a read;
//! where none are said the script is run twice, with 4096 bytes a read and with 1, and both must
//! agree. Reads, and writes and flushes together, are numbered from 0. The sink has room for 65,536
//! bytes, or for N. The answer is the status and the text that was written, and with slots what their
//! watchers were told (`watchers.rt`).
//!
//! `status STATUS => N`: the number of a status.
ghost use Rattle.std.specs.Prelude.{◌≤◌, length};
ghost use Rattle.pdl_watch.specs.Slots.{AreOpen, slots_by};
ghost use Rattle.pdl_scope.specs.Scope.{slots_limit};

use crate::answer::Answer;
use crate::cursor::Cursor;
use crate::watchers::{Slots, Subject, run_as_program, run_with};
use pdl_io::{MemSink, MemSource};
use pdl_shell::{Refused, Status, run_shell};
use pdl_watch::Watcher;
use std::alloc::Global;

/// How a script is run.
#[derive(Drop)]
pub struct Call {
    words: Vec<String>,
    reads: Option<usize>,
    room: usize,
    failing_reads: Vec<u64>,
    failing_writes: Vec<u64>,
    slots: Slots,
}

#[derive(Clone, Copy)]
enum Setting {
    Word,
    Reads,
    Room,
    FailRead,
    FailWrite,
    Slots,
    FailCall,
}

const SETTINGS: &[(&str, Setting)] = &[
    ("word", Setting::Word),
    ("reads", Setting::Reads),
    ("room", Setting::Room),
    ("fail-read", Setting::FailRead),
    ("fail-write", Setting::FailWrite),
    ("slots", Setting::Slots),
    ("fail-call", Setting::FailCall),
];

// A word of the command line.
fn word(line: &mut Cursor<'_>) -> Option<String> {
    let word = line.piece()?;
    String::from_utf8(word).ok()
}

fn number_of(line: &mut Cursor<'_>) -> Option<u64> {
    u64::try_from(line.number()?).ok()
}

fn size_of(line: &mut Cursor<'_>) -> Option<usize> {
    match number_of(line)? {
        0 => None,
        size => Some(size as usize),
    }
}

// Takes what one setting says.
fn take_setting(setting: Setting, line: &mut Cursor<'_>, call: &mut Call) -> Option<()> {
    match setting {
        Setting::Word => call.words.push(word(line)?).ok(),
        Setting::Reads => {
            call.reads = Some(size_of(line)?);
            Some(())
        }
        Setting::Room => {
            call.room = size_of(line)?;
            Some(())
        }
        Setting::FailRead => call.failing_reads.push(number_of(line)?).ok(),
        Setting::FailWrite => call.failing_writes.push(number_of(line)?).ok(),
        Setting::Slots => call.slots.take_rooms(line),
        Setting::FailCall => call.slots.take_failing(line),
    }
}

fn take_settings(line: &mut Cursor<'_>, call: &mut Call) -> Option<()> {
    for _ in 0..100 {
        match line.setting(SETTINGS) {
            Some(setting) => take_setting(setting, line, call)?,
            None => return Some(()),
        }
    }
    None
}

fn no_settings(alloc: Global) -> Call {
    Call {
        words: Vec::new(alloc),
        reads: None,
        room: 65_536,
        failing_reads: Vec::new(alloc),
        failing_writes: Vec::new(alloc),
        slots: Slots::new(alloc),
    }
}

fn source(alloc: Global, call: &Call, script: &[u8], reads: usize) -> Option<MemSource> {
    let bytes = Vec::from_slice(alloc, script).ok()?;
    let failing = Vec::from_slice(alloc, &call.failing_reads).ok()?;
    Some(MemSource::new(bytes, reads.max(1), failing))
}

fn sink(alloc: Global, call: &Call) -> Option<MemSink> {
    let failing = Vec::from_slice(alloc, &call.failing_writes).ok()?;
    MemSink::with_room(alloc, call.room, call.room.max(1), failing).ok()
}

/// Runs the script that a source gives over slots, and says the status and what was written.
pub fn run_over(
    call: &Call,
    mut source: MemSource,
    watchers: &mut Vec<Option<Box<dyn Watcher>>>,
    answer: &mut Answer,
) -> Option<()>
    requires open { AreOpen (slots_by (λ b. seen b) watchers.old.items) }
    requires few { length watchers.old.items ≤ slots_limit }
{
    let mut sink = sink(answer.alloc, call)?;
    let mut refused = Refused::new();
    let status = run_shell(
        answer.alloc,
        &call.words,
        &mut source,
        &mut sink,
        watchers,
        &mut refused,
    );
    answer.debug(&status);
    answer.say(" ");
    answer.quoted(sink.bytes());
    if !refused.numbers().is_empty() {
        answer.say(" refused");
    }
    Some(())
}

// Runs a script over the slots that are said.
fn run(call: &Call, script: &[u8], reads: usize, answer: &mut Answer) -> Option<()> {
    let source = source(answer.alloc, call, script, reads)?;
    run_with(&call.slots, Subject::Script(call, source), answer)
}

/// Runs the script of an example, and says the lines of its watchers too.
pub fn run_example(script: &[u8], answer: &mut Answer) -> Option<()> {
    let call = no_settings(answer.alloc);
    let source = source(answer.alloc, &call, script, 4096)?;
    run_as_program(&call, source, answer)
}

/// Runs the script of a line.
pub fn script_answer(line: &mut Cursor<'_>, answer: &mut Answer) -> Option<()> {
    let mut call = no_settings(line.alloc);
    take_settings(line, &mut call)?;
    run_script(line, &call, answer)
}

fn run_script(line: &mut Cursor<'_>, call: &Call, answer: &mut Answer) -> Option<()> {
    let script = line.text()?;
    match call.reads {
        Some(reads) => run(call, &script, reads, answer),
        None => run_twice(call, &script, answer),
    }
}

// What a script comes to, and what it comes to byte by byte where that differs.
fn run_twice(call: &Call, script: &[u8], answer: &mut Answer) -> Option<()> {
    run(call, script, 4096, answer)?;
    let mut other = Answer::new(answer.alloc);
    run(call, script, 1, &mut other)?;
    answer.otherwise(", but read byte by byte ", &other);
    Some(())
}

const STATUSES: &[(&str, Status)] = &[
    ("Done", Status::Done),
    ("ScriptFault", Status::ScriptFault),
    ("Usage", Status::Usage),
    ("SourceFault", Status::SourceFault),
    ("SinkFault", Status::SinkFault),
    ("WatcherFault", Status::WatcherFault),
    ("NoMemory", Status::NoMemory),
];

/// The number of a line's status.
pub fn status_answer(line: &mut Cursor<'_>, answer: &mut Answer) -> Option<()> {
    answer.show(&line.named(STATUSES)?.number());
    Some(())
}
