//! `rebuilt SCRIPT then REST => same`
//!
//! What a script prints by a `dump;` at its end is its dump. The rest has to print the same behind
//! the dump, run from the start, as behind the script, and something; and the dump's own dump has to
//! be the dump. Else the answer says what came.

use crate::answer::Answer;
use crate::cursor::Cursor;
use pdl_io::{MemSink, MemSource};
use pdl_shell::{Refused, Status, run_shell};
use std::alloc::Global;

// The most bytes that a script may print here.
const ROOM: usize = 1_048_576;

// What a script comes to: its status, and the text that is written.
#[derive(Drop)]
struct Ending {
    status: Status,
    text: Vec<u8>,
}

// What a script comes to that stands in two parts.
fn run_both(alloc: Global, front: &[u8], back: &[u8]) -> Option<Ending> {
    let mut script = Vec::from_slice(alloc, front).ok()?;
    script.extend_from_slice(back).ok()?;
    run(alloc, script)
}

fn run(alloc: Global, script: Vec<u8>) -> Option<Ending> {
    let mut source = MemSource::new(script, 4096, Vec::new(alloc));
    let mut sink = MemSink::with_room(alloc, ROOM, ROOM, Vec::new(alloc)).ok()?;
    let mut watchers = Vec::new(alloc);
    let mut refused = Refused::new();
    let words = Vec::new(alloc);
    let status = run_shell(
        alloc,
        &words,
        &mut source,
        &mut sink,
        &mut watchers,
        &mut refused,
    );
    let text = Vec::from_slice(alloc, sink.bytes()).ok()?;
    Some(Ending { status, text })
}

fn is_same(text: &[u8], other: &[u8]) -> bool {
    text == other
}

// What stands behind a text that another one begins with.
fn behind<'a>(front: &[u8], whole: &'a [u8]) -> Option<&'a [u8]> {
    if front.len() > whole.len() {
        return None;
    }
    let (begin, rest) = whole.split_at(front.len());
    if is_same(begin, front) {
        Some(rest)
    } else {
        None
    }
}

// What a script comes to with statements behind it, without what it prints itself.
fn added(alloc: Global, script: &[u8], rest: &[u8]) -> Option<Ending> {
    let alone = run_both(alloc, script, b"")?;
    let more = run_both(alloc, script, rest)?;
    let text = Vec::from_slice(alloc, behind(&alone.text, &more.text)?).ok()?;
    let status = more.status;
    Some(Ending { status, text })
}

// Says what came, where it isn't this.
fn say_unless(same: bool, what: &str, came: &Ending, answer: &mut Answer) {
    if !same {
        answer.next(", ");
        answer.say(what);
        answer.debug(&came.status);
        answer.say(" ");
        answer.quoted(&came.text);
    }
}

// Says what differs between a script and its dump, with a rest behind both.
fn compare(script: &[u8], dump: &[u8], rest: &[u8], answer: &mut Answer) -> Option<()> {
    let again = run_both(answer.alloc, dump, b"dump;")?;
    let here = added(answer.alloc, script, rest)?;
    let there = run_both(answer.alloc, dump, rest)?;
    let same_dump = again.status == Status::Done && is_same(&again.text, dump);
    say_unless(same_dump, "the dump dumps ", &again, answer);
    let same_text = !there.text.is_empty() && is_same(&here.text, &there.text);
    say_unless(same_text, "behind the script ", &here, answer);
    let same = same_text && here.status == there.status;
    say_unless(same, "behind the dump ", &there, answer);
    Some(())
}

/// Whether the dump of a line's script makes the same again.
pub fn rebuilt_answer(line: &mut Cursor<'_>, answer: &mut Answer) -> Option<()> {
    let script = line.text()?;
    line.expect_word("then")?;
    let rest = line.text()?;
    let dumped = added(answer.alloc, &script, b"dump;")?;
    let same = dumped.status == Status::Done;
    say_unless(same, "no dump: ", &dumped, answer);
    if same {
        compare(&script, &dumped.text, &rest, answer)?;
    }
    if answer.text().is_empty() {
        answer.say("same");
    }
    Some(())
}
