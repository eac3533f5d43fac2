//! The slots of a case, and what becomes of them: `slots=ROOMS`, for each slot how many notices its
//! Recorder has room for, or -1 where it has no watcher; `fail-call=SLOT,N` for a call of one of them that
//! fails, numbered from 0.
//!
//! Behind the rest of the answer stands what was told, in order: `SLOT STATEMENT:POSITION BEFORE->AFTER`
//! for a notice, and `SLOT end` where a watcher was finished; and then what each slot has.
ghost use Rattle.std.specs.Prelude.{◌≡◌, ◌≤◌, false, length, None};
ghost use Rattle.pdl_watch.specs.RecorderState.{seen_in};
ghost use Rattle.pdl_watch.specs.Slots.{AreOpen, slots_by};
ghost use Rattle.pdl_scope.specs.Scope.{slots_limit};

use crate::answer::Answer;
use crate::cursor::Cursor;
use crate::script::{self, Call};
use crate::session;
use pdl_io::{Failed, MemSource, Sink};
use pdl_lex::Piece;
use pdl_scope::MOST_SLOTS;
use pdl_watch::{LineWatcher, Notice, Recorder, Watcher, are_open};
use std::alloc::Global;
use std::cell::RefCell;
use std::rc::Rc;

// What stands between two parts of an answer.
const BETWEEN: &str = "; ";

// How many slots the program `pdl` has.
const PROGRAM_SLOTS: u64 = 8;

// A call of `tell` or `finish` that fails.
#[derive(Clone, Copy)]
struct Failing {
    slot: u64,
    call: u64,
}

/// The slots that a case says.
#[derive(Drop)]
pub struct Slots {
    rooms: Vec<i64>,
    failing: Vec<Failing>,
}

impl Slots {
    /// No slots, and no call that fails.
    pub fn new(alloc: Global) -> Slots {
        Slots {
            rooms: Vec::new(alloc),
            failing: Vec::new(alloc),
        }
    }

    /// Takes the rooms of the slots.
    pub fn take_rooms(&mut self, line: &mut Cursor<'_>) -> Option<()> {
        self.rooms = line.numbers()?;
        Some(())
    }

    /// Takes a call that fails.
    pub fn take_failing(&mut self, line: &mut Cursor<'_>) -> Option<()> {
        let slot = u64::try_from(line.number()?).ok()?;
        line.expect(b',')?;
        let call = u64::try_from(line.number()?).ok()?;
        self.failing.push(Failing { slot, call }).ok()
    }

    // The calls of the watcher of this slot that fail.
    fn failing_of(&self, alloc: Global, slot: u64) -> Option<Vec<u64>> {
        let mut calls = Vec::new(alloc);
        for failing in &self.failing {
            if failing.slot == slot {
                calls.push(failing.call).ok()?;
            }
        }
        Some(calls)
    }

    // The watcher of this slot.
    fn witness(&self, slot: u64, room: usize, journal: &Journal) -> Option<Witness> {
        let failing = self.failing_of(journal.alloc, slot)?;
        Some(Witness {
            slot,
            recorder: Recorder::with_room(journal.alloc, room, failing).ok()?,
            journal: journal.shared()?,
        })
    }
}

// What the watchers of a case were told, in order. It is common to all of them, so it can be read when
// they are in boxes, or gone.
#[derive(Drop)]
struct Journal {
    alloc: Global,
    entries: Rc<RefCell<Answer>>,
}

impl Journal {
    fn new(alloc: Global) -> Option<Journal> {
        let entries = Rc::new(alloc, RefCell::new(Answer::new(alloc))).ok()?;
        Some(Journal { alloc, entries })
    }

    // The same journal, for one more watcher.
    fn shared(&self) -> Option<Journal> {
        let entries = self.entries.clone().ok()?;
        Some(Journal {
            alloc: self.alloc,
            entries,
        })
    }

    fn note_notice(&self, slot: u64, notice: &Notice) {
        if let Ok(mut entries) = self.entries.try_borrow_mut() {
            entries.tell(BETWEEN, &slot);
            entries.tell(" ", &notice.statement);
            entries.tell(":", &notice.position);
            entries.tell(" ", &notice.before);
            entries.tell("->", &notice.after);
        }
    }

    fn note_end(&self, slot: u64) {
        if let Ok(mut entries) = self.entries.try_borrow_mut() {
            entries.tell(BETWEEN, &slot);
            entries.say(" end");
        }
    }

    // Writes all of it behind an answer.
    fn say_in(&self, answer: &mut Answer) {
        match self.entries.try_borrow() {
            Ok(entries) => answer.join(&entries),
            Err(_) => answer.lacks(),
        }
    }
}

// Lines that are written to it stand there as a text of a case does.
impl Sink for Journal {
    ghost taken = { λ s. None };

    ghost is_flushed = { λ s. None };

    ghost faults = { λ s. 0 };

    fn write(&mut self, piece: &[u8]) -> Result<usize, Failed> {
        if let Ok(mut entries) = self.entries.try_borrow_mut() {
            entries.escaped(piece);
        }
        Ok(piece.len())
    }

    fn flush(&mut self) -> Result<(), Failed> {
        Ok(())
    }
}

// A Recorder that also keeps the journal.
#[derive(Drop)]
struct Witness {
    slot: u64,
    recorder: Recorder,
    journal: Journal,
}

impl Watcher for Witness {
    ghost seen = { λ w. seen_in w.recorder };

    fn tell(&mut self, notice: &Notice) -> Result<(), Failed> {
        self.recorder.tell(notice)?;
        self.journal.note_notice(self.slot, notice);
        Ok(())
    }

    fn finish(&mut self) -> Result<(), Failed> {
        self.recorder.finish()?;
        self.journal.note_end(self.slot);
        Ok(())
    }

    fn count(&self) -> u64 {
        self.recorder.count()
    }

    fn last(&self) -> Option<Notice> {
        self.recorder.last()
    }

    fn is_finished(&self) -> bool {
        self.recorder.is_finished()
    }
}

/// What is run over slots.
#[derive(Drop)]
pub enum Subject<'a> {
    /// A script that a source gives, as the program runs it.
    Script(&'a Call, MemSource),
    /// The statements of a session.
    Session(&'a [Piece]),
}

fn run(
    subject: Subject<'_>,
    watchers: &mut Vec<Option<Box<dyn Watcher>>>,
    answer: &mut Answer,
) -> Option<()>
    requires open { AreOpen (slots_by (λ b. seen b) watchers.old.items) }
    requires few { length watchers.old.items ≤ slots_limit }
{
    match subject {
        Subject::Script(call, source) => script::run_over(call, source, watchers, answer),
        Subject::Session(pieces) => session::run_over(pieces, watchers, answer),
    }
}

// What a slot has: how many notices its watcher was told, and whether it is finished.
fn say_slot(slot: &Option<Box<dyn Watcher>>, answer: &mut Answer) {
    match slot {
        Some(watcher) => {
            answer.show(&watcher.count());
            answer.say(if watcher.is_finished() {
                " finished"
            } else {
                " open"
            });
        }
        None => answer.say("empty"),
    }
}

fn say_slots(watchers: &[Option<Box<dyn Watcher>>], answer: &mut Answer) {
    let mut between = "; slots ";
    for slot in watchers {
        answer.say(between);
        say_slot(slot, answer);
        between = ", ";
    }
}

/// Makes the watchers, and runs this over them.
pub fn run_with(slots: &Slots, subject: Subject<'_>, answer: &mut Answer) -> Option<()> {
    let alloc = answer.alloc;
    let journal = Journal::new(alloc)?;
    let mut watchers: Vec<Option<Box<dyn Watcher>>> = Vec::new(alloc);
    for (slot, room) in slots.rooms.iter().enumerate() {
        watchers
            .push(match usize::try_from(*room) {
                Ok(room) => {
                    let witness = slots.witness(slot as u64, room, &journal)?;
                    Some(Box::new(alloc, witness).ok()?)
                }
                Err(_) => None,
            })
            .ok()?;
    }
    if watchers.len() > MOST_SLOTS || !are_open(&watchers) {
        return None;
    }
    run(subject, &mut watchers, answer)?;
    journal.say_in(answer);
    say_slots(&watchers, answer);
    Some(())
}

/// Runs a script over watchers that write lines, as many as the program has, and says their lines.
pub fn run_as_program(call: &Call, source: MemSource, answer: &mut Answer) -> Option<()> {
    let alloc = answer.alloc;
    let lines = Journal::new(alloc)?;
    let mut watchers: Vec<Option<Box<dyn Watcher>>> = Vec::new(alloc);
    for slot in 0..PROGRAM_SLOTS {
        let watcher = LineWatcher::new(alloc, slot, lines.shared()?).ok()?;
        watchers.push(Some(Box::new(alloc, watcher).ok()?)).ok()?;
    }
    if watchers.len() > MOST_SLOTS || !are_open(&watchers) {
        return None;
    }
    script::run_over(call, source, &mut watchers, answer)?;
    answer.say(" `");
    lines.say_in(answer);
    answer.say("`");
    Some(())
}
