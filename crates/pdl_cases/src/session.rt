//! `session [slots=ROOMS] [fail-call=SLOT,N ..] SCRIPT => LIVE`: how many arrays a session has after the
//! statements of a script. A statement that is refused has its fault said before; one at which a watcher
//! fails ends the session. With slots, what their watchers were told (`watchers.rt`).
ghost use Rattle.std.specs.Prelude.{◌≡◌, ◌≤◌, ◌<◌, length, true};
ghost use Rattle.pdl_syntax.specs.StatementTree.{statement_of};
ghost use Rattle.pdl_syntax.specs.WellMade.{IsWellMade};
ghost use Rattle.pdl_scope.specs.Scope.{slots_limit};
ghost use Rattle.pdl_session.specs.Watching.{AreServed};
ghost use Rattle.pdl_watch.specs.Slots.{AreOpen, slots_by};

use crate::answer::Answer;
use crate::cursor::Cursor;
use crate::statement::{read, refused};
use crate::watchers::{Slots, Subject, run_with};
use pdl_buf::{Steps, new_steps};
use pdl_lex::{Piece, cut_parts};
use pdl_machine::fault_text;
use pdl_session::{Session, StepFault};
use pdl_syntax::Statement;
use pdl_watch::Watcher;
use std::marker::Brand;
use std::sync::ledger::{Blank, Ledger};

// What stands between faults.
const BETWEEN: &str = "; ";

fn say_fault(answer: &mut Answer, fault: &str) {
    answer.next(BETWEEN);
    answer.say(fault);
}

// Runs a statement, and says its fault. Answers whether the session goes on.
#[tactic(auto, using(crate::proofs::SlotsServed::served_still))]
fn step<L: Ledger, M: Ledger>(
    session: &mut Session,
    statement: &Statement,
    number: u64,
    watchers: &mut Vec<Option<Box<dyn Watcher>>>,
    steps: &mut Steps<L>,
    runs: &mut Steps<M>,
    answer: &mut Answer,
) -> bool
    requires made { IsWellMade (statement_of statement.now) }
    requires served { AreServed session.old.state.watches
        (slots_by (λ b. seen b) watchers.old.items) }
    ensures { result ≡ true →
        AreServed session.new.state.watches (slots_by (λ b. seen b) watchers.new.items) }
{
    let mut printed = Vec::new(answer.alloc);
    match session.step(statement, number, &mut printed, watchers, steps, runs) {
        Ok(()) => true,
        Err(StepFault::Script(fault)) => {
            say_fault(answer, fault_text(fault));
            true
        }
        Err(StepFault::Watcher) => {
            say_fault(answer, "a watcher failed");
            false
        }
        Err(StepFault::NoMemory) => {
            answer.lacks();
            false
        }
    }
}

// Runs the statement of a text, and says its fault. Answers whether the session goes on.
fn run_text<L: Ledger, M: Ledger>(
    session: &mut Session,
    text: &[u8],
    number: u64,
    watchers: &mut Vec<Option<Box<dyn Watcher>>>,
    steps: &mut Steps<L>,
    runs: &mut Steps<M>,
    answer: &mut Answer,
) -> bool
    requires small { length text.now ≤ 65536 }
    requires served { AreServed session.old.state.watches
        (slots_by (λ b. seen b) watchers.old.items) }
    ensures { result ≡ true →
        AreServed session.new.state.watches (slots_by (λ b. seen b) watchers.new.items) }
{
    match read(answer.alloc, text) {
        Ok(statement) => step(session, &statement, number, watchers, steps, runs, answer),
        Err(fault) => {
            say_fault(answer, refused(fault));
            true
        }
    }
}

fn run_piece<L: Ledger, M: Ledger>(
    session: &mut Session,
    piece: &Piece,
    number: u64,
    watchers: &mut Vec<Option<Box<dyn Watcher>>>,
    steps: &mut Steps<L>,
    runs: &mut Steps<M>,
    answer: &mut Answer,
) -> bool
    requires { AreServed session.old.state.watches (slots_by (λ b. seen b) watchers.old.items) }
    ensures { result ≡ true →
        AreServed session.new.state.watches (slots_by (λ b. seen b) watchers.new.items) }
{
    match piece {
        Piece::Whole(cut) => {
            let text = cut.text.bytes();
            run_text(session, text, number, watchers, steps, runs, answer)
        }
        Piece::TooLong { .. } => {
            say_fault(answer, "too long");
            true
        }
    }
}

// Runs the statements, and says how many arrays there are then.
#[tactic(auto, using(crate::proofs::SlotsServed::served_first))]
fn run_pieces<L: Ledger, M: Ledger>(
    pieces: &[Piece],
    watchers: &mut Vec<Option<Box<dyn Watcher>>>,
    answer: &mut Answer,
    blank: Blank,
    runs: Blank,
)
    requires open { AreOpen (slots_by (λ b. seen b) watchers.old.items) }
    requires few { length watchers.old.items ≤ slots_limit }
    requires name { blank.name ≡ L.name }
    requires parts { blank.parts ≡ L.parts }
    requires some { 0 < blank.parts }
    requires runs_name { runs.name ≡ M.name }
    requires runs_parts { runs.parts ≡ M.parts }
    requires runs_some { 0 < runs.parts }
{
    let mut session = Session::new(answer.alloc);
    let mut steps = new_steps::<L>(blank);
    let mut runs = new_steps::<M>(runs);
    for (index, piece) in pieces.iter().enumerate() {
        let number = (index as u64).saturating_add(1);
        let goes_on = run_piece(
            &mut session,
            piece,
            number,
            watchers,
            &mut steps,
            &mut runs,
            answer,
        );
        if !goes_on {
            return;
        }
    }
    answer.next(BETWEEN);
    answer.show(&session.live());
}

/// Runs the statements of a session over slots.
pub fn run_over(
    pieces: &[Piece],
    watchers: &mut Vec<Option<Box<dyn Watcher>>>,
    answer: &mut Answer,
) -> Option<()>
    requires open { AreOpen (slots_by (λ b. seen b) watchers.old.items) }
    requires few { length watchers.old.items ≤ slots_limit }
{
    run_pieces::<Brand, Brand>(pieces, watchers, answer, Blank::new(1), Blank::new(1));
    Some(())
}

#[derive(Clone, Copy)]
enum Setting {
    Slots,
    FailCall,
}

const SETTINGS: &[(&str, Setting)] = &[("slots", Setting::Slots), ("fail-call", Setting::FailCall)];

fn take_settings(line: &mut Cursor<'_>, slots: &mut Slots) -> Option<()> {
    for _ in 0..100 {
        match line.setting(SETTINGS) {
            Some(Setting::Slots) => slots.take_rooms(line)?,
            Some(Setting::FailCall) => slots.take_failing(line)?,
            None => return Some(()),
        }
    }
    None
}

/// Runs the script of a line.
pub fn session_answer(line: &mut Cursor<'_>, answer: &mut Answer) -> Option<()> {
    let mut slots = Slots::new(line.alloc);
    take_settings(line, &mut slots)?;
    let script = line.short_text()?;
    match cut_parts(answer.alloc, &[&script]) {
        Ok(pieces) => run_with(&slots, Subject::Session(&pieces), answer),
        Err(_) => None,
    }
}
