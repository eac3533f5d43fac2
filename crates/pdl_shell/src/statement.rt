//! One statement of a script: what it does to the session and prints, or why it wasn't run.
ghost use Rattle.std.specs.Prelude.{◌≡◌, ◌≤◌, [], length, Ok};
ghost use Rattle.pdl_lex.specs.Limits.{statement_limit};
ghost use Rattle.pdl_watch.specs.Slots.{slots_by, present_in};
ghost use Rattle.pdl_syntax.specs.StatementTree.{statement_of};
ghost use Rattle.pdl_syntax.specs.WellMade.{IsWellMade};
ghost use Rattle.pdl_machine.specs.Reads.{reads};
ghost use Rattle.pdl_machine.specs.Run.{step_read, mark_step};
ghost use Rattle.pdl_session.specs.Watching.{AreServed};
ghost use Rattle.pdl_shell.specs.Marks.{mark_of};
ghost use Rattle.pdl_shell.specs.Ran.{LeavesState, AreServedAfter};

use crate::mark::Mark;
use crate::parsing::{Rooms, find_tokens, of_parsing, plain_text};
use pdl_buf::Steps;
use pdl_lex::Piece;
use pdl_machine::{Fault, reads_law};
use pdl_session::{Session, StepFault};
use pdl_syntax::{Statement, parse_within};
use pdl_watch::Watcher;
use std::alloc::Global;
use std::sync::ledger::Ledger;

// Runs the statement of a text, which has this number, and puts what it prints into `out`.
fn run_text<W: Watcher, L: Ledger, M: Ledger>(
    alloc: Global,
    session: &mut Session,
    text: &[u8],
    number: u64,
    rooms: &mut Rooms,
    out: &mut Vec<u8>,
    watchers: &mut Vec<Option<W>>,
    steps: &mut Steps<L>,
    runs: &mut Steps<M>,
) -> Result<(), StepFault>
    requires within { length text.now ≤ statement_limit }
    requires empty { out.old.items ≡ [] }
    requires served { AreServed session.old.state.watches (slots_by W.seen watchers.old.items) }
    ensures ran { let slots = slots_by W.seen watchers.old.items in
        let wanted = step_read number (present_in slots) session.old.state (reads text.now) in
        LeavesState wanted session.old.state slots result session.new.state out.new.items
        (slots_by W.seen watchers.new.items) }
    ensures served { AreServedAfter result session.new.state.watches
        (slots_by W.seen watchers.new.items) }
{
    reads_law();
    let is_nice = find_tokens(text, rooms)?;
    let plain = plain_text(text, &rooms.plain, is_nice);
    // A statement is large, so it is run where it is parsed: to hand it out would copy it.
    match parse_within(alloc, plain, &rooms.tokens, &mut rooms.lexemes) {
        Ok(statement) => run_statement(session, &statement, number, out, watchers, steps, runs),
        Err(fault) => Err(of_parsing(fault)),
    }
}

// Runs a statement, which has this number, and puts what it prints into `out`.
fn run_statement<W: Watcher, L: Ledger, M: Ledger>(
    session: &mut Session,
    statement: &Statement,
    number: u64,
    out: &mut Vec<u8>,
    watchers: &mut Vec<Option<W>>,
    steps: &mut Steps<L>,
    runs: &mut Steps<M>,
) -> Result<(), StepFault>
    requires made { IsWellMade (statement_of statement.now) }
    requires empty { out.old.items ≡ [] }
    requires served { AreServed session.old.state.watches (slots_by W.seen watchers.old.items) }
    ensures ran { let slots = slots_by W.seen watchers.old.items in
        let wanted = step_read number (present_in slots) session.old.state
        (Ok (statement_of statement.now)) in
        LeavesState wanted session.old.state slots result session.new.state out.new.items
        (slots_by W.seen watchers.new.items) }
    ensures served { AreServedAfter result session.new.state.watches
        (slots_by W.seen watchers.new.items) }
{
    session.step_over(statement, number, out, watchers, steps, runs)
}

// Runs a statement of the script, which has this number, and leaves in `out` what it prints:
// nothing where it wasn't run.
pub(crate) fn run_mark<W: Watcher, L: Ledger, M: Ledger>(
    alloc: Global,
    session: &mut Session,
    mark: &Mark,
    number: u64,
    rooms: &mut Rooms,
    out: &mut Vec<u8>,
    watchers: &mut Vec<Option<W>>,
    steps: &mut Steps<L>,
    runs: &mut Steps<M>,
) -> Result<(), StepFault>
    requires served { AreServed session.old.state.watches (slots_by W.seen watchers.old.items) }
    ensures ran { let slots = slots_by W.seen watchers.old.items in
        let wanted = mark_step number (present_in slots) session.old.state (mark_of mark.now) in
        LeavesState wanted session.old.state slots result session.new.state out.new.items
        (slots_by W.seen watchers.new.items) }
    ensures served { AreServedAfter result session.new.state.watches
        (slots_by W.seen watchers.new.items) }
{
    out.clear();
    match mark {
        Mark::Statement(Piece::Whole(cut)) => run_text(
            alloc,
            session,
            cut.text.bytes(),
            number,
            rooms,
            out,
            watchers,
            steps,
            runs,
        ),
        Mark::Statement(Piece::TooLong { .. }) => Err(StepFault::Script(Fault::StatementTooLong)),
        Mark::ScriptTooLong(_) => Err(StepFault::Script(Fault::ScriptTooLong)),
    }
}
