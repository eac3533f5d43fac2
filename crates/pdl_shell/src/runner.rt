//! Carries a run on over bytes of the script.
use crate::laws::course_laws;
use crate::line::{Line, report};
use crate::mark::Mark;
use crate::output::{flush, write_text};
use crate::parsing::Rooms;
use crate::refused::Refused;
use crate::statement::run_mark;
use crate::stop::Stop;
use pdl_buf::Steps;
use pdl_io::{Sink, count_one};
use pdl_lex::StatementCutter;
use pdl_machine::{Fault, fault_text};
use pdl_session::{Session, StepFault};
use pdl_watch::Watcher;
use std::alloc::Global;
use std::sync::ledger::Ledger;

// Why a statement wasn't run that memory refused.
const OUT_OF_MEMORY: &str = "out of memory";

// A run on its way.
#[derive(Drop)]
pub(crate) struct Runner {
    alloc: Global,
    cutter: StatementCutter,
    session: Session,
    rooms: Rooms,
    // What the statement printed that was run last.
    text: Vec<u8>,
    keep_going: bool,
    faulted: bool,
    // The statements that memory refused.
    refused: Refused,
    // Whether a statement that wasn't run has ended the run.
    ended: bool,
    // How many statements there were, a count that stays at 2^64 - 1.
    count: u64,
}

impl Runner {
    ghost use Rattle.std.specs.Prelude.{◌≡◌, ℕ, ◌+◌, ◌<◌, ◌≤◌, ◌^◌, ◌||◌, [], ◌∷◌, ◌++◌, true, false, length, nat_lt, nat_le, drop, map, option_to_list, if◌then◌else◌, OnOk, OnErr, IfOk, IfErr};
    ghost use Rattle.pdl_io.specs.Counts.{next_count};
    ghost use Rattle.pdl_io.specs.Told.{Says, KeepsTelling};
    ghost use Rattle.pdl_lex.specs.Pieces.{settled_from};
    ghost use Rattle.pdl_watch.specs.Slots.{slots_by};
    ghost use Rattle.pdl_machine.specs.Run.{fault_line, memory_line, line_of, fault_ends, refused_limit};
    ghost use Rattle.pdl_session.specs.Watching.{AreServed};
    ghost use Rattle.pdl_shell.specs.Outside.{outlets};
    ghost use Rattle.pdl_shell.specs.Marks.{mark_of};
    ghost use Rattle.pdl_shell.specs.Pace.{behind, marks_left};
    ghost use Rattle.pdl_shell.specs.Course.{IsFresh, shown, Answers, AnswersShort, Runs, RunsShort, Carries, StopsShort, Finishes, FinishesShort, Ends};

    // A run before its first statement.
    pub(crate) fn new(alloc: Global, keep_going: bool) -> Runner
        ensures ready { (result.cutter.failed ≡ false) × (result.cutter.taken ≡ 0) }
        ensures keep { result.keep_going ≡ keep_going }
        ensures fresh { IsFresh result }
    {
        Runner {
            alloc,
            cutter: StatementCutter::new(alloc),
            session: Session::new(alloc),
            rooms: Rooms::new(alloc),
            text: Vec::new(alloc),
            keep_going,
            faulted: false,
            refused: Refused::new(),
            ended: false,
            count: 0,
        }
    }

    // The statements that memory refused.
    pub(crate) fn refused(&self) -> &Refused
        ensures { result.now ≡ self.now.refused }
    {
        &self.refused
    }

    // Notes the fault of a statement, and makes its line.
    fn fault(&mut self, mark: &Mark, fault: Fault) -> Line
        ensures line { result ≡ fault_line (line_of (mark_of mark.now)) fault }
        ensures rest { self.new ≡ record self.old {
          faulted = true;
          ended = fault_ends self.old.keep_going (mark_of mark.now);
        } }
    {
        self.faulted = true;
        self.ended = mark.fault_ends(self.keep_going);
        report(mark.line(), fault_text(fault))
    }

    // Notes that memory refused the statement that was counted last, and makes its line.
    fn refuse(&mut self, mark: &Mark) -> Line
        ensures line { result ≡ memory_line (line_of (mark_of mark.now)) }
        ensures rest { let refused = if nat_lt (length self.old.refused) refused_limit
            then self.old.refused ++ self.old.count ∷ [] else self.old.refused in
            self.new ≡ record self.old {
              refused = refused;
              ended = fault_ends self.old.keep_going (mark_of mark.now)
                  || nat_le refused_limit (length refused);
            } }
    {
        self.refused.add(self.count);
        self.ended = mark.fault_ends(self.keep_going) || self.refused.is_full();
        report(mark.line(), OUT_OF_MEMORY)
    }

    // Whether a statement that wasn't run has ended the run.
    pub(crate) fn is_ended(&self) -> bool
        ensures { result ≡ self.now.ended }
    {
        self.ended
    }

    // Runs a statement, and leaves in `text` what it prints. Where it wasn't run, by its fault or
    // for lack of memory, the line that says so is answered.
    fn answer<W: Watcher, L: Ledger, M: Ledger>(
        &mut self,
        mark: &Mark,
        watchers: &mut Vec<Option<W>>,
        steps: &mut Steps<L>,
        runs: &mut Steps<M>,
    ) -> Result<Option<Line>, Stop>
        requires running { self.old.ended ≡ false }
        requires counted { self.old.count < 2 ^ 63 }
        requires served { AreServed self.old.session.state.watches
            (slots_by W.seen watchers.old.items) }
        ensures cutter { self.new.cutter ≡ self.old.cutter }
        ensures count { self.new.count ≡ self.old.count + 1 }
        ensures ran { IfOk result (λ line. Answers (mark_of mark.now)
            self.old (slots_by W.seen watchers.old.items)
            self.new (slots_by W.seen watchers.new.items) (shown line self.new.text.items)) }
        ensures short { IfErr result (λ stop. AnswersShort (mark_of mark.now)
            self.old (slots_by W.seen watchers.old.items)
            stop self.new (slots_by W.seen watchers.new.items)) }
        ensures served { OnOk result (AreServed self.new.session.state.watches
            (slots_by W.seen watchers.new.items)) }
    {
        course_laws();
        count_one(&mut self.count);
        let ran = run_mark(
            self.alloc,
            &mut self.session,
            mark,
            self.count,
            &mut self.rooms,
            &mut self.text,
            watchers,
            steps,
            runs,
        );
        match ran {
            Ok(()) => Ok(None),
            Err(StepFault::Script(fault)) => Ok(Some(self.fault(mark, fault))),
            Err(StepFault::NoMemory) => Ok(Some(self.refuse(mark))),
            Err(StepFault::Watcher) => Err(Stop::Watcher),
        }
    }

    // Runs a statement, and writes what it prints, or the line that says why it wasn't run.
    fn run<K: Sink, W: Watcher, L: Ledger, M: Ledger>(
        &mut self,
        mark: &Mark,
        sink: &mut K,
        watchers: &mut Vec<Option<W>>,
        steps: &mut Steps<L>,
        runs: &mut Steps<M>,
    ) -> Result<(), Stop>
        requires running { self.old.ended ≡ false }
        requires counted { self.old.count < 2 ^ 63 }
        requires served { AreServed self.old.session.state.watches
            (slots_by W.seen watchers.old.items) }
        ensures cutter { self.new.cutter ≡ self.old.cutter }
        ensures count { self.new.count ≡ self.old.count + 1 }
        ensures ran { OnOk result (Runs (mark_of mark.now) self.old
            (outlets K.taken K.is_flushed K.faults sink.old (slots_by W.seen watchers.old.items))
            self.new
            (outlets K.taken K.is_flushed K.faults sink.new (slots_by W.seen watchers.new.items))) }
        ensures short { IfErr result (λ stop. RunsShort (mark_of mark.now) self.old
            (outlets K.taken K.is_flushed K.faults sink.old (slots_by W.seen watchers.old.items))
            stop self.new
            (outlets K.taken K.is_flushed K.faults sink.new (slots_by W.seen watchers.new.items))) }
        ensures served { OnOk result (AreServed self.new.session.state.watches
            (slots_by W.seen watchers.new.items)) }
        ensures tells { KeepsTelling (K.is_flushed sink.old) (K.is_flushed sink.new) }
    {
        course_laws();
        let reported = self.answer(mark, watchers, steps, runs)?;
        match reported {
            None => write_text(sink, &self.text),
            Some(line) => line.write(sink),
        }
    }

    // Keeps the room of a statement's text that was run for one that comes.
    fn keep_room(&mut self, mark: Mark)
        ensures { self.new ≡ self.old }
    {
        if let Mark::Statement(piece) = mark {
            self.cutter.reuse(piece);
        }
    }

    // Feeds bytes to the cutter once, runs the piece that they complete, if
    // any, and answers how many bytes were taken.
    fn round<K: Sink, W: Watcher, L: Ledger, M: Ledger>(
        &mut self,
        bytes: &[u8],
        sink: &mut K,
        watchers: &mut Vec<Option<W>>,
        steps: &mut Steps<L>,
        runs: &mut Steps<M>,
    ) -> Result<usize, Stop>
        requires running { self.old.ended ≡ false }
        requires room { self.old.cutter.taken + length bytes.now < 2 ^ 63 }
        requires some { 0 < length bytes.now }
        requires counted { self.old.count ≤ self.old.cutter.taken }
        requires served { AreServed self.old.session.state.watches
            (slots_by W.seen watchers.old.items) }
        ensures used { IfOk result (λ used. (0 < used) × (used ≤ length bytes.now)) }
        ensures carries { IfOk result (λ used. Carries bytes.now self.old
            (outlets K.taken K.is_flushed K.faults sink.old (slots_by W.seen watchers.old.items))
            (drop used bytes.now) self.new
            (outlets K.taken K.is_flushed K.faults sink.new (slots_by W.seen watchers.new.items))) }
        ensures stops { IfErr result (λ stop. StopsShort bytes.now self.old
            (outlets K.taken K.is_flushed K.faults sink.old (slots_by W.seen watchers.old.items))
            stop self.new
            (outlets K.taken K.is_flushed K.faults sink.new (slots_by W.seen watchers.new.items))) }
        ensures works { OnOk result (self.new.cutter.failed ≡ false) }
        ensures none_left { OnOk result (settled_from self.new.cutter [] ≡ []) }
        ensures count { IfOk result (λ used. self.new.cutter.taken ≡ self.old.cutter.taken + used) }
        ensures counted { OnOk result (self.new.count ≤ self.new.cutter.taken) }
        ensures served { OnOk result (AreServed self.new.session.state.watches
            (slots_by W.seen watchers.new.items)) }
        ensures tells { KeepsTelling (K.is_flushed sink.old) (K.is_flushed sink.new) }
    {
        course_laws();
        let fed = self.cutter.feed(bytes)?;
        let used = fed.used;
        match fed.cut {
            None => Ok(used),
            Some(piece) => {
                let mark = Mark::Statement(piece);
                self.run(&mark, sink, watchers, steps, runs)?;
                self.keep_room(mark);
                Ok(used)
            }
        }
    }

    // Takes bytes of the script, and runs each statement that they complete, until a
    // fault ends the run. No statement that is whole is left then.
    pub(crate) fn take<K: Sink, W: Watcher, L: Ledger, M: Ledger>(
        &mut self,
        bytes: &[u8],
        sink: &mut K,
        watchers: &mut Vec<Option<W>>,
        steps: &mut Steps<L>,
        runs: &mut Steps<M>,
    ) -> Result<(), Stop>
        requires works { self.old.cutter.failed ≡ false }
        requires none_left { settled_from self.old.cutter [] ≡ [] }
        requires counted { self.old.count ≤ self.old.cutter.taken }
        requires room { self.old.cutter.taken + length bytes.now < 2 ^ 63 }
        requires served { AreServed self.old.session.state.watches
            (slots_by W.seen watchers.old.items) }
        ensures carries { OnOk result (Carries bytes.now self.old
            (outlets K.taken K.is_flushed K.faults sink.old (slots_by W.seen watchers.old.items))
            [] self.new
            (outlets K.taken K.is_flushed K.faults sink.new (slots_by W.seen watchers.new.items))) }
        ensures stops { IfErr result (λ stop. StopsShort bytes.now self.old
            (outlets K.taken K.is_flushed K.faults sink.old (slots_by W.seen watchers.old.items))
            stop self.new
            (outlets K.taken K.is_flushed K.faults sink.new (slots_by W.seen watchers.new.items))) }
        ensures works { OnOk result (self.new.cutter.failed ≡ false) }
        ensures none_left { OnOk result (settled_from self.new.cutter [] ≡ []) }
        ensures count { OnOk result
            (self.new.cutter.taken ≤ self.old.cutter.taken + length bytes.now) }
        ensures counted { OnOk result (self.new.count ≤ self.new.cutter.taken) }
        ensures served { OnOk result (AreServed self.new.session.state.watches
            (slots_by W.seen watchers.new.items)) }
        ensures tells { KeepsTelling (K.is_flushed sink.old) (K.is_flushed sink.new) }
    {
        course_laws();
        let mut used = 0;
        'taking: while used < bytes.len() && !self.ended {
            used += self.round(&bytes[used..], sink, watchers, steps, runs)?;
        }
        Ok(())
    }

    // What is left to run where no bytes are: the last statement, or where the
    // script goes on past its limit, that it is too long. An unfinished statement isn't run then.
    fn last(&mut self, is_cut: bool) -> Option<Mark>
        requires { self.old.cutter.failed ≡ false }
        ensures mark { map mark_of (option_to_list result)
            ≡ marks_left (behind is_cut) self.old.cutter [] }
        ensures rest { self.new ≡ record self.old { cutter = self.new.cutter } }
    {
        let line = self.cutter.line();
        let last = self.cutter.end();
        if is_cut {
            return Some(Mark::ScriptTooLong(line));
        }
        match last {
            None => None,
            Some(piece) => Some(Mark::Statement(piece)),
        }
    }

    // Runs what is left where no bytes are.
    fn run_last<K: Sink, W: Watcher, L: Ledger, M: Ledger>(
        &mut self,
        is_cut: bool,
        sink: &mut K,
        watchers: &mut Vec<Option<W>>,
        steps: &mut Steps<L>,
        runs: &mut Steps<M>,
    ) -> Result<(), Stop>
        requires works { self.old.cutter.failed ≡ false }
        requires counted { self.old.count < 2 ^ 63 }
        requires served { AreServed self.old.session.state.watches
            (slots_by W.seen watchers.old.items) }
        ensures finishes { OnOk result (Finishes is_cut self.old
            (outlets K.taken K.is_flushed K.faults sink.old (slots_by W.seen watchers.old.items))
            self.new
            (outlets K.taken K.is_flushed K.faults sink.new (slots_by W.seen watchers.new.items))) }
        ensures stops { IfErr result (λ stop. FinishesShort is_cut self.old
            (outlets K.taken K.is_flushed K.faults sink.old (slots_by W.seen watchers.old.items))
            stop self.new
            (outlets K.taken K.is_flushed K.faults sink.new (slots_by W.seen watchers.new.items))) }
        ensures served { OnOk result (AreServed self.new.session.state.watches
            (slots_by W.seen watchers.new.items)) }
        ensures tells { KeepsTelling (K.is_flushed sink.old) (K.is_flushed sink.new) }
    {
        course_laws();
        if self.ended {
            return Ok(());
        }
        match self.last(is_cut) {
            None => Ok(()),
            Some(mark) => self.run(&mark, sink, watchers, steps, runs),
        }
    }

    // Ends the run: runs what is left, flushes the sink, finishes the watchers that are attached,
    // and answers whether a statement faulted.
    pub(crate) fn finish<K: Sink, W: Watcher, L: Ledger, M: Ledger>(
        &mut self,
        is_cut: bool,
        sink: &mut K,
        watchers: &mut Vec<Option<W>>,
        steps: &mut Steps<L>,
        runs: &mut Steps<M>,
    ) -> Result<bool, Stop>
        requires works { self.old.cutter.failed ≡ false }
        requires counted { self.old.count < 2 ^ 63 }
        requires served { AreServed self.old.session.state.watches
            (slots_by W.seen watchers.old.items) }
        ensures ends { Ends is_cut self.old
            (outlets K.taken K.is_flushed K.faults sink.old (slots_by W.seen watchers.old.items))
            result self.new.refused
            (outlets K.taken K.is_flushed K.faults sink.new (slots_by W.seen watchers.new.items)) }
        ensures flushed { OnOk result (Says (K.is_flushed sink.new) true) }
        ensures tells { KeepsTelling (K.is_flushed sink.old) (K.is_flushed sink.new) }
    {
        course_laws();
        self.run_last(is_cut, sink, watchers, steps, runs)?;
        flush(sink)?;
        self.session.close_over(watchers)?;
        Ok(self.faulted)
    }
}
