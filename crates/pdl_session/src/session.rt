//! A session.
ghost use Rattle.std.specs.Prelude.{◌≡◌, ◌+◌, ◌≤◌, if◌then◌else◌, is_ok, length, min, IfErr, IfOk, OnOk, OnErr};
ghost use Rattle.pdl_syntax.specs.StatementTree.{statement_of};
ghost use Rattle.pdl_syntax.specs.WellMade.{IsWellMade};
ghost use Rattle.pdl_watch.specs.Slots.{slots_by, present_in, all_ended, EndedShort};
ghost use Rattle.pdl_engine.specs.State.{IsLazy};
ghost use Rattle.pdl_machine.specs.Dumpable.{IsDumpable};
ghost use Rattle.pdl_machine.specs.Following.{AreFlows};
ghost use Rattle.pdl_machine.specs.Tidy.{tidy};
ghost use Rattle.pdl_scope.specs.Scope.{engine_of, machine, slots_limit};
ghost use Rattle.pdl_session.specs.Advanced.{Advances};
ghost use Rattle.pdl_session.specs.Dumping.{DumpMakesAgain};
ghost use Rattle.pdl_session.specs.Session.{no_steps, IsAtRest};
ghost use Rattle.pdl_session.specs.Steps.{HasStepped, moment};
ghost use Rattle.pdl_session.specs.Watching.{AreServed};

use crate::fault::{StepFault, WatcherFailed};
use crate::news::News;
use crate::statement::run;
use crate::watching::{finish, hear};
use pdl_buf::Steps;
use pdl_engine::ArrayId;
use pdl_machine::{dump_law, dumpable_laws, flow_laws, numbering_laws, watching_laws};
use pdl_rebuild::dumps_rebuild;
use pdl_reread::dumps_are_reread;
use pdl_scope::{Scope, ScopeFault, cost_laws};
use pdl_syntax::Statement;
use pdl_watch::{Watcher, slot_laws};
use pdl_world::{assignment_laws, growth_laws, sweep_laws};
use std::alloc::Global;
use std::marker::Model;
use std::sync::ledger::Ledger;

/// The names, arrays and attached slots of a script, between two statements. It is seen as the
/// state of the eager machine, which is the names, the slots and the flows with the arrays that
/// these need, numbered anew; as its scope, in which arrays have the engine's numbers; as the array
/// that the last statement assigned to by a bare name, if it did; and as how many calls of `step`
/// there were. No other array is kept. The watchers are the caller's.
#[derive(Drop)]
pub struct Session {
    scope: Scope,
    /// The array that the last statement assigned to by a bare name, if it did. The bounds of what
    /// statements move speak of it.
    warm: Option<ArrayId>,
    calls: u64,
}

impl Model for Session {
    ghost use Rattle.std.specs.Coded.{codes};
    ghost use Rattle.pdl_machine.specs.Tidy.{tidy};
    ghost use Rattle.pdl_flow.specs.Coding.{coded_formula};
    ghost use Rattle.pdl_scope.specs.Scope.{machine};
    ghost use Rattle.pdl_session.specs.Session.{IsAtRest, Session as Seen};

    ghost Value = { Seen };

    ghost coded = { Prim.hlevel (codes, coded_formula) };

    ghost view = { λ s. record {
      state = tidy (machine s.scope);
      scope = s.scope;
      warm = s.warm;
      done = s.calls;
    } };

    ghost invariant = { λ s. IsAtRest s.scope s.warm };
}

impl Session {
    /// No names, no arrays, no slot attached, and no flows.
    pub fn new(alloc: Global) -> Session
        ensures { result ≡ no_steps }
    {
        dumpable_laws();
        Session {
            scope: Scope::new(alloc),
            warm: None,
            calls: 0,
        }
    }

    /// What a session keeps between two statements: its state is its scope's, numbered anew; no
    /// array is left over; a script can spell the state; the array that was assigned to last can be
    /// lent, if its base has no repeats; views are lazy; and the root of each flow shows what its
    /// formula is (`flows`). The call does nothing when it runs.
    pub fn at_rest(&self)
        ensures state { self.now.state ≡ tidy (machine self.now.scope) }
        ensures rest { IsAtRest self.now.scope self.now.warm }
        ensures lazy { IsLazy (engine_of self.now.scope) }
        ensures flows { AreFlows self.now.state.arrays self.now.state.flows }
    {
        flow_laws();
        self.scope.whole();
        self.scope.lazy_law()
    }

    /// The state of every session is one that its dump makes again. Where the dump isn't refused,
    /// its text reads as statements, none of them as a fault, also where more of a script stands
    /// behind it; and from the state that has only the session's slots these lead to this very
    /// state (`again`). The call does nothing when it runs.
    pub fn dumpable(&self)
        ensures state { IsDumpable self.now.state }
        ensures again { DumpMakesAgain self.now.state }
    {
        dumpable_laws();
        dumps_are_reread();
        dumps_rebuild();
        self.scope.whole()
    }

    /// How many arrays there are: just those that names and attached slots reach, and those that
    /// the flows need whose roots are reached.
    pub fn live(&self) -> u64
        ensures { result ≡ length self.now.state.arrays.world }
    {
        self.scope.live()
    }

    /// Runs the statement of this number, adds the text that it prints to `out`, and tells the
    /// watchers of slots what changed of the arrays that these are attached to, slot after slot.
    /// `watch` attaches the watcher of a slot that has one; `unwatch` finishes the watcher of its
    /// slot and drops it. A refusal by a fault or by being out of memory leaves the state, `out`
    /// and the watchers as they were: nobody is told before all memory is taken; and each array
    /// that could be lent can be lent still. After a watcher's failure the session may only be
    /// dropped. Each call is counted, a refused one too. `steps`
    /// counts the elements that are moved. An assignment of a number or a list to the bare name of
    /// the array that was assigned to last moves at most the elements of both, where no slot is
    /// attached and the array's base has no repeats; a print of a bare name moves what is outdated
    /// or waits, and nothing where the array can be lent. So it is also where the statement is
    /// refused. What any other statement moves is bounded by its form (`bounded`). By `dump` the dump
    /// of the state is printed, which makes the state again (`dumps`).
    ///
    /// What is so after it is one record (`HasStepped`), by whose fields these sentences are named.
    /// After each statement the root of each flow shows what its formula is (`flows`). `runs`
    /// counts the formulas that are evaluated: by an assignment at most one for each flow that
    /// reads, directly or through flows, an array of the root that it assigns to; by `flow` at most
    /// its own; by any other statement, and by one that the script refuses, none (`flowing`, `unrun`).
    pub fn step<L: Ledger, M: Ledger>(
        &mut self,
        statement: &Statement,
        number: u64,
        out: &mut Vec<u8>,
        watchers: &mut Vec<Option<Box<dyn Watcher>>>,
        steps: &mut Steps<L>,
        runs: &mut Steps<M>,
    ) -> Result<(), StepFault>
        requires made { IsWellMade (statement_of statement.now) }
        requires served { let slots = slots_by (λ b. seen b) watchers.old.items in
            AreServed self.old.state.watches slots }
        ensures { let before = slots_by (λ b. seen b) watchers.old.items in
            let after = slots_by (λ b. seen b) watchers.new.items in
            let old = moment self.old out.old.items before steps.old runs.old in
            let new = moment self.new out.new.items after steps.new runs.new in
            HasStepped number (statement_of statement.now) old new result }
    {
        self.step_over(statement, number, out, watchers, steps, runs)
    }

    /// The same over watchers of any kind.
    pub fn step_over<W: Watcher, L: Ledger, M: Ledger>(
        &mut self,
        statement: &Statement,
        number: u64,
        out: &mut Vec<u8>,
        watchers: &mut Vec<Option<W>>,
        steps: &mut Steps<L>,
        runs: &mut Steps<M>,
    ) -> Result<(), StepFault>
        requires made { IsWellMade (statement_of statement.now) }
        requires served { AreServed self.old.state.watches (slots_by W.seen watchers.old.items) }
        ensures { let before = slots_by W.seen watchers.old.items in
            let after = slots_by W.seen watchers.new.items in
            let old = moment self.old out.old.items before steps.old runs.old in
            let new = moment self.new out.new.items after steps.new runs.new in
            HasStepped number (statement_of statement.now) old new result }
    {
        dump_law();
        slot_laws();
        watching_laws();
        self.at_rest();
        self.dumpable();
        match self.advance(statement, number, watchers, out, steps, runs) {
            Ok(news) => match hear(watchers, &news) {
                Ok(()) => Ok(()),
                Err(_) => Err(StepFault::Watcher),
            },
            Err(fault) => Err(StepFault::from(fault)),
        }
    }

    /// Runs the statement of this number, and answers what watchers are to hear of it.
    fn advance<W: Watcher, L: Ledger, M: Ledger>(
        &mut self,
        statement: &Statement,
        number: u64,
        watchers: &Vec<Option<W>>,
        out: &mut Vec<u8>,
        steps: &mut Steps<L>,
        runs: &mut Steps<M>,
    ) -> Result<News, ScopeFault>
        requires made { IsWellMade (statement_of statement.now) }
        requires few { length watchers.now.items ≤ slots_limit }
        ensures { let slots = slots_by W.seen watchers.now.items in
            let old = moment self.old out.old.items slots steps.old runs.old in
            let new = moment self.new out.new.items slots steps.new runs.new in
            Advances number (statement_of statement.now) old new result }
    {
        numbering_laws();
        dumpable_laws();
        watching_laws();
        growth_laws();
        assignment_laws();
        sweep_laws();
        flow_laws();
        cost_laws();
        self.calls = self.calls.saturating_add(1);
        self.scope.in_order();
        let mut assigned = None;
        let scope = &mut self.scope;
        let ran = run(
            scope,
            statement,
            number,
            watchers,
            &mut assigned,
            out,
            steps,
            runs,
        );
        self.scope.in_order();
        self.scope.let_go(steps);
        self.scope.whole();
        self.warm = warm_then(&ran, assigned, self.warm);
        ran
    }

    /// Finishes the watchers of the attached slots, in rising order of slots, until one fails. It
    /// takes no memory.
    pub fn close(
        &mut self,
        watchers: &mut Vec<Option<Box<dyn Watcher>>>,
    ) -> Result<(), WatcherFailed>
        requires { let slots = slots_by (λ b. seen b) watchers.old.items in
            AreServed self.old.state.watches slots }
        ensures ok { let slots = slots_by (λ b. seen b) watchers.old.items in
            OnOk result (slots_by (λ b. seen b) watchers.new.items
            ≡ all_ended slots self.old.state.watches) }
        ensures short { let slots = slots_by (λ b. seen b) watchers.old.items in
            OnErr result (EndedShort slots self.old.state.watches
            (slots_by (λ b. seen b) watchers.new.items)) }
        ensures same { self.new ≡ self.old }
    {
        self.close_over(watchers)
    }

    /// The same over watchers of any kind.
    pub fn close_over<W: Watcher>(
        &mut self,
        watchers: &mut Vec<Option<W>>,
    ) -> Result<(), WatcherFailed>
        requires { AreServed self.old.state.watches (slots_by W.seen watchers.old.items) }
        ensures ok { let slots = slots_by W.seen watchers.old.items in
            OnOk result (slots_by W.seen watchers.new.items
            ≡ all_ended slots self.old.state.watches) }
        ensures short { let slots = slots_by W.seen watchers.old.items in
            OnErr result (EndedShort slots self.old.state.watches
            (slots_by W.seen watchers.new.items)) }
        ensures same { self.new ≡ self.old }
    {
        finish(watchers, self.scope.watches())
    }
}

/// What is warm once a statement has run: what it assigned to, or what was warm before where it was
/// refused.
fn warm_then(
    ran: &Result<News, ScopeFault>,
    assigned: Option<ArrayId>,
    before: Option<ArrayId>,
) -> Option<ArrayId>
    ensures { result ≡ if is_ok ran.now then assigned else before }
{
    if ran.is_ok() { assigned } else { before }
}
