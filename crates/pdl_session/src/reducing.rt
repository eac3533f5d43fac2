//! Reductions of one array, and products of two.
ghost use Rattle.std.specs.Prelude.{◌≡◌, ◌≤◌, ◌+◌, IfOk, Ok, Result};
ghost use Rattle.pdl_buf.specs.Made.{IsMade};
ghost use Rattle.pdl_buf.specs.declared.made.Made.{Made};
ghost use Rattle.pdl_reduce.specs.Reductions.{reduced, whole_reduced};
ghost use Rattle.pdl_reduce.specs.Pairings.{paired};
ghost use Rattle.pdl_machine.specs.declared.fault.Fault.{Fault};
ghost use Rattle.pdl_machine.specs.Outcome.{made};
ghost use Rattle.pdl_machine.specs.Reductions.{of_one, of_two};
ghost use Rattle.pdl_machine.specs.Then.{and_then};
ghost use Rattle.pdl_scope.specs.Answers.{Answers, AnswersAs};
ghost use Rattle.pdl_session.specs.Costs.{read_all};
ghost use Rattle.pdl_session.specs.Arguments.{all_seen_of, AreGivenLive, outcome_of, IsOutcomeMade};
ghost use Rattle.pdl_scope.specs.Scope.{OnlyReads};

use crate::given::Given;
use crate::outcome::Outcome;
use crate::shapes::{one_array, two_arrays};
use pdl_buf::{Made, Steps};
use pdl_machine::Fault;
use pdl_reduce::{Pairing, Reduction, Whole};
use pdl_scope::{Scope, ScopeFault};
use std::sync::ledger::Ledger;

/// A reduction of one array along dimension 0.
pub fn reduced<L: Ledger>(
    scope: &mut Scope,
    kind: Reduction,
    given: &[Given],
    steps: &mut Steps<L>,
) -> Result<Outcome, ScopeFault>
    requires { AreGivenLive scope.old.arrays.world given.now }
    ensures value { let seen = all_seen_of scope.old.arrays given.now in
        AnswersAs outcome_of (of_one (reduced kind) seen) result }
    ensures made { IfOk result IsOutcomeMade }
    ensures same { OnlyReads scope.old scope.new }
    ensures counted { steps.new ≤ steps.old + read_all scope.old given.now }
{
    match one_array(given) {
        Some(id) => new_array(scope.reduced(kind, id, steps)),
        None => Err(ScopeFault::Script(Fault::WrongArguments)),
    }
}

/// A reduction of all elements of one array.
pub fn reduced_whole<L: Ledger>(
    scope: &mut Scope,
    kind: Whole,
    given: &[Given],
    steps: &mut Steps<L>,
) -> Result<Outcome, ScopeFault>
    requires { AreGivenLive scope.old.arrays.world given.now }
    ensures value { let seen = all_seen_of scope.old.arrays given.now in
        AnswersAs outcome_of (of_one (whole_reduced kind) seen) result }
    ensures made { IfOk result IsOutcomeMade }
    ensures same { OnlyReads scope.old scope.new }
    ensures counted { steps.new ≤ steps.old + read_all scope.old given.now }
{
    match one_array(given) {
        Some(id) => new_array(scope.reduced_whole(kind, id, steps)),
        None => Err(ScopeFault::Script(Fault::WrongArguments)),
    }
}

/// A product of two arrays.
pub fn paired<L: Ledger>(
    scope: &mut Scope,
    kind: Pairing,
    given: &[Given],
    steps: &mut Steps<L>,
) -> Result<Outcome, ScopeFault>
    requires { AreGivenLive scope.old.arrays.world given.now }
    ensures value { let seen = all_seen_of scope.old.arrays given.now in
        AnswersAs outcome_of (of_two (paired kind) seen) result }
    ensures made { IfOk result IsOutcomeMade }
    ensures same { OnlyReads scope.old scope.new }
    ensures counted { steps.new ≤ steps.old + read_all scope.old given.now }
{
    match two_arrays(given) {
        Some((left, right)) => new_array(scope.paired(kind, left, right, steps)),
        None => Err(ScopeFault::Script(Fault::WrongArguments)),
    }
}

/// The outcome of a call that gives a new array, or the fault that came in its place.
fn new_array(found: Result<Made, ScopeFault>) -> Result<Outcome, ScopeFault>
    ensures value { (wanted : Result Made Fault) → Answers wanted found →
        AnswersAs outcome_of (and_then wanted (λ m. Ok (made m))) result }
    ensures made { IfOk found (λ m. IsMade m.ty m.dims m.elems) → IfOk result IsOutcomeMade }
{
    match found {
        Ok(made) => Ok(Outcome::New(made)),
        Err(fault) => Err(fault),
    }
}
