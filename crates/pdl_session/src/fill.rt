//! New arrays by their sizes.
ghost use Rattle.std.specs.Prelude.{◌≡◌, ◌≤◌, ◌+◌, IfOk};
ghost use Rattle.pdl_machine.specs.Arrays.{Arrays};
ghost use Rattle.pdl_machine.specs.Fills.{fill_outcome, type_given, after_type};
ghost use Rattle.pdl_world.specs.World.{World};
ghost use Rattle.pdl_scope.specs.Answers.{AnswersAs};
ghost use Rattle.pdl_session.specs.Costs.{read_all};
ghost use Rattle.pdl_session.specs.Arguments.{all_seen_of, AreGivenLive, outcome_of, IsOutcomeMade};
ghost use Rattle.pdl_scope.specs.Scope.{OnlyReads, Scope as Seen};

use crate::dims::{dims_for, numbers_in};
use crate::given::Given;
use crate::outcome::Outcome;
use pdl_buf::Steps;
use pdl_elem::Ty;
use pdl_ops::{Fill, fill};
use pdl_scope::{Scope, ScopeFault};
use std::sync::ledger::Ledger;

/// A fill of an optional type word, else long, and a size per dimension.
pub fn filled<L: Ledger>(
    scope: &mut Scope,
    kind: Fill,
    given: &[Given],
    steps: &mut Steps<L>,
) -> Result<Outcome, ScopeFault>
    requires { AreGivenLive scope.old.arrays.world given.now }
    ensures value { let wanted = fill_outcome kind (all_seen_of scope.old.arrays given.now) in
        AnswersAs outcome_of wanted result }
    ensures made { IfOk result IsOutcomeMade }
    ensures same { OnlyReads scope.old scope.new }
    ensures counted { steps.new ≤ steps.old + read_all scope.old given.now }
{
    let (ty, sizes) = typed(given);
    let sizes = match numbers_in(scope, sizes, steps) {
        Ok(sizes) => sizes,
        Err(fault) => return Err(fault),
    };
    let dims = match dims_for(scope.alloc(), &sizes) {
        Ok(dims) => dims,
        Err(fault) => return Err(fault),
    };
    match fill(scope.alloc(), kind, ty, &dims) {
        Ok(made) => Ok(Outcome::New(made)),
        Err(_) => Err(ScopeFault::NoMemory),
    }
}

/// The type that arguments begin with, else long; and the arguments after it.
fn typed<'a, 'b>(given: &'a [Given<'b>]) -> (Ty, &'a [Given<'b>])
    ensures ty { (a : Arrays) → result.0 ≡ type_given (all_seen_of a given.now) }
    ensures rest { (a : Arrays) →
        all_seen_of a result.1.now ≡ after_type (all_seen_of a given.now) }
    ensures live { (w : World) → AreGivenLive w given.now → AreGivenLive w result.1.now }
    ensures costs { (s : Seen) → read_all s result.1.now ≤ read_all s given.now }
{
    match given.split_first() {
        Some((Given::OfType(ty), rest)) => (*ty, rest),
        _ => (Ty::Long, given),
    }
}
