//! Other dimensions of an array.
ghost use Rattle.std.specs.Prelude.{◌≤◌, ◌+◌, []};
ghost use Rattle.pdl_syntax.specs.StatementTree.{reshape as reshape'};
ghost use Rattle.pdl_syntax.specs.Tree.{none};
ghost use Rattle.pdl_syntax.specs.TreeOf.{args_of};
ghost use Rattle.pdl_syntax.specs.WellMade.{AreArgArrays};
ghost use Rattle.pdl_world.specs.Sound.{IsLive};
ghost use Rattle.pdl_machine.specs.Step.{effect, reshaping};
ghost use Rattle.pdl_scope.specs.Answers.{Runs};
ghost use Rattle.pdl_engine.specs.State.{ready_steps};
ghost use Rattle.pdl_machine.specs.Cuts.{dims_given};
ghost use Rattle.pdl_scope.specs.Scope.{engine_of, machine};
ghost use Rattle.pdl_session.specs.Costs.{argued_steps, read_all};
ghost use Rattle.pdl_session.specs.Came.{sizes_came, sizes_taken};
ghost use Rattle.pdl_scope.specs.Costs.{MovesUpTo};
ghost use Rattle.pdl_session.specs.Moves.{reshape_steps, wanted_size};
ghost use Rattle.pdl_session.specs.Arguments.{arguments, AreGivenLive};

use crate::dims::{dims_for, numbers_in};
use crate::eval::take;
use crate::given::Given;
use pdl_buf::Steps;
use pdl_elem::Name;
use pdl_engine::ArrayId;
use pdl_machine::Fault;
use pdl_scope::{Scope, ScopeFault, cost_laws};
use pdl_syntax::Arg;
use std::sync::ledger::Ledger;

/// Gives the array of a name the dimensions of these sizes. Beside what the sizes take, it takes at
/// most what makes the array ready, and a step for each new element.
pub fn reshape<L: Ledger>(
    scope: &mut Scope,
    name: &Name,
    sizes: &[Arg],
    steps: &mut Steps<L>,
) -> Result<(), ScopeFault>
    requires { AreArgArrays (args_of sizes.now none) }
    ensures runs { let form = reshape' name.now (args_of sizes.now none) in
        let wanted = effect [] (machine scope.old) form in
        Runs wanted scope.old scope.new [] [] result }
    ensures within { let args = args_of sizes.now none in
        let given = sizes_taken scope.old name.now args in
        let most = argued_steps scope.old args + reshape_steps scope.old name.now given in
        let late = sizes_came scope.old name.now args in
        MovesUpTo most scope.old late steps.old steps.new }
{
    match scope.number_of(name) {
        Some(id) => {
            cost_laws();
            scope.in_order();
            let none = Vec::with_capacity(scope.alloc(), sizes.len())?;
            let given = take(scope, none, sizes, steps)?;
            scope.in_order();
            resized(scope, id, &given, steps)
        }
        None => Err(ScopeFault::Script(Fault::UnknownName)),
    }
}

/// Gives an array the dimensions of the sizes that arguments are.
fn resized<L: Ledger>(
    scope: &mut Scope,
    id: ArrayId,
    sizes: &[Given],
    steps: &mut Steps<L>,
) -> Result<(), ScopeFault>
    requires live { IsLive scope.old.arrays.world id }
    requires sizes { AreGivenLive scope.old.arrays.world sizes.now }
    ensures runs { let given = arguments sizes.now in
        let wanted = reshaping (machine scope.old) id (scope.old.arrays, given) in
        Runs wanted scope.old scope.new [] [] result }
    ensures counted { let dims = dims_given (scope.old.arrays, arguments sizes.now) in
        let most = ready_steps (engine_of scope.old) id + wanted_size dims in
        steps.new ≤ steps.old + (read_all scope.old sizes.now + most) }
{
    cost_laws();
    scope.in_order();
    let numbers = numbers_in(scope, sizes, steps)?;
    scope.in_order();
    let dims = dims_for(scope.alloc(), &numbers)?;
    scope.reshape(id, &dims, steps)
}
