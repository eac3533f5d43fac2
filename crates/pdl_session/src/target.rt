//! What an assignment writes to.
ghost use Rattle.std.specs.Prelude.{◌≡◌, ◌+◌, [], ◌∷◌, false, Ok, map, All, IfOk};
ghost use Rattle.pdl_syntax.specs.Tree.{Tree, call};
ghost use Rattle.pdl_syntax.specs.WellMade.{AreArgArrays};
ghost use Rattle.pdl_syntax.specs.StatementTree.{view_of};
ghost use Rattle.pdl_world.specs.Paths.{root_of};
ghost use Rattle.pdl_world.specs.Sound.{IsLive};
ghost use Rattle.pdl_machine.specs.Arrays.{Arrays};
ghost use Rattle.pdl_machine.specs.Flows.{is_flow};
ghost use Rattle.pdl_machine.specs.Step.{behind, target as target', target_in};
ghost use Rattle.pdl_machine.specs.Value.{value_of};
ghost use Rattle.pdl_scope.specs.Answers.{Evaluates};
ghost use Rattle.pdl_engine.specs.State.{ready_steps};
ghost use Rattle.pdl_scope.specs.Scope.{engine_of, machine, Grows};
ghost use Rattle.pdl_session.specs.Bounds.{IsBare};
ghost use Rattle.pdl_session.specs.Came.{evaluated};
ghost use Rattle.pdl_session.specs.Costs.{argued_steps, named_steps, EvaluatesWithin};
ghost use Rattle.pdl_session.specs.declared.given.Given.TheVariants.{Array};

use crate::call::call;
use crate::eval::take;
use crate::given::Given;
use pdl_buf::Steps;
use pdl_engine::ArrayId;
use pdl_machine::Fault;
use pdl_scope::{Scope, ScopeFault, cost_laws};
use pdl_syntax::{Target, ViewCall};
use std::alloc::{AllocError, Global};
use std::sync::ledger::Ledger;

/// The array that an assignment writes to, with `FlowTarget` where its root is a flow's. A bare
/// name takes no step, and any target no more than its expression.
pub fn assigned_to<L: Ledger>(
    scope: &mut Scope,
    to: &Target,
    steps: &mut Steps<L>,
) -> Result<ArrayId, ScopeFault>
    requires { All (λ v. AreArgArrays v.1) (map view_of to.now.views.items) }
    ensures value { let tree = target' to.now.name (map view_of to.now.views.items) in
        Evaluates (target_in (machine scope.old) tree) scope.new result }
    ensures unflowed { IfOk result
        (λ id. is_flow scope.new.flows (root_of scope.new.arrays.world id) ≡ false) }
    ensures grown { Grows scope.old scope.new }
    ensures within { let s = scope.old in
        let tree = target' to.now.name (map view_of to.now.views.items) in
        let late = evaluated s.names s.arrays tree in
        EvaluatesWithin (named_steps s tree) s scope.new late steps.old steps.new result }
    ensures bare { to.now.views.items ≡ [] →
        IsBare to.now.name scope.old scope.new steps.old steps.new result }
{
    let id = target(scope, to, steps)?;
    if scope.is_flowing(id) {
        return Err(ScopeFault::Script(Fault::FlowTarget));
    }
    Ok(id)
}

/// The array of a target: its views, one after another, of the array of its name. A bare name takes
/// no step, and any target no more than its expression.
#[tactic(auto, using(crate::proofs::ScopeFacts::grows_trans))]
fn target<L: Ledger>(
    scope: &mut Scope,
    target: &Target,
    steps: &mut Steps<L>,
) -> Result<ArrayId, ScopeFault>
    requires { All (λ v. AreArgArrays v.1) (map view_of target.now.views.items) }
    ensures value { let tree = target' target.now.name (map view_of target.now.views.items) in
        Evaluates (value_of scope.old.names scope.old.arrays tree) scope.new result }
    ensures grown { Grows scope.old scope.new }
    ensures within { let s = scope.old in
        let tree = target' target.now.name (map view_of target.now.views.items) in
        let late = evaluated s.names s.arrays tree in
        EvaluatesWithin (named_steps s tree) s scope.new late steps.old steps.new result }
    ensures bare { target.now.views.items ≡ [] →
        IsBare target.now.name scope.old scope.new steps.old steps.new result }
{
    cost_laws();
    scope.in_order();
    let mut id = match scope.number_of(&target.name) {
        Some(id) => id,
        None => return Err(ScopeFault::Script(Fault::UnknownName)),
    };
    for view in &target.views {
        scope.in_order();
        id = call_on(scope, id, view, steps)?;
    }
    Ok(id)
}

/// An array alone, in a list that has room for so many arguments behind it.
fn alone<'a>(alloc: Global, id: ArrayId, more: usize) -> Result<Vec<Given<'a>>, AllocError>
    ensures items { IfOk result (λ first. first.items ≡ Array id ∷ []) }
{
    let mut first = Vec::with_capacity(alloc, more.saturating_add(1))?;
    first.push(Given::Array(id))?;
    Ok(first)
}

/// The call of a view word on the array that a tree gave, which is its first argument. To make that
/// array ready, and what the others take, pays for it.
#[tactic(auto, using(crate::proofs::ScopeFacts::grows_trans))]
fn call_on<L: Ledger>(
    scope: &mut Scope,
    id: ArrayId,
    view: &ViewCall,
    steps: &mut Steps<L>,
) -> Result<ArrayId, ScopeFault>
    requires live { IsLive scope.old.arrays.world id }
    requires made { AreArgArrays (view_of view.now).1 }
    ensures value { (a : Arrays) (of : Tree) →
        value_of scope.old.names a of ≡ Ok (scope.old.arrays, id) →
        let called = call view.now.method (behind of (view_of view.now).1) in
        Evaluates (value_of scope.old.names a called) scope.new result }
    ensures grown { Grows scope.old scope.new }
    ensures within { (a : Arrays) (of : Tree) →
        value_of scope.old.names a of ≡ Ok (scope.old.arrays, id) →
        let s = scope.old in
        let most = argued_steps s (view_of view.now).1 + ready_steps (engine_of s) id in
        let called = call view.now.method (behind of (view_of view.now).1) in
        let late = evaluated s.names a called in
        EvaluatesWithin most s scope.new late steps.old steps.new result }
{
    let first = alone(scope.alloc(), id, view.args.len())?;
    let given = take(scope, first, &view.args, steps)?;
    call(scope, &view.method, &given, steps)
}
