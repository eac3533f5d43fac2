//! The value of an expression: from left to right, arguments before their call.
ghost use Rattle.std.specs.Prelude.{◌≡◌, List, [], ◌∷◌, ◌++◌, ◌+◌, Ok, IfOk, Vec};
ghost use Rattle.pdl_syntax.specs.Tree.{Args, none};
ghost use Rattle.pdl_syntax.specs.WellMade.{AreArrays, AreArgArrays};
ghost use Rattle.pdl_syntax.specs.TreeOf.{tree_of, args_of, argument_of};
ghost use Rattle.pdl_machine.specs.Arrays.{Arrays};
ghost use Rattle.pdl_machine.specs.Outcome.{Given as Argument};
ghost use Rattle.pdl_machine.specs.Value.{value_of, taken};
ghost use Rattle.pdl_scope.specs.Answers.{AnswersAs, Evaluates};
ghost use Rattle.pdl_session.specs.Bounds.{EvaluatesPlainly};
ghost use Rattle.pdl_session.specs.Came.{args_evaluated, evaluated};
ghost use Rattle.pdl_session.specs.Costs.{argued_steps, given_steps, named_steps, ready_all, EvaluatesWithin, PaysWithin};
ghost use Rattle.pdl_session.specs.Arguments.{argument, arguments, IsGivenLive, AreGivenLive};
ghost use Rattle.pdl_scope.specs.Scope.{engine_of, Grows};
ghost use Rattle.pdl_session.specs.declared.given.Given.{Given};
ghost use Rattle.pdl_engine.specs.State.{ready_steps};
ghost use Rattle.std.specs.Global.{Global};

use crate::call::{call, number_array};
use crate::given::Given;
use pdl_buf::Steps;
use pdl_engine::ArrayId;
use pdl_machine::Fault;
use pdl_scope::{Scope, ScopeFault, cost_laws};
use pdl_syntax::{Arg, Expr, calls_are_trees};
use std::sync::ledger::Ledger;

/// The array of an expression. New arrays may have come also where it is refused. A name takes no
/// step, and a number or a list at most one for each element; any expression at most one for each
/// element that moves for the arrays that come, and what it takes to make the arrays of its names
/// ready, which pays also for making its own ready. Where a fault refuses it, the arrays count that
/// came until then, and where memory ran out those that were to come.
#[cycle(eval)]
pub fn eval<L: Ledger>(
    scope: &mut Scope,
    value: &Expr,
    steps: &mut Steps<L>,
) -> Result<ArrayId, ScopeFault>
    requires { AreArrays (tree_of value.now) }
    ensures value { let wanted = value_of scope.old.names scope.old.arrays (tree_of value.now) in
        Evaluates wanted scope.new result }
    ensures grown { Grows scope.old scope.new }
    ensures plain { let tree = tree_of value.now in
        EvaluatesPlainly tree scope.old scope.new steps.old steps.new result }
    ensures within { let s = scope.old in
        let tree = tree_of value.now in
        let late = evaluated s.names s.arrays tree in
        EvaluatesWithin (named_steps s tree) s scope.new late steps.old steps.new result }
{
    calls_are_trees();
    cost_laws();
    scope.in_order();
    match value {
        Expr::Number(number) => number_array(scope, *number, steps),
        Expr::Named(name) => match scope.number_of(name) {
            Some(id) => Ok(id),
            None => Err(ScopeFault::Script(Fault::UnknownName)),
        },
        Expr::List(made) => {
            let made = scope.make_like(made, steps);
            scope.in_order();
            made
        }
        Expr::Unary(op, operand) => {
            let operand = eval(scope, operand, steps)?;
            let made = scope.unary(*op, operand, steps);
            scope.in_order();
            made
        }
        Expr::Binary(op, left, right) => {
            let left = eval(scope, left, steps)?;
            scope.in_order();
            let right = eval(scope, right, steps)?;
            scope.in_order();
            let made = scope.binary(*op, left, right, steps);
            scope.in_order();
            made
        }
        Expr::Call(name, args) => {
            let none = Vec::with_capacity(scope.alloc(), args.len())?;
            let given = take(scope, none, args, steps)?;
            call(scope, name, &given, steps)
        }
    }
}

/// The arguments of a call, evaluated in order, behind those that are given.
#[cycle(eval)]
#[tactic(auto, using(crate::proofs::ScopeFacts::grows_trans))]
pub fn take<'a, L: Ledger>(
    scope: &mut Scope,
    mut given: Vec<Given<'a>>,
    args: &'a [Arg],
    steps: &mut Steps<L>,
) -> Result<Vec<Given<'a>>, ScopeFault>
    requires made { AreArgArrays (args_of args.now none) }
    requires live { AreGivenLive scope.old.arrays.world given.items }
    ensures value { (a : Arrays) (front : Args) →
        taken scope.old.names a front ≡ Ok (scope.old.arrays, arguments given.entry.items) →
        let wanted = taken scope.old.names a (args_of args.now front) in
        AnswersAs (λ all. (scope.new.arrays, arguments all.items)) wanted result }
    ensures live { IfOk result (λ all. AreGivenLive scope.new.arrays.world all.items) }
    ensures grown { Grows scope.old scope.new }
    ensures within { (a : Arrays) (front : Args) →
        taken scope.old.names a front ≡ Ok (scope.old.arrays, arguments given.entry.items) →
        let s = scope.old in
        let most = argued_steps s (args_of args.now none) + ready_all s given.entry.items in
        let owed = λ (all : Vec Given Global). ready_all scope.new all.items in
        let late = args_evaluated s.names a (args_of args.now front) in
        PaysWithin owed most s scope.new late steps.old steps.new result }
{
    cost_laws();
    scope.in_order();
    for arg in args {
        scope.in_order();
        let one = take_one(scope, arg, steps)?;
        scope.in_order();
        given.push(one)?;
    }
    Ok(given)
}

/// One argument, evaluated after those before it.
#[cycle(eval)]
fn take_one<'a, L: Ledger>(
    scope: &mut Scope,
    arg: &'a Arg,
    steps: &mut Steps<L>,
) -> Result<Given<'a>, ScopeFault>
    requires { AreArgArrays (argument_of arg.now none) }
    ensures value { (a : Arrays) (front : Args) (given : List Argument) →
        taken scope.old.names a front ≡ Ok (scope.old.arrays, given) →
        let wanted = taken scope.old.names a (argument_of arg.now front) in
        AnswersAs (λ one. (scope.new.arrays, given ++ argument one ∷ [])) wanted result }
    ensures live { IfOk result (IsGivenLive scope.new.arrays.world) }
    ensures grown { Grows scope.old scope.new }
    ensures within { (a : Arrays) (front : Args) (given : List Argument) →
        taken scope.old.names a front ≡ Ok (scope.old.arrays, given) →
        let s = scope.old in
        let most = argued_steps s (argument_of arg.now none) in
        let owed = given_steps (ready_steps (engine_of scope.new)) in
        let late = args_evaluated s.names a (argument_of arg.now front) in
        PaysWithin owed most s scope.new late steps.old steps.new result }
{
    match arg {
        Arg::Value(value) => Ok(Given::Array(eval(scope, value, steps)?)),
        Arg::Str(text) => Ok(Given::Text(text.bytes())),
        Arg::OfType(ty) => Ok(Given::OfType(*ty)),
    }
}
