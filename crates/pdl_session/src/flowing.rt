//! The statement that makes a flow: a root that always equals a formula (PDL::Dataflow).
ghost use Rattle.std.specs.Prelude.{◌≡◌, [], true, IfOk};
ghost use Rattle.pdl_syntax.specs.Formulas.{is_formula, is_one_formula};
ghost use Rattle.pdl_syntax.specs.StatementTree.{flow as flow'};
ghost use Rattle.pdl_syntax.specs.Tree.{none};
ghost use Rattle.pdl_syntax.specs.TreeOf.{tree_of, args_of, argument_of};
ghost use Rattle.pdl_syntax.specs.WellMade.{AreArrays, AreArgArrays};
ghost use Rattle.pdl_machine.specs.Formulas.{formula_of, operand_of};
ghost use Rattle.pdl_machine.specs.Step.{effect};
ghost use Rattle.pdl_scope.specs.Answers.{Runs};
ghost use Rattle.pdl_scope.specs.Scope.{machine};
ghost use Rattle.pdl_session.specs.Came.{flow_came};
ghost use Rattle.pdl_session.specs.Costs.{named_steps};
ghost use Rattle.pdl_scope.specs.Costs.{MovesUpTo};
ghost use Rattle.pdl_session.specs.Flowing.{Forms};

use crate::call::number_type;
use crate::eval::eval;
use pdl_buf::Steps;
use pdl_elem::{Name, type_named};
use pdl_flow::{Formula, meaning_laws};
use pdl_machine::{Fault, flow_laws};
use pdl_scope::{Scope, ScopeFault, cost_laws};
use pdl_syntax::{Arg, Expr, calls_are_trees};
use pdl_world::growth_laws;
use std::alloc::{AllocError, Global};
use std::sync::ledger::Ledger;

/// Makes a root that always equals a formula, and binds a name to it. The formula's value is that
/// of the expression, so no formula is evaluated. It moves no more than the expression and the
/// elements of the root that comes.
pub fn flow<L: Ledger>(
    scope: &mut Scope,
    name: &Name,
    value: &Expr,
    steps: &mut Steps<L>,
) -> Result<(), ScopeFault>
    requires formula { is_formula (tree_of value.now) ≡ true }
    requires made { AreArrays (tree_of value.now) }
    ensures runs { let form = flow' name.now (tree_of value.now) in
        let wanted = effect [] (machine scope.old) form in
        Runs wanted scope.old scope.new [] [] result }
    ensures within { let most = named_steps scope.old (tree_of value.now) in
        let late = flow_came scope.old name.now (tree_of value.now) in
        MovesUpTo most scope.old late steps.old steps.new }
{
    cost_laws();
    flow_laws();
    growth_laws();
    meaning_laws();
    scope.in_order();
    let formula = formula_of(scope, value);
    // the faults of the value come before those of the formula
    let id = eval(scope, value, steps)?;
    scope.in_order();
    let made = scope.flow(name, formula?, id, steps);
    scope.in_order();
    made
}

/// The formula of an expression, whose names are arrays.
#[cycle(formula)]
fn formula_of(scope: &Scope, value: &Expr) -> Result<Formula, ScopeFault>
    requires formula { is_formula (tree_of value.now) ≡ true }
    requires made { AreArrays (tree_of value.now) }
    ensures { let wanted = formula_of scope.now.names (tree_of value.now) in
        Forms wanted scope.now.arrays.world result }
{
    calls_are_trees();
    match value {
        Expr::Number(number) => Ok(Formula::Number(number_type(*number), *number)),
        Expr::Named(name) => match scope.number_of(name) {
            Some(id) => Ok(Formula::Array(id)),
            None => Err(ScopeFault::Script(Fault::UnknownName)),
        },
        Expr::List(_) => Err(ScopeFault::Script(Fault::Syntax)),
        Expr::Unary(op, operand) => {
            let operand = formula_of(scope, operand)?;
            Ok(Formula::Unary(*op, boxed(scope.alloc(), operand)?))
        }
        Expr::Binary(op, left, right) => {
            let left = formula_of(scope, left)?;
            let right = formula_of(scope, right)?;
            let left = boxed(scope.alloc(), left)?;
            let right = boxed(scope.alloc(), right)?;
            Ok(Formula::Binary(*op, left, right))
        }
        Expr::Call(name, args) => match type_named(name.bytes()) {
            Some(ty) => {
                let operand = operand_of(scope, args)?;
                Ok(Formula::Convert(ty, boxed(scope.alloc(), operand)?))
            }
            None => Err(ScopeFault::Script(Fault::Syntax)),
        },
    }
}

/// The formula that arguments are alone.
#[cycle(formula)]
fn operand_of(scope: &Scope, args: &[Arg]) -> Result<Formula, ScopeFault>
    requires formula { is_one_formula (args_of args.now none) ≡ true }
    requires made { AreArgArrays (args_of args.now none) }
    ensures { let wanted = operand_of scope.now.names (args_of args.now none) in
        Forms wanted scope.now.arrays.world result }
{
    match args {
        [] => Err(ScopeFault::Script(Fault::Syntax)),
        [arg] => argument_formula(scope, arg),
        [_, _, ..] => Err(ScopeFault::Script(Fault::Syntax)),
    }
}

/// The formula that an argument is alone.
#[cycle(formula)]
fn argument_formula(scope: &Scope, arg: &Arg) -> Result<Formula, ScopeFault>
    requires formula { is_one_formula (argument_of arg.now none) ≡ true }
    requires made { AreArgArrays (argument_of arg.now none) }
    ensures { let wanted = operand_of scope.now.names (argument_of arg.now none) in
        Forms wanted scope.now.arrays.world result }
{
    match arg {
        Arg::Value(value) => formula_of(scope, value),
        Arg::Str(_) | Arg::OfType(_) => Err(ScopeFault::Script(Fault::Syntax)),
    }
}

/// A formula as an operand of a larger one.
fn boxed(alloc: Global, formula: Formula) -> Result<Box<Formula>, AllocError>
    ensures { IfOk result (λ b. b.value ≡ formula) }
{
    Box::new(alloc, formula).map_err(AllocError::from)
}
