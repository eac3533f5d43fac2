//! Looks whether an expression is a formula.

ghost use Rattle.std.specs.Prelude.{◌≡◌};
ghost use Rattle.pdl_elem.specs.Operators.{divides};
ghost use Rattle.pdl_syntax.specs.Formulas.{is_formula, is_one_formula};
ghost use Rattle.pdl_syntax.specs.Tree.{none};
ghost use Rattle.pdl_syntax.specs.TreeOf.{tree_of, args_of, argument_of};

use crate::tree::{Arg, Expr};
use pdl_elem::{BinaryOp, type_named};

fn divides(op: BinaryOp) -> bool
    ensures { result ≡ divides op }
{
    match op {
        BinaryOp::Div | BinaryOp::Rem => true,
        _ => false,
    }
}

/// Whether an expression is a formula: numbers and names, operators that don't divide, and type
/// words with one expression.
#[cycle(formula)]
pub fn is_formula(value: &Expr) -> bool
    ensures { result ≡ is_formula (tree_of value.now) }
{
    match value {
        Expr::Number(_) | Expr::Named(_) => true,
        Expr::List(_) => false,
        Expr::Unary(_, operand) => is_formula(operand),
        Expr::Binary(op, left, right) => !divides(*op) && is_formula(left) && is_formula(right),
        Expr::Call(name, args) => type_named(name.bytes()).is_some() && is_one_formula(args),
    }
}

// Whether arguments are one formula alone.
#[cycle(formula)]
fn is_one_formula(args: &[Arg]) -> bool
    ensures { result ≡ is_one_formula (args_of args.now none) }
{
    match args {
        [arg] => is_formula_arg(arg),
        _ => false,
    }
}

#[cycle(formula)]
fn is_formula_arg(arg: &Arg) -> bool
    ensures { result ≡ is_one_formula (argument_of arg.now none) }
{
    match arg {
        Arg::Value(value) => is_formula(value),
        Arg::Str(_) | Arg::OfType(_) => false,
    }
}
