//! Looks for ragged lists among the literals of a statement.

ghost use Rattle.std.specs.Prelude.{◌≡◌, map};
ghost use Rattle.pdl_syntax.specs.Ragged.{is_no_array, is_ragged, are_ragged, in_views, in_statement};
ghost use Rattle.pdl_syntax.specs.StatementTree.{view_of, statement_of};
ghost use Rattle.pdl_syntax.specs.Tree.{none};
ghost use Rattle.pdl_syntax.specs.TreeOf.{tree_of, args_of, argument_of};

use crate::tree::{Arg, Expr, Statement, ViewCall};
use pdl_buf::Made;
use pdl_shape::elements_of;

// Whether a literal has other numbers than its dimensions say.
fn is_no_array(made: &Made) -> bool
    ensures { result ≡ is_no_array made.now.dims made.now.elems }
{
    made.elems.len() != elements_of(&made.dims) as usize
}

// Whether a list in an expression is ragged.
#[cycle(ragged)]
fn is_ragged(value: &Expr) -> bool
    ensures { result ≡ is_ragged (tree_of value.now) }
{
    match value {
        Expr::Number(_) | Expr::Named(_) => false,
        Expr::List(made) => is_no_array(made),
        Expr::Unary(_, operand) => is_ragged(operand),
        Expr::Binary(_, left, right) => is_ragged(left) || is_ragged(right),
        Expr::Call(_, args) => are_ragged(args),
    }
}

// Whether one in arguments is.
#[cycle(ragged)]
fn are_ragged(args: &[Arg]) -> bool
    ensures { result ≡ are_ragged (args_of args.now none) }
{
    for arg in args {
        if is_ragged_arg(arg) {
            return true;
        }
    }
    false
}

#[cycle(ragged)]
fn is_ragged_arg(arg: &Arg) -> bool
    ensures { result ≡ are_ragged (argument_of arg.now none) }
{
    match arg {
        Arg::Value(value) => is_ragged(value),
        Arg::Str(_) | Arg::OfType(_) => false,
    }
}

// Whether one in the views of a target is.
fn in_views(views: &[ViewCall]) -> bool
    ensures { result ≡ in_views (map view_of views.now) }
{
    for view in views {
        if are_ragged(&view.args) {
            return true;
        }
    }
    false
}

/// Whether a list in a statement is ragged.
pub fn in_statement(statement: &Statement) -> bool
    ensures { result ≡ in_statement (statement_of statement.now) }
{
    match statement {
        Statement::Bind { value, .. }
        | Statement::BindList { value, .. }
        | Statement::Show { value, .. }
        | Statement::Flow { value, .. } => is_ragged(value),
        Statement::Assign { target, value, .. } => in_views(&target.views) || is_ragged(value),
        Statement::Reshape { sizes, .. } => are_ragged(sizes),
        Statement::ShowText { .. }
        | Statement::Sever { .. }
        | Statement::Undef { .. }
        | Statement::Vars
        | Statement::Dump
        | Statement::PpDef { .. }
        | Statement::Watch { .. }
        | Statement::Unwatch { .. } => false,
    }
}
