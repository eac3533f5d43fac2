//! The parts of a tree, for names of any kind.
ghost use Rattle.std.specs.Prelude.{◌≡◌, IfOk};
ghost use Rattle.pdl_code.specs.Join.{join, join_code};
ghost use Rattle.pdl_code.specs.Tree.{access, binary, choose, done, next, none, repeat, unary};
ghost use Rattle.pdl_code.specs.TreeOf.{code_of, entry_of, indices_of, step_of, tree_of};

use crate::tree::{Entry, Expr, Stmt};
use pdl_elem::{BinaryOp, UnaryOp};
use std::alloc::{AllocError, Global};

fn boxed<W: Drop, A: Drop, D: Drop>(
    alloc: Global,
    e: Expr<W, A, D>,
) -> Result<Box<Expr<W, A, D>>, AllocError>
    ensures { IfOk result (λ b. b.value ≡ e) }
{
    Box::new(alloc, e).map_err(AllocError::from)
}

pub fn unary_expr<W: Drop, A: Drop, D: Drop>(
    alloc: Global,
    op: UnaryOp,
    a: Expr<W, A, D>,
) -> Result<Expr<W, A, D>, AllocError>
    ensures { IfOk result (λ e. tree_of e ≡ unary op (tree_of a)) }
{
    Ok(Expr::Unary(op, boxed(alloc, a)?))
}

pub fn binary_expr<W: Drop, A: Drop, D: Drop>(
    alloc: Global,
    op: BinaryOp,
    a: Expr<W, A, D>,
    b: Expr<W, A, D>,
) -> Result<Expr<W, A, D>, AllocError>
    ensures { IfOk result (λ e. tree_of e ≡ binary op (tree_of a) (tree_of b)) }
{
    Ok(Expr::Binary(op, boxed(alloc, a)?, boxed(alloc, b)?))
}

pub fn access_expr<W, A, D>(argument: A, given: Vec<Entry<W, A, D>>) -> Expr<W, A, D>
    ensures { tree_of result ≡ access argument (indices_of given.items) }
{
    Expr::Access(argument, given)
}

/// One index more.
#[tactic(auto, using(crate::proofs::JoinLemmas::entry_push))]
pub fn with_entry<W: Drop, A: Drop, D: Drop>(
    mut found: Vec<Entry<W, A, D>>,
    entry: Entry<W, A, D>,
) -> Result<Vec<Entry<W, A, D>>, AllocError>
    ensures { IfOk result (λ all. indices_of all.items
        ≡ join (indices_of found.items) (entry_of entry none)) }
{
    found.push(entry).map_err(AllocError::from)?;
    Ok(found)
}

/// One statement more.
#[tactic(auto, using(crate::proofs::JoinLemmas::code_push))]
pub fn with_stmt<W: Drop, A: Drop, D: Drop, S: Drop>(
    mut code: Vec<Stmt<W, A, D, S>>,
    stmt: Stmt<W, A, D, S>,
) -> Result<Vec<Stmt<W, A, D, S>>, AllocError>
    ensures { IfOk result (λ all. code_of all.items
        ≡ join_code (code_of code.items) (next (step_of stmt) done)) }
{
    code.push(stmt).map_err(AllocError::from)?;
    Ok(code)
}

pub fn loop_stmt<W, A, D, S>(dimension: D, body: Vec<Stmt<W, A, D, S>>) -> Stmt<W, A, D, S>
    ensures { step_of result ≡ repeat dimension (code_of body.items) }
{
    Stmt::Loop(dimension, body)
}

pub fn if_stmt<W, A, D, S>(
    e: Expr<W, A, D>,
    whole: Vec<Stmt<W, A, D, S>>,
    other: Vec<Stmt<W, A, D, S>>,
) -> Stmt<W, A, D, S>
    ensures { step_of result ≡ choose (tree_of e) (code_of whole.items) (code_of other.items) }
{
    Stmt::If(e, whole, other)
}
