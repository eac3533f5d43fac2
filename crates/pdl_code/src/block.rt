//! Resolving the names of statements. A declared word is visible to the end of its block.
ghost use Rattle.std.specs.Prelude.{◌≡◌, ◌≤◌, ◌++◌, ◌∷◌, [], take, length, get_or, OnOk, IfOk, IfErr, Some, false, max};
ghost use Rattle.pdl_code.specs.declared.names.Target.TheVariants.{New, Named};
ghost use Rattle.pdl_code.specs.Tree.{keep, put};
ghost use Rattle.pdl_code.specs.TreeOf.{code_of, indices_of, tree_of, step_of};
ghost use Rattle.pdl_code.specs.Refused.{answer, code_code, code_declares, code_wrongs, loop_wrong, or_zero, scope_after, step_declares, type_of_local};
ghost use Rattle.pdl_code.specs.Resolving.{Agrees, resolve_code, resolve_step};
ghost use Rattle.pdl_code.specs.Scope.{Scope, bytes_of, dim_place, top};

use crate::build::{if_stmt, loop_stmt, with_stmt};
use crate::fault::KernelFault;
use crate::lexeme::Span;
use crate::names::{Called, Kept, LocalType, RawEntry, RawExpr, RawStmt, Stmt, Target};
use crate::resolve::{indices, is_marked, mark, tree};
use crate::scope::{Local, Meant, argument, cut, declare, dim, dims_of, is_input, meaning};
use pdl_elem::BinaryOp;
use pdl_sig::{MOST_DIM_NAMES, Signature};
use std::alloc::Global;

// The declared type of a local.
fn type_of_local(locals: &[Local], k: usize) -> LocalType
    ensures { result ≡ type_of_local locals.now k }
{
    match locals.get(k) {
        Some(local) => local.ty,
        None => LocalType::Longlong,
    }
}

/// A local gets the next slot, which its own first value doesn't see.
fn declaration(
    alloc: Global,
    source: &[u8],
    signature: &Signature,
    locals: &mut Vec<Local>,
    loops: &[bool; MOST_DIM_NAMES],
    ty: LocalType,
    word: Span,
    op: Option<BinaryOp>,
    expr: &RawExpr,
) -> Result<Stmt, KernelFault>
    ensures gives { let c : Scope = record { locals = locals.old.items; loops = loops.now } in
        Agrees step_of result
        (resolve_step source.now signature.now c (keep (New ty word) op (tree_of expr.now))) }
    ensures after { let c : Scope = record { locals = locals.old.items; loops = loops.now } in
        OnOk result (record { locals = locals.new.items; loops = loops.now }
        ≡ scope_after c (keep (New ty word) op (tree_of expr.now))) }
{
    let e = tree(alloc, source, signature, locals.as_slice(), loops, expr)?;
    let slot = locals.len();
    declare(locals, word, ty)?;
    Ok(Stmt::Keep(Kept { slot, ty }, op, e))
}

/// An assignment to a visible local. A dimension's word is refused as an input is.
fn word_assignment(
    alloc: Global,
    source: &[u8],
    signature: &Signature,
    locals: &[Local],
    loops: &[bool; MOST_DIM_NAMES],
    word: Span,
    op: Option<BinaryOp>,
    expr: &RawExpr,
) -> Result<Stmt, KernelFault>
    ensures { Agrees step_of result (resolve_step source.now signature.now
        (record { locals = locals.now; loops = loops.now }) (keep (Named word) op (tree_of expr.now))) }
{
    match meaning(source, signature, locals, word) {
        Meant::InSlot(k) => {
            let e = tree(alloc, source, signature, locals, loops, expr)?;
            let ty = type_of_local(locals, k);
            Ok(Stmt::Keep(Kept { slot: k, ty }, op, e))
        }
        Meant::Dim(_) => Err(KernelFault::WriteToInput { at: word.from }),
        Meant::Unknown => Err(KernelFault::UnknownArgument { at: word.from }),
    }
}

/// A store to a word.
fn store(
    alloc: Global,
    source: &[u8],
    signature: &Signature,
    locals: &mut Vec<Local>,
    loops: &[bool; MOST_DIM_NAMES],
    target: Target,
    op: Option<BinaryOp>,
    expr: &RawExpr,
) -> Result<Stmt, KernelFault>
    ensures gives { let c : Scope = record { locals = locals.old.items; loops = loops.now } in
        Agrees step_of result
        (resolve_step source.now signature.now c (keep target op (tree_of expr.now))) }
    ensures after { let c : Scope = record { locals = locals.old.items; loops = loops.now } in
        OnOk result (record { locals = locals.new.items; loops = loops.now }
        ≡ scope_after c (keep target op (tree_of expr.now))) }
{
    match target {
        Target::New(ty, word) => {
            declaration(alloc, source, signature, locals, loops, ty, word, op, expr)
        }
        Target::Named(word) => {
            let seen = locals.as_slice();
            word_assignment(alloc, source, signature, seen, loops, word, op, expr)
        }
    }
}

/// An assignment to an element of an argument. One that the signature only reads is refused.
fn access_assignment(
    alloc: Global,
    source: &[u8],
    signature: &Signature,
    locals: &[Local],
    loops: &[bool; MOST_DIM_NAMES],
    called: Called,
    given: &[RawEntry],
    op: Option<BinaryOp>,
    expr: &RawExpr,
) -> Result<Stmt, KernelFault>
    ensures { Agrees step_of result (resolve_step source.now signature.now
        (record { locals = locals.now; loops = loops.now })
        (put called (indices_of given.now) op (tree_of expr.now))) }
{
    let name = called.name;
    let Some(number) = argument(source, signature, name) else {
        return Err(KernelFault::UnknownArgument { at: name.from });
    };
    if is_input(signature, number) {
        return Err(KernelFault::WriteToInput { at: name.from });
    }
    let dims = dims_of(signature, number);
    let found = indices(
        alloc,
        source,
        signature,
        locals,
        loops,
        dims,
        given,
        called.close,
    )?;
    let e = tree(alloc, source, signature, locals, loops, expr)?;
    Ok(Stmt::Put(number, found, op, e))
}

/// The dimension that a loop goes over.
fn loop_dim(
    source: &[u8],
    signature: &Signature,
    loops: &[bool; MOST_DIM_NAMES],
    word: Span,
) -> Result<usize, KernelFault>
    ensures gives { let place = dim_place signature.now (bytes_of source.now word) in
        Agrees (λ d. d) result (answer (loop_wrong loops.now word place) (or_zero place)) }
    ensures known { IfOk result (λ d.
        dim_place signature.now (bytes_of source.now word) ≡ Some d) }
    ensures unmarked { IfOk result (λ d. get_or loops.now d false ≡ false) }
{
    match dim(source, signature, word) {
        None => Err(KernelFault::UnknownDim { at: word.from }),
        Some(d) => {
            if is_marked(loops, d) {
                Err(KernelFault::NestedSame { at: word.from })
            } else {
                Ok(d)
            }
        }
    }
}

/// One statement.
#[cycle(block)]
fn stmt(
    alloc: Global,
    source: &[u8],
    signature: &Signature,
    locals: &mut Vec<Local>,
    loops: &[bool; MOST_DIM_NAMES],
    raw: &RawStmt,
) -> Result<Stmt, KernelFault>
    ensures gives { Agrees step_of result (resolve_step source.now signature.now
        (record { locals = locals.old.items; loops = loops.now }) (step_of raw.now)) }
    ensures after { OnOk result (record { locals = locals.new.items; loops = loops.now }
        ≡ scope_after (record { locals = locals.old.items; loops = loops.now })
        (step_of raw.now)) }
{
    match raw {
        RawStmt::Loop(word, body) => {
            let d = loop_dim(source, signature, loops, *word)?;
            let mut inner = *loops;
            mark(&mut inner, d);
            let code = block(alloc, source, signature, locals, &inner, body)?;
            Ok(loop_stmt(d, code))
        }
        RawStmt::If(expr, whole, other) => {
            let e = tree(alloc, source, signature, locals.as_slice(), loops, expr)?;
            let yes = block(alloc, source, signature, locals, loops, whole)?;
            let no = block(alloc, source, signature, locals, loops, other)?;
            Ok(if_stmt(e, yes, no))
        }
        RawStmt::Keep(target, op, expr) => {
            store(alloc, source, signature, locals, loops, *target, *op, expr)
        }
        RawStmt::Put(called, given, op, expr) => {
            let seen = locals.as_slice();
            access_assignment(
                alloc, source, signature, seen, loops, *called, given, *op, expr,
            )
        }
    }
}

/// The statements of a block. What it declares isn't visible behind it.
#[cycle(block)]
fn block(
    alloc: Global,
    source: &[u8],
    signature: &Signature,
    locals: &mut Vec<Local>,
    loops: &[bool; MOST_DIM_NAMES],
    raw: &[RawStmt],
) -> Result<Vec<Stmt>, KernelFault>
    ensures gives { Agrees (λ v. code_of v.items) result
        (resolve_code source.now signature.now
        (record { locals = locals.old.items; loops = loops.now }) (code_of raw.now)) }
    ensures same { OnOk result (locals.new.items ≡ locals.old.items) }
{
    let count = locals.len();
    let mut code = Vec::new(alloc);
    for one in raw {
        match stmt(alloc, source, signature, locals, loops, one) {
            Ok(s) => match with_stmt(code, s) {
                Ok(more) => code = more,
                Err(_) => return Err(KernelFault::NoMemory),
            },
            Err(fault) => return Err(fault),
        }
    }
    cut(locals, count);
    Ok(code)
}

/// The code of a text's tree, or its first refusal in the order of the text.
#[tactic(auto, using(crate::proofs::RefusedLemmas::code_law))]
pub fn resolved(
    alloc: Global,
    source: &[u8],
    signature: &Signature,
    raw: &[RawStmt],
) -> Result<Vec<Stmt>, KernelFault>
    ensures { Agrees (λ v. code_of v.items) result
        (answer (code_wrongs source.now signature.now top (code_of raw.now))
        (code_code source.now signature.now top (code_of raw.now))) }
{
    let mut locals = Vec::new(alloc);
    block(
        alloc,
        source,
        signature,
        &mut locals,
        &[false; MOST_DIM_NAMES],
        raw,
    )
}
