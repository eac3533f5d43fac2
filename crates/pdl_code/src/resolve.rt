//! Resolving the names of expressions, in the order of the text.
ghost use Rattle.std.specs.Prelude.{◌≡◌, Ok, false, true, get_or, slice_set, IfOk, Some};
ghost use Rattle.pdl_code.specs.Fit.{argument_of};
ghost use Rattle.pdl_code.specs.Join.{join, one_loop};
ghost use Rattle.pdl_code.specs.TreeOf.{dimension_of, index_of, indices_of, tree_of};
ghost use Rattle.pdl_code.specs.Refused.{answer, axis_wrong, lacks, looped, meant_tree, named_dim, no_dim, or_zero, primary_wrong};
ghost use Rattle.pdl_code.specs.Resolving.{Agrees, resolve_indices, resolve_tree};
ghost use Rattle.pdl_code.specs.Scope.{axis_of, bytes_of, meant, no_flags};
ghost use Rattle.pdl_code.specs.Tree.{access as access_of, size as size_of_dim};

use crate::build::{access_expr, binary_expr, unary_expr, with_entry};
use crate::fault::KernelFault;
use crate::lexeme::Span;
use crate::names::{Called, Entry, Expr, RawEntry, RawExpr, Variable};
use crate::scope::{Local, Meant, argument, axis, dim, dims_of, meaning};
use pdl_sig::{MOST_DIM_NAMES, Signature};
use std::alloc::Global;

/// Whether a dimension is marked.
pub fn is_marked(flags: &[bool; MOST_DIM_NAMES], k: usize) -> bool
    ensures { result ≡ get_or flags.now k false }
{
    if k < MOST_DIM_NAMES { flags[k] } else { false }
}

/// Marks a dimension.
pub fn mark(flags: &mut [bool; MOST_DIM_NAMES], k: usize)
    ensures { flags.new ≡ slice_set flags.old k true }
{
    if k < MOST_DIM_NAMES {
        flags[k] = true;
    }
}

// The size of a dimension that a word names.
fn size(source: &[u8], signature: &Signature, word: Span) -> Result<Expr, KernelFault>
    ensures { let named = named_dim source.now signature.now word in
        Agrees tree_of result (answer (no_dim word named) (size_of_dim (or_zero named))) }
{
    match dim(source, signature, word) {
        Some(d) => Ok(Expr::Size(d)),
        None => Err(KernelFault::UnknownDim { at: word.from }),
    }
}

// A word as a primary.
fn named(
    source: &[u8],
    signature: &Signature,
    locals: &[Local],
    loops: &[bool; MOST_DIM_NAMES],
    word: Span,
) -> Result<Expr, KernelFault>
    ensures { Agrees tree_of result (answer (primary_wrong loops.now word
        (meant source.now signature.now locals.now word))
        (meant_tree (meant source.now signature.now locals.now word))) }
{
    match meaning(source, signature, locals, word) {
        Meant::InSlot(k) => Ok(Expr::Named(Variable::Slot(k))),
        Meant::Dim(d) => {
            if is_marked(loops, d) {
                Ok(Expr::Named(Variable::Index(d)))
            } else {
                Err(KernelFault::UnknownDim { at: word.from })
            }
        }
        Meant::Unknown => Err(KernelFault::UnknownArgument { at: word.from }),
    }
}

// The place of an index's word in an argument of these dimensions.
fn place(
    source: &[u8],
    signature: &Signature,
    dims: &[u8],
    given: &[bool; MOST_DIM_NAMES],
    word: Span,
) -> Result<usize, KernelFault>
    ensures given { Agrees (λ k. k) result (answer (axis_wrong word given.now
        (axis_of signature.now dims.now (bytes_of source.now word)))
        (or_zero (axis_of signature.now dims.now (bytes_of source.now word)))) }
    ensures known { IfOk result (λ k. axis_of signature.now dims.now (bytes_of source.now word)
        ≡ Some k) }
{
    match axis(source, signature, dims, word) {
        None => Err(KernelFault::UnknownDim { at: word.from }),
        Some(k) => {
            if is_marked(given, k) {
                Err(KernelFault::UnknownDim { at: word.from })
            } else {
                Ok(k)
            }
        }
    }
}

// The word of an index.
fn dimension_of(entry: &RawEntry) -> Span
    ensures { result ≡ dimension_of entry.now }
{
    match entry {
        RawEntry::Given(word, _) => *word,
        RawEntry::Looped(word, _) => *word,
    }
}

// Whether some dimension is neither given nor looped.
fn lacks_one(dims: &[u8], given: &[bool; MOST_DIM_NAMES], loops: &[bool; MOST_DIM_NAMES]) -> bool
    ensures { result ≡ lacks loops.now dims.now 0 given.now }
{
    for (k, d) in dims.iter().enumerate() {
        if !is_marked(given, k) && !is_marked(loops, *d as usize) {
            return true;
        }
    }
    false
}

// A dimension that isn't given, at the index of its loop.
fn with_loop(
    found: Vec<Entry>,
    k: usize,
    d: usize,
    given: &[bool; MOST_DIM_NAMES],
) -> Result<Vec<Entry>, KernelFault>
    ensures { Agrees (λ v. indices_of v.items) result
        (Ok (join (indices_of found.items) (one_loop given.now k d))) }
{
    if is_marked(given, k) {
        Ok(found)
    } else {
        match with_entry(found, Entry::Looped(k, Variable::Index(d))) {
            Ok(more) => Ok(more),
            Err(_) => Err(KernelFault::NoMemory),
        }
    }
}

// The dimensions that aren't given, at the indices of their loops.
fn with_loops(
    mut found: Vec<Entry>,
    dims: &[u8],
    given: &[bool; MOST_DIM_NAMES],
) -> Result<Vec<Entry>, KernelFault>
    ensures { Agrees (λ v. indices_of v.items) result
        (Ok (join (indices_of found.items) (looped dims.now 0 given.now))) }
{
    for (k, d) in dims.iter().enumerate() {
        match with_loop(found, k, *d as usize, given) {
            Ok(more) => found = more,
            Err(fault) => return Err(fault),
        }
    }
    Ok(found)
}

/// An expression.
#[cycle(resolve)]
pub fn tree(
    alloc: Global,
    source: &[u8],
    signature: &Signature,
    locals: &[Local],
    loops: &[bool; MOST_DIM_NAMES],
    raw: &RawExpr,
) -> Result<Expr, KernelFault>
    ensures { Agrees tree_of result (resolve_tree source.now signature.now
        (record { locals = locals.now; loops = loops.now }) (tree_of raw.now)) }
{
    match raw {
        RawExpr::Number(n) => Ok(Expr::Number(*n)),
        RawExpr::Size(word) => size(source, signature, *word),
        RawExpr::Named(word) => named(source, signature, locals, loops, *word),
        RawExpr::Access(called, given) => {
            access(alloc, source, signature, locals, loops, *called, given)
        }
        RawExpr::Unary(op, inner) => match tree(alloc, source, signature, locals, loops, inner) {
            Ok(a) => match unary_expr(alloc, *op, a) {
                Ok(e) => Ok(e),
                Err(_) => Err(KernelFault::NoMemory),
            },
            Err(fault) => Err(fault),
        },
        RawExpr::Binary(op, left, right) => {
            match tree(alloc, source, signature, locals, loops, left) {
                Ok(a) => match tree(alloc, source, signature, locals, loops, right) {
                    Ok(b) => match binary_expr(alloc, *op, a, b) {
                        Ok(e) => Ok(e),
                        Err(_) => Err(KernelFault::NoMemory),
                    },
                    Err(fault) => Err(fault),
                },
                Err(fault) => Err(fault),
            }
        }
    }
}

// An access.
#[cycle(resolve)]
fn access(
    alloc: Global,
    source: &[u8],
    signature: &Signature,
    locals: &[Local],
    loops: &[bool; MOST_DIM_NAMES],
    called: Called,
    given: &[RawEntry],
) -> Result<Expr, KernelFault>
    ensures { Agrees tree_of result (resolve_tree source.now signature.now
        (record { locals = locals.now; loops = loops.now })
        (access_of called (indices_of given.now))) }
{
    let name = called.name;
    match argument(source, signature, name) {
        None => Err(KernelFault::UnknownArgument { at: name.from }),
        Some(number) => {
            let dims = dims_of(signature, number);
            match indices(
                alloc,
                source,
                signature,
                locals,
                loops,
                dims,
                given,
                called.close,
            ) {
                Ok(found) => Ok(access_expr(number, found)),
                Err(fault) => Err(fault),
            }
        }
    }
}

// An index.
#[cycle(resolve)]
fn index(
    alloc: Global,
    source: &[u8],
    signature: &Signature,
    locals: &[Local],
    loops: &[bool; MOST_DIM_NAMES],
    entry: &RawEntry,
) -> Result<Expr, KernelFault>
    ensures { Agrees tree_of result (resolve_tree source.now signature.now
        (record { locals = locals.now; loops = loops.now }) (index_of entry.now)) }
{
    match entry {
        RawEntry::Given(_, expr) => tree(alloc, source, signature, locals, loops, expr),
        RawEntry::Looped(_, word) => named(source, signature, locals, loops, *word),
    }
}

/// The indices of an access: those given, and the loops'.
#[cycle(resolve)]
pub fn indices(
    alloc: Global,
    source: &[u8],
    signature: &Signature,
    locals: &[Local],
    loops: &[bool; MOST_DIM_NAMES],
    dims: &[u8],
    given: &[RawEntry],
    close: u32,
) -> Result<Vec<Entry>, KernelFault>
    ensures { Agrees (λ v. indices_of v.items) result (resolve_indices source.now signature.now
        (record { locals = locals.now; loops = loops.now }) dims.now no_flags close
        (indices_of given.now)) }
{
    let mut flags = [false; MOST_DIM_NAMES];
    let mut found = Vec::new(alloc);
    for one in given {
        match place(source, signature, dims, &flags, dimension_of(one)) {
            Ok(k) => match index(alloc, source, signature, locals, loops, one) {
                Ok(e) => match with_entry(found, Entry::Given(k, e)) {
                    Ok(more) => {
                        found = more;
                        mark(&mut flags, k);
                    }
                    Err(_) => return Err(KernelFault::NoMemory),
                },
                Err(fault) => return Err(fault),
            },
            Err(fault) => return Err(fault),
        }
    }
    if lacks_one(dims, &flags, loops) {
        return Err(KernelFault::UnknownDim { at: close });
    }
    with_loops(found, dims, &flags)
}
