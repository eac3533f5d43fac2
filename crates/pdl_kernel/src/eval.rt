//! The number of an expression. It takes no memory.
ghost use Rattle.std.specs.Prelude.{◌≡◌, length};
ghost use Rattle.pdl_code.specs.Fit.{IsEachOnce};
ghost use Rattle.pdl_code.specs.Tree.{access};
ghost use Rattle.pdl_code.specs.TreeOf.{indices_of, tree_of};
ghost use Rattle.pdl_kernel.specs.Meaning.{and_then, indices, number_of, or_range, start, value};
ghost use Rattle.pdl_kernel.specs.Over.{AreIndicesOver, IsTreeOver};
ghost use Rattle.pdl_kernel.specs.Places.{IsSound, found};
ghost use Rattle.pdl_kernel.specs.Scenes.{kinds_of, store_of};

use crate::argument::Argument;
use crate::axes::moved;
use crate::faults::Fault;
use crate::operations::operate;
use crate::scene::{Scene, argument_at, local, loop_index, size_in};
use pdl_code::{Entry, Expr, Variable, rows_are_trees};
use pdl_elem::{Ty, unary};
use pdl_shape::shape_laws;
use pdl_sig::{MOST_DIM_NAMES, Resolved};

/// The number of a word: a local, or the index of a loop.
#[inline(always)]
fn named(scene: &Scene, loops: &[u32; MOST_DIM_NAMES], word: Variable) -> i64
    ensures { result ≡ number_of loops.now (store_of scene.now) word }
{
    match word {
        Variable::Slot(slot) => local(scene, slot),
        Variable::Index(dimension) => i64::from(loop_index(loops, dimension)),
    }
}

/// The number of an expression, or its first fault.
#[cycle(eval)]
pub fn value(
    resolved: &Resolved,
    scene: &Scene,
    loops: &[u32; MOST_DIM_NAMES],
    expr: &Expr,
) -> Result<i64, Fault>
    requires { IsTreeOver (kinds_of scene.now) (tree_of expr.now) }
    ensures { result ≡ value resolved.now.sizes loops.now (store_of scene.now) (tree_of expr.now) }
{
    rows_are_trees();
    match expr {
        Expr::Number(n) => Ok(*n),
        Expr::Size(dimension) => Ok(i64::from(size_in(resolved, *dimension))),
        Expr::Named(word) => Ok(named(scene, loops, *word)),
        Expr::Access(number, entries) => element(resolved, scene, loops, *number, entries),
        Expr::Unary(op, inner) => match operand(resolved, scene, loops, inner) {
            Ok(a) => Ok(unary(*op, Ty::Longlong, a)),
            Err(fault) => Err(fault),
        },
        Expr::Binary(op, left, right) => match operand(resolved, scene, loops, left) {
            Ok(a) => match operand(resolved, scene, loops, right) {
                Ok(b) => operate(*op, a, b),
                Err(fault) => Err(fault),
            },
            Err(fault) => Err(fault),
        },
    }
}

/// The same, without a call where there is no operation.
#[cycle(eval)]
#[inline(always)]
pub fn operand(
    resolved: &Resolved,
    scene: &Scene,
    loops: &[u32; MOST_DIM_NAMES],
    expr: &Expr,
) -> Result<i64, Fault>
    requires { IsTreeOver (kinds_of scene.now) (tree_of expr.now) }
    ensures { result ≡ value resolved.now.sizes loops.now (store_of scene.now) (tree_of expr.now) }
{
    rows_are_trees();
    match expr {
        Expr::Number(n) => Ok(*n),
        Expr::Size(dimension) => Ok(i64::from(size_in(resolved, *dimension))),
        Expr::Named(word) => Ok(named(scene, loops, *word)),
        Expr::Access(number, entries) => element(resolved, scene, loops, *number, entries),
        Expr::Unary(_, _) | Expr::Binary(_, _, _) => value(resolved, scene, loops, expr),
    }
}

/// The same, where the outermost operation is done in line.
#[inline(always)]
pub fn outermost(
    resolved: &Resolved,
    scene: &Scene,
    loops: &[u32; MOST_DIM_NAMES],
    expr: &Expr,
) -> Result<i64, Fault>
    requires { IsTreeOver (kinds_of scene.now) (tree_of expr.now) }
    ensures { result ≡ value resolved.now.sizes loops.now (store_of scene.now) (tree_of expr.now) }
{
    match expr {
        Expr::Binary(op, left, right) => match operand(resolved, scene, loops, left) {
            Ok(a) => match operand(resolved, scene, loops, right) {
                Ok(b) => operate(*op, a, b),
                Err(fault) => Err(fault),
            },
            Err(fault) => Err(fault),
        },
        _ => operand(resolved, scene, loops, expr),
    }
}

/// The element to which an access leads.
#[cycle(eval)]
#[inline(always)]
fn element(
    resolved: &Resolved,
    scene: &Scene,
    loops: &[u32; MOST_DIM_NAMES],
    number: usize,
    entries: &[Entry],
) -> Result<i64, Fault>
    requires { IsTreeOver (kinds_of scene.now) (access number (indices_of entries.now)) }
    ensures { let tree = access number (indices_of entries.now) in
        result ≡ value resolved.now.sizes loops.now (store_of scene.now) tree }
{
    shape_laws();
    let argument = argument_at(scene, number);
    match place(resolved, scene, loops, argument, entries) {
        Ok(found) => Ok(argument.element(found)),
        Err(fault) => Err(fault),
    }
}

/// The place to which an access leads: all its indices first, in the order of the text, and then
/// whether each is in range. Each dimension has one index, so the strides times the indices add up
/// in any order.
#[cycle(eval)]
#[inline(always)]
pub fn place(
    resolved: &Resolved,
    scene: &Scene,
    loops: &[u32; MOST_DIM_NAMES],
    argument: &Argument,
    entries: &[Entry],
) -> Result<usize, Fault>
    requires each { IsEachOnce (length argument.now.axes) (indices_of entries.now) }
    requires over { AreIndicesOver (kinds_of scene.now) (indices_of entries.now) }
    ensures value { result ≡ and_then
        (indices resolved.now.sizes loops.now (store_of scene.now) (indices_of entries.now) start)
        (λ is. or_range (found argument.now.axes is argument.now.start)) }
    ensures sound { IsSound argument.now }
{
    let axes = argument.axes();
    let mut place = Some(argument.start());
    for entry in entries {
        match entry {
            Entry::Looped(dimension, word) => {
                place = moved(axes, place, *dimension, named(scene, loops, *word));
            }
            Entry::Given(dimension, expr) => match value(resolved, scene, loops, expr) {
                Ok(index) => place = moved(axes, place, *dimension, index),
                Err(fault) => return Err(fault),
            },
        }
    }
    match place {
        Some(place) => Ok(place),
        None => Err(Fault::IndexOutOfRange),
    }
}
