//! Statements, run in order. It takes no memory.
ghost use Rattle.std.specs.Prelude.{◌≡◌, slice_set, get_or, pos, true, All, Ok, OnOk};
ghost use Rattle.pdl_sig.specs.Resolution.{size_in};
ghost use Rattle.pdl_code.specs.Tree.{access};
ghost use Rattle.pdl_code.specs.TreeOf.{code_of, indices_of, step_of};
ghost use Rattle.pdl_kernel.specs.Answers.{Becomes};
ghost use Rattle.pdl_kernel.specs.Meaning.{and_then, argument, assigned, changed, indices, kept, local_type, run, start, step, turns, with_argument};
ghost use Rattle.pdl_kernel.specs.Over.{IsCodeOver, IsStepOver, IsTreeOver};
ghost use Rattle.pdl_kernel.specs.Places.{IsWhole, Kind, is_written};
ghost use Rattle.pdl_kernel.specs.Scenes.{kinds_of, rests_of, store_of};

use crate::eval::{outermost, place, value};
use crate::faults::Fault;
use crate::operations::change;
use crate::scene::{Scene, argument_at, assign_in, keep_local, local, set_index, size_in};
use pdl_code::{Entry, Kept, LocalType, Stmt, rows_are_trees};
use pdl_elem::{BinaryOp, Ty};
use pdl_shape::shape_laws;
use pdl_sig::{MOST_DIM_NAMES, Resolved};

/// The type at which a local is kept: its word's, or the call's generic one.
fn local_type(generic: Ty, ty: LocalType) -> Ty
    ensures { result ≡ local_type generic ty }
{
    match ty {
        LocalType::Long => Ty::Long,
        LocalType::Longlong => Ty::Longlong,
        LocalType::Generic => generic,
    }
}

/// One statement.
#[cycle(run)]
fn step(
    resolved: &Resolved,
    scene: &mut Scene,
    loops: &[u32; MOST_DIM_NAMES],
    stmt: &Stmt,
) -> Result<(), Fault>
    requires over { IsStepOver (kinds_of scene.old) (step_of stmt.now) }
    requires whole { All IsWhole (rests_of scene.old) }
    ensures store { Becomes result (store_of scene.new)
        (step resolved.now loops.now (step_of stmt.now) (store_of scene.old)) }
    ensures rests { OnOk result (rests_of scene.new ≡ rests_of scene.old) }
{
    rows_are_trees();
    match stmt {
        Stmt::Loop(dimension, body) => repeat(resolved, scene, loops, *dimension, body),
        Stmt::If(expr, whole, other) => match value(resolved, scene, loops, expr) {
            Ok(x) => {
                if x == 0 {
                    run(resolved, scene, loops, other)
                } else {
                    run(resolved, scene, loops, whole)
                }
            }
            Err(fault) => Err(fault),
        },
        Stmt::Keep(target, op, expr) => match value(resolved, scene, loops, expr) {
            Ok(x) => keep(resolved, scene, *target, *op, x),
            Err(fault) => Err(fault),
        },
        Stmt::Put(number, entries, op, expr) => match value(resolved, scene, loops, expr) {
            Ok(x) => put(resolved, scene, loops, *number, entries, *op, x),
            Err(fault) => Err(fault),
        },
    }
}

/// The same, where a store to an argument is done in line.
#[cycle(run)]
#[inline(always)]
fn step_in_line(
    resolved: &Resolved,
    scene: &mut Scene,
    loops: &[u32; MOST_DIM_NAMES],
    stmt: &Stmt,
) -> Result<(), Fault>
    requires over { IsStepOver (kinds_of scene.old) (step_of stmt.now) }
    requires whole { All IsWhole (rests_of scene.old) }
    ensures store { Becomes result (store_of scene.new)
        (step resolved.now loops.now (step_of stmt.now) (store_of scene.old)) }
    ensures rests { OnOk result (rests_of scene.new ≡ rests_of scene.old) }
{
    match stmt {
        Stmt::Put(number, entries, op, expr) => match outermost(resolved, scene, loops, expr) {
            Ok(x) => put(resolved, scene, loops, *number, entries, *op, x),
            Err(fault) => Err(fault),
        },
        _ => step(resolved, scene, loops, stmt),
    }
}

/// A store to a local.
fn keep(
    resolved: &Resolved,
    scene: &mut Scene,
    target: Kept,
    op: Option<BinaryOp>,
    x: i64,
) -> Result<(), Fault>
    ensures store { let m = store_of scene.old in
        Becomes result (store_of scene.new)
        (and_then (changed op (get_or m.locals target.slot (pos 0)) x)
        (λ y. Ok (kept (local_type resolved.now.generic target.ty) target.slot m y))) }
    ensures rests { OnOk result (rests_of scene.new ≡ rests_of scene.old) }
{
    match change(op, local(scene, target.slot), x) {
        Ok(y) => {
            keep_local(
                scene,
                local_type(resolved.generic, target.ty),
                target.slot,
                y,
            );
            Ok(())
        }
        Err(fault) => Err(fault),
    }
}

/// A store to an element of an argument.
#[inline(always)]
fn put(
    resolved: &Resolved,
    scene: &mut Scene,
    loops: &[u32; MOST_DIM_NAMES],
    number: usize,
    entries: &[Entry],
    op: Option<BinaryOp>,
    x: i64,
) -> Result<(), Fault>
    requires written { (d : Kind) → is_written (get_or (kinds_of scene.old) number d).role ≡ true }
    requires over { IsTreeOver (kinds_of scene.old) (access number (indices_of entries.now)) }
    requires whole { All IsWhole (rests_of scene.old) }
    ensures store { let m = store_of scene.old in
        Becomes result (store_of scene.new)
        (and_then (indices resolved.now.sizes loops.now m (indices_of entries.now) start)
        (λ is. and_then (assigned (argument m number) op x is) (with_argument m number))) }
    ensures rests { OnOk result (rests_of scene.new ≡ rests_of scene.old) }
{
    shape_laws();
    match place(resolved, scene, loops, argument_at(scene, number), entries) {
        Ok(found) => assign_in(&mut scene.arguments, number, op, x, found),
        Err(fault) => Err(fault),
    }
}

/// The body for each index of a dimension, in order.
#[cycle(run)]
fn repeat(
    resolved: &Resolved,
    scene: &mut Scene,
    loops: &[u32; MOST_DIM_NAMES],
    dimension: usize,
    body: &[Stmt],
) -> Result<(), Fault>
    requires over { IsCodeOver (kinds_of scene.old) (code_of body.now) }
    requires whole { All IsWhole (rests_of scene.old) }
    ensures store { Becomes result (store_of scene.new)
        (turns (λ i now. run resolved.now (slice_set loops.now dimension i) (code_of body.now) now)
        0 (size_in resolved.now.sizes dimension) (store_of scene.old)) }
    ensures rests { OnOk result (rests_of scene.new ≡ rests_of scene.old) }
{
    let mut here = *loops;
    for i in 0..size_in(resolved, dimension) {
        set_index(&mut here, dimension, i);
        match turn(resolved, scene, &here, body) {
            Ok(()) => {}
            Err(fault) => return Err(fault),
        }
    }
    Ok(())
}

/// One turn of a loop: its statements in order, until a fault.
#[cycle(run)]
#[inline(always)]
fn turn(
    resolved: &Resolved,
    scene: &mut Scene,
    loops: &[u32; MOST_DIM_NAMES],
    code: &[Stmt],
) -> Result<(), Fault>
    requires over { IsCodeOver (kinds_of scene.old) (code_of code.now) }
    requires whole { All IsWhole (rests_of scene.old) }
    ensures store { Becomes result (store_of scene.new)
        (run resolved.now loops.now (code_of code.now) (store_of scene.old)) }
    ensures rests { OnOk result (rests_of scene.new ≡ rests_of scene.old) }
{
    for stmt in code {
        match step_in_line(resolved, scene, loops, stmt) {
            Ok(()) => {}
            Err(fault) => return Err(fault),
        }
    }
    Ok(())
}

/// Statements in order, until a fault.
#[cycle(run)]
pub fn run(
    resolved: &Resolved,
    scene: &mut Scene,
    loops: &[u32; MOST_DIM_NAMES],
    code: &[Stmt],
) -> Result<(), Fault>
    requires over { IsCodeOver (kinds_of scene.old) (code_of code.now) }
    requires whole { All IsWhole (rests_of scene.old) }
    ensures store { Becomes result (store_of scene.new)
        (run resolved.now loops.now (code_of code.now) (store_of scene.old)) }
    ensures rests { OnOk result (rests_of scene.new ≡ rests_of scene.old) }
{
    for stmt in code {
        match step(resolved, scene, loops, stmt) {
            Ok(()) => {}
            Err(fault) => return Err(fault),
        }
    }
    Ok(())
}
