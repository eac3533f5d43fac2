//! Calls of kernels (PDL::PP).
ghost use Rattle.std.specs.Prelude.{◌≡◌, ◌+◌, ◌≤◌, true, false, [], length, map, sum_by, All, IfOk, OnOk, Ok};
ghost use Rattle.std.specs.List.{filter};
ghost use Rattle.pdl_buf.specs.Made.{IsMade};
ghost use Rattle.pdl_engine.specs.Reading.{read_steps};
ghost use Rattle.pdl_engine.specs.State.{is_fresh, SameArrays, StayFresh};
ghost use Rattle.pdl_sig.specs.Resolution.{is_output, resolution};
ghost use Rattle.pdl_sig.specs.declared.SigArg.{SigArg};
ghost use Rattle.pdl_world.specs.Sound.{IsLive};
ghost use Rattle.pdl_machine.specs.Kernels.{called_on, outputs_by, outputs_count, resolve_fault};
ghost use Rattle.pdl_machine.specs.Refused.{or_named};
ghost use Rattle.pdl_scope.specs.Answers.{Answers, AnswersAs};
ghost use Rattle.pdl_scope.specs.Costs.{can_run};
ghost use Rattle.pdl_scope.specs.Scope.{made_in, shape_in};

use crate::fault::ScopeFault;
use crate::reading::ready;
use pdl_buf::{Made, Steps};
use pdl_engine::{ArrayId, Engine};
use pdl_kernel::{Kernel, KernelRun, kernel_signature};
use pdl_machine::Fault;
use pdl_shape::copy_dims;
use pdl_sig::{ArgShape, Resolved, SigArg, Signature, is_output, resolve};
use std::alloc::{AllocError, Global};
use std::sync::ledger::Ledger;

/// What the call of a kernel gives for arrays, of which so many outputs are wanted. Where it can run
/// on them they are made ready to be lent, one after another, in at most the steps that it takes to
/// read each of them.
pub(crate) fn kernel_outputs<L: Ledger>(
    alloc: Global,
    kernel: &Kernel,
    engine: &mut Engine,
    wanted: usize,
    ids: &[ArrayId],
    steps: &mut Steps<L>,
) -> Result<Vec<Made>, ScopeFault>
    requires { All (IsLive engine.old.world) ids.now }
    ensures value { let arrays = map (made_in engine.old) ids.now in
        AnswersAs (λ ms. ms.items) (outputs_by wanted arrays kernel.now) result }
    ensures made { IfOk result (λ ms. All (λ m. IsMade m.ty m.dims m.elems) ms.items) }
    ensures same { SameArrays engine.old engine.new }
    ensures stay { StayFresh engine.old engine.new }
    ensures counted { steps.new ≤ steps.old + sum_by (read_steps engine.old) ids.now }
    ensures unmoved { can_run kernel.now wanted (map (shape_in engine.old) ids.now) ≡ false
        → (engine.new ≡ engine.old) × (steps.new ≡ steps.old) }
{
    if outputs_count(kernel_signature(kernel)) != wanted {
        return Err(ScopeFault::Script(Fault::WrongArguments));
    }
    let resolved = resolved_on(alloc, kernel, engine, ids)?;
    ready_all(engine, ids, steps)?;
    called_on(alloc, kernel, resolved, engine, ids)
}

/// How many outputs a call has.
fn outputs_count(signature: &Signature) -> usize
    ensures { result ≡ outputs_count signature.now }
{
    count_outputs(signature.args.as_slice())
}

/// How many of these arguments are outputs. A signature has 16 arguments at most.
fn count_outputs(args: &[SigArg]) -> usize
    ensures count { result ≡ length (filter (λ (a : SigArg). is_output a.role) args.now) }
    ensures within { result ≤ length args.now }
{
    match args {
        [] => 0,
        [first, rest @ ..] if is_output(first.role) => 1 + count_outputs(rest),
        [_, rest @ ..] => count_outputs(rest),
    }
}

/// Makes arrays ones that can be lent.
fn ready_all<L: Ledger>(
    engine: &mut Engine,
    ids: &[ArrayId],
    steps: &mut Steps<L>,
) -> Result<(), AllocError>
    requires { All (IsLive engine.old.world) ids.now }
    ensures same { SameArrays engine.old engine.new }
    ensures stay { StayFresh engine.old engine.new }
    ensures fresh { OnOk result (All (λ v. is_fresh engine.new v ≡ true) ids.now) }
    ensures counted { steps.new ≤ steps.old + sum_by (read_steps engine.old) ids.now }
{
    for id in ids {
        ready(engine, *id, steps)?;
    }
    Ok(())
}

/// What the shapes of arrays resolve to in a kernel's signature.
fn resolved_on(
    alloc: Global,
    kernel: &Kernel,
    engine: &Engine,
    ids: &[ArrayId],
) -> Result<Resolved, ScopeFault>
    requires { All (IsLive engine.now.world) ids.now }
    ensures { let shapes = map (shape_in engine.now) ids.now in
        Answers (or_named resolve_fault (resolution kernel.now.signature shapes)) result }
{
    let shapes = shapes_of(alloc, engine, ids)?;
    match resolve(alloc, kernel_signature(kernel), &shapes) {
        Ok(resolved) => Ok(resolved),
        Err(fault) => Err(ScopeFault::from(fault)),
    }
}

/// What a kernel gives for arrays that can be lent, and whose shapes resolve so.
fn called_on(
    alloc: Global,
    kernel: &Kernel,
    resolved: Resolved,
    engine: &Engine,
    ids: &[ArrayId],
) -> Result<Vec<Made>, ScopeFault>
    requires live { All (IsLive engine.now.world) ids.now }
    requires fresh { All (λ v. is_fresh engine.now v ≡ true) ids.now }
    requires resolved { let shapes = map (shape_in engine.now) ids.now in
        resolution kernel.now.signature shapes ≡ Ok resolved }
    ensures value { let arrays = map (made_in engine.now) ids.now in
        AnswersAs (λ ms. ms.items) (called_on kernel.now arrays) result }
    ensures made { IfOk result (λ ms. All (λ m. IsMade m.ty m.dims m.elems) ms.items) }
{
    let mut run = KernelRun::begin(alloc, kernel, resolved)?;
    give_all(&mut run, engine, ids)?;
    match run.finish() {
        Ok(outputs) => Ok(outputs),
        Err(fault) => Err(ScopeFault::from(fault)),
    }
}

/// The types and dimensions of arrays.
fn shapes_of(alloc: Global, engine: &Engine, ids: &[ArrayId]) -> Result<Vec<ArgShape>, AllocError>
    requires { All (IsLive engine.now.world) ids.now }
    ensures { IfOk result (λ shapes. shapes.items ≡ map (shape_in engine.now) ids.now) }
{
    let mut shapes = Vec::with_capacity(alloc, ids.len())?;
    for id in ids {
        shapes.push(ArgShape {
            ty: engine.ty(*id),
            dims: copy_dims(engine.dims(*id)),
        })?;
    }
    Ok(shapes)
}

/// Gives a call its arguments, which can be lent.
fn give_all(run: &mut KernelRun<'_>, engine: &Engine, ids: &[ArrayId]) -> Result<(), AllocError>
    requires live { All (IsLive engine.now.world) ids.now }
    requires fresh { All (λ v. is_fresh engine.now v ≡ true) ids.now }
    requires first { run.old.given ≡ [] }
    requires resolved { let shapes = map (shape_in engine.now) ids.now in
        resolution run.old.kernel.signature shapes ≡ Ok run.old.resolved }
    ensures { let arrays = map (made_in engine.now) ids.now in
        OnOk result (run.new ≡ record run.old { given = arrays }) }
{
    for id in ids {
        run.give(&engine.lend(*id))?;
    }
    Ok(())
}
