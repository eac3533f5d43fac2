//! The code at each broadcast place, in broadcast order.
ghost use Rattle.std.specs.Prelude.{◌≡◌, length, map, pos, replicate, All, OnOk, Some};
ghost use Rattle.pdl_shape.specs.Shape.{size_of};
ghost use Rattle.pdl_sig.specs.Refusals.{dim_names_limit};
ghost use Rattle.pdl_code.specs.TreeOf.{code_of};
ghost use Rattle.pdl_kernel.specs.Answers.{Becomes};
ghost use Rattle.pdl_kernel.specs.Call.{fault_at, fault_named, stores_from};
ghost use Rattle.pdl_kernel.specs.Collecting.{Collected, IsLaid};
ghost use Rattle.pdl_kernel.specs.Meaning.{run};
ghost use Rattle.pdl_kernel.specs.Over.{IsCodeOver};
ghost use Rattle.pdl_kernel.specs.Places.{IsWhole, begun_at};
ghost use Rattle.pdl_kernel.specs.Scenes.{kinds_of, left_in_order, rests_at, rests_of, starting, store_of};

use crate::argument::Argument;
use crate::faults::{Fault, RunFault};
use crate::scene::Scene;
use crate::steps::run;
use pdl_broadcast::BroadcastWalk;
use pdl_code::Stmt;
use pdl_shape::{elements_of, shape_laws};
use pdl_sig::{MOST_DIM_NAMES, Resolved};
use std::alloc::Global;

/// The windows at other broadcast coordinates.
fn begin_all(arguments: &mut Vec<Argument>, coordinates: &[u32])
    ensures { arguments.new.items ≡ map (begun_at coordinates.now) arguments.old.items }
{
    for i in 0..arguments.len() {
        let argument = &mut arguments[i];
        argument.begin_at(coordinates);
    }
}

/// Zeros.
fn clear(locals: &mut Vec<i64>)
    ensures { locals.new.items ≡ replicate (length locals.old.items) (pos 0) }
{
    locals.fill(0);
}

/// What code finds at broadcast coordinates.
fn start_at(scene: &mut Scene, coordinates: &[u32])
    ensures store { store_of scene.new ≡ starting coordinates.now scene.old }
    ensures rests { rests_of scene.new ≡ rests_at coordinates.now scene.old }
{
    begin_all(&mut scene.arguments, coordinates);
    clear(&mut scene.locals);
}

/// The code at broadcast coordinates.
fn at_place(
    resolved: &Resolved,
    scene: &mut Scene,
    code: &[Stmt],
    coordinates: &[u32],
) -> Result<(), Fault>
    requires over { IsCodeOver (kinds_of scene.old) (code_of code.now) }
    requires whole { All IsWhole (rests_at coordinates.now scene.old) }
    ensures store { Becomes result (store_of scene.new) (run resolved.now (replicate dim_names_limit 0)
        (code_of code.now) (starting coordinates.now scene.old)) }
    ensures rests { OnOk result (rests_of scene.new ≡ rests_at coordinates.now scene.old) }
{
    start_at(scene, coordinates);
    run(resolved, scene, &[0; MOST_DIM_NAMES], code)
}

/// A fault of code, with the broadcast place that has it.
fn fault_at(place: u32, fault: Fault) -> RunFault
    ensures { fault_named result ≡ Some (fault_at place fault) }
{
    match fault {
        Fault::DivideByZero => RunFault::DivideByZero { place },
        Fault::IndexOutOfRange => RunFault::IndexOutOfRange { place },
    }
}

/// What code leaves in the arguments at all broadcast places, in order, or the first fault.
pub fn collect(
    alloc: Global,
    resolved: &Resolved,
    scene: &mut Scene,
    code: &[Stmt],
) -> Result<(), RunFault>
    requires over { IsCodeOver (kinds_of scene.old) (code_of code.now) }
    requires laid { All (IsLaid resolved.now.broadcast) scene.old.arguments.items }
    ensures { let left = left_in_order resolved.now (code_of code.now) scene.old in
        Collected result scene.old.arguments.items scene.new.arguments.items
        (stores_from left 0 (size_of resolved.now.broadcast)) }
{
    shape_laws();
    let mut walk = BroadcastWalk::new(alloc, &resolved.broadcast)?;
    for place in 0..elements_of(&resolved.broadcast) {
        match at_place(resolved, scene, code, walk.coordinates()) {
            Ok(()) => {}
            Err(fault) => return Err(fault_at(place, fault)),
        }
        walk.next();
    }
    Ok(())
}
