//! A whole call.
ghost use Rattle.std.specs.Prelude.{◌≡◌, All, IfOk};
ghost use Rattle.pdl_buf.specs.Made.{IsMade};
ghost use Rattle.pdl_kernel.specs.Answers.{Answers};
ghost use Rattle.pdl_kernel.specs.Call.{called};
ghost use Rattle.pdl_kernel.specs.Runs.{IsResolved};

use crate::faults::RunFault;
use crate::given::Given;
use crate::kernel::{Kernel, kernel_signature};
use crate::scene::Scene;
use crate::setup::{arguments, outputs};
use crate::walk::collect;
use pdl_buf::Made;
use pdl_elem::wrapping_laws;
use pdl_shape::shape_laws;
use pdl_sig::Resolved;
use pdl_sig::laws::resolutions_solve;
use std::alloc::Global;

/// The outputs of a call of a kernel over the given arrays, which it takes in order.
pub fn call(
    alloc: Global,
    kernel: &Kernel,
    resolved: &Resolved,
    given: &mut Vec<Given>,
) -> Result<Vec<Made>, RunFault>
    requires { IsResolved kernel.now.signature resolved.now }
    ensures outputs { Answers (called kernel.now resolved.now given.old.items) result }
    ensures made { IfOk result (λ outputs. All (λ made. IsMade made.ty made.dims made.elems)
        outputs.items) }
{
    resolutions_solve();
    shape_laws();
    wrapping_laws();
    let args = kernel_signature(kernel).args.as_slice();
    let mut scene = Scene {
        arguments: arguments(alloc, resolved, args, given)?,
        locals: vec![in alloc; 0; kernel.locals()]?,
    };
    match collect(alloc, resolved, &mut scene, kernel.stmts()) {
        Ok(()) => {
            let Scene { arguments, .. } = scene;
            Ok(outputs(alloc, resolved.shapes.as_slice(), arguments)?)
        }
        Err(fault) => Err(fault),
    }
}
