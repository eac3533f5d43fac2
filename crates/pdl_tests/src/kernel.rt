//! Calls of kernels that were read from their texts, over values worked out by hand.
ghost use Rattle.std.specs.Prelude.{◌≡◌, ◌<◌, ◌^◌, [], length, All};
ghost use Rattle.pdl_elem.specs.Types.{InRange};
ghost use Rattle.pdl_elem.specs.declared.Ty.TheVariants.{Long};
ghost use Rattle.pdl_shape.specs.Shape.{size_of};
ghost use Rattle.pdl_kernel.specs.Runs.{IsNext, IsResolved, with_next};

use crate::arrays::{is_array, numbers, whole};
use crate::comparing::same;
use pdl_buf::{Buf, Made, Strided, strided_dims, strided_type};
use pdl_elem::Ty;
use pdl_kernel::*;
use pdl_shape::copy_dims;
use pdl_sig::{ArgShape, Resolved, read_signature, resolve};
use std::alloc::Global;
use std::process::Abort;

// The kernel of two texts.
fn kernel(rt: &impl Abort, alloc: Global, signature: &[u8], code: &[u8]) -> Kernel
    requires { length code.now < 2 ^ 32 }
{
    let signature = read_signature(alloc, signature).expect(rt, "a signature");
    read_kernel(alloc, signature, code).expect(rt, "code")
}

// The type and dimensions of an argument.
fn shape_of(array: &Strided<'_>) -> ArgShape
    ensures { result ≡ record { ty = array.now.ty; dims = array.now.dims } }
{
    ArgShape {
        ty: strided_type(array),
        dims: copy_dims(strided_dims(array)),
    }
}

// A call that is handed nothing yet.
fn begun<'k>(
    rt: &impl Abort,
    alloc: Global,
    kernel: &'k Kernel,
    resolved: Resolved,
) -> KernelRun<'k>
    requires { IsResolved kernel.now.signature resolved }
    ensures { result ≡ record { kernel = kernel.now; resolved = resolved; given = [] } }
{
    KernelRun::begin(alloc, kernel, resolved).expect(rt, "memory")
}

// Hands a call its next argument.
fn hand(rt: &impl Abort, run: &mut KernelRun<'_>, array: &Strided<'_>)
    requires { IsNext run.old array.now }
    ensures { run.new ≡ with_next run.old array.now }
{
    run.give(array).expect(rt, "memory");
}

// What a kernel answers for one array.
fn over_one(
    rt: &impl Abort,
    alloc: Global,
    kernel: &Kernel,
    array: &Strided<'_>,
) -> Result<Vec<Made>, RunFault> {
    let shapes = [shape_of(array)];
    let resolved = resolve(alloc, kernel_signature(kernel), &shapes).expect(rt, "sizes");
    let mut run = begun(rt, alloc, kernel, resolved);
    hand(rt, &mut run, array);
    run.finish()
}

// The same for an array of a buffer.
fn over_buffer(
    rt: &impl Abort,
    alloc: Global,
    kernel: &Kernel,
    buf: &Buf,
    sizes: &[u32],
) -> Result<Vec<Made>, RunFault>
    requires { length buf.now.elems ≡ size_of sizes.now }
{
    let array = whole(rt, alloc, buf, sizes);
    over_one(rt, alloc, kernel, &array)
}

// The one output is an array of type long of these sizes and elements.
fn is_output(rt: &impl Abort, alloc: Global, outputs: &[Made], sizes: &[u32], elems: &[i64]) {
    assert!(rt; outputs.len() == 1);
    is_array(rt, alloc, &outputs[0], Ty::Long, sizes, elems);
}

#[test]
fn sums_of_rows(rt: HostRuntime) {
    let rt = &rt;
    let code = b"loop(n) %{ $b() += $a(); %}";
    let total = kernel(rt, rt.alloc(), b"a(n); int+ [o]b()", code);
    let buf = numbers(rt, rt.alloc(), Ty::Long, &[0, 1, 2, 3, 4, 5]);
    let outputs = over_buffer(rt, rt.alloc(), &total, &buf, &[3, 2]).expect(rt, "sums");
    is_output(rt, rt.alloc(), &outputs, &[2], &[3, 12]);
}

// The fault of 1 by each of four numbers in a plane.
fn divides(rt: &impl Abort, alloc: Global, divisors: &[i64; 4]) -> Option<RunFault>
    requires { All (InRange Long) divisors.now }
{
    let inverse = kernel(rt, alloc, b"a(); [o]b()", b"$b() = 1 / $a();");
    let buf = numbers(rt, alloc, Ty::Long, divisors);
    over_buffer(rt, alloc, &inverse, &buf, &[2, 2]).err()
}

// The first of two faults; and one at place 2 where dimension 0 moves on first, which would stand
// at place 1 where the last dimension did.
#[test]
fn the_first_fault_in_broadcast_order(rt: HostRuntime) {
    let rt = &rt;
    let first = divides(rt, rt.alloc(), &[1, 0, 0, 1]);
    same(rt, first, Some(RunFault::DivideByZero { place: 1 }));
    let only = divides(rt, rt.alloc(), &[1, 1, 0, 1]);
    same(rt, only, Some(RunFault::DivideByZero { place: 2 }));
}
