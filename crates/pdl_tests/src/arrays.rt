//! Arrays of given sizes and numbers, for the tests of the crates of arrays. Out of memory
//! the test ends here, so that it needs no `?`.
ghost use Rattle.std.specs.Prelude.{◌≡◌, ◌<◌, length, All, IfOk};
ghost use Rattle.pdl_elem.specs.Types.{InRange};
ghost use Rattle.pdl_shape.specs.Shape.{size_of};
ghost use Rattle.pdl_shape.specs.Triple.{IsTriple, Reaches};

use crate::comparing::{same, same_list};
use pdl_buf::{Buf, Made, NoMemory, Strided, buf_of, new_steps, strided};
use pdl_elem::Ty;
use pdl_shape::{Dims, Triple, dims_list, dims_of, triple_of, whole_triple};
use std::alloc::Global;
use std::marker::Brand;
use std::process::Abort;
use std::sync::ledger::{Blank, Ledger};

/// The dimensions of these sizes.
pub fn shape(rt: &impl Abort, alloc: Global, sizes: &[u32]) -> Dims
    ensures { result ≡ sizes.now }
{
    dims_of(alloc, sizes).expect(rt, "dimensions")
}

// A buffer of these numbers, whose elements are counted in a ledger.
fn counted<L: Ledger>(alloc: Global, blank: Blank, ty: Ty, elems: &[i64]) -> Result<Buf, NoMemory>
    requires name { blank.name ≡ L.name }
    requires parts { blank.parts ≡ L.parts }
    requires some { 0 < blank.parts }
    requires in_range { All (InRange ty) elems.now }
    ensures { IfOk result (λ buf. length buf.elems ≡ length elems.now) }
{
    let mut steps = new_steps::<L>(blank);
    buf_of(alloc, ty, elems, &mut steps)
}

// The same in a new ledger.
fn counted_anew(alloc: Global, ty: Ty, elems: &[i64]) -> Result<Buf, NoMemory>
    requires { All (InRange ty) elems.now }
    ensures { IfOk result (λ buf. length buf.elems ≡ length elems.now) }
{
    counted::<Brand>(alloc, Blank::new(1), ty, elems)
}

/// A buffer of these numbers.
pub fn numbers(rt: &impl Abort, alloc: Global, ty: Ty, elems: &[i64]) -> Buf
    requires { All (InRange ty) elems.now }
    ensures { length result.elems ≡ length elems.now }
{
    counted_anew(alloc, ty, elems).expect(rt, "memory")
}

/// The whole buffer as an array of these sizes.
pub fn whole<'a>(rt: &impl Abort, alloc: Global, buf: &'a Buf, sizes: &[u32]) -> Strided<'a>
    requires { length buf.now.elems ≡ size_of sizes.now }
{
    let dims = shape(rt, alloc, sizes);
    strided(buf, &whole_triple(alloc, &dims))
}

/// The triple of these numbers.
pub fn triple(rt: &impl Abort, alloc: Global, offset: u32, incs: &[i32], sizes: &[u32]) -> Triple
    requires { IsTriple (record { offset = offset; incs = incs.now; dims = sizes.now }) }
    ensures { result ≡ record { offset = offset; incs = incs.now; dims = sizes.now } }
{
    let dims = shape(rt, alloc, sizes);
    triple_of(alloc, offset, incs, &dims)
}

/// What such a triple shows of a buffer.
pub fn window<'a>(
    rt: &impl Abort,
    alloc: Global,
    buf: &'a Buf,
    offset: u32,
    incs: &[i32],
    sizes: &[u32],
) -> Strided<'a>
    requires triple { IsTriple (record { offset = offset; incs = incs.now; dims = sizes.now }) }
    requires inside { Reaches (record { offset = offset; incs = incs.now; dims = sizes.now })
        (length buf.now.elems) }
    ensures count { length result.elems ≡ size_of sizes.now }
    ensures dims { result.dims ≡ sizes.now }
    ensures kind { result.ty ≡ buf.now.ty }
{
    strided(buf, &triple(rt, alloc, offset, incs, sizes))
}

/// The array has this type, these sizes and these elements.
pub fn is_array(rt: &impl Abort, alloc: Global, made: &Made, ty: Ty, sizes: &[u32], elems: &[i64]) {
    let list = made.elems.to_vec(alloc).expect(rt, "memory");
    same(rt, made.ty, ty);
    same_list(rt, dims_list(&made.dims), sizes);
    same_list(rt, list.as_slice(), elems);
}
