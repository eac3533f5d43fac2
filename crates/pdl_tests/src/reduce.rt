//! Each call once, with values worked out by hand and the product of NumPy. The scripts of
//! `pdl_cases` have many more.
ghost use Rattle.std.specs.Prelude.{◌≡◌, length};

use crate::arrays::{is_array, numbers, whole};
use pdl_buf::{Buf, Made};
use pdl_elem::Ty;
use pdl_reduce::*;
use std::alloc::Global;
use std::process::Abort;

// The sums of two rows of three numbers.
fn sums(rt: &impl Abort, alloc: Global, buf: &Buf) -> Result<Made, ReduceFault>
    requires { length buf.now.elems ≡ 6 }
{
    let plane = whole(rt, alloc, buf, &[3, 2]);
    reduce(alloc, Reduction::Sumover, &plane)
}

#[test]
fn reduces_rows(rt: HostRuntime) {
    let rt = &rt;
    let buf = numbers(rt, rt.alloc(), Ty::Short, &[5, -1, 5, 300, 2, 7]);
    let made = sums(rt, rt.alloc(), &buf).expect(rt, "sums");
    is_array(rt, rt.alloc(), &made, Ty::Long, &[2], &[9, 309]);
}

// The sum of a plane of six numbers.
fn sum(rt: &impl Abort, alloc: Global, buf: &Buf) -> Result<Made, ReduceFault>
    requires { length buf.now.elems ≡ 6 }
{
    let plane = whole(rt, alloc, buf, &[2, 3]);
    reduce_whole(alloc, Whole::Sum, &plane)
}

#[test]
fn reduces_whole_arrays(rt: HostRuntime) {
    let rt = &rt;
    let buf = numbers(rt, rt.alloc(), Ty::Long, &[0, 1, 2, 3, 4, 5]);
    let made = sum(rt, rt.alloc(), &buf).expect(rt, "a sum");
    is_array(rt, rt.alloc(), &made, Ty::Long, &[], &[15]);
}

// The product of two planes of four numbers.
fn product(rt: &impl Abort, alloc: Global, left: &Buf, right: &Buf) -> Result<Made, ReduceFault>
    requires left { length left.now.elems ≡ 4 }
    requires right { length right.now.elems ≡ 4 }
{
    let one = whole(rt, alloc, left, &[2, 2]);
    let other = whole(rt, alloc, right, &[2, 2]);
    pair(alloc, Pairing::Matmult, &one, &other)
}

#[test]
fn multiplies(rt: HostRuntime) {
    let rt = &rt;
    let left = numbers(rt, rt.alloc(), Ty::Byte, &[1, 2, 3, 4]);
    let right = numbers(rt, rt.alloc(), Ty::Long, &[5, 6, 7, 8]);
    let made = product(rt, rt.alloc(), &left, &right).expect(rt, "a product");
    is_array(rt, rt.alloc(), &made, Ty::Long, &[2, 2], &[19, 22, 43, 50]);
}
