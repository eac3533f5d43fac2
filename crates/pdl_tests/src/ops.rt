//! Values worked out by hand.
ghost use Rattle.std.specs.Prelude.{◌≡◌, length};
ghost use Rattle.pdl_shape.specs.Shape.{size_of};

use crate::arrays::{is_array, numbers, shape, whole};
use crate::comparing::{same, same_list};
use pdl_buf::{Buf, Made, Strided};
use pdl_elem::{BinaryOp, Ty, UnaryOp};
use pdl_lexemes::AssignOp;
use pdl_ops::*;
use std::alloc::Global;
use std::process::Abort;

// An operator on an array and a buffer as one of these sizes.
fn worked(
    rt: &impl Abort,
    alloc: Global,
    op: BinaryOp,
    left: &Strided<'_>,
    right: &Buf,
    sizes: &[u32],
) -> Result<Made, OpFault>
    requires { length right.now.elems ≡ size_of sizes.now }
{
    elementwise(alloc, op, left, &whole(rt, alloc, right, sizes))
}

// Three bytes less two shorts, along dimensions 0 and 1.
fn subtracts(rt: &impl Abort, alloc: Global, bytes: &Strided<'_>, shorts: &Buf)
    requires { length shorts.now.elems ≡ 2 }
{
    let made = worked(rt, alloc, BinaryOp::Sub, bytes, shorts, &[1, 2]).expect(rt, "values");
    let values = [240, -9, -8, -50, -299, -298];
    is_array(rt, alloc, &made, Ty::Short, &[3, 2], &values);
}

#[test]
fn works_over_joined_dimensions(rt: HostRuntime) {
    let rt = &rt;
    let bytes = numbers(rt, rt.alloc(), Ty::Byte, &[250, 1, 2]);
    let shorts = numbers(rt, rt.alloc(), Ty::Short, &[10, 300]);
    subtracts(
        rt,
        rt.alloc(),
        &whole(rt, rt.alloc(), &bytes, &[3]),
        &shorts,
    );
}

// The fault of two numbers by three, along dimensions 0 and 1.
fn divides(rt: &impl Abort, alloc: Global, two: &Strided<'_>, divisors: &Buf) -> Option<OpFault>
    requires { length divisors.now.elems ≡ 3 }
{
    worked(rt, alloc, BinaryOp::Div, two, divisors, &[1, 3]).err()
}

#[test]
fn refuses_in_broadcast_order(rt: HostRuntime) {
    let rt = &rt;
    let two = numbers(rt, rt.alloc(), Ty::Long, &[7, -7]);
    let divisors = numbers(rt, rt.alloc(), Ty::Long, &[2, 0, 0]);
    let fault = divides(
        rt,
        rt.alloc(),
        &whole(rt, rt.alloc(), &two, &[2]),
        &divisors,
    );
    same(rt, fault, Some(OpFault::DivideByZero { place: 2 }));
}

fn negates(rt: &impl Abort, alloc: Global, three: &Strided<'_>) {
    let negated = unary_each(alloc, UnaryOp::Neg, three).expect(rt, "memory");
    is_array(rt, alloc, &negated, Ty::Short, &[3], &[-10, -300, -32768]);
}

fn converts(rt: &impl Abort, alloc: Global, three: &Strided<'_>) {
    let bytes = convert(alloc, Ty::Byte, three).expect(rt, "memory");
    is_array(rt, alloc, &bytes, Ty::Byte, &[3], &[10, 44, 0]);
}

#[test]
fn changes_each_element(rt: HostRuntime) {
    let rt = &rt;
    let shorts = numbers(rt, rt.alloc(), Ty::Short, &[10, 300, -32768]);
    let three = whole(rt, rt.alloc(), &shorts, &[3]);
    negates(rt, rt.alloc(), &three);
    converts(rt, rt.alloc(), &three);
}

#[test]
fn fills(rt: HostRuntime) {
    let rt = &rt;
    let plane = shape(rt, rt.alloc(), &[2, 2]);
    let made = fill(rt.alloc(), Fill::Yvals, Ty::Byte, &plane).expect(rt, "memory");
    is_array(rt, rt.alloc(), &made, Ty::Byte, &[2, 2], &[0, 0, 1, 1]);
}

// What a row keeps when three numbers of dimensions 3, 1 and 1 are added to it.
fn added(
    rt: &impl Abort,
    alloc: Global,
    row: &Strided<'_>,
    value: &Buf,
) -> Result<Vec<i64>, OpFault>
    requires { length value.now.elems ≡ 3 }
{
    let further = whole(rt, alloc, value, &[3, 1, 1]);
    let sign = AssignOp::With(BinaryOp::Add);
    let values = values_for(alloc, sign, row, &further, Keeping::Packed)?;
    Ok(values.into_vec(alloc)?)
}

// Three shorts are added to three bytes.
fn adds(rt: &impl Abort, alloc: Global, bytes: &Buf, shorts: &Buf)
    requires bytes { length bytes.now.elems ≡ 3 }
    requires shorts { length shorts.now.elems ≡ 3 }
{
    let row = whole(rt, alloc, bytes, &[3]);
    let values = added(rt, alloc, &row, shorts).expect(rt, "values");
    same_list(rt, values.as_slice(), &[4, 21, 46]);
}

#[test]
fn takes_further_sizes_of_one(rt: HostRuntime) {
    let rt = &rt;
    let bytes = numbers(rt, rt.alloc(), Ty::Byte, &[250, 1, 2]);
    let shorts = numbers(rt, rt.alloc(), Ty::Short, &[10, 20, 300]);
    adds(rt, rt.alloc(), &bytes, &shorts);
}
