//! An operator on two windows of as many elements: run by run where that goes, and in blocks else.
ghost use Rattle.std.specs.Prelude.{◌≡◌, ◌≢◌, ◌+◌, ◌++◌, ◌*◌, ◌<◌, ◌≤◌, pos, [], length, map, Ok, None, All, IsTrue, IfOk, IfSome, OnOk};
ghost use Rattle.pdl_elem.specs.Blocks.{pairwise, zero_at};
ghost use Rattle.pdl_elem.specs.Numbers.{wrapped};
ghost use Rattle.pdl_elem.specs.Operators.{divides, value_of};
ghost use Rattle.pdl_elem.specs.Types.{InRange, binary_result};
ghost use Rattle.pdl_ops.specs.Answers.{Answers};
ghost use Rattle.pdl_ops.specs.Elementwise.{operands_from, values_of};

use crate::OpFault;
use crate::operands::{block_of, read_operand};
use crate::runs::begin_values;
use pdl_buf::{Packing, Strided, strided_dims};
use pdl_elem::{BinaryOp, Ty, apply_all, binary_type, first_refused, operator_laws};
use pdl_shape::elements_of;
use std::alloc::{AllocError, Global};

/// For so many elements the operands and the values find room without an allocation.
pub(crate) const FEW: usize = 16;

/// Puts the operator's values at the type on each two numbers of it into a packing of the type that
/// they have. They are packed as they are found where this is the type itself. `values` is room for
/// as many.
fn put_values(
    op: BinaryOp,
    ty: Ty,
    left: &[i64],
    right: &[i64],
    values: &mut [i64],
    made: &mut Packing,
) -> Result<(), AllocError>
    requires left { length left.now ≡ length values.old }
    requires right { length right.now ≡ length values.old }
    requires left_in_range { All (InRange ty) left.now }
    requires right_in_range { All (InRange ty) right.now }
    requires divisors { IsTrue (divides op) → All (λ y. y ≢ pos 0) right.now }
    requires result_type { made.old.ty ≡ binary_result op ty ty }
    ensures made { let values = pairwise (value_of op ty) left.now right.now in
        OnOk result (made.new ≡ record made.old { elems = made.old.elems ++ values }) }
    ensures length { length values.new ≡ length values.old }
{
    if binary_type(op, ty, ty) == ty {
        made.extend_values(op, left, right)
    } else {
        apply_all(op, ty, left, right, values);
        made.extend(values)
    }
}

/// Puts the operator's values at the type on so many elements of two windows from a position on, of
/// which there are enough, into a packing of the type that they have. The room is three times as
/// long: for the operands, and for the values behind them. Where the operator divides and some
/// divisor is 0, it puts none and answers the place of the first one in the block.
fn put_block(
    op: BinaryOp,
    ty: Ty,
    a: &Strided<'_>,
    b: &Strided<'_>,
    first: u32,
    count: usize,
    room: &mut [i64],
    made: &mut Packing,
) -> Result<Option<usize>, AllocError>
    requires room { length room.old ≡ 3 * count }
    requires a_within { first + count ≤ length a.now.elems }
    requires b_within { first + count ≤ length b.now.elems }
    requires result_type { made.old.ty ≡ binary_result op ty ty }
    ensures refused { let ys = operands_from ty first count b.now.elems in
        IfOk result (λ found. found ≡ zero_at op ys) }
    ensures made { let xs = operands_from ty first count a.now.elems in
        let ys = operands_from ty first count b.now.elems in
        let elems = made.old.elems ++ pairwise (value_of op ty) xs ys in
        IfOk result (λ found. found ≡ None → made.new ≡ record made.old { elems = elems }) }
    ensures kept { IfOk result (λ found. IfSome found (λ place. made.new ≡ made.old)) }
    ensures length { length room.new ≡ 3 * count }
{
    let (left, rest) = room.split_at_mut(count);
    let (right, values) = rest.split_at_mut(count);
    read_operand(a, ty, first, left);
    read_operand(b, ty, first, right);
    match first_refused(op, right) {
        Some(place) => Ok(Some(place)),
        None => {
            put_values(op, ty, left, right, values, made)?;
            Ok(None)
        }
    }
}

/// The operator's values at the type on the elements of two windows of so many elements each,
/// wrapped to the type. They are put into a packing of the type that they have, which is empty. It
/// answers `DivideByZero` and `NoMemory` alone.
pub(crate) fn values(
    alloc: Global,
    op: BinaryOp,
    ty: Ty,
    a: &Strided<'_>,
    b: &Strided<'_>,
    count: usize,
    made: Packing,
) -> Result<Packing, OpFault>
    requires paired { length a.now.elems ≡ length b.now.elems }
    requires count { count ≡ length b.now.elems }
    requires empty { made ≡ record { ty = binary_result op ty ty; elems = [] } }
    ensures value { let xs = map (wrapped ty) a.now.elems in
        let ys = map (wrapped ty) b.now.elems in
        Answers (λ made. made.elems) (values_of op ty xs ys) result }
    ensures in_range { IfOk result (λ made. All (InRange (binary_result op ty ty)) made.elems) }
    ensures count { IfOk result (λ made. length made.elems ≡ length b.now.elems) }
{
    if count <= FEW {
        values_within(op, ty, a, b, made, 0, FEW, &mut [0; 3 * FEW])
    } else {
        many_values(alloc, op, ty, a, b, made)
    }
}

/// What `values` answers of more elements: run by run where that goes, and the others in blocks. It
/// stays a call: in line it would make the frame of each operator large.
#[inline(never)]
fn many_values(
    alloc: Global,
    op: BinaryOp,
    ty: Ty,
    a: &Strided<'_>,
    b: &Strided<'_>,
    mut made: Packing,
) -> Result<Packing, OpFault>
    requires paired { length a.now.elems ≡ length b.now.elems }
    requires some { 0 < length b.now.elems }
    requires empty { made ≡ record { ty = binary_result op ty ty; elems = [] } }
    ensures value { let xs = map (wrapped ty) a.now.elems in
        let ys = map (wrapped ty) b.now.elems in
        Answers (λ made. made.elems) (values_of op ty xs ys) result }
    ensures in_range { IfOk result (λ made. All (InRange (binary_result op ty ty)) made.elems) }
    ensures count { IfOk result (λ made. length made.elems ≡ length b.now.elems) }
{
    let count = elements_of(strided_dims(b)) as usize;
    let begun = begin_values(op, ty, a, b, &mut made)?;
    let block = (count - begun).min(block_of(a).max(block_of(b)));
    let mut room = vec![in alloc; 0; 3 * block]?;
    values_within(op, ty, a, b, made, begun, block, &mut room)
}

/// What `values` answers, where so many values are put already: the others are found in blocks of
/// so many at most, in a room for the operands and the values of one. It is in line at both of its
/// calls, since that for a few elements knows `begun` and `block`.
#[inline(always)]
fn values_within(
    op: BinaryOp,
    ty: Ty,
    a: &Strided<'_>,
    b: &Strided<'_>,
    mut made: Packing,
    begun: usize,
    block: usize,
    room: &mut [i64],
) -> Result<Packing, OpFault>
    requires paired { length a.now.elems ≡ length b.now.elems }
    requires within { begun ≤ length b.now.elems }
    requires typed { made.ty ≡ binary_result op ty ty }
    requires begun { let xs = operands_from ty 0 begun a.now.elems in
        let ys = operands_from ty 0 begun b.now.elems in
        values_of op ty xs ys ≡ Ok made.elems }
    requires some { begun < length b.now.elems → 0 < block }
    requires room { 3 * block ≤ length room.old }
    ensures value { let xs = map (wrapped ty) a.now.elems in
        let ys = map (wrapped ty) b.now.elems in
        Answers (λ made. made.elems) (values_of op ty xs ys) result }
    ensures in_range { IfOk result (λ made. All (InRange (binary_result op ty ty)) made.elems) }
    ensures count { IfOk result (λ made. length made.elems ≡ length b.now.elems) }
{
    operator_laws();
    let count = elements_of(strided_dims(b)) as usize;
    let mut done = begun;
    while done < count {
        let size = (count - done).min(block);
        let found = put_block(
            op,
            ty,
            a,
            b,
            done as u32,
            size,
            &mut room[..3 * size],
            &mut made,
        )?;
        if let Some(place) = found {
            return Err(OpFault::DivideByZero {
                place: (done + place) as u32,
            });
        }
        done += size;
    }
    Ok(made)
}
