//! What an assignment writes (PDL::Ops, PDL::Broadcasting).
ghost use Rattle.std.specs.Prelude.{◌≡◌, ◌≢◌, ◌+◌, ◌*◌, ◌<◌, ◌≤◌, [], length, take, true, All, Ok, Err, IfOk, is_ok};
ghost use Rattle.pdl_buf.specs.Made.{IsMade, array_of};
ghost use Rattle.pdl_elem.specs.Types.{InRange};
ghost use Rattle.pdl_shape.specs.Shape.{extent_limit};
ghost use Rattle.pdl_ops.specs.Answers.{Answers};
ghost use Rattle.pdl_ops.specs.Parts.{part_values};
ghost use Rattle.pdl_ops.specs.Values.{fits, values_for, new_values};
ghost use Rattle.pdl_ops.specs.declared.OpFault.TheVariants.{TooLarge};

use crate::OpFault;
use crate::blocks::FEW;
use crate::in_parts::{first_divisor, stretches, value_laws, values_part};
use crate::operands::block_of;
use pdl_buf::{Elements, Packing, Strided, stretched, strided_dims, strided_type};
use pdl_elem::Ty;
use pdl_lexemes::AssignOp;
use pdl_shape::{dims_list, elements_of, join_dims, shape_laws};
use std::alloc::{AllocError, Global};

/// Whether sizes fit a target's: each is 1 or the target's, whose missing ones count as 1.
pub(crate) fn fits(sizes: &[u32], target: &[u32]) -> bool
    ensures { result ≡ fits sizes.now target.now }
{
    match (sizes.split_first(), target.split_first()) {
        (None, _) => true,
        (Some((size, sizes)), None) => *size == 1 && fits(sizes, target),
        (Some((size, sizes)), Some((wanted, target))) => (*size == 1 || *size == *wanted)
            && fits(sizes, target),
    }
}

/// How the values of an assignment are kept.
#[derive(Clone, Copy, Drop)]
pub enum Keeping {
    /// In the width of their type, as an array keeps them.
    Packed,
    /// As a list of 64-bit numbers.
    Listed,
}

/// No numbers of the type, with room for so many, to be kept so.
fn nothing(alloc: Global, keeping: Keeping, ty: Ty, count: usize) -> Result<Packing, AllocError>
    ensures { IfOk result (λ made. made ≡ record { ty = ty; elems = [] }) }
{
    match keeping {
        Keeping::Packed => Packing::new(alloc, ty, count),
        Keeping::Listed => Packing::list(alloc, ty, count),
    }
}

/// Sets the first `count` numbers of a room to the values that a sign gives for so many elements
/// from a position on, and the new ones there, of which no divisor is 0. The room is three times as
/// long: the operands are put behind the values.
fn part_within(
    sign: AssignOp,
    old: &Strided<'_>,
    new: &Strided<'_>,
    first: u32,
    count: usize,
    room: &mut [i64],
)
    requires room { length room.old ≡ 3 * count }
    requires old_within { first + count ≤ length old.now.elems }
    requires new_within { first + count ≤ length new.now.elems }
    requires never { let wanted = part_values sign old.now.ty new.now.ty first count in
        is_ok (wanted old.now.elems new.now.elems) ≡ true }
    ensures value { let wanted = part_values sign old.now.ty new.now.ty first count in
        wanted old.now.elems new.now.elems ≡ Ok (take count room.new) }
    ensures in_range { All (InRange old.now.ty) (take count room.new) }
    ensures length { length room.new ≡ 3 * count }
{
    let (values, operands) = room.split_at_mut(count);
    let (left, right) = operands.split_at_mut(count);
    values_part(sign, old, new, first, values, left, right);
}

/// The values that a sign gives for so many elements that stand there and as many new ones, of which
/// no divisor is 0. They are found in parts of so many at most, in a room for one, and put into an
/// empty packing.
fn values_within(
    sign: AssignOp,
    old: &Strided<'_>,
    new: &Strided<'_>,
    count: usize,
    mut made: Packing,
    block: usize,
    room: &mut [i64],
) -> Result<Packing, AllocError>
    requires paired { length old.now.elems ≡ length new.now.elems }
    requires count { count ≡ length new.now.elems }
    requires small { count ≤ extent_limit }
    requires empty { made ≡ record { ty = old.now.ty; elems = [] } }
    requires some { 0 < block }
    requires room { 3 * block ≤ length room.old }
    requires never { let wanted = new_values sign old.now.ty new.now.ty in
        is_ok (wanted old.now.elems new.now.elems) ≡ true }
    ensures value { let wanted = new_values sign old.now.ty new.now.ty in
        IfOk result (λ made. wanted old.now.elems new.now.elems ≡ Ok made.elems) }
    ensures in_range { IfOk result (λ made. All (InRange old.now.ty) made.elems) }
{
    value_laws();
    let mut done = 0;
    while done < count {
        let size = (count - done).min(block);
        part_within(sign, old, new, done as u32, size, &mut room[..3 * size]);
        made.extend(&room[..size])?;
        done += size;
    }
    Ok(made)
}

/// The values that a sign gives for the elements that stand there and as many new ones, kept so.
fn new_values(
    alloc: Global,
    sign: AssignOp,
    old: &Strided<'_>,
    new: &Strided<'_>,
    keeping: Keeping,
) -> Result<Elements, OpFault>
    requires { length old.now.elems ≡ length new.now.elems }
    ensures value { let wanted = new_values sign old.now.ty new.now.ty in
        Answers (λ made. made) (wanted old.now.elems new.now.elems) result }
    ensures count { IfOk result (λ made. length made ≡ length old.now.elems) }
    ensures in_range { IfOk result (λ made. All (InRange old.now.ty) made) }
    ensures never_large { result ≢ Err TooLarge }
{
    value_laws();
    let ty = strided_type(old);
    if let Some(place) = first_divisor(sign, ty, new) {
        return Err(OpFault::DivideByZero { place });
    }
    let count = elements_of(strided_dims(new)) as usize;
    let empty = nothing(alloc, keeping, ty, count)?;
    let made = if count <= FEW {
        values_within(sign, old, new, count, empty, FEW, &mut [0; 3 * FEW])?
    } else {
        let block = count.min(block_of(old).max(block_of(new)));
        let mut room = vec![in alloc; 0; 3 * block]?;
        values_within(sign, old, new, count, empty, block, &mut room)?
    };
    Ok(Elements::packed(made))
}

/// The values that an assignment writes into the target's elements, one for each of its positions
/// in order, in its type's range: the right side's elements for `.=`, or the operator's values on
/// the target's elements and those. Both are read before anything is written. `Mismatch` where the
/// right side's sizes don't fit the target's: each must be 1 or the target's, and a size that the
/// target doesn't have must be 1. Then `DivideByZero` with the position of the first divisor 0. It
/// never answers `TooLarge`. The values are kept so; no clause tells how.
pub fn values_for(
    alloc: Global,
    sign: AssignOp,
    target: &Strided<'_>,
    value: &Strided<'_>,
    keeping: Keeping,
) -> Result<Elements, OpFault>
    ensures value { let wanted = values_for sign (array_of target.now) (array_of value.now) in
        Answers (λ made. made) wanted result }
    ensures made { IfOk result (λ made. IsMade target.now.ty target.now.dims made) }
    ensures never_large { result ≢ Err TooLarge }
{
    shape_laws();
    let (sizes, wanted) = (strided_dims(value), strided_dims(target));
    if dims_list(sizes) == dims_list(wanted) {
        return new_values(alloc, sign, target, value, keeping);
    }
    if dims_list(sizes).len() > dims_list(wanted).len() {
        return joined_values(alloc, sign, target, value, keeping);
    }
    if !stretches(sizes, wanted) {
        return Err(OpFault::Mismatch);
    }
    new_values(alloc, sign, target, &stretched(value, wanted), keeping)
}

/// The same where the right side may have more dimensions than the target: each further one is 1
/// then. It is stretched to what both join to, which has the target's positions. It stays a call:
/// hardly any assignment is so.
#[inline(never)]
fn joined_values(
    alloc: Global,
    sign: AssignOp,
    target: &Strided<'_>,
    value: &Strided<'_>,
    keeping: Keeping,
) -> Result<Elements, OpFault>
    ensures value { let wanted = values_for sign (array_of target.now) (array_of value.now) in
        Answers (λ made. made) wanted result }
    ensures made { IfOk result (λ made. IsMade target.now.ty target.now.dims made) }
    ensures never_large { result ≢ Err TooLarge }
{
    shape_laws();
    let (sizes, wanted) = (strided_dims(value), strided_dims(target));
    if !fits(dims_list(sizes), dims_list(wanted)) {
        return Err(OpFault::Mismatch);
    }
    match join_dims(alloc, sizes, wanted) {
        Ok(dims) => new_values(alloc, sign, target, &stretched(value, &dims), keeping),
        Err(_) => unreachable!(),
    }
}
