//! The values of an assignment, part by part (PDL::Ops, PDL::Broadcasting).
ghost use Rattle.std.specs.Prelude.{◌≡◌, ◌+◌, ◌≤◌, ℤ, true, List, length, map, min, All, Ok, is_ok};
ghost use Rattle.pdl_elem.specs.Blocks.{zero_at};
ghost use Rattle.pdl_elem.specs.Numbers.{wrapped};
ghost use Rattle.pdl_elem.specs.Operators.{divides};
ghost use Rattle.pdl_elem.specs.Types.{InRange};
ghost use Rattle.pdl_shape.specs.Broadcast.{BroadcastsTo};
ghost use Rattle.pdl_shape.specs.Shape.{size_of};
ghost use Rattle.pdl_ops.specs.declared.operands.TheConstants.{BLOCK};
ghost use Rattle.pdl_ops.specs.Parts.{IsDivided, PartsAreCut, StretchedToItself, ValuesAreAsMany, part_values};
ghost use Rattle.pdl_ops.specs.Values.{fits, new_values};

use crate::operands::{BLOCK, read_operand, rewrap};
use crate::values::fits;
use pdl_buf::{Strided, strided_dims, strided_type};
use pdl_elem::{BinaryOp, Ty, binary_all, binary_type, first_refused, promote};
use pdl_lexemes::AssignOp;
use pdl_shape::{Dims, dims_list, elements_of, shape_laws};

/// Laws of the values of a part. These are the values of the whole that stand there; there are as
/// many as new elements; and an array stretched to its own dimensions stays.
pub fn value_laws()
    ensures parts { PartsAreCut }
    ensures as_many { ValuesAreAsMany }
    ensures itself { StretchedToItself }
{
    shape_laws()
}

/// Whether the right side of an assignment can be stretched to the target's dimensions: it has no
/// more of them, and each of its sizes is 1 or the target's.
pub fn stretches(source: &Dims, target: &Dims) -> bool
    requires { length source.now ≤ length target.now }
    ensures fits { result ≡ fits source.now target.now }
    ensures stretches { result ≡ true → BroadcastsTo source.now target.now }
{
    fits(dims_list(source), dims_list(target))
}

/// Whether the operator divides.
pub(crate) fn divides(op: BinaryOp) -> bool
    ensures { result ≡ divides op }
{
    matches!(op, BinaryOp::Div | BinaryOp::Rem)
}

/// Where the operator divides, the position of the first divisor 0 among a window's elements,
/// wrapped to the type. It is found block by block in a room.
fn divisor_within(op: BinaryOp, ty: Ty, new: &Strided<'_>, room: &mut [i64]) -> Option<u32>
    requires { min (size_of new.now.dims) BLOCK ≤ length room.old }
    ensures { result ≡ zero_at op (map (wrapped ty) new.now.elems) }
{
    let count = elements_of(strided_dims(new)) as usize;
    let mut done = 0;
    while done < count {
        let size = (count - done).min(BLOCK);
        read_operand(new, ty, done as u32, &mut room[..size]);
        if let Some(place) = first_refused(op, &room[..size]) {
            return Some((done + place) as u32);
        }
        done += size;
    }
    None
}

/// The same with a room of its own. It stays a call: in line the room would make the frame of each
/// assignment large, also of those that don't divide.
#[inline(never)]
fn divisor_in(op: BinaryOp, ty: Ty, new: &Strided<'_>) -> Option<u32>
    ensures { result ≡ zero_at op (map (wrapped ty) new.now.elems) }
{
    let mut room = [0; BLOCK];
    divisor_within(op, ty, new, &mut room)
}

/// The position of the first divisor 0 among the new elements of an assignment by a sign to an
/// array of a type: whatever stands there, the values are refused for it, and are never refused
/// where there is none. Nothing is read where the sign doesn't divide. It takes no memory.
pub fn first_divisor(sign: AssignOp, target: Ty, new: &Strided<'_>) -> Option<u32>
    ensures { (old : List ℤ) →
        IsDivided (new_values sign target new.now.ty old new.now.elems) result }
{
    match sign {
        AssignOp::Set => None,
        AssignOp::With(op) => {
            if !divides(op) {
                return None;
            }
            divisor_in(op, promote(target, strided_type(new)), new)
        }
    }
}

/// Sets `values` to what a sign gives for as many elements that stand at positions from one on, and
/// the new ones there, of which no divisor is 0. Rooms as long are lent for the operands. It takes
/// no memory.
pub fn values_part(
    sign: AssignOp,
    old: &Strided<'_>,
    new: &Strided<'_>,
    first: u32,
    values: &mut [i64],
    left: &mut [i64],
    right: &mut [i64],
)
    requires left { length left.old ≡ length values.old }
    requires right { length right.old ≡ length values.old }
    requires old_within { first + length values.old ≤ length old.now.elems }
    requires new_within { first + length values.old ≤ length new.now.elems }
    requires never { let wanted = part_values sign old.now.ty new.now.ty first (length values.old) in
        is_ok (wanted old.now.elems new.now.elems) ≡ true }
    ensures value { let wanted = part_values sign old.now.ty new.now.ty first (length values.old) in
        wanted old.now.elems new.now.elems ≡ Ok values.new }
    ensures in_range { All (InRange old.now.ty) values.new }
    ensures count { length values.new ≡ length values.old }
    ensures left_stays { length left.new ≡ length left.old }
    ensures right_stays { length right.new ≡ length right.old }
{
    let ty = strided_type(old);
    match sign {
        AssignOp::Set => read_operand(new, ty, first, values),
        AssignOp::With(op) => {
            let both = promote(ty, strided_type(new));
            read_operand(old, both, first, left);
            read_operand(new, both, first, right);
            match binary_all(op, both, left, right, values) {
                Ok(()) => rewrap(binary_type(op, both, both), ty, values),
                Err(_) => unreachable!(),
            }
        }
    }
}
