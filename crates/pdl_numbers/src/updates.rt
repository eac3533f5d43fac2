//! Numbers that an operator and one number change where they stand, run by run.
ghost use Rattle.std.specs.Prelude.{◌≡◌, ◌<◌, ◌≤◌, ◌+◌, ◌%◌, ◌+ℤ◌, ◌*ℤ◌, ℕ, pos, length, get_or, map};
ghost use Rattle.pdl_shape.specs.Places.{write};
ghost use Rattle.pdl_shape.specs.Shape.{extent_limit, size_of};
ghost use Rattle.pdl_shape.specs.Triple.{Reaches};
ghost use Rattle.pdl_numbers.specs.Reads.{IsInside};
ghost use Rattle.pdl_numbers.specs.Shown.{IsInOrder, shown_through};
ghost use Rattle.pdl_numbers.specs.Updates.{ShowsOnce, Suits, change, updated};
ghost use Rattle.pdl_numbers.specs.Writes.{placed_from, stepped};

use crate::packed::Packed;
use crate::placement::{Placement, place_in_order, place_of};
use crate::reads::{inc_along, run_length, size_along};
use crate::types::PackedType;
use pdl_elem::{
    BinaryOp, ToAdd, ToAnd, ToDiv, ToEq, ToGe, ToGt, ToLe, ToLt, ToMul, ToNe, ToOr, ToRem, ToShl,
    ToShr, ToSub, ToXor,
};
use pdl_shape::{Triple, elements_of, shape_laws};

/// What becomes of a number: the operator's value on it and this number, which stands on the right.
#[derive(Clone, Copy, Debug)]
pub struct Update {
    pub op: BinaryOp,
    pub number: i64,
}

/// Updates so many numbers from a place on, each so far after the one before, all of which are
/// among these. The operator is looked at once.
fn update_run<T: PackedType<N>, const N: usize>(
    numbers: &mut Packed<T, N>,
    update: Update,
    place: u32,
    inc: i32,
    count: usize,
)
    requires suits { Suits T.ty update }
    requires some { 0 < count }
    requires small { count ≤ extent_limit }
    requires inside { (j : ℕ) → j < count →
        IsInside (length numbers.old) (pos place +ℤ inc *ℤ pos j) }
    ensures { numbers.new ≡ change (updated T.ty update) (stepped place inc count) numbers.old }
{
    let number = update.number;
    match update.op {
        BinaryOp::Add => numbers.update_run::<ToAdd>(number, place, inc, count),
        BinaryOp::Sub => numbers.update_run::<ToSub>(number, place, inc, count),
        BinaryOp::Mul => numbers.update_run::<ToMul>(number, place, inc, count),
        BinaryOp::Div => numbers.update_run::<ToDiv>(number, place, inc, count),
        BinaryOp::Rem => numbers.update_run::<ToRem>(number, place, inc, count),
        BinaryOp::Shl => numbers.update_run::<ToShl>(number, place, inc, count),
        BinaryOp::Shr => numbers.update_run::<ToShr>(number, place, inc, count),
        BinaryOp::Lt => numbers.update_run::<ToLt>(number, place, inc, count),
        BinaryOp::Le => numbers.update_run::<ToLe>(number, place, inc, count),
        BinaryOp::Gt => numbers.update_run::<ToGt>(number, place, inc, count),
        BinaryOp::Ge => numbers.update_run::<ToGe>(number, place, inc, count),
        BinaryOp::Eq => numbers.update_run::<ToEq>(number, place, inc, count),
        BinaryOp::Ne => numbers.update_run::<ToNe>(number, place, inc, count),
        BinaryOp::And => numbers.update_run::<ToAnd>(number, place, inc, count),
        BinaryOp::Or => numbers.update_run::<ToOr>(number, place, inc, count),
        BinaryOp::Xor => numbers.update_run::<ToXor>(number, place, inc, count),
    }
}

/// Updates the numbers that a triple shows in one row, so many from a position on.
fn update_row<T: PackedType<N>, const N: usize>(
    numbers: &mut Packed<T, N>,
    update: Update,
    triple: &Triple,
    position: u32,
    count: usize,
)
    requires suits { Suits T.ty update }
    requires some { 0 < count }
    requires row { position % get_or triple.now.dims 0 1 + count ≤ get_or triple.now.dims 0 1 }
    requires within { position + count ≤ size_of triple.now.dims }
    requires small { size_of triple.now.dims ≤ extent_limit }
    requires reaches { Reaches triple.now (length numbers.old) }
    ensures { numbers.new
        ≡ change (updated T.ty update) (placed_from triple.now position count) numbers.old }
{
    shape_laws();
    let place = place_of(triple, position);
    update_run(numbers, update, place, inc_along(triple, 0), count);
}

/// Updates the numbers that a triple shows, row by row.
fn update_rows<T: PackedType<N>, const N: usize>(
    numbers: &mut Packed<T, N>,
    update: Update,
    triple: &Triple,
)
    requires suits { Suits T.ty update }
    requires reaches { Reaches triple.now (length numbers.old) }
    ensures { numbers.new
        ≡ change (updated T.ty update) (placed_from triple.now 0 (size_of triple.now.dims))
        numbers.old }
{
    shape_laws();
    let width = size_along(triple, 0);
    let count = elements_of(&triple.dims) as usize;
    let mut done = 0;
    while done < count {
        let position = done as u32;
        let run = run_length(width, position, count - done);
        update_row(numbers, update, triple, position, run);
        done += run;
    }
}

/// Updates the numbers that a triple shows, which are neighbours in order.
fn update_in_order<T: PackedType<N>, const N: usize>(
    numbers: &mut Packed<T, N>,
    update: Update,
    triple: &Triple,
)
    requires suits { Suits T.ty update }
    requires ordered { IsInOrder 1 triple.now.incs triple.now.dims }
    requires reaches { Reaches triple.now (length numbers.old) }
    ensures { numbers.new
        ≡ change (updated T.ty update) (placed_from triple.now 0 (size_of triple.now.dims))
        numbers.old }
{
    shape_laws();
    let _width = size_along(triple, 0);
    let count = elements_of(&triple.dims) as usize;
    if 0 < count {
        let place = place_in_order(triple, 0);
        update_run(numbers, update, place, 1, count);
    }
}

/// Updates the numbers that a placement shows, each of them once.
pub(crate) fn update_shown<T: PackedType<N>, const N: usize>(
    numbers: &mut Packed<T, N>,
    update: Update,
    placement: &Placement,
)
    requires suits { Suits T.ty update }
    requires once { ShowsOnce placement.now }
    requires reaches { Reaches placement.now (length numbers.old) }
    ensures { let shown = shown_through placement.now numbers.old in
        numbers.new
        ≡ write (placed_from placement.now 0 (size_of placement.now.dims))
        (map (updated T.ty update) shown) numbers.old }
{
    if placement.is_in_order {
        update_in_order(numbers, update, placement.triple());
    } else {
        update_rows(numbers, update, placement.triple());
    }
}
