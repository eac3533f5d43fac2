//! Writing values through a triple into packed numbers, run by run.
ghost use Rattle.std.specs.Prelude.{◌≡◌, ◌<◌, ◌≤◌, ◌+◌, ◌%◌, ◌+ℤ◌, ◌*ℤ◌, ℕ, IsTrue, pos, length, get_or, All};
ghost use Rattle.pdl_elem.specs.Types.{InRange};
ghost use Rattle.pdl_shape.specs.Places.{write};
ghost use Rattle.pdl_shape.specs.Shape.{extent_limit, size_of};
ghost use Rattle.pdl_shape.specs.Triple.{IsPlace};
ghost use Rattle.pdl_numbers.specs.Reads.{IsInside};
ghost use Rattle.pdl_numbers.specs.Shown.{IsInOrder};
ghost use Rattle.pdl_numbers.specs.Writes.{onward, placed_from, stepped};

use crate::packed::Packed;
use crate::placement::{Placement, place_after, place_in_order, place_of};
use crate::reads::{inc_along, run_length, size_along};
use crate::types::PackedType;
use pdl_shape::{Triple, shape_laws};

/// Puts values at the places from one on, each so far after the one before, one by one.
fn write_steps<T: PackedType<N>, const N: usize>(
    numbers: &mut Packed<T, N>,
    place: u32,
    inc: i32,
    values: &[i64],
)
    requires small { length values.now ≤ extent_limit }
    requires places { (j : ℕ) → j < length values.now → IsPlace (pos place +ℤ inc *ℤ pos j) }
    requires in_range { All (InRange T.ty) values.now }
    ensures { numbers.new
        ≡ write (stepped place inc (length values.now)) values.now numbers.old }
{
    for (j, value) in values.iter().enumerate() {
        numbers.put(Some(place_after(place, inc, j) as u32), *value);
    }
}

/// Whether a run of so many places from one on, each so far after the one before, ends below
/// `count` at both ends.
fn lies_below(count: usize, place: u32, inc: i32, steps: usize) -> bool
    requires small { steps ≤ extent_limit }
    requires places { (j : ℕ) → j < steps → IsPlace (pos place +ℤ inc *ℤ pos j) }
    ensures { IsTrue result → (j : ℕ) → j < steps → IsInside count (pos place +ℤ inc *ℤ pos j) }
{
    0 < steps && (place as usize) < count && place_after(place, inc, steps - 1) < count
}

/// Puts values at the places from one on, each so far after the one before. A value whose place
/// lies past the end is dropped. Neighbours are packed at once, and a run that lies among the
/// numbers with no test of each place.
fn write_run<T: PackedType<N>, const N: usize>(
    numbers: &mut Packed<T, N>,
    place: u32,
    inc: i32,
    values: &[i64],
)
    requires small { length values.now ≤ extent_limit }
    requires places { (j : ℕ) → j < length values.now → IsPlace (pos place +ℤ inc *ℤ pos j) }
    requires in_range { All (InRange T.ty) values.now }
    ensures { numbers.new
        ≡ write (stepped place inc (length values.now)) values.now numbers.old }
{
    let start = place as usize;
    if inc == 1 && start + values.len() <= numbers.len() {
        numbers.write_from(start, values);
    } else if lies_below(numbers.len(), place, inc, values.len()) {
        numbers.write_along(place, inc, values);
    } else {
        write_steps(numbers, place, inc, values);
    }
}

/// Puts values at the places from one on, side by side. A value whose place lies past the end is
/// dropped.
pub(crate) fn write_onward<T: PackedType<N>, const N: usize>(
    numbers: &mut Packed<T, N>,
    first: u32,
    values: &[i64],
)
    requires within { first + length values.now ≤ extent_limit }
    requires in_range { All (InRange T.ty) values.now }
    ensures { numbers.new
        ≡ write (onward first (length values.now)) values.now numbers.old }
{
    write_run(numbers, first, 1, values);
}

/// Puts values at the places that a triple shows in one row, from a position on.
fn write_row<T: PackedType<N>, const N: usize>(
    numbers: &mut Packed<T, N>,
    triple: &Triple,
    position: u32,
    values: &[i64],
)
    requires row { position % get_or triple.now.dims 0 1 + length values.now
        ≤ get_or triple.now.dims 0 1 }
    requires within { position + length values.now ≤ size_of triple.now.dims }
    requires some { position < size_of triple.now.dims }
    requires small { size_of triple.now.dims ≤ extent_limit }
    requires in_range { All (InRange T.ty) values.now }
    ensures { numbers.new
        ≡ write (placed_from triple.now position (length values.now)) values.now numbers.old }
{
    shape_laws();
    let place = place_of(triple, position);
    write_run(numbers, place, inc_along(triple, 0), values);
}

/// Puts values at the places that a triple shows from a position on, row by row.
fn write_rows<T: PackedType<N>, const N: usize>(
    numbers: &mut Packed<T, N>,
    triple: &Triple,
    first: u32,
    values: &[i64],
)
    requires within { first + length values.now ≤ size_of triple.now.dims }
    requires in_range { All (InRange T.ty) values.now }
    ensures { numbers.new
        ≡ write (placed_from triple.now first (length values.now)) values.now numbers.old }
{
    shape_laws();
    let width = size_along(triple, 0);
    let mut done = 0;
    while done < values.len() {
        let position = first + done as u32;
        let end = done + run_length(width, position, values.len() - done);
        write_row(numbers, triple, position, &values[done..end]);
        done = end;
    }
}

/// Puts values at the places from a position on of a triple that shows neighbours in order.
fn write_in_order<T: PackedType<N>, const N: usize>(
    numbers: &mut Packed<T, N>,
    triple: &Triple,
    first: u32,
    values: &[i64],
)
    requires within { first + length values.now ≤ size_of triple.now.dims }
    requires ordered { IsInOrder 1 triple.now.incs triple.now.dims }
    requires in_range { All (InRange T.ty) values.now }
    ensures { numbers.new
        ≡ write (placed_from triple.now first (length values.now)) values.now numbers.old }
{
    shape_laws();
    let _width = size_along(triple, 0);
    if 0 < values.len() {
        let place = place_in_order(triple, first);
        write_run(numbers, place, 1, values);
    }
}

/// Puts values at the places that a placement shows from a position on.
pub(crate) fn write_block<T: PackedType<N>, const N: usize>(
    numbers: &mut Packed<T, N>,
    placement: &Placement,
    first: u32,
    values: &[i64],
)
    requires within { first + length values.now ≤ size_of placement.now.dims }
    requires in_range { All (InRange T.ty) values.now }
    ensures { numbers.new
        ≡ write (placed_from placement.now first (length values.now)) values.now numbers.old }
{
    if placement.is_in_order {
        write_in_order(numbers, placement.triple(), first, values);
    } else {
        write_rows(numbers, placement.triple(), first, values);
    }
}
