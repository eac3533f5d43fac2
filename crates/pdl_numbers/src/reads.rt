//! Reading what a triple shows of packed numbers in blocks.
ghost use Rattle.std.specs.Prelude.{◌≡◌, ◌<◌, ◌≤◌, ◌+◌, ◌%◌, ◌/◌, ◌*◌, ◌+ℤ◌, ◌*ℤ◌, ℕ, pos, length, get_or, map, All, IsTrue, unsigned_abs};
ghost use Rattle.pdl_elem.specs.Types.{InRange};
ghost use Rattle.pdl_shape.specs.Shape.{extent_limit, size_of};
ghost use Rattle.pdl_shape.specs.Triple.{IsPlace, IsTriple, Reaches};
ghost use Rattle.pdl_numbers.specs.Bytes.{number_of};
ghost use Rattle.pdl_numbers.specs.Reads.{IsInside, LiesInside, HasRead, HasStepped};
ghost use Rattle.pdl_numbers.specs.Shown.{IsInOrder, place_at};

use crate::packed::Packed;
use crate::placement::{Placement, place_after, place_in_order, place_of};
use crate::types::PackedType;
use pdl_shape::{Triple, dims_list, incs_list, shape_laws};

/// The numbers from a place on, each so far after the one before. They are counted in 32 bits, by
/// which the compiler knows that the places never come round.
#[inline(always)]
fn read_steps<T: PackedType<N>, const N: usize>(
    numbers: &Packed<T, N>,
    place: u32,
    inc: i32,
    into: &mut [i64],
)
    requires small { length into.old ≤ extent_limit }
    requires inside { (j : ℕ) → j < length into.old →
        IsInside (length numbers.now) (pos place +ℤ inc *ℤ pos j) }
    ensures { HasStepped numbers.now place inc (length into.old) into.new }
{
    let cells = numbers.cells();
    let count = into.len() as u32;
    for j in 0..count as usize {
        into[j] = T::unpack(&cells[place_after(place, inc, j)]);
    }
}

/// The numbers from a place on, each so far after the one before. Every second number and each
/// backwards have the loop for themselves: of a step that it knows the compiler makes vectors. They
/// stand apart, so that short rows are read without a call.
#[inline(never)]
fn read_by_step<T: PackedType<N>, const N: usize>(
    numbers: &Packed<T, N>,
    place: u32,
    inc: i32,
    into: &mut [i64],
)
    requires small { length into.old ≤ extent_limit }
    requires inside { LiesInside (length numbers.now) place inc (length into.old) }
    ensures { HasStepped numbers.now place inc (length into.old) into.new }
{
    // Of single bytes vectors take longer.
    if inc == 2 && N != 1 {
        read_steps(numbers, place, 2, into);
    } else if inc == -1 {
        read_steps(numbers, place, -1, into);
    } else {
        read_steps(numbers, place, inc, into);
    }
}

/// The number so many steps after a place.
pub(crate) fn number_after<T: PackedType<N>, const N: usize>(
    cells: &[[u8; N]],
    place: u32,
    inc: i32,
    steps: usize,
) -> i64
    requires steps { steps < extent_limit }
    requires inside { IsInside (length cells.now) (pos place +ℤ inc *ℤ pos steps) }
    ensures { let at = unsigned_abs (pos place +ℤ inc *ℤ pos steps) in
        result ≡ get_or (map (number_of T.ty) cells.now) at (pos 0) }
{
    T::unpack(&cells[place_after(place, inc, steps)])
}

/// The three numbers from a place on, each so far after the one before, without a loop: its rounds
/// would take most of the time of so short a row.
fn read_three<T: PackedType<N>, const N: usize>(
    numbers: &Packed<T, N>,
    place: u32,
    inc: i32,
    into: &mut [i64],
)
    requires three { length into.old ≡ 3 }
    requires inside { LiesInside (length numbers.now) place inc (length into.old) }
    ensures { HasStepped numbers.now place inc (length into.old) into.new }
{
    let cells = numbers.cells();
    into[0] = number_after::<T, N>(cells, place, inc, 0);
    into[1] = number_after::<T, N>(cells, place, inc, 1);
    into[2] = number_after::<T, N>(cells, place, inc, 2);
}

/// The numbers from each of four places on, each so far after the one before. Where the places are
/// neighbours, each part of the buffer that stands in the cache is looked at once for the four.
fn read_side_by_side<T: PackedType<N>, const N: usize>(
    numbers: &Packed<T, N>,
    first: u32,
    second: u32,
    third: u32,
    fourth: u32,
    inc: i32,
    a: &mut [i64],
    b: &mut [i64],
    c: &mut [i64],
    d: &mut [i64],
)
    requires small { length a.old ≤ extent_limit }
    requires b_paired { length b.old ≡ length a.old }
    requires c_paired { length c.old ≡ length a.old }
    requires d_paired { length d.old ≡ length a.old }
    requires a_inside { LiesInside (length numbers.now) first inc (length a.old) }
    requires b_inside { LiesInside (length numbers.now) second inc (length a.old) }
    requires c_inside { LiesInside (length numbers.now) third inc (length a.old) }
    requires d_inside { LiesInside (length numbers.now) fourth inc (length a.old) }
    ensures a_value { HasStepped numbers.now first inc (length a.old) a.new }
    ensures b_value { HasStepped numbers.now second inc (length a.old) b.new }
    ensures c_value { HasStepped numbers.now third inc (length a.old) c.new }
    ensures d_value { HasStepped numbers.now fourth inc (length a.old) d.new }
{
    let cells = numbers.cells();
    for j in 0..a.len() {
        a[j] = number_after::<T, N>(cells, first, inc, j);
        b[j] = number_after::<T, N>(cells, second, inc, j);
        c[j] = number_after::<T, N>(cells, third, inc, j);
        d[j] = number_after::<T, N>(cells, fourth, inc, j);
    }
}

/// Sets each of them to one number.
fn repeat_number(number: i64, into: &mut [i64])
    ensures { (j : ℕ) → j < length into.old → get_or into.new j (pos 0) ≡ number }
{
    for x in into {
        *x = number;
    }
}

/// Whether so many numbers, each so far after the one before, are neighbours that are read at once.
/// Fewer take less one by one.
pub(crate) fn are_at_once(inc: i32, count: usize) -> bool
    ensures beside { IsTrue result → inc ≡ pos 1 }
    ensures some { IsTrue result → 0 < count }
{
    inc == 1 && 4 <= count
}

/// The numbers from a place on, each so far after the one before: neighbours at once where that is
/// said, and one number again and again where that is nowhere.
pub(crate) fn read_run<T: PackedType<N>, const N: usize>(
    numbers: &Packed<T, N>,
    place: u32,
    inc: i32,
    at_once: bool,
    into: &mut [i64],
)
    requires beside { IsTrue at_once → inc ≡ pos 1 }
    requires some { IsTrue at_once → 0 < length into.old }
    requires small { length into.old ≤ extent_limit }
    requires inside { (j : ℕ) → j < length into.old →
        IsInside (length numbers.now) (pos place +ℤ inc *ℤ pos j) }
    ensures { HasStepped numbers.now place inc (length into.old) into.new }
{
    if inc == 0 {
        if 0 < into.len() {
            repeat_number(numbers.get(place as usize), into);
        }
    } else if at_once {
        numbers.read_from(place as usize, into);
    } else if into.len() == 3 {
        read_three(numbers, place, inc, into);
    } else {
        read_by_step(numbers, place, inc, into);
    }
}

/// The increment along a dimension, and 0 where there is none.
pub(crate) fn inc_along(triple: &Triple, dimension: usize) -> i32
    ensures { result ≡ get_or triple.now.incs dimension (pos 0) }
{
    let incs = incs_list(&triple.incs);
    if dimension < incs.len() {
        incs[dimension]
    } else {
        0
    }
}

/// The size of a dimension, and 1 where there is none.
pub(crate) fn size_along(triple: &Triple, dimension: usize) -> u32
    ensures size { result ≡ get_or triple.now.dims dimension 1 }
    ensures small { size_of triple.now.dims ≤ extent_limit }
    ensures sound { IsTriple triple.now }
{
    shape_laws();
    let sizes = dims_list(&triple.dims);
    if dimension < sizes.len() {
        sizes[dimension]
    } else {
        1
    }
}

/// How many elements lie in one row from a position on, and no more than are left.
pub(crate) fn run_length(width: u32, position: u32, left: usize) -> usize
    requires width { 0 < width }
    requires left { 0 < left }
    ensures some { 0 < result }
    ensures few { result ≤ left }
    ensures row { position % width + result ≤ width }
{
    left.min((width - position % width) as usize)
}

/// The window's elements from a position on that lie in its row.
fn read_row<T: PackedType<N>, const N: usize>(
    numbers: &Packed<T, N>,
    triple: &Triple,
    position: u32,
    into: &mut [i64],
)
    requires row { position % get_or triple.now.dims 0 1 + length into.old
        ≤ get_or triple.now.dims 0 1 }
    requires within { position + length into.old ≤ size_of triple.now.dims }
    requires some { position < size_of triple.now.dims }
    requires small { size_of triple.now.dims ≤ extent_limit }
    requires reaches { Reaches triple.now (length numbers.now) }
    ensures { HasRead triple.now numbers.now position (length into.old) into.new }
{
    shape_laws();
    let place = place_of(triple, position);
    let inc = inc_along(triple, 0);
    read_run(numbers, place, inc, are_at_once(inc, into.len()), into);
}

/// How many whole rows lie side by side from a position on, and no more elements than are left: 0
/// where a row has begun.
fn rows_from(width: u32, height: u32, position: u32, left: usize) -> u32
    requires width { 0 < width }
    requires height { 0 < height }
    requires small { left ≤ extent_limit }
    ensures few { result * width ≤ left }
    ensures start { 0 < result → position % width ≡ 0 }
    ensures plane { (position / width) % height + result ≤ height }
{
    if position % width == 0 {
        let rows = (left / width as usize) as u32;
        rows.min(height - position / width % height)
    } else {
        0
    }
}

/// The window's elements in so many whole rows from a position on: one place search, and a step
/// along dimension 1 for each row.
fn read_rows<T: PackedType<N>, const N: usize>(
    numbers: &Packed<T, N>,
    triple: &Triple,
    position: u32,
    rows: u32,
    into: &mut [i64],
)
    requires count { length into.old ≡ rows * get_or triple.now.dims 0 1 }
    requires start { position % get_or triple.now.dims 0 1 ≡ 0 }
    requires plane { (position / get_or triple.now.dims 0 1) % get_or triple.now.dims 1 1 + rows
        ≤ get_or triple.now.dims 1 1 }
    requires within { position + length into.old ≤ size_of triple.now.dims }
    requires some { position < size_of triple.now.dims }
    requires small { size_of triple.now.dims ≤ extent_limit }
    requires reaches { Reaches triple.now (length numbers.now) }
    ensures { HasRead triple.now numbers.now position (length into.old) into.new }
{
    shape_laws();
    let width = size_along(triple, 0) as usize;
    let inc = inc_along(triple, 0);
    let step = inc_along(triple, 1);
    let place = place_of(triple, position);
    let at_once = are_at_once(inc, width);
    for row in 0..rows as usize {
        let at = place_after(place, step, row);
        let begin = row * width;
        let end = begin + width;
        read_run(numbers, at as u32, inc, at_once, &mut into[begin..end]);
    }
}

/// The window's elements in the four rows from a position on, side by side.
fn read_four_rows<T: PackedType<N>, const N: usize>(
    numbers: &Packed<T, N>,
    triple: &Triple,
    position: u32,
    into: &mut [i64],
)
    requires count { length into.old ≡ 4 * get_or triple.now.dims 0 1 }
    requires start { position % get_or triple.now.dims 0 1 ≡ 0 }
    requires plane { (position / get_or triple.now.dims 0 1) % get_or triple.now.dims 1 1 + 4
        ≤ get_or triple.now.dims 1 1 }
    requires within { position + length into.old ≤ size_of triple.now.dims }
    requires some { position < size_of triple.now.dims }
    requires small { size_of triple.now.dims ≤ extent_limit }
    requires reaches { Reaches triple.now (length numbers.now) }
    ensures { HasRead triple.now numbers.now position (length into.old) into.new }
{
    shape_laws();
    let width = size_along(triple, 0) as usize;
    let inc = inc_along(triple, 0);
    let step = inc_along(triple, 1);
    let first = place_of(triple, position);
    let second = place_after(first, step, 1) as u32;
    let third = place_after(first, step, 2) as u32;
    let fourth = place_after(first, step, 3) as u32;
    let (a, rest) = into.split_at_mut(width);
    let (b, rest) = rest.split_at_mut(width);
    let (c, d) = rest.split_at_mut(width);
    read_side_by_side(numbers, first, second, third, fourth, inc, a, b, c, d);
}

/// Whether so many rows of a window are read four at a time: where a step along them goes far, and
/// there is enough of them.
fn are_side_by_side(triple: &Triple, width: u32, rows: u32) -> bool
    ensures { IsTrue result → 4 ≤ rows }
{
    let inc = inc_along(triple, 0);
    4 <= rows && 16 <= width && (inc < -1 || 2 < inc)
}

/// The first of the window's elements from a position on, and how many: whole rows, or what is left
/// of a row.
fn read_part<T: PackedType<N>, const N: usize>(
    numbers: &Packed<T, N>,
    triple: &Triple,
    position: u32,
    into: &mut [i64],
) -> usize
    requires some { 0 < length into.old }
    requires within { position + length into.old ≤ size_of triple.now.dims }
    requires reaches { Reaches triple.now (length numbers.now) }
    ensures some { 0 < result }
    ensures few { result ≤ length into.old }
    ensures value { HasRead triple.now numbers.now position result into.new }
    ensures sound { IsTriple triple.now }
{
    shape_laws();
    let width = size_along(triple, 0);
    let rows = rows_from(width, size_along(triple, 1), position, into.len());
    if rows == 0 {
        let run = run_length(width, position, into.len());
        read_row(numbers, triple, position, &mut into[..run]);
        run
    } else if are_side_by_side(triple, width, rows) {
        let run = 4 * width as usize;
        read_four_rows(numbers, triple, position, &mut into[..run]);
        run
    } else {
        let run = rows as usize * width as usize;
        read_rows(numbers, triple, position, rows, &mut into[..run]);
        run
    }
}

/// The window's elements from a position on, row by row.
fn read_runs<T: PackedType<N>, const N: usize>(
    numbers: &Packed<T, N>,
    triple: &Triple,
    first: u32,
    into: &mut [i64],
)
    requires within { first + length into.old ≤ size_of triple.now.dims }
    requires reaches { Reaches triple.now (length numbers.now) }
    ensures value { HasRead triple.now numbers.now first (length into.old) into.new }
    ensures in_range { All (InRange T.ty) into.new }
{
    shape_laws();
    numbers.are_in_range();
    let _ = size_along(triple, 0);
    let mut done = 0;
    while done < into.len() {
        let position = first + done as u32;
        done += read_part(numbers, triple, position, &mut into[done..]);
    }
}

/// The window's elements from a position on, where they are neighbours in the buffer.
fn read_in_order<T: PackedType<N>, const N: usize>(
    numbers: &Packed<T, N>,
    triple: &Triple,
    first: u32,
    into: &mut [i64],
)
    requires within { first + length into.old ≤ size_of triple.now.dims }
    requires reaches { Reaches triple.now (length numbers.now) }
    requires ordered { IsInOrder 1 triple.now.incs triple.now.dims }
    ensures value { HasRead triple.now numbers.now first (length into.old) into.new }
    ensures in_range { All (InRange T.ty) into.new }
{
    shape_laws();
    numbers.are_in_range();
    if 0 < into.len() {
        let start = place_in_order(triple, first);
        numbers.read_from(start as usize, into);
    }
}

/// The elements that a placement shows of these numbers, from a position on.
pub(crate) fn read_block<T: PackedType<N>, const N: usize>(
    numbers: &Packed<T, N>,
    placement: &Placement,
    first: u32,
    into: &mut [i64],
)
    requires within { first + length into.old ≤ size_of placement.now.dims }
    requires reaches { Reaches placement.now (length numbers.now) }
    ensures value { HasRead placement.now numbers.now first (length into.old) into.new }
    ensures in_range { All (InRange T.ty) into.new }
{
    if placement.is_in_order {
        read_in_order(numbers, placement.triple(), first, into);
    } else {
        read_runs(numbers, placement.triple(), first, into);
    }
}
