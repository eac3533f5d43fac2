//! Copying numbers of one type, run by run, from where one triple shows them to where another one
//! does. They are copied in their own width.
ghost use Rattle.std.specs.Prelude.{◌≡◌, ◌<◌, ◌≤◌, ◌+◌, ◌%◌, ◌++◌, ◌+ℤ◌, ◌*ℤ◌, ℕ, [], pos, length, take, drop, map, get_or, unsigned_abs};
ghost use Rattle.pdl_shape.specs.Places.{read, write};
ghost use Rattle.pdl_shape.specs.Shape.{extent_limit, size_of};
ghost use Rattle.pdl_shape.specs.Triple.{Reaches};
ghost use Rattle.pdl_numbers.specs.Bytes.{ArePacked, bytes_of, number_of};
ghost use Rattle.pdl_numbers.specs.Reads.{LiesInside};
ghost use Rattle.pdl_numbers.specs.Shown.{IsInOrder, shown_through};
ghost use Rattle.pdl_numbers.specs.Writes.{placed_from, stepped};

use crate::packed::Packed;
use crate::placement::{Placement, place_after, place_in_order, place_of};
use crate::reads::{inc_along, run_length, size_along};
use crate::types::PackedType;
use pdl_elem::wrapping_laws;
use pdl_shape::{Triple, elements_of, shape_laws};
use std::marker::PhantomData;

/// Sets each of these cells to one of others: those from a place on, each so far after the one
/// before. They are counted in 32 bits, by which the compiler knows that the places never come
/// round.
#[inline(always)]
fn copy_steps<T: PackedType<N>, const N: usize>(
    from: &[[u8; N]],
    place: u32,
    inc: i32,
    cells: &mut [[u8; N]],
)
    requires small { length cells.old ≤ extent_limit }
    requires inside { LiesInside (length from.now) place inc (length cells.old) }
    ensures { (j : ℕ) → j < length cells.old
        → get_or cells.new j [] ≡ get_or from.now (unsigned_abs (pos place +ℤ inc *ℤ pos j)) [] }
{
    let count = cells.len() as u32;
    for j in 0..count as usize {
        cells[j] = from[place_after(place, inc, j)];
    }
}

/// Sets each of these cells to one of others of the type: those from a place on, each so far after
/// the one before. Neighbours are copied at once. Every second one and each backwards have the loop
/// for themselves: of a step that it knows the compiler makes vectors.
#[inline(never)]
fn copy_by_step<T: PackedType<N>, const N: usize>(
    from: &[[u8; N]],
    place: u32,
    inc: i32,
    cells: &mut [[u8; N]],
)
    requires some { 0 < length cells.old }
    requires small { length cells.old ≤ extent_limit }
    requires inside { LiesInside (length from.now) place inc (length cells.old) }
    requires packed { ArePacked T.ty from.now }
    ensures { let places = stepped place inc (length cells.old) in
        cells.new ≡ map (bytes_of T.ty) (read places (map (number_of T.ty) from.now)) }
{
    if inc == 1 {
        let start = place as usize;
        let end = start + cells.len();
        cells.copy_from_slice(&from[start..end]);
    } else if inc == 2 {
        copy_steps::<T, N>(from, place, 2, cells);
    } else if inc == -1 {
        copy_steps::<T, N>(from, place, -1, cells);
    } else {
        copy_steps::<T, N>(from, place, inc, cells);
    }
}

/// Sets so many cells from a place on, each so far after the one before, to others of the type,
/// which stand from a place of their own on, each so far after the one before.
fn copy_along<T: PackedType<N>, const N: usize>(
    from: &[[u8; N]],
    first: u32,
    step: i32,
    place: u32,
    inc: i32,
    count: usize,
    cells: &mut [[u8; N]],
)
    requires small { count ≤ extent_limit }
    requires from_inside { LiesInside (length from.now) first step count }
    requires inside { LiesInside (length cells.old) place inc count }
    requires from_packed { ArePacked T.ty from.now }
    requires packed { ArePacked T.ty cells.old }
    ensures packed { ArePacked T.ty cells.new }
    ensures value { let values = read (stepped first step count) (map (number_of T.ty) from.now) in
        map (number_of T.ty) cells.new
        ≡ write (stepped place inc count) values (map (number_of T.ty) cells.old) }
{
    for j in 0..count {
        cells[place_after(place, inc, j)] = from[place_after(first, step, j)];
    }
}

impl<T: PackedType<N>, const N: usize> Packed<T, N> {
    /// No numbers, of the same type. It takes no memory.
    pub(crate) fn none(&self) -> Packed<T, N>
        ensures { result ≡ [] }
    {
        Packed {
            cells: Vec::new(*self.cells.allocator()),
            ty: PhantomData,
        }
    }

    /// Sets so many numbers from a place on, side by side, to others: those from a place of their
    /// own on, each so far after the one before.
    fn copy_onward(
        &mut self,
        start: usize,
        from: &Packed<T, N>,
        first: u32,
        step: i32,
        count: usize,
    )
        requires some { 0 < count }
        requires small { count ≤ extent_limit }
        requires within { start + count ≤ length self.old }
        requires inside { LiesInside (length from.now) first step count }
        ensures { let old = self.old in
            self.new ≡ take start old ++ read (stepped first step count) from.now
            ++ drop (start + count) old }
    {
        wrapping_laws();
        let _count = self.len();
        let end = start + count;
        copy_by_step::<T, N>(
            from.cells.as_slice(),
            first,
            step,
            &mut self.cells[start..end],
        );
    }

    /// Sets so many numbers from a place on, each so far after the one before, to others, which
    /// stand from a place of their own on, each so far after the one before.
    fn copy_run(
        &mut self,
        place: u32,
        inc: i32,
        from: &Packed<T, N>,
        first: u32,
        step: i32,
        count: usize,
    )
        requires some { 0 < count }
        requires small { count ≤ extent_limit }
        requires inside { LiesInside (length self.old) place inc count }
        requires from_inside { LiesInside (length from.now) first step count }
        ensures { let values = read (stepped first step count) from.now in
            self.new ≡ write (stepped place inc count) values self.old }
    {
        if inc == 1 {
            self.copy_onward(place as usize, from, first, step, count)
        } else {
            copy_along::<T, N>(
                from.cells.as_slice(),
                first,
                step,
                place,
                inc,
                count,
                self.cells.as_mut_slice(),
            )
        }
    }
}

/// Sets the numbers that a triple shows in one row, so many from a position on, to those that
/// another triple of the same dimensions shows of others there.
fn copy_row<T: PackedType<N>, const N: usize>(
    numbers: &mut Packed<T, N>,
    to: &Triple,
    from: &Packed<T, N>,
    shown: &Triple,
    position: u32,
    count: usize,
)
    requires same_dims { to.now.dims ≡ shown.now.dims }
    requires some { 0 < count }
    requires row { position % get_or to.now.dims 0 1 + count ≤ get_or to.now.dims 0 1 }
    requires within { position + count ≤ size_of to.now.dims }
    requires small { size_of to.now.dims ≤ extent_limit }
    requires reaches { Reaches to.now (length numbers.old) }
    requires from_reaches { Reaches shown.now (length from.now) }
    ensures { let values = read (placed_from shown.now position count) from.now in
        numbers.new ≡ write (placed_from to.now position count) values numbers.old }
{
    shape_laws();
    let place = place_of(to, position);
    let first = place_of(shown, position);
    let inc = inc_along(to, 0);
    let step = inc_along(shown, 0);
    numbers.copy_run(place, inc, from, first, step, count);
}

/// Sets the numbers that a triple shows to those that another triple of the same dimensions shows
/// of others, row by row.
fn copy_rows<T: PackedType<N>, const N: usize>(
    numbers: &mut Packed<T, N>,
    to: &Triple,
    from: &Packed<T, N>,
    shown: &Triple,
)
    requires same_dims { to.now.dims ≡ shown.now.dims }
    requires reaches { Reaches to.now (length numbers.old) }
    requires from_reaches { Reaches shown.now (length from.now) }
    ensures { let count = size_of to.now.dims in
        let values = read (placed_from shown.now 0 count) from.now in
        numbers.new ≡ write (placed_from to.now 0 count) values numbers.old }
{
    shape_laws();
    let width = size_along(to, 0);
    let count = elements_of(&to.dims) as usize;
    let mut done = 0;
    while done < count {
        let position = done as u32;
        let run = run_length(width, position, count - done);
        copy_row(numbers, to, from, shown, position, run);
        done += run;
    }
}

/// Sets the numbers that a triple shows to those that another triple of the same dimensions shows
/// of others. Both show neighbours in order.
fn copy_in_order<T: PackedType<N>, const N: usize>(
    numbers: &mut Packed<T, N>,
    to: &Triple,
    from: &Packed<T, N>,
    shown: &Triple,
)
    requires same_dims { to.now.dims ≡ shown.now.dims }
    requires ordered { IsInOrder 1 to.now.incs to.now.dims }
    requires from_ordered { IsInOrder 1 shown.now.incs shown.now.dims }
    requires reaches { Reaches to.now (length numbers.old) }
    requires from_reaches { Reaches shown.now (length from.now) }
    ensures { let count = size_of to.now.dims in
        let values = read (placed_from shown.now 0 count) from.now in
        numbers.new ≡ write (placed_from to.now 0 count) values numbers.old }
{
    shape_laws();
    let _width = size_along(to, 0);
    let count = elements_of(&to.dims) as usize;
    if 0 < count {
        let place = place_in_order(to, 0);
        let first = place_in_order(shown, 0);
        numbers.copy_run(place, 1, from, first, 1, count);
    }
}

/// Sets the numbers that a placement shows to those that another placement of the same dimensions
/// shows of others, in order of position.
pub(crate) fn copy_shown<T: PackedType<N>, const N: usize>(
    numbers: &mut Packed<T, N>,
    to: &Placement,
    from: &Packed<T, N>,
    shown: &Placement,
)
    requires same_dims { to.now.dims ≡ shown.now.dims }
    requires reaches { Reaches to.now (length numbers.old) }
    requires from_reaches { Reaches shown.now (length from.now) }
    ensures { numbers.new
        ≡ write (placed_from to.now 0 (size_of to.now.dims))
        (shown_through shown.now from.now) numbers.old }
{
    if to.is_in_order && shown.is_in_order {
        copy_in_order(numbers, to.triple(), from, shown.triple());
    } else {
        copy_rows(numbers, to.triple(), from, shown.triple());
    }
}
