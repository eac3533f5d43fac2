//! Taking what a triple shows of packed numbers along dimension 1 into other numbers of the type, each
//! kept in the width of the type.
ghost use Rattle.std.specs.Prelude.{◌≡◌, ◌<◌, ◌≤◌, ◌+◌, ◌+ℤ◌, ◌*ℤ◌, ℕ, pos, length, map, get_or, unsigned_abs};
ghost use Rattle.pdl_elem.specs.Numbers.{wrapped};
ghost use Rattle.pdl_shape.specs.Shape.{extent_limit, size_of};
ghost use Rattle.pdl_shape.specs.Triple.{Reaches};
ghost use Rattle.pdl_numbers.specs.Bytes.{ArePacked, bytes_of, number_of};
ghost use Rattle.pdl_numbers.specs.Folds.{HasFolded, shown_across};
ghost use Rattle.pdl_numbers.specs.Numbers.{elements_in};
ghost use Rattle.pdl_numbers.specs.Reads.{LieAcross, LiesInside, across};

use crate::numbers::Numbers;
use crate::packed::Packed;
use crate::placement::Placement;
use crate::prefixes::{Folding, packed_wrapped};
use crate::reads::{inc_along, number_after};
use crate::types::PackedType;
use pdl_elem::wrapping_laws;
use pdl_shape::shape_laws;

/// Takes a number into the one in a cell. What comes of that is wrapped to the type.
fn fold_cell<F: Folding, T: PackedType<N>, const N: usize>(number: i64, cell: &mut [u8; N])
    ensures { let so_far = number_of T.ty cell.old in
        cell.new ≡ bytes_of T.ty (wrapped T.ty (F.taken so_far number)) }
{
    *cell = packed_wrapped::<T, N>(F::take(T::unpack(cell), number));
}

/// Takes the numbers from a place on, each so far after the one before, into those in so many cells
/// from a start on.
#[inline(always)]
fn fold_steps<F: Folding, T: PackedType<N>, const N: usize>(
    numbers: &Packed<T, N>,
    place: u32,
    inc: i32,
    start: usize,
    count: usize,
    cells: &mut [[u8; N]],
)
    requires small { count ≤ extent_limit }
    requires inside { LiesInside (length numbers.now) place inc count }
    requires room { start + count ≤ length cells.old }
    requires packed { ArePacked T.ty cells.old }
    ensures packed { ArePacked T.ty cells.new }
    ensures value { HasFolded T.ty F.taken
        (λ k. get_or numbers.now (unsigned_abs (pos place +ℤ inc *ℤ pos k)) (pos 0)) start count
        (map (number_of T.ty) cells.old) (map (number_of T.ty) cells.new) }
{
    wrapping_laws();
    let from = numbers.cells();
    for k in 0..count {
        let number = number_after::<T, N>(from, place, inc, k);
        fold_cell::<F, T, N>(number, &mut cells[start + k]);
    }
}

/// The same. Neighbours have the loop for themselves: of a step that it knows the compiler makes
/// vectors.
fn fold_by_step<F: Folding, T: PackedType<N>, const N: usize>(
    numbers: &Packed<T, N>,
    place: u32,
    inc: i32,
    start: usize,
    count: usize,
    cells: &mut [[u8; N]],
)
    requires small { count ≤ extent_limit }
    requires inside { LiesInside (length numbers.now) place inc count }
    requires room { start + count ≤ length cells.old }
    requires packed { ArePacked T.ty cells.old }
    ensures packed { ArePacked T.ty cells.new }
    ensures value { HasFolded T.ty F.taken
        (λ k. get_or numbers.now (unsigned_abs (pos place +ℤ inc *ℤ pos k)) (pos 0)) start count
        (map (number_of T.ty) cells.old) (map (number_of T.ty) cells.new) }
{
    if inc == 1 {
        fold_steps::<F, T, N>(numbers, place, 1, start, count, cells);
    } else {
        fold_steps::<F, T, N>(numbers, place, inc, start, count, cells);
    }
}

impl<T: PackedType<N>, const N: usize> Packed<T, N> {
    /// Takes the elements that a triple shows of other numbers along dimension 1, from a position
    /// on, into so many of these from a start on. What comes of each is wrapped to the type.
    pub(crate) fn fold_across<F: Folding>(
        &mut self,
        start: usize,
        count: usize,
        from: &Packed<T, N>,
        placement: &Placement,
        first: u32,
    )
        requires room { start + count ≤ length self.old }
        requires some { first < size_of placement.now.dims }
        requires small { count ≤ extent_limit }
        requires along { LieAcross placement.now.dims first count }
        requires within { (k : ℕ) → k < count →
            across placement.now.dims first k < size_of placement.now.dims }
        requires reaches { Reaches placement.now (length from.now) }
        ensures { HasFolded T.ty F.taken (shown_across placement.now from.now first) start count
            self.old self.new }
    {
        shape_laws();
        let place = placement.place(first);
        let inc = inc_along(placement.triple(), 1);
        let cells = self.cells.as_mut_slice();
        fold_by_step::<F, T, N>(from, place, inc, start, count, cells);
    }
}

impl Numbers {
    /// Takes the numbers that a placement shows of others of the type along dimension 1, from a
    /// position on, into so many of these from a start on. What comes of each is wrapped to the
    /// type at once, so it is worked on in the width of the type.
    pub fn fold_across<F: Folding>(
        &mut self,
        start: usize,
        count: usize,
        from: &Numbers,
        placement: &Placement,
        first: u32,
    )
        requires same_type { (elements_in from.now).ty ≡ (elements_in self.old).ty }
        requires room { start + count ≤ length (elements_in self.old).elems }
        requires some { first < size_of placement.now.dims }
        requires small { count ≤ extent_limit }
        requires along { LieAcross placement.now.dims first count }
        requires within { (k : ℕ) → k < count →
            across placement.now.dims first k < size_of placement.now.dims }
        requires reaches { Reaches placement.now (length (elements_in from.now).elems) }
        ensures typed { (elements_in self.new).ty ≡ (elements_in self.old).ty }
        ensures value { let old = elements_in self.old in
            let number = shown_across placement.now (elements_in from.now).elems first in
            HasFolded old.ty F.taken number start count old.elems (elements_in self.new).elems }
    {
        match (self, from) {
            (Numbers::Sbytes(into), Numbers::Sbytes(from)) => {
                into.fold_across::<F>(start, count, from, placement, first)
            }
            (Numbers::Bytes(into), Numbers::Bytes(from)) => {
                into.fold_across::<F>(start, count, from, placement, first)
            }
            (Numbers::Shorts(into), Numbers::Shorts(from)) => {
                into.fold_across::<F>(start, count, from, placement, first)
            }
            (Numbers::Ushorts(into), Numbers::Ushorts(from)) => {
                into.fold_across::<F>(start, count, from, placement, first)
            }
            (Numbers::Longs(into), Numbers::Longs(from)) => {
                into.fold_across::<F>(start, count, from, placement, first)
            }
            (Numbers::Ulongs(into), Numbers::Ulongs(from)) => {
                into.fold_across::<F>(start, count, from, placement, first)
            }
            (Numbers::Longlongs(into), Numbers::Longlongs(from)) => {
                into.fold_across::<F>(start, count, from, placement, first)
            }
            _ => unreachable!(),
        }
    }
}
