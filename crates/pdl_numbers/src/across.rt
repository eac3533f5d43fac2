//! Taking in what a triple shows of packed numbers along dimension 1.
ghost use Rattle.std.specs.Prelude.{◌≡◌, ◌<◌, ◌≤◌, ◌+ℤ◌, ◌*ℤ◌, ℕ, pos, length, get_or, unsigned_abs};
ghost use Rattle.pdl_shape.specs.Shape.{extent_limit, size_of};
ghost use Rattle.pdl_shape.specs.Triple.{Reaches};
ghost use Rattle.pdl_numbers.specs.Reads.{HasTakenAcross, LieAcross, LiesInside, across};

use crate::packed::Packed;
use crate::placement::Placement;
use crate::prefixes::Folding;
use crate::reads::{inc_along, number_after};
use crate::types::PackedType;
use pdl_shape::shape_laws;

/// Takes the numbers from a place on, each so far after the one before, into what others before
/// each of them come to. Vectors of words of 64 bits take longer than one number at a time where
/// those are multiplied or compared, so no step has a loop of its own.
fn take_steps<F: Folding, T: PackedType<N>, const N: usize>(
    numbers: &Packed<T, N>,
    place: u32,
    inc: i32,
    so_far: &mut [i64],
)
    requires small { length so_far.old ≤ extent_limit }
    requires inside { LiesInside (length numbers.now) place inc (length so_far.old) }
    ensures { (j : ℕ) → j < length so_far.old →
        let number = get_or numbers.now (unsigned_abs (pos place +ℤ inc *ℤ pos j)) (pos 0) in
        get_or so_far.new j (pos 0) ≡ F.taken (get_or so_far.old j (pos 0)) number }
{
    let cells = numbers.cells();
    for (j, come_to) in so_far.iter_mut().enumerate() {
        *come_to = F::take(*come_to, number_after::<T, N>(cells, place, inc, j));
    }
}

/// Takes the elements that a triple shows of these numbers along dimension 1, from a position on,
/// into what others before each of them come to.
pub(crate) fn take_across<F: Folding, T: PackedType<N>, const N: usize>(
    numbers: &Packed<T, N>,
    placement: &Placement,
    first: u32,
    so_far: &mut [i64],
)
    requires some { first < size_of placement.now.dims }
    requires small { length so_far.old ≤ extent_limit }
    requires along { LieAcross placement.now.dims first (length so_far.old) }
    requires within { (k : ℕ) → k < length so_far.old →
        across placement.now.dims first k < size_of placement.now.dims }
    requires reaches { Reaches placement.now (length numbers.now) }
    ensures { HasTakenAcross F.taken placement.now numbers.now first so_far.old so_far.new }
{
    shape_laws();
    let place = placement.place(first);
    let inc = inc_along(placement.triple(), 1);
    take_steps::<F, T, N>(numbers, place, inc, so_far);
}
