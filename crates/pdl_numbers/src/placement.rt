//! Where the elements of a window lie in its buffer.
ghost use Rattle.std.specs.Prelude.{◌≡◌, ◌<◌, ◌%◌, ◌/◌, ◌+ℤ◌, ◌*ℤ◌, ℕ, ℤ, IsTrue, pos, length, unsigned_abs};
ghost use Rattle.pdl_shape.specs.Shape.{IsDims, coordinates_of, extent_limit, size_of};
ghost use Rattle.pdl_shape.specs.Triple.{IsPlace, IsTriple, moved};
ghost use Rattle.pdl_numbers.specs.Shown.{IsInOrder, place_at};

use pdl_shape::{Triple, copy_triple, dims_list, incs_list, shape_laws};
use std::marker::Model;

/// Where a triple places the positions of its dimensions in a buffer. It is made once a triple, and
/// then each place is found without memory, and without a division where the places are neighbours,
/// in order. Contracts see the triple.
#[derive(Drop)]
pub struct Placement {
    triple: Triple,
    pub(crate) is_in_order: bool,
}

impl Model for Placement {
    ghost use Rattle.std.specs.Prelude.{IsTrue};
    ghost use Rattle.pdl_numbers.specs.Shown.{IsInOrder};
    ghost use Rattle.pdl_shape.specs.Triple.{Triple};

    ghost Value = { Triple };

    ghost view = { λ p. p.triple };

    ghost invariant = { λ p. IsTrue p.is_in_order → IsInOrder 1 p.triple.incs p.triple.dims };
}

impl Placement {
    /// Where a triple places its positions. It takes no memory.
    pub fn of(triple: &Triple) -> Placement
        ensures { result ≡ triple.now }
    {
        shape_laws();
        Placement {
            triple: copy_triple(triple),
            is_in_order: lie_in_order(dims_list(&triple.dims), incs_list(&triple.incs)),
        }
    }

    /// Whether the place of each position is the position itself.
    pub fn is_identity(&self) -> bool
        ensures { IsTrue result → (p : ℕ) → p < size_of self.now.dims → place_at self.now p ≡ p }
    {
        shape_laws();
        self.is_in_order && self.triple.offset == 0
    }

    /// The triple by which it places.
    pub fn triple(&self) -> &Triple
        ensures { result.now ≡ self.now }
    {
        &self.triple
    }

    /// The buffer's place at a position below the number of elements: the offset plus the
    /// increments times the position's coordinates.
    pub fn place(&self, position: u32) -> u32
        requires { position < size_of self.now.dims }
        ensures place { result ≡ place_at self.now position }
        ensures sound { IsTriple self.now }
    {
        if self.is_in_order {
            place_in_order(&self.triple, position)
        } else {
            place_of(&self.triple, position)
        }
    }
}

/// Whether a triple gives each position itself as its place. No placement is made for it.
pub fn shows_identity(triple: &Triple) -> bool
    ensures { IsTrue result → (p : ℕ) → p < size_of triple.now.dims → place_at triple.now p ≡ p }
{
    shape_laws();
    triple.offset == 0 && lie_in_order(dims_list(&triple.dims), incs_list(&triple.incs))
}

/// The place so many steps after another.
pub(crate) fn place_after(place: u32, inc: i32, steps: usize) -> usize
    requires steps { steps < extent_limit }
    requires place { IsPlace (pos place +ℤ inc *ℤ pos steps) }
    ensures { result ≡ unsigned_abs (pos place +ℤ inc *ℤ pos steps) }
{
    let moved = i64::from(inc) * steps as i64;
    let at = i64::from(place) + moved;
    at as usize
}

/// The coordinate along a dimension of this size. Below the size it takes no division.
fn coordinate_at(position: u32, size: u32) -> u32
    requires { 0 < size }
    ensures { result ≡ position % size }
{
    if position < size {
        position
    } else {
        position % size
    }
}

/// The position in the dimensions after one of this size.
fn left_after(position: u32, size: u32) -> u32
    requires { 0 < size }
    ensures { result ≡ position / size }
{
    if position < size { 0 } else { position / size }
}

/// The buffer's place at a position of the dimensions, from an offset on.
fn place_of_position(offset: u32, sizes: &[u32], incs: &[i32], position: u32) -> i64
    requires paired { length incs.now ≡ length sizes.now }
    requires dims { IsDims sizes.now }
    requires within { position < size_of sizes.now }
    ensures { result ≡ pos offset +ℤ moved incs.now (coordinates_of sizes.now position) }
{
    shape_laws();
    let mut place = i64::from(offset);
    let mut rest = position;
    for (i, size) in sizes.iter().enumerate() {
        let coordinate = coordinate_at(rest, *size);
        rest = left_after(rest, *size);
        let step = i64::from(incs[i]) * i64::from(coordinate);
        place += step;
    }
    place
}

/// The buffer's place at a position of the triple's dimensions.
pub(crate) fn place_of(triple: &Triple, position: u32) -> u32
    requires { position < size_of triple.now.dims }
    ensures place { result ≡ place_at triple.now position }
    ensures sound { IsTriple triple.now }
{
    shape_laws();
    let sizes = dims_list(&triple.dims);
    let incs = incs_list(&triple.incs);
    let place = place_of_position(triple.offset, sizes, incs, position);
    place as u32
}

/// The buffer's place at a position of a triple that shows neighbours in order.
pub(crate) fn place_in_order(triple: &Triple, position: u32) -> u32
    requires within { position < size_of triple.now.dims }
    requires ordered { IsInOrder 1 triple.now.incs triple.now.dims }
    ensures place { result ≡ place_at triple.now position }
    ensures sound { IsTriple triple.now }
{
    shape_laws();
    triple.offset + position
}

/// Whether one step along a dimension of this size goes so far. Along a size of 0 or 1 there is no
/// step.
fn goes_so_far(size: u32, inc: i32, step: u32) -> bool
    ensures { IsTrue result → 1 < size → inc ≡ pos step }
{
    size <= 1 || i64::from(inc) == i64::from(step)
}

/// Whether elements lie in order by these increments: one step along a dimension goes as far as
/// there are elements in the dimensions before it.
fn lie_in_order(sizes: &[u32], incs: &[i32]) -> bool
    requires paired { length incs.now ≡ length sizes.now }
    requires dims { IsDims sizes.now }
    ensures { IsTrue result → IsInOrder 1 incs.now sizes.now }
{
    shape_laws();
    let mut step = 1;
    for (i, size) in sizes.iter().enumerate() {
        if !goes_so_far(*size, incs[i], step) {
            return false;
        }
        step *= *size;
    }
    true
}
