//! Going through positions in order, by coordinates that move on.
ghost use Rattle.std.specs.Prelude.{◌≡◌, ◌<◌, ◌+◌, ◌/◌, drop, slice_index_or};
ghost use Rattle.pdl_shape.specs.Shape.{IsWithin, coordinates_of, position_of};

use pdl_shape::shape_laws;

/// Moves coordinates on to those of the next position, dimension 0 fastest. Those of the last
/// position go back to the first.
pub(crate) fn move_on(sizes: &[u32], coordinates: &mut [u32])
    requires { IsWithin sizes.now coordinates.old }
    ensures { coordinates.new ≡ coordinates_of sizes.now
        (position_of sizes.now coordinates.old + 1) }
{
    shape_laws();
    for (dimension, &size) in sizes.iter().enumerate() {
        let next = coordinates[dimension] + 1;
        if next < size {
            coordinates[dimension] = next;
            return;
        }
        coordinates[dimension] = 0;
    }
}

/// In how many rounds of `each` positions `count` of them are done: in none where a round has none.
pub(crate) fn rounds_of(count: u32, each: u32) -> u32
    ensures none { each ≡ 0 → result ≡ 0 }
    ensures some { 0 < each → result ≡ count / each }
{
    if each == 0 { 0 } else { count / each }
}

/// The size along the first dimension, which is 1 where there is none, and the other sizes.
pub(crate) fn first_size(dims: &[u32]) -> (u32, &[u32])
    ensures first { result.0 ≡ slice_index_or dims.now 0 1 }
    ensures rest { result.1.now ≡ drop 1 dims.now }
{
    match dims.split_first() {
        Some((first, rest)) => (*first, rest),
        None => (1, dims),
    }
}
