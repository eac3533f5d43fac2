//! Where one argument stands, and how far it goes on when a dimension moves on.
ghost use Rattle.std.specs.Prelude.{◌≡◌, ◌-◌, ◌<◌, ◌≤◌, pos, unsigned_abs, length, map, All, slice_index_or};
ghost use Rattle.pdl_broadcast.specs.Cursor.{CanJump, Jumps, jumped, landing, next_of, rolled_of, step_of};
ghost use Rattle.pdl_shape.specs.Broadcast.{BroadcastsTo};
ghost use Rattle.pdl_shape.specs.Shape.{IsWithin, dims_limit, extent, extent_limit};
ghost use Rattle.pdl_shape.specs.Triple.{spread};

use pdl_shape::{MOST_DIMS, shape_laws};

/// An argument's place, and for each dimension how far the place jumps when that dimension moves on
/// and all before it roll over.
#[derive(Clone, Copy)]
pub(crate) struct Cursor {
    pub(crate) place: u32,
    pub(crate) jumps: [i32; MOST_DIMS],
}

/// How far one step along a dimension goes in a stretched argument: 0 along a size of 0 or 1, and
/// along a dimension that it lacks.
fn step_along(incs: &[i32], sizes: &[u32], dimension: usize) -> i32
    requires { length incs.now ≡ length sizes.now }
    ensures { result ≡ step_of incs.now sizes.now dimension }
{
    if dimension < sizes.len() && sizes[dimension] > 1 {
        incs[dimension]
    } else {
        0
    }
}

/// The last coordinate along a dimension, and 0 where it is missing or empty.
fn last_along(sizes: &[u32], dimension: usize) -> i32
    requires { extent sizes.now ≤ extent_limit }
    ensures { result ≡ pos (slice_index_or sizes.now dimension 1 - 1) }
{
    shape_laws();
    let size = if dimension < sizes.len() {
        sizes[dimension]
    } else {
        1
    };
    size.saturating_sub(1) as i32
}

/// The jumps of an argument of these increments and sizes, which stretches to the sizes of a walk.
pub(crate) fn jumps_of(incs: &[i32], sizes: &[u32], walk: &[u32]) -> [i32; MOST_DIMS]
    requires count { length walk.now ≤ dims_limit }
    requires paired { length incs.now ≡ length sizes.now }
    requires small { extent sizes.now ≤ extent_limit }
    requires narrow { spread incs.now sizes.now < extent_limit }
    requires stretched { BroadcastsTo sizes.now walk.now }
    ensures { Jumps walk.now incs.now sizes.now result }
{
    shape_laws();
    let mut jumps = [0; MOST_DIMS];
    let mut turned = 0;
    for dimension in 0..walk.len() {
        let step = step_along(incs, sizes, dimension);
        jumps[dimension] = step - turned;
        turned += step * last_along(sizes, dimension);
    }
    jumps
}

/// Moves coordinates on, dimension 0 fastest, and answers the dimension that moved on, which is the
/// number of dimensions that rolled over.
pub(crate) fn step(sizes: &[u32], coordinates: &mut [u32]) -> usize
    requires { IsWithin sizes.now coordinates.old }
    ensures moved { coordinates.new ≡ next_of sizes.now coordinates.old }
    ensures rolled { result ≡ rolled_of sizes.now coordinates.old }
{
    shape_laws();
    for (dimension, &size) in sizes.iter().enumerate() {
        let next = coordinates[dimension] + 1;
        if next < size {
            coordinates[dimension] = next;
            return dimension;
        }
        coordinates[dimension] = 0;
    }
    sizes.len()
}

/// The place where a cursor lands when this dimension moves on.
fn landed(cursor: &Cursor, dimension: usize) -> u32
    requires dimension { dimension < dims_limit }
    requires inside { CanJump dimension cursor.now }
    ensures { result ≡ unsigned_abs (landing dimension cursor.now) }
{
    (cursor.place as i32 + cursor.jumps[dimension]) as u32
}

/// Takes each argument's place to the next coordinates, where this dimension moves on.
pub(crate) fn jump(cursors: &mut [Cursor], dimension: usize)
    requires dimension { dimension < dims_limit }
    requires inside { All (λ cursor. CanJump dimension cursor) cursors.old }
    ensures { cursors.new ≡ map (λ cursor. jumped dimension cursor) cursors.old }
{
    for cursor in cursors {
        cursor.place = landed(cursor, dimension);
    }
}
