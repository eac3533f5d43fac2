//! The broadcast dimensions of a call.
ghost use Rattle.std.specs.Prelude.{◌≡◌, ◌≤◌, [], length, IfSome, option_map};
ghost use Rattle.pdl_shape.specs.Shape.{dims_limit};
ghost use Rattle.pdl_sig.specs.Resolution.{inputs, handed, joined_with};

use crate::inputs::input;
use crate::{ArgShape, SigArg};
use pdl_shape::{MOST_DIMS, dims_list, join_lists, sizes_after};
use smallvec::SmallVec;
use std::alloc::Global;

/// The broadcast dimensions: those after the core ones of all given arguments, joined.
pub fn broadcast(
    alloc: Global,
    args: &[SigArg],
    given: &[ArgShape],
) -> Option<SmallVec<u32, MOST_DIMS>>
    requires { length given.now ≡ length (inputs args.now) }
    ensures joined { option_map (λ sizes. sizes.items) result
        ≡ joined_with [] (handed args.now given.now) }
    ensures count { IfSome result (λ sizes. length sizes.items ≤ dims_limit) }
{
    let mut joined = SmallVec::new(alloc);
    for (place, shape) in given.iter().enumerate() {
        let count = input(args, place).dims.as_slice().len();
        let outer = sizes_after(dims_list(&shape.dims), count);
        joined = join_lists(alloc, joined.as_slice(), outer)?;
    }
    Some(joined)
}
