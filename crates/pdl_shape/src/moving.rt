//! The place that a triple shows at coordinates.
ghost use Rattle.std.specs.Prelude.{◌≡◌, ◌<◌, ◌≤◌, pos, length, All};
ghost use Rattle.pdl_shape.specs.Shape.{IsWithin, dims_limit, extent_limit};
ghost use Rattle.pdl_shape.specs.Triple.{IsNear, moved, place_of};

use crate::sizes::dims_list;
use crate::triples::{Triple, incs_list};

/// The increments times the coordinates.
fn moved(incs: &[i32], at: &[u32]) -> i64
    requires few { length incs.now ≤ dims_limit }
    requires small { All (λ c. c < extent_limit) at.now }
    ensures value { result ≡ moved incs.now at.now }
    ensures near { IsNear (length incs.now) result }
{
    match (incs.split_first(), at.split_first()) {
        (Some((inc, incs)), Some((first, at))) => {
            let step = i64::from(*inc) * i64::from(*first);
            step + moved(incs, at)
        }
        _ => 0,
    }
}

/// The place that a triple shows at coordinates, which must lie within its dimensions.
pub fn place(triple: &Triple, at: &[u32]) -> u32
    requires { IsWithin triple.now.dims at.now }
    ensures { pos result ≡ place_of triple.now at.now }
{
    let _sizes = dims_list(&triple.dims);
    let place = i64::from(triple.offset) + moved(incs_list(&triple.incs), at);
    place as u32
}
