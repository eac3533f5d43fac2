//! Triples whose increments lie apart, so that they show each place once.
ghost use Rattle.std.specs.Prelude.{◌≡◌, true, length};
ghost use Rattle.pdl_shape.specs.Triple.{IsTriple};
ghost use Rattle.pdl_engine.specs.Apart.{KeepApart, LiesApart};

use pdl_shape::{Triple, dims_list, incs_list};

/// Whether each increment along a size above 1 goes further than those before it lead together, of
/// which this is the sum.
fn are_apart(sizes: &[u32], incs: &[i32], reach: u64) -> bool
    requires { length incs.now ≡ length sizes.now }
    ensures { result ≡ true → KeepApart reach incs.now sizes.now }
{
    match (sizes.split_first(), incs.split_first()) {
        (Some((size, sizes)), Some((inc, incs))) => {
            if *size <= 1 {
                return are_apart(sizes, incs, reach);
            }
            let step = u64::from(inc.unsigned_abs());
            if step <= reach {
                return false;
            }
            match reach.checked_add(step * u64::from(*size - 1)) {
                Some(reach) => are_apart(sizes, incs, reach),
                None => false,
            }
        }
        _ => true,
    }
}

/// Whether it is plain by a triple's increments that no two coordinates have one place.
pub(crate) fn lies_apart(triple: &Triple) -> bool
    ensures apart { result ≡ true → LiesApart triple.now }
    ensures sound { IsTriple triple.now }
{
    are_apart(dims_list(&triple.dims), incs_list(&triple.incs), 0)
}
