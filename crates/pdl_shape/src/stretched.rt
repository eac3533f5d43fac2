//! Triples that are stretched over broadcast dimensions (PDL::Broadcasting).
ghost use Rattle.std.specs.Prelude.{◌≡◌, ◌==◌, ℕ, if◌then◌else◌, List, length, pos, slice_index_or};
ghost use Rattle.pdl_shape.specs.Broadcast.{BroadcastsTo, cut_to};
ghost use Rattle.pdl_shape.specs.Shape.{IsWithin};
ghost use Rattle.pdl_shape.specs.Triple.{Reaches, place_of};

use crate::sizes::{Dims, copy_dims, dims_list, size_along};
use crate::triples::{Incs, Triple, incs_list};
use smallvec::SmallVec;

/// How far one step along a dimension goes in a window that is stretched over it: nowhere where the
/// window's size is 1 or missing.
fn stretched_increment(sizes: &[u32], incs: &[i32], dimension: usize) -> i32
    requires paired { length incs.now ≡ length sizes.now }
    ensures { result ≡ (if slice_index_or sizes.now dimension 1 == 1 then pos 0
        else slice_index_or incs.now dimension (pos 0)) }
{
    if size_along(sizes, dimension) == 1 {
        0
    } else {
        incs[dimension]
    }
}

/// The triple that shows a window stretched over dimensions that it broadcasts to: at each
/// coordinates it shows the window's place at these, cut to the window's dimensions, with 0 along a
/// size of 1. It takes no memory.
pub fn stretched_triple(triple: &Triple, dims: &Dims) -> Triple
    requires { BroadcastsTo triple.now.dims dims.now }
    ensures dims { result.dims ≡ dims.now }
    ensures shows { (cs : List ℕ) → IsWithin dims.now cs →
        place_of result cs ≡ place_of triple.now (cut_to triple.now.dims cs) }
    ensures reaches { (n : ℕ) → Reaches triple.now n → Reaches result n }
{
    let joined = dims_list(dims);
    let (sizes, incs) = (dims_list(&triple.dims), incs_list(&triple.incs));
    let mut items = SmallVec::new(*dims.sizes.allocator());
    for dimension in 0..joined.len() {
        items.push_reserved(stretched_increment(sizes, incs, dimension));
    }
    Triple {
        offset: triple.offset,
        incs: Incs { items },
        dims: copy_dims(dims),
    }
}
