//! Increments and offsets that count: nothing moves along a size of 0 or 1, or in a window without
//! elements.
ghost use Rattle.std.specs.Prelude.{◌≡◌, ◌<◌, ◌==◌, nat_abs, if◌then◌else◌};
ghost use Rattle.pdl_elem.specs.Types.{InRange};
ghost use Rattle.pdl_elem.specs.declared.Ty.TheVariants.{Long};
ghost use Rattle.pdl_shape.specs.Shape.{size_of};
ghost use Rattle.pdl_shape.specs.Triple.{IsPlace};
ghost use Rattle.pdl_affine.specs.Courses.{counting};

use pdl_shape::{Dims, elements_of};

/// An increment along a size: 0 along a size of 0 or 1.
pub fn counting(inc: i128, size: u32) -> i32
    requires { 1 < size → InRange Long inc }
    ensures { result ≡ counting inc size }
{
    if size <= 1 { 0 } else { inc as i32 }
}

/// The offset that a place counts as: 0 for a window without elements.
pub fn counted_offset(place: i128, dims: &Dims) -> u32
    requires { (size_of dims.now ≡ 0 → ⊥) → IsPlace place }
    ensures { result ≡ (if size_of dims.now == 0 then 0 else nat_abs place) }
{
    if elements_of(dims) == 0 {
        0
    } else {
        place as u32
    }
}
