//! New arrays by their dimensions (PDL::Core, PDL::Basic).
ghost use Rattle.std.specs.Prelude.{◌≡◌, ◌<◌, ◌≤◌, ◌+◌, length, map, pos, All, IfOk};
ghost use Rattle.std.specs.List.{range_with_len};
ghost use Rattle.pdl_buf.specs.Made.{IsMade};
ghost use Rattle.pdl_elem.specs.Types.{InRange};
ghost use Rattle.pdl_elem.specs.declared.Ty.TheVariants.{Long};
ghost use Rattle.pdl_shape.specs.Shape.{extent_limit, size_of};
ghost use Rattle.pdl_ops.specs.Fills.{fill_element, filled};

use crate::fills::{Fill, element, next_coordinates};
use crate::operands::{BLOCK, rewrap};
use pdl_buf::{Elements, Made, Packing};
use pdl_elem::Ty;
use pdl_shape::{Dims, copy_dims, dims_list, elements_of, size_along};
use std::alloc::{AllocError, Global};

/// Sets each number to the element at its position, which is counted from `first` on, before it is
/// wrapped. There is at least one. A long holds each of them.
fn fill_block(kind: Fill, sizes: &[u32], first: u32, into: &mut [i64])
    requires some { 0 < length into.old }
    requires within { first + length into.old ≤ size_of sizes.now }
    requires few { size_of sizes.now ≤ extent_limit }
    ensures value { into.new ≡
        map (λ i. pos (fill_element kind sizes.now (first + i))) (range_with_len 0 (length into.old)) }
    ensures in_range { All (InRange Long) into.new }
{
    let (width, height) = (size_along(sizes, 0), size_along(sizes, 1));
    let (mut x, mut y) = (first % width, first / width % height);
    for (i, to) in into.iter_mut().enumerate() {
        *to = i64::from(element(kind, first + i as u32, x, y));
        let next = next_coordinates(width, height, x, y);
        x = next.0;
        y = next.1;
    }
}

/// A new array of a type and of dimensions (PDL::Core, zeroes and ones; PDL::Basic, sequence, xvals
/// and yvals). Its elements are packed as they are made.
pub fn fill(alloc: Global, kind: Fill, ty: Ty, dims: &Dims) -> Result<Made, AllocError>
    ensures value { IfOk result (λ made. made ≡ filled kind ty dims.now) }
    ensures made { IfOk result (λ made. IsMade made.ty made.dims made.elems) }
{
    let sizes = dims_list(dims);
    let count = elements_of(dims) as usize;
    let mut block = vec![in alloc; 0; count.min(BLOCK)]?;
    let mut elems = Packing::new(alloc, ty, count)?;
    let mut done = 0;
    while done < count {
        block.truncate(count - done);
        fill_block(kind, sizes, done as u32, &mut block);
        rewrap(Ty::Long, ty, &mut block);
        elems.extend(&block)?;
        done += block.len();
    }
    Ok(Made {
        ty,
        dims: copy_dims(dims),
        elems: Elements::packed(elems),
    })
}
