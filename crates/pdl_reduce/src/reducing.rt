//! Reductions along dimension 0 and of whole arrays (PDL::Ufunc).
ghost use Rattle.std.specs.Prelude.{◌≡◌, ◌<◌, ◌≤◌, ◌*◌, ℕ, List, [], ◌∷◌, length, drop, get_or, map, All, IsTrue, IfOk, if◌then◌else◌};
ghost use Rattle.std.specs.List.{flat_map, range_with_len};
ghost use Rattle.pdl_buf.specs.Made.{IsMade, array_of};
ghost use Rattle.pdl_elem.specs.Types.{InRange};
ghost use Rattle.pdl_shape.specs.Shape.{extent_limit, size_of};
ghost use Rattle.pdl_reduce.specs.Answers.{Answers};
ghost use Rattle.pdl_reduce.specs.Across.{come_to};
ghost use Rattle.pdl_reduce.specs.Reductions.{answer, flat, is_extreme, lists, reduced, reduced_dims, reduced_row, reduced_type, whole_reduced, width};

use crate::collected::Collected;
use crate::columns::add_lists;
use crate::folds::{Adding, Falling, Multiplying, Rising};
use crate::rows::{add_row, sum_type};
use crate::windows::{BLOCK, all_set, any_set};
use crate::{ReduceFault, Reduction, Whole};
use pdl_buf::{
    Elements, Made, Packing, Strided, strided_dims, strided_is_in_range, strided_is_turned,
    strided_type,
};
use pdl_elem::{Ty, wrapping_laws};
use pdl_numbers::Folding;
use pdl_shape::{
    Dims, copy_dims, dims_list, dims_within, elements_of, shape_laws, size_along, sizes_after,
};
use std::alloc::{AllocError, Global};

/// Whether the reduction looks for an extreme.
fn is_extreme(kind: Reduction) -> bool
    ensures { result ≡ is_extreme kind }
{
    match kind {
        Reduction::Maximum | Reduction::Minimum | Reduction::MaximumInd | Reduction::MinimumInd =>
            true,
        _ => false,
    }
}

/// The type of a reduction's result.
fn reduced_type(kind: Reduction, ty: Ty) -> Ty
    ensures { result ≡ reduced_type kind ty }
{
    match kind {
        Reduction::Maximum | Reduction::Minimum => ty,
        Reduction::MaximumInd | Reduction::MinimumInd => Ty::Long,
        _ => sum_type(ty),
    }
}

/// The size along dimension 0: 1 where there is none.
fn width(sizes: &[u32]) -> u32
    ensures { result ≡ width sizes.now }
{
    size_along(sizes, 0)
}

/// The dimensions after so many.
pub(crate) fn dims_after(alloc: Global, dims: &Dims, count: usize) -> Dims
    ensures { result ≡ drop count dims.now }
{
    shape_laws();
    dims_within(alloc, sizes_after(dims_list(dims), count))
}

/// How many lists there are along dimension 0.
fn count_lists(alloc: Global, dims: &Dims) -> u32
    ensures { result ≡ size_of (drop 1 dims.now) }
{
    elements_of(&dims_after(alloc, dims, 1))
}

/// The dimensions of a reduction's result.
fn reduced_dims(alloc: Global, kind: Reduction, dims: &Dims) -> Dims
    ensures { result ≡ reduced_dims kind dims.now }
{
    shape_laws();
    let sizes = dims_list(dims);
    match kind {
        Reduction::Cumusumover | Reduction::Cumuprodover => {
            if sizes.is_empty() {
                dims_within(alloc, &[1])
            } else {
                copy_dims(dims)
            }
        }
        _ => dims_after(alloc, dims, 1),
    }
}

/// How many numbers a reduction makes of so many lists of this size, as room for them: more would
/// be packed as well.
fn made_count(kind: Reduction, count: u32, size: u32) -> usize {
    match kind {
        Reduction::Cumusumover | Reduction::Cumuprodover => count as usize * size as usize,
        _ => count as usize,
    }
}

/// What a reduction makes of a window's elements, cut into so many lists of this size.
fn reduced_lists(
    alloc: Global,
    kind: Reduction,
    a: &Strided<'_>,
    count: u32,
    size: u32,
) -> Result<Packing, AllocError>
    requires whole { count * size ≡ length a.now.elems }
    requires small { length a.now.elems ≤ extent_limit }
    requires some { IsTrue (is_extreme kind) → 0 < size }
    ensures { let elems = flat_map (reduced_row kind a.now.ty) (lists count size a.now.elems) in
        let ty = reduced_type kind a.now.ty in
        IfOk result (λ made. made ≡ record { ty = ty; elems = elems }) }
{
    let mut room = vec![in alloc; 0; BLOCK.min(size as usize)]?;
    let block = room.as_mut_slice();
    let ty = reduced_type(kind, strided_type(a));
    let mut made = Collected::new(alloc, ty, made_count(kind, count, size))?;
    for i in 0..count {
        add_row(kind, a, i * size, size, block, &mut made)?;
    }
    made.packed()
}

/// What the lists along dimension 0 come to by a fold, many lists at once, wrapped to a type.
fn folded_lists<F: Folding>(
    alloc: Global,
    a: &Strided<'_>,
    ty: Ty,
    count: u32,
    size: u32,
    start: i64,
) -> Result<Packing, AllocError>
    requires size { size ≡ get_or a.now.dims 0 1 }
    requires planes { 0 < get_or a.now.dims 1 1 }
    requires whole { count * size ≡ length a.now.elems }
    requires small { length a.now.elems ≤ extent_limit }
    ensures { let at = come_to ty F.taken start size a.now.elems in
        let elems = map at (range_with_len 0 count) in
        IfOk result (λ made. made ≡ record { ty = ty; elems = elems }) }
{
    let width = BLOCK.min(count as usize);
    let mut so_far = vec![in alloc; 0; width]?;
    let mut made = Collected::new(alloc, ty, count as usize)?;
    add_lists::<F>(a, ty, count, size, start, &mut so_far, &mut made)?;
    made.packed()
}

/// What a reduction makes of a window's lists along dimension 0, so many of this size. Sums,
/// products and extremes go across where that goes through the buffer in its order.
fn reduced_window(
    alloc: Global,
    kind: Reduction,
    a: &Strided<'_>,
    count: u32,
    size: u32,
) -> Result<Packing, AllocError>
    requires size { size ≡ get_or a.now.dims 0 1 }
    requires whole { count * size ≡ length a.now.elems }
    requires small { length a.now.elems ≤ extent_limit }
    requires some { IsTrue (is_extreme kind) → 0 < size }
    ensures { let elems = flat_map (reduced_row kind a.now.ty) (lists count size a.now.elems) in
        let ty = reduced_type kind a.now.ty in
        IfOk result (λ made. made ≡ record { ty = ty; elems = elems }) }
{
    wrapping_laws();
    strided_is_in_range(a);
    if !strided_is_turned(a) {
        return reduced_lists(alloc, kind, a, count, size);
    }
    let ty = reduced_type(kind, strided_type(a));
    match kind {
        Reduction::Sumover => folded_lists::<Adding>(alloc, a, ty, count, size, 0),
        Reduction::Prodover => folded_lists::<Multiplying>(alloc, a, ty, count, size, 1),
        Reduction::Maximum => folded_lists::<Rising>(alloc, a, ty, count, size, i64::MIN),
        Reduction::Minimum => folded_lists::<Falling>(alloc, a, ty, count, size, i64::MAX),
        _ => reduced_lists(alloc, kind, a, count, size),
    }
}

/// A reduction of each list of elements along dimension 0 (PDL::Ufunc). The result has the array's
/// other dimensions; the cumulating reductions keep dimension 0. An array without dimensions counts
/// as one of size 1. `EmptyReduce` exactly where an extreme runs over size 0, whatever the other
/// dimensions are. It answers no other refusal.
pub fn reduce(alloc: Global, kind: Reduction, a: &Strided<'_>) -> Result<Made, ReduceFault>
    ensures value { Answers (reduced kind (array_of a.now)) result }
    ensures made { IfOk result (λ made. IsMade made.ty made.dims made.elems) }
{
    shape_laws();
    let dims = strided_dims(a);
    let size = width(dims_list(dims));
    if is_extreme(kind) && size == 0 {
        return Err(ReduceFault::EmptyReduce);
    }
    let made = reduced_window(alloc, kind, a, count_lists(alloc, dims), size)?;
    made.are_in_range();
    Ok(Made {
        ty: reduced_type(kind, strided_type(a)),
        dims: reduced_dims(alloc, kind, dims),
        elems: Elements::packed(made),
    })
}

/// A reduction of all elements to an array without dimensions.
fn reduce_flat(alloc: Global, kind: Reduction, a: &Strided<'_>) -> Result<Made, ReduceFault>
    requires drops { (n : ℕ) → reduced_dims kind (n ∷ []) ≡ [] }
    ensures value { Answers (reduced kind (flat (array_of a.now))) result }
    ensures made { IfOk result (λ made. IsMade made.ty made.dims made.elems) }
{
    let count = elements_of(strided_dims(a));
    if is_extreme(kind) && count == 0 {
        return Err(ReduceFault::EmptyReduce);
    }
    let made = reduced_lists(alloc, kind, a, 1, count)?;
    made.are_in_range();
    Ok(Made {
        ty: reduced_type(kind, strided_type(a)),
        dims: dims_within(alloc, &[]),
        elems: Elements::packed(made),
    })
}

/// A test of all elements as an array without dimensions.
fn answer(alloc: Global, holds: bool) -> Result<Made, ReduceFault>
    ensures value { Answers (answer holds) result }
    ensures made { IfOk result (λ made. IsMade made.ty made.dims made.elems) }
{
    let elems = vec![in alloc; i64::from(holds); 1]?;
    Ok(Made {
        ty: Ty::Byte,
        dims: dims_within(alloc, &[]),
        elems: Elements::new(elems),
    })
}

/// A reduction of all elements in their order, to an array without dimensions (PDL::Ufunc).
/// `EmptyReduce` exactly for the greatest or the least of an array without elements. It answers no
/// other refusal.
pub fn reduce_whole(alloc: Global, kind: Whole, a: &Strided<'_>) -> Result<Made, ReduceFault>
    ensures value { Answers (whole_reduced kind (array_of a.now)) result }
    ensures made { IfOk result (λ made. IsMade made.ty made.dims made.elems) }
{
    let count = elements_of(strided_dims(a));
    match kind {
        Whole::Sum => reduce_flat(alloc, Reduction::Sumover, a),
        Whole::Prod => reduce_flat(alloc, Reduction::Prodover, a),
        Whole::Max => reduce_flat(alloc, Reduction::Maximum, a),
        Whole::Min => reduce_flat(alloc, Reduction::Minimum, a),
        Whole::All => {
            let mut room = vec![in alloc; 0; BLOCK.min(count as usize)]?;
            answer(alloc, all_set(a, count, room.as_mut_slice()))
        }
        Whole::Any => {
            let mut room = vec![in alloc; 0; BLOCK.min(count as usize)]?;
            answer(alloc, any_set(a, count, room.as_mut_slice()))
        }
    }
}
