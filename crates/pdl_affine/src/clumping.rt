//! Clumps that are windows: dimensions whose increments join.
ghost use Rattle.std.specs.Prelude.{◌≡◌, ◌≤◌, ◌+◌, ◌==◌, ◌∷◌, ◌*ℤ◌, pos, length, take, drop, IfSome};
ghost use Rattle.std.specs.List.{list_any};
ghost use Rattle.std.specs.Ordering.{int_eq};
ghost use Rattle.pdl_shape.specs.Triple.{IsTriple};
ghost use Rattle.pdl_affine.specs.Views.{clumped, sizes};
ghost use Rattle.pdl_affine.specs.Windows.{is_chain, do_join, windowed, Shows, LiesIn, form_place};
ghost use Rattle.pdl_affine.specs.Courses.{counted_incs, first_inc, others};

use crate::composing::incs_of;
use crate::counting::{counted_offset, counting};
use pdl_shape::{Dims, MOST_DIMS, Triple, dims_list, shape_laws, triple_of};
use smallvec::SmallVec;
use std::alloc::Global;

/// Whether an increment is the one before times its size.
fn continues(last: i32, last_size: u32, inc: i32) -> bool
    ensures { result ≡ int_eq inc (last *ℤ pos last_size) }
{
    i64::from(inc) == i64::from(last) * i64::from(last_size)
}

/// Whether the increments are a chain after this one along this size; sizes of 1 are left out.
fn are_chain_after(last: i32, last_size: u32, incs: &[i32], sizes: &[u32]) -> bool
    ensures { result ≡ is_chain ((last, last_size) ∷ others incs.now sizes.now) }
{
    match incs {
        [] => true,
        [inc, incs @ ..] => match sizes {
            [] => true,
            [size, sizes @ ..] => {
                if *size == 1 {
                    are_chain_after(last, last_size, incs, sizes)
                } else {
                    continues(last, last_size, *inc) && are_chain_after(*inc, *size, incs, sizes)
                }
            }
        },
    }
}

/// Whether the increments are a chain, sizes of 1 left out.
fn are_chain(incs: &[i32], sizes: &[u32]) -> bool
    ensures { result ≡ is_chain (others incs.now sizes.now) }
{
    match incs {
        [] => true,
        [inc, incs @ ..] => match sizes {
            [] => true,
            [size, sizes @ ..] => {
                if *size == 1 {
                    are_chain(incs, sizes)
                } else {
                    are_chain_after(*inc, *size, incs, sizes)
                }
            }
        },
    }
}

/// Whether a size is 0.
fn is_empty(sizes: &[u32]) -> bool
    ensures { result ≡ list_any (λ d. d == 0) sizes.now }
{
    sizes.iter().any(|size| *size == 0)
}

/// Whether dimensions join to one: their increments are a chain, or a size is 0.
fn do_join(incs: &[i32], sizes: &[u32]) -> bool
    ensures { result ≡ do_join incs.now sizes.now }
{
    is_empty(sizes) || are_chain(incs, sizes)
}

/// The increment along the first size that isn't 1, or 0.
fn first_inc(incs: &[i32], sizes: &[u32]) -> i32
    ensures { result ≡ first_inc incs.now sizes.now }
{
    match incs {
        [] => 0,
        [inc, incs @ ..] => match sizes {
            [] => 0,
            [size, sizes @ ..] => {
                if *size == 1 {
                    first_inc(incs, sizes)
                } else {
                    *inc
                }
            }
        },
    }
}

/// The increments, each counted along its size.
fn counted_incs(alloc: Global, first: i32, rest: &[i32], dims: &Dims) -> SmallVec<i32, MOST_DIMS>
    requires { length rest.now + 1 ≡ length dims.now }
    ensures { result.items ≡ counted_incs (first ∷ rest.now) dims.now }
{
    let sizes = dims_list(dims);
    let mut made = SmallVec::new(alloc);
    made.push_reserved(counting(i128::from(first), sizes[0]));
    for i in 0..rest.len() {
        made.push_reserved(counting(i128::from(rest[i]), sizes[i + 1]));
    }
    made
}

/// Whether the first dimensions of a triple join.
fn joins(count: usize, over: &Triple) -> bool
    requires { count ≤ length over.now.dims }
    ensures { result ≡ do_join (take count over.now.incs) (take count over.now.dims) }
{
    let incs = incs_of(over);
    let sizes = dims_list(&over.dims);
    do_join(&incs[..count], &sizes[..count])
}

/// The increments of a clump that joins.
fn joined_incs(alloc: Global, count: usize, dims: &Dims, over: &Triple) -> SmallVec<i32, MOST_DIMS>
    requires within { count ≤ length over.now.dims }
    requires sized { dims.now ≡ sizes (clumped count) over.now.dims }
    ensures incs { let first = first_inc (take count over.now.incs) (take count over.now.dims) in
        result.items ≡ counted_incs (first ∷ drop count over.now.incs) dims.now }
    ensures triple { IsTriple over.now }
{
    let incs = incs_of(over);
    let sizes = dims_list(&over.dims);
    let first = first_inc(&incs[..count], &sizes[..count]);
    counted_incs(alloc, first, &incs[count..], dims)
}

/// The triple that shows a clump of so many dimensions, if they join.
pub fn clump(alloc: Global, count: usize, dims: &Dims, over: &Triple) -> Option<Triple>
    requires within { count ≤ length over.now.dims }
    requires sized { dims.now ≡ sizes (clumped count) over.now.dims }
    ensures window { result ≡ windowed (clumped count) over.now }
    ensures shows { IfSome result (λ triple. Shows triple (form_place (clumped count) over.now)) }
    ensures inside { IfSome result (λ triple. LiesIn triple over.now) }
{
    shape_laws();
    if !joins(count, over) {
        return None;
    }
    let incs = joined_incs(alloc, count, dims, over);
    let offset = counted_offset(i128::from(over.offset), dims);
    Some(triple_of(alloc, offset, incs.as_slice(), dims))
}
