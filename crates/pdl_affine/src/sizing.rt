//! The sizes of a view's dimensions.
ghost use Rattle.std.specs.Prelude.{◌≡◌, ◌<◌, ◌≤◌, ◌||◌, ◌==◌, ◌-◌, not, length, map, filter, get_or, replicate, insert, IfErr, IfOk, OnOk, [], ◌∷◌, ◌++◌};
ghost use Rattle.pdl_affine.specs.Slicing.{line_sizes};
ghost use Rattle.pdl_affine.specs.Courses.{lines_of_taken, seen_form, Stands, IsLimit, Limits};
ghost use Rattle.pdl_affine.specs.Views.{exchanged, shifted, inserted, diagonal, squeezed, clumped, lists, lowest_of, kept_dims, sizes};
ghost use Rattle.pdl_shape.specs.Limits.{checked_dims};
ghost use Rattle.pdl_shape.specs.Shape.{IsDims, dims_limit};

use crate::PlanFault;
use crate::forms::{Form, Taken};
use crate::putting::put;
use crate::resolving::{lists, size_at};
use pdl_shape::{Dims, MOST_DIMS, MOST_EXTENT, ShapeFault, dims_of, size};
use smallvec::SmallVec;
use std::alloc::{AllocError, Global};

fn put_line(sizes: &mut SmallVec<u32, MOST_DIMS>, taken: Taken) -> Result<(), AllocError>
    ensures { OnOk result (sizes.new.items ≡ sizes.old.items
        ++ line_sizes (lines_of_taken (taken ∷ []))) }
{
    match taken {
        Taken::Kept { size, .. } | Taken::Added { size } => Ok(sizes.push(size)?),
        Taken::Lost { .. } => Ok(()),
    }
}

/// The sizes that are taken, in place where they are as few as an array's may be.
pub fn slice(alloc: Global, taken: &[Taken]) -> Result<SmallVec<u32, MOST_DIMS>, AllocError>
    ensures { IfOk result (λ ms. ms.items ≡ line_sizes (lines_of_taken taken.now)) }
{
    let mut sizes = SmallVec::new(alloc);
    for line in taken {
        put_line(&mut sizes, *line)?;
    }
    Ok(sizes)
}

fn exchange(alloc: Global, a: usize, b: usize, parent: &[u32]) -> Result<Vec<u32>, AllocError>
    requires a_in { a < length parent.now }
    requires b_in { b < length parent.now }
    ensures { IfOk result (λ ms. ms.items ≡ sizes (exchanged a b) parent.now) }
{
    let mut sizes = Vec::from_slice(alloc, parent)?;
    sizes.swap(a, b);
    Ok(sizes)
}

fn shift(alloc: Global, a: usize, b: usize, parent: &[u32]) -> Result<Vec<u32>, AllocError>
    requires a_in { a < length parent.now }
    requires b_in { b < length parent.now }
    ensures { IfOk result (λ ms. ms.items ≡ sizes (shifted a b) parent.now) }
{
    let mut sizes = Vec::from_slice(alloc, parent)?;
    let size = size_at(parent, a);
    let _ = sizes.remove(a);
    insert_at(&mut sizes, b, size)?;
    Ok(sizes)
}

fn arrange(alloc: Global, order: &[usize], parent: &[u32]) -> Result<Vec<u32>, AllocError>
    ensures { IfOk result (λ ms. ms.items ≡ map (λ i. get_or parent.now i 0) order.now) }
{
    let mut sizes = Vec::new(alloc);
    for place in order {
        put(&mut sizes, size_at(parent, *place))?;
    }
    Ok(sizes)
}

fn squeeze(alloc: Global, parent: &[u32]) -> Result<Vec<u32>, AllocError>
    ensures { IfOk result (λ ms. ms.items ≡ sizes squeezed parent.now) }
{
    let mut sizes = Vec::new(alloc);
    for size in parent {
        put_unless_one(&mut sizes, *size)?;
    }
    Ok(sizes)
}

fn put_unless_one(sizes: &mut Vec<u32>, size: u32) -> Result<(), AllocError>
    ensures { OnOk result (sizes.new.items ≡ sizes.old.items
        ++ filter (λ d. not (d == 1)) (size ∷ [])) }
{
    if size == 1 { Ok(()) } else { put(sizes, size) }
}

/// The lowest of these places, or 0.
pub fn lowest_of(places: &[usize]) -> usize
    ensures { result ≡ lowest_of places.now }
{
    match places {
        [] => 0,
        [place] => *place,
        [place, rest @ ..] => {
            let lowest = lowest_of(rest);
            if *place <= lowest { *place } else { lowest }
        }
    }
}

/// Whether a diagonal of the listed dimensions keeps this one.
pub fn is_kept(listed: &[usize], place: usize) -> bool
    ensures { result ≡ (not (lists listed.now place) || (place == lowest_of listed.now)) }
{
    !lists(listed, place) || place == lowest_of(listed)
}

fn put_kept(kept: &mut Vec<usize>, listed: &[usize], place: usize) -> Result<(), AllocError>
    ensures { OnOk result (kept.new.items ≡ kept.old.items
        ++ filter (λ i. not (lists listed.now i) || (i == lowest_of listed.now)) (place ∷ [])) }
{
    if is_kept(listed, place) {
        kept.push(place)?;
    }
    Ok(())
}

fn kept_dims(alloc: Global, listed: &[usize], count: usize) -> Result<Vec<usize>, AllocError>
    ensures { IfOk result (λ kept. kept.items ≡ kept_dims listed.now count) }
{
    let mut kept = Vec::new(alloc);
    for place in 0..count {
        put_kept(&mut kept, listed, place)?;
    }
    Ok(kept)
}

fn join(alloc: Global, listed: &[usize], parent: &[u32]) -> Result<Vec<u32>, AllocError>
    ensures { IfOk result (λ ms. ms.items ≡ sizes (diagonal listed.now) parent.now) }
{
    let kept = kept_dims(alloc, listed, parent.len())?;
    arrange(alloc, &kept, parent)
}

fn clump(alloc: Global, count: usize, parent: &[u32]) -> Result<Vec<u32>, AllocError>
    requires within { count ≤ length parent.now }
    requires limits { IsDims parent.now }
    ensures { IfOk result (λ ms. ms.items ≡ sizes (clumped count) parent.now) }
{
    let mut sizes = Vec::new(alloc);
    match size(&parent[..count]) {
        Some(size) => put(&mut sizes, size)?,
        None => unreachable!(),
    }
    sizes.extend_from_slice(&parent[count..])?;
    Ok(sizes)
}

/// The sizes, and sizes of 1 up to a place, with room for one more.
fn filled(alloc: Global, place: usize, parent: &[u32]) -> Result<Vec<u32>, AllocError>
    ensures { IfOk result (λ ms. ms.items ≡ parent.now ++ replicate (place - length parent.now) 1) }
{
    let mut sizes = Vec::with_capacity(alloc, place.max(parent.len()).saturating_add(1))?;
    sizes.extend_from_slice(parent)?;
    let ones = vec![in alloc; 1; place.saturating_sub(parent.len())]?;
    sizes.extend_from_slice(&ones)?;
    Ok(sizes)
}

fn insert(alloc: Global, place: usize, size: u64, parent: &[u32]) -> Result<Vec<u32>, PlanFault>
    requires { length parent.now ≤ dims_limit }
    ensures ok { IfOk result (λ ms. ms.items ≡ sizes (inserted place size) parent.now) }
    ensures err { IfErr result (IsLimit (inserted place size) parent.now) }
{
    if parent.len() >= MOST_DIMS || place >= MOST_DIMS {
        return Err(PlanFault::TooManyDims);
    }
    if size > u64::from(MOST_EXTENT) {
        return Err(PlanFault::TooLarge);
    }
    let mut sizes = filled(alloc, place, parent)?;
    insert_at(&mut sizes, place, size as u32)?;
    Ok(sizes)
}

fn insert_at(sizes: &mut Vec<u32>, place: usize, size: u32) -> Result<(), AllocError>
    requires { place ≤ length sizes.old.items }
    ensures { OnOk result (sizes.new.items ≡ insert sizes.old.items place size) }
{
    sizes.insert(place, size)?;
    Ok(())
}

/// The sizes of a form over a parent of these.
pub fn sizes_of(alloc: Global, form: &Form, parent: &[u32]) -> Result<Vec<u32>, PlanFault>
    requires stands { Stands form.now (length parent.now) }
    requires limits { IsDims parent.now }
    ensures ok { IfOk result (λ ms. ms.items ≡ sizes (seen_form form.now) parent.now) }
    ensures err { IfErr result (IsLimit (seen_form form.now) parent.now) }
{
    match form {
        Form::Sliced(taken) => Ok(Vec::from_slice(alloc, slice(alloc, taken)?.as_slice())?),
        Form::Exchanged(a, b) => Ok(exchange(alloc, *a, *b, parent)?),
        Form::Shifted(a, b) => Ok(shift(alloc, *a, *b, parent)?),
        Form::Arranged(order) => Ok(arrange(alloc, order, parent)?),
        Form::Inserted { place, size } => insert(alloc, *place, *size, parent),
        Form::Diagonal(listed) => Ok(join(alloc, listed, parent)?),
        Form::Squeezed => Ok(squeeze(alloc, parent)?),
        Form::Clumped(count) => Ok(clump(alloc, *count, parent)?),
    }
}

/// The dimensions of these sizes, if they are within the limits.
pub fn limited(alloc: Global, sizes: &[u32]) -> Result<Dims, PlanFault>
    ensures { Limits (checked_dims sizes.now) result }
{
    match dims_of(alloc, sizes) {
        Ok(dims) => Ok(dims),
        Err(ShapeFault::TooManyDims) => Err(PlanFault::TooManyDims),
        Err(ShapeFault::TooLarge) => Err(PlanFault::TooLarge),
        Err(ShapeFault::Mismatch) => unreachable!(),
    }
}
