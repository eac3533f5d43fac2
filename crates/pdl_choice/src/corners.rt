//! The corners of windows: which windows lie inside the parent, and where these begin.
ghost use Rattle.std.specs.Prelude.{◌≡◌, ◌<◌, ◌≤◌, ◌*◌, ◌+◌, ℕ, [], IsTrue, IsSome, length, take, drop, All, IfOk, IfSome, slice_index, vec_len};
ghost use Rattle.pdl_shape.specs.Shape.{extent, extent_limit};
ghost use Rattle.pdl_choice.specs.Edges.{start_count};
ghost use Rattle.pdl_choice.specs.Rounds.{AreCorners, StandsAt, window_starts};

use crate::reach::coordinate;
use crate::{Edge, NoMemory};
use pdl_shape::shape_laws;
use std::alloc::Global;

/// What is known of corners whose windows mostly lie inside the parent.
#[derive(Drop)]
pub(crate) struct Corners {
    /// The place in the parent of each corner whose window lies inside. The others have some place
    /// within the limit of elements.
    pub(crate) bases: Vec<u32>,
    /// The numbers of the corners whose windows reach beyond the parent.
    pub(crate) beyond: Vec<u32>,
}

/// The `len` numbers of the corner that has `at` corners before it.
pub(crate) fn corner_of(ind: &[i64], len: usize, at: u32) -> &[i64]
    requires { len * at + len ≤ length ind.now }
    ensures { result.now ≡ take len (drop (len * at) ind.now) }
{
    let (_, from_here) = ind.split_at(len * at as usize);
    let (corner, _) = from_here.split_at(len);
    corner
}

/// At how many coordinates of a dimension of size `size` a window of size `window` may begin and
/// lie inside.
fn starts_along(size: u32, window: u64) -> u32
    ensures { result ≡ start_count size window }
{
    u64::from(size).saturating_sub(window.saturating_sub(1)) as u32
}

/// The same along each dimension of the windows.
fn starts_of(alloc: Global, parent: &[u32], windows: &[u64]) -> Result<Vec<u32>, NoMemory>
    requires { length windows.now ≤ length parent.now }
    ensures { IfOk result (λ starts. starts.items ≡ window_starts parent.now windows.now) }
{
    let mut starts = Vec::with_capacity(alloc, windows.len())?;
    for (number, window) in windows.iter().enumerate() {
        starts.push(starts_along(parent[number], *window))?;
    }
    Ok(starts)
}

/// The place in the parent of a corner whose numbers lie below `starts`, or `None` where one
/// doesn't.
#[inline(always)]
fn inner_place(parent: &[u32], starts: &[u32], corner: &[i64]) -> Option<u32>
    requires paired { length corner.now ≤ length starts.now }
    requires fit { length starts.now ≤ length parent.now }
    requires below { (j : ℕ) → j < length starts.now
        → slice_index starts.now j ≤ slice_index parent.now j }
    requires bounded { extent parent.now ≤ extent_limit }
    ensures small { IfSome result (λ place. place ≤ extent_limit) }
    ensures stands { IfSome result (λ place. StandsAt parent.now starts.now corner.now place) }
{
    shape_laws();
    let mut place = 0;
    let mut stride = 1;
    for (number, value) in corner.iter().enumerate() {
        place += stride * coordinate(Edge::Zero, starts[number], *value, 0)?;
        stride *= parent[number];
    }
    Some(place)
}

/// Writes the place of each corner whose numbers lie below `starts`, and answers the numbers of the
/// others, unless these are more than a quarter. A corner has `len` numbers.
#[inline(always)]
fn place_numbers(
    alloc: Global,
    parent: &[u32],
    starts: &[u32],
    ind: &[i64],
    len: usize,
    corners: u32,
    bases: &mut [u32],
) -> Result<Option<Vec<u32>>, NoMemory>
    requires paired { len ≡ length starts.now }
    requires fit { length starts.now ≤ length parent.now }
    requires below { (j : ℕ) → j < length starts.now
        → slice_index starts.now j ≤ slice_index parent.now j }
    requires whole { length ind.now ≡ length starts.now * corners }
    requires bounded { extent parent.now ≤ extent_limit }
    requires long { length bases.old ≡ corners }
    requires small { All (λ base. base ≤ extent_limit) bases.old }
    ensures { IfOk result (λ few. IfSome few (λ beyond.
        AreCorners parent.now starts.now ind.now bases.new beyond.items)) }
{
    let most = corners as usize / 4;
    let mut beyond = Vec::new(alloc);
    for number in 0..corners {
        let corner = corner_of(ind, len, number);
        if let Some(place) = inner_place(parent, starts, corner) {
            bases[number as usize] = place;
        } else if beyond.len() < most {
            beyond.push(number)?;
        } else {
            return Ok(None);
        }
    }
    Ok(Some(beyond))
}

/// The same. Corners of one number and of two have loops of their own, which know how many.
fn place_corners(
    alloc: Global,
    parent: &[u32],
    starts: &[u32],
    ind: &[i64],
    corners: u32,
    bases: &mut [u32],
) -> Result<Option<Vec<u32>>, NoMemory>
    requires fit { length starts.now ≤ length parent.now }
    requires below { (j : ℕ) → j < length starts.now
        → slice_index starts.now j ≤ slice_index parent.now j }
    requires whole { length ind.now ≡ length starts.now * corners }
    requires bounded { extent parent.now ≤ extent_limit }
    requires long { length bases.old ≡ corners }
    requires small { All (λ base. base ≤ extent_limit) bases.old }
    ensures { IfOk result (λ few. IfSome few (λ beyond.
        AreCorners parent.now starts.now ind.now bases.new beyond.items)) }
{
    match starts.len() {
        1 => place_numbers(alloc, parent, starts, ind, 1, corners, bases),
        2 => place_numbers(alloc, parent, starts, ind, 2, corners, bases),
        len => place_numbers(alloc, parent, starts, ind, len, corners, bases),
    }
}

/// Fewer corners than these cost less by themselves than lists of them do.
fn least_corners(windows: &[u64]) -> u32 {
    if windows.iter().any(|window| *window > 1) {
        2
    } else {
        16
    }
}

/// What is known of the corners, unless these are few or have no numbers, or more than a quarter of
/// the windows reach beyond the parent.
pub(crate) fn known_corners(
    alloc: Global,
    parent: &[u32],
    windows: &[u64],
    ind: &[i64],
    corners: u32,
) -> Result<Option<Corners>, NoMemory>
    requires fit { length windows.now ≤ length parent.now }
    requires whole { length ind.now ≡ length windows.now * corners }
    requires bounded { extent parent.now ≤ extent_limit }
    ensures long { IfOk result (λ some. IfSome some (λ known. vec_len known.bases ≡ corners)) }
    ensures known { let starts = window_starts parent.now windows.now in
        IfOk result (λ some. IfSome some (λ known.
        AreCorners parent.now starts ind.now known.bases.items known.beyond.items)) }
{
    if windows.is_empty() || corners < least_corners(windows) {
        return Ok(None);
    }
    let starts = starts_of(alloc, parent, windows)?;
    let mut bases = vec![in alloc; 0; corners as usize]?;
    let few = place_corners(alloc, parent, &starts, ind, corners, &mut bases)?;
    match few {
        Some(beyond) => Ok(Some(Corners { bases, beyond })),
        None => Ok(None),
    }
}

/// Whether all windows are known to lie inside the parent.
pub(crate) fn are_inside(known: &Option<Corners>) -> bool
    ensures some { IsTrue result → IsSome known.now }
    ensures none_beyond { IsTrue result → IfSome known.now (λ known. known.beyond.items ≡ []) }
{
    match known {
        Some(known) => known.beyond.is_empty(),
        None => false,
    }
}
