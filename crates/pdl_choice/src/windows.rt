//! range: a window of the parent at each corner that an index lists.
ghost use Rattle.std.specs.Prelude.{◌≡◌, ◌≢◌, ◌<◌, ◌^◌, IsTrue, ◌≤◌, ◌≤ℤ◌, ◌⊎◌, ◌*◌, ◌+◌, ◌-◌, max, [], ◌∷◌, ◌/◌, ◌%◌, ℕ, false, pos, slice_index, slice_index_or, ◌++◌, length, drop, map, filter, All, Ok, Err, IfOk, IfErr, IfSome, IfNone, OnOk, Some, None, vec_len};
ghost use Rattle.std.specs.Bool.{OnFalse};
ghost use Rattle.std.specs.List.{Any, list_any, range_with_len};
ghost use Rattle.std.specs.Option.{option_map, unwrap_or};
ghost use Rattle.pdl_shape.specs.Shape.{IsDims, dims_limit, extent, extent_limit, size_of, position_of, coordinates_of};
ghost use Rattle.pdl_shape.specs.Limits.{checked_dims};
ghost use Rattle.pdl_shape.specs.Places.{AllBelow, places_of};
ghost use Rattle.pdl_shape.specs.Refusals.{Refuses};
ghost use Rattle.pdl_choice.specs.Choice.{position_in, refusal_of};
ghost use Rattle.pdl_choice.specs.Edges.{edge_refuses, from_zero};
ghost use Rattle.pdl_choice.specs.declared.edges.Edge.TheVariants.{Refuse, Zero};
ghost use Rattle.pdl_choice.specs.Rounds.{AreCorners, CanPlaceAll, CanPlaceEach, numbers_at, placed, window_place, window_starts};
ghost use Rattle.pdl_choice.specs.Range.{capped, corner_len, is_negative, is_positive, window_refusal, window_sizes, first_refused, inner_dims, range_dims, range_outside, range_source, AllAllowed};

use crate::answers::{count_of, limited};
use crate::corners::{Corners, are_inside, corner_of, known_corners};
use crate::reach::{coordinate, refuses};
use crate::rounds::{first_size, move_on, rounds_of};
use crate::{Choice, ChoiceFault, Edge, NoMemory, Places};
use pdl_shape::{Dims, dims_list, elements_of, shape_laws};
use std::alloc::Global;

/// A window of the parent at each corner that `ind` lists (PDL::Slices, range). `ind` is an array
/// of the dimensions `ind_dims`, with the numbers of a corner along its dimension 0; without
/// dimensions it is one corner of one number. `sizes` are the window's sizes, one for each number
/// of a corner, or a single one for all; a size of 0 picks one coordinate and leaves no dimension.
/// The view's dimensions are the index's from 1 on, the window's, then the parent's that are left.
///
/// `BadDimension` where a corner has more numbers than the parent has dimensions or a size is
/// below 0, then `Mismatch` for another number of sizes, then `OutOfRange` at the first index
/// value that the edge refuses, then `TooManyDims`, then `TooLarge`.
pub fn range(
    alloc: Global,
    source: &Dims,
    ind_dims: &Dims,
    ind: &[i64],
    sizes: &[i64],
    edge: Edge,
) -> Result<Choice, ChoiceFault>
    requires { length ind.now ≡ size_of ind_dims.now }
    ensures dims { IfOk result (λ c. range_dims source.now ind_dims.now ind.now sizes.now edge
        ≡ Ok c.dims) }
    ensures places { let sources = range_source source.now ind_dims.now ind.now sizes.now edge in
        IfOk result (λ c. c.places ≡ places_of c.dims source.now sources) }
    ensures inside { IfOk result (λ c. AllBelow (size_of source.now) c.places) }
    ensures refusal { IfErr result (λ f.
        Refuses (range_dims source.now ind_dims.now ind.now sizes.now edge) (refusal_of f)) }
    ensures at { let first = range_outside source.now ind_dims.now ind.now sizes.now edge in
        IfErr result (λ f. IfSome (position_in f) (λ at. first ≡ Some at)) }
{
    ranged(
        alloc,
        dims_list(source),
        dims_list(ind_dims),
        ind,
        sizes,
        edge,
    )
}

/// The same, of lists of sizes.
fn ranged(
    alloc: Global,
    parent: &[u32],
    ind_dims: &[u32],
    ind: &[i64],
    sizes: &[i64],
    edge: Edge,
) -> Result<Choice, ChoiceFault>
    requires parent_limits { IsDims parent.now }
    requires ind_limits { IsDims ind_dims.now }
    requires whole { length ind.now ≡ size_of ind_dims.now }
    ensures dims { IfOk result (λ c. range_dims parent.now ind_dims.now ind.now sizes.now edge
        ≡ Ok c.dims) }
    ensures places { let sources = range_source parent.now ind_dims.now ind.now sizes.now edge in
        IfOk result (λ c. c.places ≡ places_of c.dims parent.now sources) }
    ensures inside { IfOk result (λ c. AllBelow (size_of parent.now) c.places) }
    ensures refusal { IfErr result (λ f.
        Refuses (range_dims parent.now ind_dims.now ind.now sizes.now edge) (refusal_of f)) }
    ensures at { let first = range_outside parent.now ind_dims.now ind.now sizes.now edge in
        IfErr result (λ f. IfSome (position_in f) (λ at. first ≡ Some at)) }
{
    shape_laws();
    let (count, outer) = corner_dims(ind_dims);
    let listed = match window_list(alloc, parent.len(), count, sizes) {
        Ok(listed) => listed,
        Err(fault) => return Err(fault),
    };
    let windows = listed.as_slice();
    let corners = count_of(outer);
    let known = known_corners(alloc, parent, windows, ind, corners)?;
    let inside = are_inside(&known);
    if let Some(at) = first_refusal(edge, parent, windows, ind, inside) {
        return Err(ChoiceFault::OutOfRange { at: at as u32 });
    }
    let dims = match windowed(alloc, outer, parent, windows) {
        Ok(dims) => dims,
        Err(fault) => return Err(fault),
    };
    let count = elements_of(&dims);
    let list = window_places(alloc, edge, parent, windows, ind, corners, count, known)?;
    let places = Places::new(list)?;
    Ok(Choice { dims, places })
}

/// How many numbers a corner has, and the dimensions of the array of corners.
#[tactic(auto, using(crate::proofs::RangeCorners::first_corner))]
fn corner_dims(ind_dims: &[u32]) -> (usize, &[u32])
    ensures count { result.0 ≡ corner_len ind_dims.now }
    ensures outer { result.1.now ≡ drop 1 ind_dims.now }
{
    let (count, outer) = first_size(ind_dims);
    (count as usize, outer)
}

/// The sizes of windows that aren't 0. Sizes past the largest number stand at it.
fn window_dims(alloc: Global, windows: &[u64]) -> Result<Vec<u32>, NoMemory>
    ensures { IfOk result (λ sizes. sizes.items ≡ map capped (filter is_positive windows.now)) }
{
    windows
        .iter()
        .filter(|window| **window > 0)
        .map(|window| capped_size(*window))
        .collect(alloc)
}

/// The size, or the largest number.
fn capped_size(size: u64) -> u32
    ensures { result ≡ capped size }
{
    size.min(u64::from(u32::MAX)) as u32
}

/// The dimensions of the view: the corners', the windows', and those of the parent that are left.
fn windowed(
    alloc: Global,
    outer: &[u32],
    parent: &[u32],
    windows: &[u64],
) -> Result<Dims, ChoiceFault>
    requires outer_few { length outer.now ≤ dims_limit }
    requires parent_few { length parent.now ≤ dims_limit }
    requires fit { length windows.now ≤ length parent.now }
    ensures dims { IfOk result (λ dims. checked_dims (outer.now
        ++ inner_dims parent.now windows.now) ≡ Ok dims) }
    ensures refusal { IfErr result (λ f. Refuses (checked_dims (outer.now
        ++ inner_dims parent.now windows.now)) (refusal_of f)) }
    ensures nowhere { IfErr result (λ f. position_in f ≡ None) }
{
    shape_laws();
    let sizes = windowed_sizes(alloc, outer, parent, windows)?;
    limited(alloc, &sizes)
}

/// The sizes of the view, with windows past the largest number standing at it.
fn windowed_sizes(
    alloc: Global,
    outer: &[u32],
    parent: &[u32],
    windows: &[u64],
) -> Result<Vec<u32>, NoMemory>
    requires outer_few { length outer.now ≤ dims_limit }
    requires parent_few { length parent.now ≤ dims_limit }
    requires fit { length windows.now ≤ length parent.now }
    ensures { let rest = drop (length windows.now) parent.now in
        let inner = map capped (filter is_positive windows.now) ++ rest in
        IfOk result (λ sizes. sizes.items ≡ outer.now ++ inner) }
{
    let rest = &parent[windows.len()..];
    let shown = window_dims(alloc, windows)?;
    let mut sizes = Vec::with_capacity(alloc, outer.len() + shown.len() + rest.len())?;
    sizes.extend_from_slice(outer)?;
    sizes.extend_from_slice(&shown)?;
    sizes.extend_from_slice(rest)?;
    Ok(sizes)
}

/// One size of a window for each of the `count` numbers of a corner in `dims` dimensions; a lone
/// size counts for all.
fn window_list(
    alloc: Global,
    dims: usize,
    count: usize,
    sizes: &[i64],
) -> Result<Vec<u64>, ChoiceFault>
    ensures few { OnOk result (count ≤ dims) }
    ensures len { IfOk result (λ windows. vec_len windows ≡ count) }
    ensures fit { OnOk result (window_refusal dims count sizes.now ≡ None) }
    ensures windows { IfOk result (λ windows. windows.items ≡ window_sizes count sizes.now) }
    ensures refusal { IfErr result (λ f. IfSome (refusal_of f) (λ refusal.
        window_refusal dims count sizes.now ≡ Some refusal)) }
    ensures nowhere { IfErr result (λ f. position_in f ≡ None) }
{
    if count > dims || has_negative(sizes) {
        return Err(ChoiceFault::BadDimension);
    }
    if sizes.len() == 1 {
        Ok(vec![in alloc; unsigned_size(sizes[0]); count]?)
    } else if sizes.len() == count {
        Ok(whole_sizes(alloc, sizes)?)
    } else {
        Err(ChoiceFault::Mismatch)
    }
}

/// Whether a size is below 0.
fn has_negative(sizes: &[i64]) -> bool
    ensures some { result ≡ list_any is_negative sizes.now }
    ensures none { OnFalse result (All (λ size. pos 0 ≤ℤ size) sizes.now) }
{
    sizes.iter().any(|size| *size < 0)
}

/// Sizes that aren't below 0, without their signs.
fn whole_sizes(alloc: Global, sizes: &[i64]) -> Result<Vec<u64>, NoMemory>
    requires { All (λ size. pos 0 ≤ℤ size) sizes.now }
    ensures { IfOk result (λ windows. windows.items ≡ map from_zero sizes.now) }
{
    sizes.iter().map(|size| unsigned_size(*size)).collect(alloc)
}

/// A size that isn't below 0, without its sign.
fn unsigned_size(size: i64) -> u64
    requires { pos 0 ≤ℤ size }
    ensures { result ≡ from_zero size }
{
    size as u64
}

/// The first index value at which the edge refuses its window.
fn first_beyond(edge: Edge, parent: &[u32], windows: &[u64], ind: &[i64]) -> Option<usize>
    requires fit { length windows.now ≤ length parent.now }
    requires cornered { length windows.now ≡ 0 → length ind.now ≡ 0 }
    ensures within { IfSome result (λ at. at < length ind.now) }
    ensures none { IfNone result (AllAllowed edge parent.now windows.now ind.now) }
    ensures first { result ≡ first_refused edge parent.now windows.now ind.now }
{
    let mut number = 0;
    for (place, value) in ind.iter().enumerate() {
        if refuses(edge, parent[number], windows[number], *value) {
            return Some(place);
        }
        number = next_number(number, windows.len());
    }
    None
}

/// The same, without a look at each value where it shows that no window is refused. `inside` says
/// that all are known to lie inside the parent.
fn first_refusal(
    edge: Edge,
    parent: &[u32],
    windows: &[u64],
    ind: &[i64],
    inside: bool,
) -> Option<usize>
    requires fit { length windows.now ≤ length parent.now }
    requires cornered { length windows.now ≡ 0 → length ind.now ≡ 0 }
    requires inside { IsTrue inside → AllAllowed Refuse parent.now windows.now ind.now }
    ensures within { IfSome result (λ at. at < length ind.now) }
    ensures none { IfNone result (AllAllowed edge parent.now windows.now ind.now) }
    ensures first { result ≡ first_refused edge parent.now windows.now ind.now }
{
    let free = match edge {
        Edge::Refuse => inside,
        Edge::Zero => true,
        Edge::Nearest | Edge::Periodic => !has_empty(parent),
    };
    if free {
        return None;
    }
    first_beyond(edge, parent, windows, ind)
}

/// Whether a size is 0.
fn has_empty(sizes: &[u32]) -> bool
    ensures { OnFalse result (All (λ size. 0 < size) sizes.now) }
{
    sizes.iter().any(|size| *size == 0)
}

/// The number of a corner after `number`, where a corner has `count` numbers.
fn next_number(number: usize, count: usize) -> usize
    requires { number < count }
    ensures { result ≡ (number + 1) % count }
{
    if number + 1 < count { number + 1 } else { 0 }
}

/// The place in a parent of dimensions `parent` of one position of the window at `corner`: that
/// of the coordinates that lie `at` past the corner. The last number of `at` is the place in the
/// dimensions that are left.
#[inline(always)]
fn corner_place(edge: Edge, parent: &[u32], corner: &[i64], at: &[u32]) -> Option<u32>
    requires paired { length at.now ≡ length corner.now + 1 }
    requires fit { length corner.now ≤ length parent.now }
    requires bounded { extent parent.now ≤ extent_limit }
    requires allowed { CanPlaceEach edge parent.now corner.now at.now }
    requires within { slice_index at.now (length corner.now)
        < size_of (drop (length corner.now) parent.now) }
    ensures bound { IfSome result (λ place. place < size_of parent.now) }
    ensures place { result ≡ placed edge parent.now corner.now at.now }
{
    shape_laws();
    let mut place = 0;
    let mut stride = 1;
    for (number, value) in corner.iter().enumerate() {
        let size = parent[number];
        place += stride * coordinate(edge, size, *value, at[number])?;
        stride *= size;
    }
    Some(place + stride * at[corner.len()])
}

/// Adds the places of one position of the window at each corner.
fn push_corners(
    places: &mut Vec<Option<u32>>,
    edge: Edge,
    parent: &[u32],
    ind: &[i64],
    corners: u32,
    at: &[u32],
) -> Result<(), NoMemory>
    requires some { 0 < length at.now }
    requires fit { length at.now ≤ length parent.now + 1 }
    requires whole { length ind.now ≡ (length at.now - 1) * corners }
    requires bounded { extent parent.now ≤ extent_limit }
    requires allowed { CanPlaceAll edge parent.now ind.now (length at.now - 1) at.now }
    requires within { slice_index at.now (length at.now - 1)
        < size_of (drop (length at.now - 1) parent.now) }
    ensures inside { let within = AllBelow (size_of parent.now) in
        OnOk result (within places.old.items → within places.new.items) }
    ensures added { let corner = λ (q : ℕ). numbers_at ind.now (length at.now - 1) q in
        let place = λ (q : ℕ). placed edge parent.now (corner q) at.now in
        OnOk result (places.new.items ≡ places.old.items ++ map place (range_with_len 0 corners)) }
{
    let len = at.len() - 1;
    for number in 0..corners {
        let corner = corner_of(ind, len, number);
        places.push(corner_place(edge, parent, corner, at))?;
    }
    Ok(())
}

/// The sizes that a window's positions go through: the window's, of which 0 picks one coordinate
/// as 1 does, and the number of elements of the parent's dimensions that are left.
fn window_rounds(alloc: Global, parent: &[u32], windows: &[u64]) -> Result<Vec<u32>, NoMemory>
    requires fit { length windows.now ≤ length parent.now }
    requires bounded { extent parent.now ≤ extent_limit }
    ensures { let rest = size_of (drop (length windows.now) parent.now) in
        IfOk result (λ sizes. sizes.items ≡ map (λ w. max (capped w) 1) windows.now ++ rest ∷ []) }
{
    shape_laws();
    let rest = count_of(&parent[windows.len()..]);
    let mut sizes = Vec::with_capacity(alloc, windows.len() + 1)?;
    for window in windows {
        sizes.push(capped_size(*window).max(1))?;
    }
    sizes.push(rest)?;
    Ok(sizes)
}

/// The places of all `count` positions of the windows at `corners` corners, each found by itself.
fn places_one_by_one(
    alloc: Global,
    edge: Edge,
    parent: &[u32],
    windows: &[u64],
    ind: &[i64],
    corners: u32,
    count: u32,
) -> Result<Vec<Option<u32>>, NoMemory>
    requires fit { length windows.now ≤ length parent.now }
    requires whole { length ind.now ≡ length windows.now * corners }
    requires counts { count ≡ corners * size_of (inner_dims parent.now windows.now) }
    requires bounded { extent parent.now ≤ extent_limit }
    requires inner_bounded { extent (inner_dims parent.now windows.now) ≤ extent_limit }
    requires allowed { AllAllowed edge parent.now windows.now ind.now }
    ensures inside { IfOk result (λ places. AllBelow (size_of parent.now) places.items) }
    ensures places { let place = window_place edge parent.now windows.now ind.now corners in
        IfOk result (λ places. places.items ≡ map place (range_with_len 0 count)) }
{
    shape_laws();
    let sizes = window_rounds(alloc, parent, windows)?;
    let mut at = vec![in alloc; 0; sizes.len()]?;
    let mut places = Vec::with_capacity(alloc, count as usize)?;
    for _round in 0..rounds_of(count, corners) {
        push_corners(&mut places, edge, parent, ind, corners, &at)?;
        move_on(&sizes, &mut at);
    }
    Ok(places)
}

/// How far one position of a window lies past its corner's place, where the window lies inside the
/// parent. `zeros` are the numbers of the parent's first corner. Where the position would lie beyond
/// the parent, no window does, and the answer is 0.
fn past_first(parent: &[u32], zeros: &[i64], at: &[u32]) -> u32
    requires paired { length at.now ≡ length zeros.now + 1 }
    requires fit { length zeros.now ≤ length parent.now }
    requires bounded { extent parent.now ≤ extent_limit }
    requires within { slice_index at.now (length zeros.now)
        < size_of (drop (length zeros.now) parent.now) }
    ensures bound { result ≤ size_of parent.now }
    ensures past { result ≡ unwrap_or (placed Zero parent.now zeros.now at.now) 0 }
{
    corner_place(Edge::Zero, parent, zeros, at).unwrap_or(0)
}

/// Adds the places that lie so far past these.
fn push_past(places: &mut Vec<Option<u32>>, bases: &[u32], past: u32) -> Result<(), NoMemory>
    requires { All (λ base. base + past < 2 ^ 32) bases.now }
    ensures { OnOk result (places.new.items
        ≡ places.old.items ++ map (λ base. Some (base + past)) bases.now) }
{
    places.extend(bases.iter().map(|base| Some(*base + past)))
}

/// Sets the places of one position of the windows at the corners `beyond` to what the edge makes of
/// them. `places` are those of that position at all corners.
fn set_beyond(
    places: &mut [Option<u32>],
    edge: Edge,
    parent: &[u32],
    ind: &[i64],
    beyond: &[u32],
    at: &[u32],
)
    requires some { 0 < length at.now }
    requires fit { length at.now ≤ length parent.now + 1 }
    requires whole { length ind.now ≡ (length at.now - 1) * length places.old }
    requires numbers { All (λ q. q < length places.old) beyond.now }
    requires bounded { extent parent.now ≤ extent_limit }
    requires allowed { CanPlaceAll edge parent.now ind.now (length at.now - 1) at.now }
    requires within { slice_index at.now (length at.now - 1)
        < size_of (drop (length at.now - 1) parent.now) }
    ensures set { let corner = λ (q : ℕ). numbers_at ind.now (length at.now - 1) q in
        let place = λ (q : ℕ). placed edge parent.now (corner q) at.now in
        All (λ q. slice_index_or places.new q None ≡ place q) beyond.now }
    ensures others { let corner = λ (q : ℕ). numbers_at ind.now (length at.now - 1) q in
        let place = λ (q : ℕ). placed edge parent.now (corner q) at.now in
        (q : ℕ) → slice_index_or places.new q None ≡ place q
        ⊎ slice_index_or places.new q None ≡ slice_index_or places.old q None }
{
    let len = at.len() - 1;
    for &number in beyond {
        let listed = corner_of(ind, len, number);
        places[number as usize] = corner_place(edge, parent, listed, at);
    }
}

/// Adds the places of one position of the windows. Where a window lies inside the parent, its place
/// lies so far past its corner's as it would past the parent's first corner, whose numbers are
/// `zeros`; the places at the corners that reach beyond are found one by one.
fn push_round(
    places: &mut Vec<Option<u32>>,
    edge: Edge,
    parent: &[u32],
    ind: &[i64],
    known: &Corners,
    zeros: &[i64],
    at: &[u32],
) -> Result<(), NoMemory>
    requires paired { length at.now ≡ length zeros.now + 1 }
    requires fit { length zeros.now ≤ length parent.now }
    requires whole { length ind.now ≡ length zeros.now * length known.now.bases.items }
    requires numbers { All (λ q. q < length known.now.bases.items) known.now.beyond.items }
    requires bounded { extent parent.now ≤ extent_limit }
    requires allowed { CanPlaceAll edge parent.now ind.now (length zeros.now) at.now }
    requires within { slice_index at.now (length zeros.now)
        < size_of (drop (length zeros.now) parent.now) }
    requires small { All (λ base. base ≤ extent_limit) known.now.bases.items }
    requires inside { let past = unwrap_or (placed Zero parent.now zeros.now at.now) 0 in
        let corner = λ (q : ℕ). numbers_at ind.now (length zeros.now) q in
        let bases = known.now.bases.items in
        (q : ℕ) → q < length bases → Any (λ b. b ≡ q) known.now.beyond.items
        ⊎ Some (slice_index bases q + past) ≡ placed edge parent.now (corner q) at.now }
    ensures { let corner = λ (q : ℕ). numbers_at ind.now (length zeros.now) q in
        let place = λ (q : ℕ). placed edge parent.now (corner q) at.now in
        OnOk result (places.new.items
        ≡ places.old.items ++ map place (range_with_len 0 (length known.now.bases.items))) }
{
    shape_laws();
    let bases = known.bases.as_slice();
    let beyond = known.beyond.as_slice();
    let from = places.len();
    push_past(places, bases, past_first(parent, zeros, at))?;
    set_beyond(&mut places[from..], edge, parent, ind, beyond, at);
    Ok(())
}

/// The places of all `count` positions of the windows at `corners` corners, found by sums where the
/// corner isn't one that reaches beyond.
fn places_by_sums(
    alloc: Global,
    edge: Edge,
    parent: &[u32],
    windows: &[u64],
    ind: &[i64],
    corners: u32,
    count: u32,
    known: &Corners,
) -> Result<Vec<Option<u32>>, NoMemory>
    requires some { 0 < count }
    requires fit { length windows.now ≤ length parent.now }
    requires whole { length ind.now ≡ length windows.now * corners }
    requires counts { count ≡ corners * size_of (inner_dims parent.now windows.now) }
    requires bounded { extent parent.now ≤ extent_limit }
    requires inner_bounded { extent (inner_dims parent.now windows.now) ≤ extent_limit }
    requires allowed { AllAllowed edge parent.now windows.now ind.now }
    requires long { vec_len known.now.bases ≡ corners }
    requires known { let starts = window_starts parent.now windows.now in
        AreCorners parent.now starts ind.now known.now.bases.items known.now.beyond.items }
    ensures inside { IfOk result (λ places. AllBelow (size_of parent.now) places.items) }
    ensures places { let place = window_place edge parent.now windows.now ind.now corners in
        IfOk result (λ places. places.items ≡ map place (range_with_len 0 count)) }
{
    shape_laws();
    let sizes = window_rounds(alloc, parent, windows)?;
    let mut at = vec![in alloc; 0; sizes.len()]?;
    let zeros = vec![in alloc; 0; windows.len()]?;
    let mut places = Vec::with_capacity(alloc, count as usize)?;
    for _round in 0..rounds_of(count, corners) {
        push_round(&mut places, edge, parent, ind, known, &zeros, &at)?;
        move_on(&sizes, &mut at);
    }
    Ok(places)
}

/// The places in a parent of dimensions `parent` of all `count` positions of the windows at
/// `corners` corners: by sums where these are known.
fn window_places(
    alloc: Global,
    edge: Edge,
    parent: &[u32],
    windows: &[u64],
    ind: &[i64],
    corners: u32,
    count: u32,
    known: Option<Corners>,
) -> Result<Vec<Option<u32>>, NoMemory>
    requires fit { length windows.now ≤ length parent.now }
    requires whole { length ind.now ≡ length windows.now * corners }
    requires counts { count ≡ corners * size_of (inner_dims parent.now windows.now) }
    requires bounded { extent parent.now ≤ extent_limit }
    requires inner_bounded { extent (inner_dims parent.now windows.now) ≤ extent_limit }
    requires allowed { AllAllowed edge parent.now windows.now ind.now }
    requires long { IfSome known (λ known. vec_len known.bases ≡ corners) }
    requires known { let starts = window_starts parent.now windows.now in
        IfSome known (λ known.
        AreCorners parent.now starts ind.now known.bases.items known.beyond.items) }
    ensures inside { IfOk result (λ places. AllBelow (size_of parent.now) places.items) }
    ensures places { let place = window_place edge parent.now windows.now ind.now corners in
        IfOk result (λ places. places.items ≡ map place (range_with_len 0 count)) }
{
    if let Some(known) = known {
        if count > 0 {
            return places_by_sums(alloc, edge, parent, windows, ind, corners, count, &known);
        }
    }
    places_one_by_one(alloc, edge, parent, windows, ind, corners, count)
}
