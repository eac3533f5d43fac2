//! index: the parent's first dimension looked up by an array of coordinates.
ghost use Rattle.std.specs.Prelude.{◌≡◌, ℕ, ℤ, List, ◌+◌, ◌*◌, ◌∷◌, ◌++◌, map, slice_index_or, ◌≢◌, ◌<◌, ◌≤◌, ◌^◌, OnOk, length, drop, slice_index, All, IsSome, is_some, Some, None, Ok, Err, IfOk, IfErr, IfSome, IfNone};
ghost use Rattle.pdl_shape.specs.Joined.{joined_dims};
ghost use Rattle.std.specs.List.{list_all, range_with_len};
ghost use Rattle.pdl_shape.specs.Shape.{IsDims, IsWithin, extent, extent_limit, size_of, position_of, coordinates_of};
ghost use Rattle.pdl_shape.specs.Broadcast.{BroadcastsTo, cut_to};
ghost use Rattle.pdl_shape.specs.Counting.{from_end};
ghost use Rattle.pdl_shape.specs.Places.{AllBelow, places_of};
ghost use Rattle.pdl_shape.specs.Refusals.{Refuses, named};
ghost use Rattle.pdl_shape.specs.Refusals.{refusal_of as shape_refusal};
ghost use Rattle.pdl_choice.specs.Choice.{Makes, position_in, refusal_of, refusal_past};
ghost use Rattle.pdl_choice.specs.Rounds.{counted_place, line_at, row_place};
ghost use Rattle.pdl_choice.specs.Index.{first_outside, index_dims, index_outside, index_source};

use crate::rounds::{first_size, move_on, rounds_of};
use crate::{Choice, ChoiceFault, NoMemory, Places};
use pdl_shape::{
    Dims, ShapeFault, dims_list, dims_of, elements_of, from_end, join_dims, shape_laws,
};
use std::alloc::Global;

/// The parent's first dimension looked up by `ind`, an array of the dimensions `ind_dims`, whose
/// dimensions broadcast with the parent's from dimension 1 on (PDL::Slices, index). A value below
/// 0 counts from the end of dimension 0.
///
/// `BadDimension` for a parent without dimensions, then `Mismatch` where the dimensions don't
/// join, then `OutOfRange` at the first value that stands for no coordinate, also where the view
/// has no elements, then `TooLarge`.
pub fn index(
    alloc: Global,
    source: &Dims,
    ind_dims: &Dims,
    ind: &[i64],
) -> Result<Choice, ChoiceFault>
    requires { length ind.now ≡ size_of ind_dims.now }
    ensures dims { IfOk result (λ c. index_dims source.now ind_dims.now ind.now ≡ Ok c.dims) }
    ensures places { let sources = λ (at : List ℕ).
        Some (index_source source.now ind_dims.now ind.now at) in
        IfOk result (λ c. c.places ≡ places_of c.dims source.now sources) }
    ensures inside { IfOk result (λ c. AllBelow (size_of source.now) c.places) }
    ensures refusal { IfErr result (λ f. Refuses (index_dims source.now ind_dims.now ind.now)
        (refusal_of f)) }
    ensures at { IfErr result (λ f. IfSome (position_in f) (λ at.
        index_outside source.now ind.now ≡ Some at)) }
{
    let parent = dims_list(source);
    let dims = looked_up(alloc, parent, ind_dims, ind)?;
    let list = index_places(
        alloc,
        parent,
        dims_list(ind_dims),
        ind,
        dims_list(&dims),
        elements_of(&dims),
    )?;
    let places = Places::new(list)?;
    Ok(Choice { dims, places })
}

/// The dimensions of the view, or the first refusal.
fn looked_up(
    alloc: Global,
    parent: &[u32],
    ind_dims: &Dims,
    ind: &[i64],
) -> Result<Dims, ChoiceFault>
    requires limits { IsDims parent.now }
    requires whole { length ind.now ≡ size_of ind_dims.now }
    ensures dims { Makes (index_dims parent.now ind_dims.now ind.now) result }
    ensures at { IfErr result (λ f. IfSome (position_in f) (λ at.
        index_outside parent.now ind.now ≡ Some at)) }
    ensures some { OnOk result (0 < length parent.now) }
    ensures stretched { IfOk result (λ dims. BroadcastsTo ind_dims.now dims ×
        BroadcastsTo (drop 1 parent.now) dims) }
    ensures counted { OnOk result (All (λ value. IsSome (from_end value (slice_index parent.now 0)))
        ind.now) }
{
    let _count = elements_of(ind_dims);
    let Some((size, rest)) = parent.split_first() else {
        return Err(ChoiceFault::BadDimension);
    };
    let outside = first_uncounted(*size, ind);
    let dims = match broadcast_dims(alloc, ind_dims, rest) {
        Ok(dims) => dims,
        Err(ShapeFault::Mismatch) => return Err(ChoiceFault::Mismatch),
        Err(ShapeFault::TooLarge) => return Err(too_large(outside)),
        Err(ShapeFault::TooManyDims) => unreachable!(),
    };
    match outside {
        Some(at) => Err(ChoiceFault::OutOfRange { at: at as u32 }),
        None => Ok(dims),
    }
}

/// Why a view whose dimensions are too large is refused: by the first refused index value, or else
/// by its size.
fn too_large(outside: Option<usize>) -> ChoiceFault
    requires { IfSome outside (λ at. at < 2 ^ 32) }
    ensures refusal { refusal_of result ≡ Some (refusal_past outside) }
    ensures at { position_in result ≡ outside }
{
    match outside {
        Some(at) => ChoiceFault::OutOfRange { at: at as u32 },
        None => ChoiceFault::TooLarge,
    }
}

/// The broadcast dimensions of two arrays.
fn join_limited(alloc: Global, first: &Dims, second: &Dims) -> Result<Dims, ShapeFault>
    ensures joined { named shape_refusal result ≡ joined_dims first.now second.now }
    ensures stretched { IfOk result (λ dims. BroadcastsTo first.now dims ×
        BroadcastsTo second.now dims) }
    ensures few { IfOk result (λ dims. IsDims dims) }
{
    let dims = join_dims(alloc, first, second)?;
    let _sizes = dims_list(&dims);
    Ok(dims)
}

/// The broadcast dimensions of the index array and the parent's dimensions past its first.
fn broadcast_dims(alloc: Global, ind_dims: &Dims, rest: &[u32]) -> Result<Dims, ShapeFault>
    requires { IsDims rest.now }
    ensures joined { named shape_refusal result ≡ joined_dims ind_dims.now rest.now }
    ensures few { IfOk result (λ dims. IsDims dims) }
    ensures index_few { IsDims ind_dims.now }
    ensures stretched { IfOk result (λ dims. BroadcastsTo ind_dims.now dims ×
        BroadcastsTo rest.now dims) }
{
    let _index = dims_list(ind_dims);
    match dims_of(alloc, rest) {
        Ok(rest) => join_limited(alloc, ind_dims, &rest),
        Err(_) => unreachable!(),
    }
}

/// The first value that stands for no coordinate of a dimension of size `size`.
fn first_uncounted(size: u32, ind: &[i64]) -> Option<usize>
    ensures within { IfSome result (λ at. at < length ind.now) }
    ensures none { IfNone result (All (λ value. IsSome (from_end value size)) ind.now) }
    ensures first { result ≡ first_outside size ind.now }
{
    // Nearly always all are, which a loop without an exit tells in less time.
    if are_counted(size, ind) {
        return None;
    }
    ind.iter().position(|value| !is_counted(*value, size))
}

/// Whether each value stands for a coordinate of a dimension of size `size`.
fn are_counted(size: u32, ind: &[i64]) -> bool
    ensures { result ≡ list_all (λ value. is_some (from_end value size)) ind.now }
{
    let mut all = true;
    for value in ind {
        all &= is_counted(*value, size);
    }
    all
}

/// Whether a value stands for a coordinate of a dimension of size `size`.
fn is_counted(value: i64, size: u32) -> bool
    ensures { result ≡ is_some (from_end value size) }
{
    // Two tests of a sign: a sum beyond the 64 bits turns it.
    let size = i64::from(size);
    value.wrapping_add(size) >= 0 && value.wrapping_sub(size) < 0
}

/// The coordinate that a value stands for in a dimension of size `size`.
fn counted(value: i64, size: u32) -> u32
    requires { IsSome (from_end value size) }
    ensures value { from_end value size ≡ Some result }
    ensures bound { result < size }
{
    let from = if value < 0 { i64::from(size) } else { 0 };
    (from + value) as u32
}

/// The position in an array of dimensions `dims` that coordinates of a broadcast use.
fn used_position(dims: &[u32], at: &[u32]) -> u32
    requires within { IsWithin dims.now (cut_to dims.now at.now) }
    requires bounded { size_of dims.now ≤ extent_limit }
    ensures place { result ≡ position_of dims.now (cut_to dims.now at.now) }
    ensures bound { result < size_of dims.now }
{
    match (dims.split_first(), at.split_first()) {
        (Some((size, dims)), Some((first, at))) => {
            let coordinate = if *size == 1 { 0 } else { *first };
            coordinate + *size * used_position(dims, at)
        }
        _ => 0,
    }
}

/// Positions along a row, evenly apart.
#[derive(Clone, Copy)]
struct Line {
    from: u32,
    step: u32,
}

/// The positions in an array of dimensions `dims` along the row of a broadcast at the coordinates
/// `at` of its dimensions past the first.
fn line_of(dims: &[u32], at: &[u32]) -> Line
    requires within { IsWithin (drop 1 dims.now) (cut_to (drop 1 dims.now) at.now) }
    requires bounded { extent dims.now ≤ extent_limit }
    ensures { (c : ℕ) → line_at result c ≡ position_of dims.now (cut_to dims.now (c ∷ at.now)) }
{
    shape_laws();
    match dims.split_first() {
        Some((size, dims)) => Line {
            from: *size * used_position(dims, at),
            step: if *size == 1 { 0 } else { 1 },
        },
        None => Line { from: 0, step: 0 },
    }
}

/// Adds the places of a row of the view, where the index array and the parent's dimensions past
/// its first, whose size is `size`, are used along these lines.
fn push_row(
    places: &mut Vec<Option<u32>>,
    size: u32,
    ind: &[i64],
    ind_line: Line,
    rest_line: Line,
    row: u32,
) -> Result<(), NoMemory>
    requires inside { (c : ℕ) → c < row → line_at ind_line c < length ind.now }
    requires bounded { (c : ℕ) → c < row → size * line_at rest_line c + size ≤ extent_limit }
    requires small { (c : ℕ) → c < row → line_at rest_line c < extent_limit }
    requires ind_small { length ind.now ≤ extent_limit }
    requires counted { All (λ value. IsSome (from_end value size)) ind.now }
    ensures { let place = λ (c : ℕ). Some (row_place size ind.now ind_line rest_line c) in
        OnOk result (places.new.items ≡ places.old.items ++ map place (range_with_len 0 row)) }
{
    // Values that follow one another are placed in one run, for which room is made once.
    if row > 0 && ind_line.step == 1 && rest_line.step == 0 {
        let from = ind_line.from as usize;
        let values = &ind[from..from + row as usize];
        return push_values(places, size, values, size * rest_line.from);
    }
    for column in 0..row {
        let value = ind[(ind_line.from + ind_line.step * column) as usize];
        let rest = size * (rest_line.from + rest_line.step * column);
        places.push(Some(counted(value, size) + rest))?;
    }
    Ok(())
}

/// Adds the places of these index values, so far past those of their coordinates.
fn push_values(
    places: &mut Vec<Option<u32>>,
    size: u32,
    values: &[i64],
    past: u32,
) -> Result<(), NoMemory>
    requires counted { All (λ value. IsSome (from_end value size)) values.now }
    requires small { past + size ≤ extent_limit }
    ensures { let place = λ (value : ℤ). Some (counted_place size past value) in
        OnOk result (places.new.items ≡ places.old.items ++ map place values.now) }
{
    places.extend(values.iter().map(|value| value_place(*value, size, past)))
}

/// The place of an index value, so far past that of its coordinate.
fn value_place(value: i64, size: u32, past: u32) -> Option<u32>
    requires counted { IsSome (from_end value size) }
    requires small { past + size ≤ extent_limit }
    ensures { result ≡ Some (counted_place size past value) }
{
    Some(counted(value, size) + past)
}

/// The places in a parent of dimensions `parent` of all `count` positions of the view, whose
/// dimensions are `joined`.
fn index_places(
    alloc: Global,
    parent: &[u32],
    ind_dims: &[u32],
    ind: &[i64],
    joined: &[u32],
    count: u32,
) -> Result<Vec<Option<u32>>, NoMemory>
    requires some { 0 < length parent.now }
    requires whole { length ind.now ≡ size_of ind_dims.now }
    requires ind_fits { BroadcastsTo ind_dims.now joined.now }
    requires parent_fits { BroadcastsTo (drop 1 parent.now) joined.now }
    requires counts { count ≡ size_of joined.now }
    requires ind_bounded { extent ind_dims.now ≤ extent_limit }
    requires parent_bounded { extent parent.now ≤ extent_limit }
    requires counted { All (λ value. IsSome (from_end value (slice_index parent.now 0))) ind.now }
    ensures inside { IfOk result (λ places. AllBelow (size_of parent.now) places.items) }
    ensures places { let sources = λ (at : List ℕ).
        Some (index_source parent.now ind_dims.now ind.now at) in
        IfOk result (λ places. places.items ≡ places_of joined.now parent.now sources) }
{
    shape_laws();
    let (size, rest) = first_size(parent);
    let (row, outer) = first_size(joined);
    let mut at = vec![in alloc; 0; outer.len()]?;
    let mut places = Vec::with_capacity(alloc, count as usize)?;
    for _round in 0..rounds_of(count, row) {
        let ind_line = line_of(ind_dims, &at);
        let rest_line = line_of(rest, &at);
        push_row(&mut places, size, ind, ind_line, rest_line, row)?;
        move_on(outer, &mut at);
    }
    Ok(places)
}
