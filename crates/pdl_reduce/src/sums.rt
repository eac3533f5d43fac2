//! The sums of the products of two arrays' rows at many places of a broadcast at once, where the
//! broadcast goes through the rows in order.
ghost use Rattle.std.specs.Prelude.{◌≡◌, ◌≢◌, ◌<◌, ◌≤◌, ◌+◌, ◌*◌, ◌*ℤ◌, ◌/◌, ◌%◌, ℕ, [], pos, length, take, drop, map, get_or, IfSome, OnOk};
ghost use Rattle.std.specs.Int.{int_wrap, w64};
ghost use Rattle.pdl_elem.specs.Numbers.{wrapped};
ghost use Rattle.pdl_shape.specs.Shape.{extent_limit};
ghost use Rattle.pdl_reduce.specs.Blocks.{AreShortRows, GoesInTurn, Ready, all_products, cut, nth_block, sum_at};

use crate::collected::Collected;
use crate::matrices::{Sizes, set_row};
use crate::windows::BLOCK;
use pdl_buf::{Strided, strided_read, strided_type};
use pdl_elem::{Ty, wrap_all, wrapping_laws};
use pdl_shape::{Dims, dims_list, elements_of, shape_laws, size_along, sizes_after};
use std::alloc::{AllocError, Global};

/// Rows of at most so many numbers are short: one that is used at many places may be read anew for
/// each block.
const SHORT: usize = 64;

/// How a broadcast goes through an array's rows, of which there are so many: in order, each at so
/// many places that follow one another, and then again from the first one on.
#[derive(Clone, Copy)]
pub(crate) struct Turn {
    pub rows: u32,
    pub times: u32,
}

/// How a broadcast goes through the rows of two arrays.
#[derive(Clone, Copy)]
pub(crate) struct Turns {
    pub left: Turn,
    pub right: Turn,
}

/// How a broadcast goes through the rows of an array with these sizes after the rows' own one, where
/// it goes in order: they are its first ones, or they are so after a first size that is stretched.
fn turn_of(dims: &Dims, joined: &[u32]) -> Option<Turn>
    ensures { IfSome result (λ turn. GoesInTurn dims.now joined.now turn) }
{
    let rows = elements_of(dims);
    let sizes = dims_list(dims);
    if joined.starts_with(sizes) {
        Some(Turn { rows, times: 1 })
    } else if size_along(sizes, 0) == 1
        && sizes_after(joined, 1).starts_with(sizes_after(sizes, 1))
    {
        let times = size_along(joined, 0);
        Some(Turn { rows, times })
    } else {
        None
    }
}

/// How a broadcast goes through two arrays' rows, where their blocks are short rows and it goes
/// through both in order.
pub(crate) fn short_rows(sizes: Sizes, left: &Dims, right: &Dims, joined: &Dims) -> Option<Turns>
    ensures rows { IfSome result (λ turns. AreShortRows sizes) }
    ensures left { IfSome result (λ turns. GoesInTurn left.now joined.now turns.left) }
    ensures right { IfSome result (λ turns. GoesInTurn right.now joined.now turns.right) }
{
    let is_sum = sizes.height == 1 && sizes.width == 1;
    let is_short = sizes.left_depth <= SHORT && sizes.right_depth <= SHORT;
    if !is_sum || !is_short {
        return None;
    }
    let joined = dims_list(joined);
    let left = turn_of(left, joined)?;
    let right = turn_of(right, joined)?;
    Some(Turns { left, right })
}

/// How many rows of either size a block has room for.
fn rows_of_block(left: usize, right: usize) -> usize
    requires left { left ≤ SHORT }
    requires right { right ≤ SHORT }
    ensures some { 0 < result }
    ensures few { result ≤ BLOCK }
    ensures left { result * left ≤ BLOCK }
    ensures right { result * right ≤ BLOCK }
{
    BLOCK / left.max(right).max(1)
}

/// At how many of so many places rows of these sizes are worked on at once: the rows of each side
/// are no more numbers than a block.
fn places_at_once(left: usize, right: usize, total: u32) -> usize
    requires left { left ≤ SHORT }
    requires right { right ≤ SHORT }
    ensures some { 0 < total → 0 < result }
    ensures few { result ≤ BLOCK }
    ensures left { result * left ≤ BLOCK }
    ensures right { result * right ≤ BLOCK }
{
    rows_of_block(left, right).min(total as usize)
}

/// How many places from one on, at most so many, an array gives one row after the other, or one row
/// to all of them.
fn places_left(turn: Turn, place: u32, most: usize) -> usize
    requires rows { 0 < turn.rows }
    requires times { 0 < turn.times }
    requires most { 0 < most }
    ensures some { 0 < result }
    ensures few { result ≤ most }
    ensures rows { turn.rows ≢ 1 → turn.times ≡ 1 → place % turn.rows + result ≤ turn.rows }
    ensures row { turn.rows ≢ 1 → turn.times ≢ 1 → place % turn.times + result ≤ turn.times }
{
    if turn.rows == 1 {
        most
    } else if turn.times == 1 {
        most.min((turn.rows - place % turn.rows) as usize)
    } else {
        most.min((turn.times - place % turn.times) as usize)
    }
}

/// Sets `into` to a window's elements from a position on, wrapped to a type. Those of the type stay
/// as they are.
pub(crate) fn read_wrapped(ty: Ty, from: &Strided<'_>, first: u32, into: &mut [i64])
    requires { first + length into.old ≤ length from.now.elems }
    ensures { into.new
        ≡ map (wrapped ty) (take (length into.old) (drop first from.now.elems)) }
{
    wrapping_laws();
    strided_read(from, first, into);
    if strided_type(from) != ty {
        wrap_all(ty, into);
    }
}

/// Reads the rows, of so many numbers each, that so many places from one on use, wrapped to a type.
/// It answers how far the row of a place stands from that of the place before.
fn read_rows(
    ty: Ty,
    from: &Strided<'_>,
    size: usize,
    turn: Turn,
    place: u32,
    places: usize,
    room: &mut [i64],
) -> usize
    requires all { length from.now.elems ≡ turn.rows * size }
    requires small { length from.now.elems ≤ extent_limit }
    requires rows { 0 < turn.rows }
    requires times { 0 < turn.times }
    requires rows_left { turn.rows ≢ 1 → turn.times ≡ 1 →
        place % turn.rows + places ≤ turn.rows }
    requires row_left { turn.rows ≢ 1 → turn.times ≢ 1 →
        place % turn.times + places ≤ turn.times }
    requires some { 0 < places }
    requires room { places * size ≤ length room.old }
    ensures count { length room.new ≡ length room.old }
    ensures inside { (j : ℕ) → j < places → j * result + size ≤ length room.new }
    ensures rows { (j : ℕ) → j < places → take size (drop (j * result) room.new)
        ≡ nth_block ty size from.now.elems ((place + j) / turn.times % turn.rows) }
{
    let row = place / turn.times % turn.rows;
    let first = row * size as u32;
    if turn.rows == 1 || turn.times != 1 {
        read_wrapped(ty, from, first, &mut room[..size]);
        0
    } else {
        read_wrapped(ty, from, first, &mut room[..places * size]);
        size
    }
}

/// A product, in words that wrap.
fn product(left: i64, right: i64) -> i64
    ensures { result ≡ int_wrap w64 (left *ℤ right) }
{
    left.wrapping_mul(right)
}

/// Sets each number to the product of its two ones, in words that wrap. On each side one stands so
/// far after the one before.
fn set_products(
    left_step: usize,
    right_step: usize,
    left: &[i64],
    right: &[i64],
    products: &mut [i64],
)
    requires left_inside { (j : ℕ) → j < length products.old → j * left_step < length left.now }
    requires right_inside { (j : ℕ) → j < length products.old →
        j * right_step < length right.now }
    requires left_small { length left.now ≤ extent_limit }
    requires right_small { length right.now ≤ extent_limit }
    ensures count { length products.new ≡ length products.old }
    ensures products { (j : ℕ) → j < length products.old → get_or products.new j (pos 0)
        ≡ int_wrap w64 (get_or left.now (j * left_step) (pos 0)
        *ℤ get_or right.now (j * right_step) (pos 0)) }
{
    for (j, number) in products.iter_mut().enumerate() {
        *number = product(left[j * left_step], right[j * right_step]);
    }
}

/// Sets each number to the sum of the products of its two rows, in words that wrap. On each side a
/// row stands so far after the one before. Rows of which one number each is used have products as
/// their sums.
fn set_sums(
    sizes: Sizes,
    left_step: usize,
    right_step: usize,
    left: &[i64],
    right: &[i64],
    sums: &mut [i64],
)
    requires height { sizes.height ≡ 1 }
    requires width { sizes.width ≡ 1 }
    requires left_inside { (j : ℕ) → j < length sums.old →
        j * left_step + sizes.left_depth ≤ length left.now }
    requires right_inside { (j : ℕ) → j < length sums.old →
        j * right_step + sizes.right_depth ≤ length right.now }
    requires left_deep { (k : ℕ) → k < sizes.depth → cut sizes.left_depth k < sizes.left_depth }
    requires right_deep { (k : ℕ) → k < sizes.depth → cut sizes.right_depth k < sizes.right_depth }
    requires left_small { length left.now ≤ extent_limit }
    requires right_small { length right.now ≤ extent_limit }
    ensures count { length sums.new ≡ length sums.old }
    ensures sums { (j : ℕ) → j < length sums.old →
        let left_row = take sizes.left_depth (drop (j * left_step) left.now) in
        let right_row = take sizes.right_depth (drop (j * right_step) right.now) in
        get_or sums.new j (pos 0) ≡ int_wrap w64 (sum_at sizes left_row right_row sizes.depth 0 0) }
{
    if sizes.depth == 1 {
        set_products(left_step, right_step, left, right, sums);
        return;
    }
    for j in 0..sums.len() {
        let left_start = j * left_step;
        let right_start = j * right_step;
        let left_row = &left[left_start..left_start + sizes.left_depth];
        let right_row = &right[right_start..right_start + sizes.right_depth];
        set_row(sizes, 0, left_row, right_row, &mut sums[j..j + 1]);
    }
}

/// Puts the sums of the products of two windows' rows at each place of a broadcast, one after the
/// other, where nothing is put yet. The broadcast goes through both sides' rows in order.
pub(crate) fn put_sums(
    alloc: Global,
    ty: Ty,
    sizes: Sizes,
    left: &Strided<'_>,
    right: &Strided<'_>,
    left_sizes: &Dims,
    right_sizes: &Dims,
    joined: &Dims,
    turns: Turns,
    made: &mut Collected,
) -> Result<(), AllocError>
    requires ready { Ready sizes left.now.elems right.now.elems
        left_sizes.now right_sizes.now joined.now }
    requires rows { AreShortRows sizes }
    requires left_turn { GoesInTurn left_sizes.now joined.now turns.left }
    requires right_turn { GoesInTurn right_sizes.now joined.now turns.right }
    requires empty { made.old ≡ record { ty = ty; elems = [] } }
    ensures { let elems = all_products ty sizes left.now.elems right.now.elems
        left_sizes.now right_sizes.now joined.now in
        OnOk result (made.new ≡ record { ty = ty; elems = elems }) }
{
    shape_laws();
    wrapping_laws();
    let (left_size, right_size) = (sizes.left_depth, sizes.right_depth);
    let total = elements_of(joined);
    let most = places_at_once(left_size, right_size, total);
    let mut left_room = vec![in alloc; 0; most * left_size]?;
    let mut right_room = vec![in alloc; 0; most * right_size]?;
    let mut sums_room = vec![in alloc; 0; most]?;
    let left_block = left_room.as_mut_slice();
    let right_block = right_room.as_mut_slice();
    let sums = sums_room.as_mut_slice();
    let mut done = 0;
    while done < total {
        let few = places_left(turns.right, done, most.min((total - done) as usize));
        let places = places_left(turns.left, done, few);
        let left_step = read_rows(ty, left, left_size, turns.left, done, places, left_block);
        let right_step = read_rows(
            ty,
            right,
            right_size,
            turns.right,
            done,
            places,
            right_block,
        );
        let part = &mut sums[..places];
        set_sums(sizes, left_step, right_step, left_block, right_block, part);
        wrap_all(ty, part);
        made.extend(part)?;
        done += places as u32;
    }
    Ok(())
}
