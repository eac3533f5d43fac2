//! Products of two blocks of elements as matrices.
ghost use Rattle.std.specs.Prelude.{◌≡◌, ◌<◌, ◌≤◌, ◌+◌, ◌*◌, ◌++◌, ◌+ℤ◌, ◌*ℤ◌, ℕ, pos, length, get_or, map, OnOk};
ghost use Rattle.std.specs.Int.{int_wrap, w64};
ghost use Rattle.std.specs.List.{range_with_len};
ghost use Rattle.pdl_elem.specs.Numbers.{wrapped};
ghost use Rattle.pdl_shape.specs.Shape.{extent_limit};
ghost use Rattle.pdl_reduce.specs.Blocks.{Fit, HasSums, cut, left_at, plus_four_scaled, plus_scaled, product_at, right_at, sum_at};
ghost use Rattle.pdl_reduce.specs.Pairings.{sum_below};

use crate::collected::Collected;
use pdl_elem::{Ty, wrap_all, wrapping_laws};
use pdl_shape::size_along;
use std::alloc::AllocError;

/// The sizes of two blocks as matrices: the left one has `height` rows and the right one `width`
/// columns. Both go over the depth, along which a block of depth 1 is stretched. A row of the left
/// block stands in order, and so do the numbers of the right block at one depth.
#[derive(Clone, Copy)]
pub(crate) struct Sizes {
    pub depth: usize,
    pub height: usize,
    pub width: usize,
    pub left_depth: usize,
    pub right_depth: usize,
}

/// The size along a dimension: 1 where there is none.
pub(crate) fn size_at(sizes: &[u32], dimension: usize) -> usize
    ensures { result ≡ get_or sizes.now dimension 1 }
{
    size_along(sizes, dimension) as usize
}

/// The coordinate that is used along a size.
fn cut(size: usize, coordinate: usize) -> usize
    ensures { result ≡ cut size coordinate }
{
    if size == 1 { 0 } else { coordinate }
}

/// A sum and one product more, in words that wrap.
fn add_scaled_to(sum: i64, factor: i64, number: i64) -> i64
    ensures { result ≡ plus_scaled sum factor number }
{
    sum.wrapping_add(factor.wrapping_mul(number))
}

/// A sum and four products more, in words that wrap.
fn add_four_to(
    sum: i64,
    first: i64,
    a: i64,
    second: i64,
    b: i64,
    third: i64,
    c: i64,
    fourth: i64,
    d: i64,
) -> i64
    ensures { result ≡ plus_four_scaled sum first a second b third c fourth d }
{
    let one = add_scaled_to(sum, first, a);
    let two = add_scaled_to(one, second, b);
    let three = add_scaled_to(two, third, c);
    add_scaled_to(three, fourth, d)
}

/// Adds to each number of a row another number times a factor.
fn add_scaled(factor: i64, numbers: &[i64], row: &mut [i64])
    requires { length numbers.now ≡ length row.old }
    ensures { (j : ℕ) → j < length row.old → get_or row.new j (pos 0)
        ≡ plus_scaled (get_or row.old j (pos 0)) factor (get_or numbers.now j (pos 0)) }
{
    for (j, sum) in row.iter_mut().enumerate() {
        *sum = add_scaled_to(*sum, factor, numbers[j]);
    }
}

/// The sum of the products of two lists' numbers, in words that wrap.
fn sum_of_products(left: &[i64], right: &[i64]) -> i64
    requires { length left.now ≡ length right.now }
    ensures { let at = λ (k : ℕ). get_or left.now k (pos 0) *ℤ get_or right.now k (pos 0) in
        result ≡ int_wrap w64 (sum_below (length left.now) at) }
{
    let mut sum = 0;
    for (k, number) in left.iter().enumerate() {
        sum = add_scaled_to(sum, *number, right[k]);
    }
    sum
}

/// Adds to each number of a row those of four others, each times its own factor, in words that wrap.
/// The row is gone through once for the four.
fn add_four_scaled(
    first: i64,
    second: i64,
    third: i64,
    fourth: i64,
    a: &[i64],
    b: &[i64],
    c: &[i64],
    d: &[i64],
    row: &mut [i64],
)
    requires a { length a.now ≡ length row.old }
    requires b { length b.now ≡ length row.old }
    requires c { length c.now ≡ length row.old }
    requires d { length d.now ≡ length row.old }
    ensures { (j : ℕ) → j < length row.old → get_or row.new j (pos 0)
        ≡ plus_four_scaled (get_or row.old j (pos 0)) first (get_or a.now j (pos 0))
        second (get_or b.now j (pos 0)) third (get_or c.now j (pos 0))
        fourth (get_or d.now j (pos 0)) }
{
    for (j, sum) in row.iter_mut().enumerate() {
        *sum = add_four_to(*sum, first, a[j], second, b[j], third, c[j], fourth, d[j]);
    }
}

/// The left block's number in row `i` and at depth `k`.
fn left_at(sizes: Sizes, left: &[i64], i: usize, k: usize) -> i64
    requires count { length left.now ≡ sizes.left_depth * sizes.height }
    requires small { length left.now ≤ extent_limit }
    requires inside { i < sizes.height }
    requires deep { cut sizes.left_depth k < sizes.left_depth }
    ensures { result ≡ left_at sizes left.now i k }
{
    left[cut(sizes.left_depth, k) + sizes.left_depth * i]
}

/// The right block's numbers at depth `k`.
fn right_at<'a>(sizes: Sizes, right: &'a [i64], k: usize) -> &'a [i64]
    requires count { length right.now ≡ sizes.width * sizes.right_depth }
    requires small { length right.now ≤ extent_limit }
    requires deep { cut sizes.right_depth k < sizes.right_depth }
    ensures count { length result.now ≡ sizes.width }
    ensures numbers { (j : ℕ) → j < sizes.width →
        get_or result.now j (pos 0) ≡ right_at sizes right.now k j }
{
    let start = sizes.width * cut(sizes.right_depth, k);
    &right[start..start + sizes.width]
}

/// Takes depth `k` into the sums over the depths before it.
fn add_depth(sizes: Sizes, i: usize, k: usize, left: &[i64], right: &[i64], row: &mut [i64])
    requires fit { Fit sizes left.now right.now }
    requires inside { i < sizes.height }
    requires within { k < sizes.depth }
    requires small_left { length left.now ≤ extent_limit }
    requires small_right { length right.now ≤ extent_limit }
    requires summed { HasSums sizes left.now right.now k i row.old }
    ensures { HasSums sizes left.now right.now (k + 1) i row.new }
{
    add_scaled(left_at(sizes, left, i, k), right_at(sizes, right, k), row);
}

/// Takes four depths from `k` on into the sums over the depths before them.
fn add_four_depths(sizes: Sizes, i: usize, k: usize, left: &[i64], right: &[i64], row: &mut [i64])
    requires fit { Fit sizes left.now right.now }
    requires inside { i < sizes.height }
    requires within { k + 4 ≤ sizes.depth }
    requires small_left { length left.now ≤ extent_limit }
    requires small_right { length right.now ≤ extent_limit }
    requires summed { HasSums sizes left.now right.now k i row.old }
    ensures { HasSums sizes left.now right.now (k + 4) i row.new }
{
    let first = left_at(sizes, left, i, k);
    let second = left_at(sizes, left, i, k + 1);
    let third = left_at(sizes, left, i, k + 2);
    let fourth = left_at(sizes, left, i, k + 3);
    let a = right_at(sizes, right, k);
    let b = right_at(sizes, right, k + 1);
    let c = right_at(sizes, right, k + 2);
    let d = right_at(sizes, right, k + 3);
    add_four_scaled(first, second, third, fourth, a, b, c, d, row);
}

/// Sets a row to row `i` of the product, in words that wrap, four depths at once. It goes through
/// both blocks in order.
fn add_depths(sizes: Sizes, i: usize, left: &[i64], right: &[i64], row: &mut [i64])
    requires fit { Fit sizes left.now right.now }
    requires inside { i < sizes.height }
    requires width { length row.old ≡ sizes.width }
    requires small_left { length left.now ≤ extent_limit }
    requires small_right { length right.now ≤ extent_limit }
    ensures { (j : ℕ) → j < sizes.width → get_or row.new j (pos 0)
        ≡ int_wrap w64 (sum_at sizes left.now right.now sizes.depth i j) }
{
    row.fill(0);
    let fours = sizes.depth / 4;
    for q in 0..fours {
        add_four_depths(sizes, i, 4 * q, left, right, row);
    }
    for k in 4 * fours..sizes.depth {
        add_depth(sizes, i, k, left, right, row);
    }
}

/// Sets a row to row `i` of the product, in words that wrap. A column of one number is a sum over
/// two slices, where none of them is stretched.
pub(crate) fn set_row(sizes: Sizes, i: usize, left: &[i64], right: &[i64], row: &mut [i64])
    requires fit { Fit sizes left.now right.now }
    requires inside { i < sizes.height }
    requires width { length row.old ≡ sizes.width }
    requires small_left { length left.now ≤ extent_limit }
    requires small_right { length right.now ≤ extent_limit }
    ensures { (j : ℕ) → j < sizes.width → get_or row.new j (pos 0)
        ≡ int_wrap w64 (sum_at sizes left.now right.now sizes.depth i j) }
{
    let depth = sizes.depth;
    if sizes.width == 1 && sizes.left_depth == depth && sizes.right_depth == depth {
        let start = depth * i;
        row[0] = sum_of_products(&left[start..start + depth], right);
    } else {
        add_depths(sizes, i, left, right, row);
    }
}

/// Puts the product of two blocks, row by row, wrapped to the type.
pub(crate) fn add_product(
    ty: Ty,
    sizes: Sizes,
    left: &[i64],
    right: &[i64],
    row: &mut [i64],
    made: &mut Collected,
) -> Result<(), AllocError>
    requires fit { Fit sizes left.now right.now }
    requires width { length row.old ≡ sizes.width }
    requires small_left { length left.now ≤ extent_limit }
    requires small_right { length right.now ≤ extent_limit }
    requires typed { made.old.ty ≡ ty }
    ensures value { let at = product_at ty sizes left.now right.now in
        let new = map at (range_with_len 0 (sizes.height * sizes.width)) in
        OnOk result (made.new.elems ≡ made.old.elems ++ new) }
    ensures typed { OnOk result (made.new.ty ≡ made.old.ty) }
{
    wrapping_laws();
    for i in 0..sizes.height {
        set_row(sizes, i, left, right, row);
        wrap_all(ty, row);
        made.extend(row)?;
    }
    Ok(())
}
