//! One list of a window's elements, reduced (PDL::Ufunc).
ghost use Rattle.std.specs.Prelude.{◌≡◌, ◌<◌, ◌≤◌, ◌+◌, ◌++◌, [], ◌∷◌, pos, length, take, drop, fold, get_or, IsTrue, OnOk};
ghost use Rattle.pdl_shape.specs.Shape.{extent_limit};
ghost use Rattle.pdl_elem.specs.Numbers.{wrapped};
ghost use Rattle.pdl_elem.specs.Types.{InRange};
ghost use Rattle.pdl_elem.specs.declared.Ty.TheVariants.{Long};
ghost use Rattle.pdl_reduce.specs.Folds.{Picks, total, product, greatest, least, first_place};
ghost use Rattle.pdl_reduce.specs.Reductions.{is_extreme, reduced_row, reduced_type, sum_type};

use crate::Reduction;
use crate::collected::Collected;
use crate::folds::{Adding, Falling, Multiplying, Rising};
use crate::windows::{find_in_window, fold_changes, fold_window, run_window};
use pdl_buf::{Strided, strided_get, strided_sum, strided_type};
use pdl_elem::{Ty, promote, wrap, wrapping_laws};
use pdl_numbers::{Folding, prefix_laws};
use std::alloc::AllocError;

/// The type of a sum or a product.
pub(crate) fn sum_type(ty: Ty) -> Ty
    ensures { result ≡ sum_type ty }
{
    promote(ty, Ty::Long)
}

/// The sum of so many elements from a position on: straight from the buffer where they lie in
/// order, else in blocks.
fn sum_of(a: &Strided<'_>, first: u32, count: u32, block: &mut [i64]) -> i64
    requires within { first + count ≤ length a.now.elems }
    requires small { length a.now.elems ≤ extent_limit }
    requires room { 0 < count → 0 < length block.old }
    ensures value { let xs = take count (drop first a.now.elems) in
        result ≡ wrapped (sum_type a.now.ty) (total xs) }
    ensures in_range { InRange (sum_type a.now.ty) result }
{
    wrapping_laws();
    let ty = sum_type(strided_type(a));
    match strided_sum(a, first, count) {
        Some(sum) => wrap(ty, i128::from(sum)),
        None => wrap(
            ty,
            i128::from(fold_window::<Adding>(a, first, count, 0, block)),
        ),
    }
}

/// The product of so many elements from a position on.
fn product_of(a: &Strided<'_>, first: u32, count: u32, block: &mut [i64]) -> i64
    requires within { first + count ≤ length a.now.elems }
    requires small { length a.now.elems ≤ extent_limit }
    requires room { 0 < count → 0 < length block.old }
    ensures value { let xs = take count (drop first a.now.elems) in
        result ≡ wrapped (sum_type a.now.ty) (product xs) }
    ensures in_range { InRange (sum_type a.now.ty) result }
{
    wrapping_laws();
    let product = fold_window::<Multiplying>(a, first, count, 1, block);
    wrap(sum_type(strided_type(a)), i128::from(product))
}

/// The greatest of so many elements from a position on.
fn greatest_of(a: &Strided<'_>, first: u32, count: u32, block: &mut [i64]) -> i64
    requires within { first + count ≤ length a.now.elems }
    requires small { length a.now.elems ≤ extent_limit }
    requires some { 0 < count }
    requires room { 0 < length block.old }
    ensures value { result ≡ greatest (take count (drop first a.now.elems)) }
    ensures in_range { InRange a.now.ty result }
{
    let start = strided_get(a, first);
    fold_window::<Rising>(a, first, count, start, block)
}

/// The least of so many elements from a position on.
fn least_of(a: &Strided<'_>, first: u32, count: u32, block: &mut [i64]) -> i64
    requires within { first + count ≤ length a.now.elems }
    requires small { length a.now.elems ≤ extent_limit }
    requires some { 0 < count }
    requires room { 0 < length block.old }
    ensures value { result ≡ least (take count (drop first a.now.elems)) }
    ensures in_range { InRange a.now.ty result }
{
    let start = strided_get(a, first);
    fold_window::<Falling>(a, first, count, start, block)
}

/// The first place of what so many elements from a position on come to by a fold that picks one of
/// them: it stands in the last block that changed what was picked.
fn picked_place<F: Folding>(a: &Strided<'_>, first: u32, count: u32, block: &mut [i64]) -> i64
    requires picks { Picks F.taken }
    requires within { first + count ≤ length a.now.elems }
    requires small { length a.now.elems ≤ extent_limit }
    requires some { 0 < count }
    requires room { 0 < length block.old }
    ensures value { let xs = take count (drop first a.now.elems) in
        result ≡ pos (first_place (fold F.taken (get_or xs 0 (pos 0)) xs) xs) }
    ensures in_range { InRange Long result }
{
    let start = strided_get(a, first);
    let folded = fold_changes::<F>(a, first, count, start, block);
    let before = folded.changed;
    let place = find_in_window(a, first + before, count - before, folded.value, block);
    i64::from(before + place)
}

/// The first place of the greatest of so many elements from a position on.
fn greatest_place(a: &Strided<'_>, first: u32, count: u32, block: &mut [i64]) -> i64
    requires within { first + count ≤ length a.now.elems }
    requires small { length a.now.elems ≤ extent_limit }
    requires some { 0 < count }
    requires room { 0 < length block.old }
    ensures value { let xs = take count (drop first a.now.elems) in
        result ≡ pos (first_place (greatest xs) xs) }
    ensures in_range { InRange Long result }
{
    picked_place::<Rising>(a, first, count, block)
}

/// The first place of the least of so many elements from a position on.
fn least_place(a: &Strided<'_>, first: u32, count: u32, block: &mut [i64]) -> i64
    requires within { first + count ≤ length a.now.elems }
    requires small { length a.now.elems ≤ extent_limit }
    requires some { 0 < count }
    requires room { 0 < length block.old }
    ensures value { let xs = take count (drop first a.now.elems) in
        result ≡ pos (first_place (least xs) xs) }
    ensures in_range { InRange Long result }
{
    picked_place::<Falling>(a, first, count, block)
}

/// Puts one number more.
fn push(made: &mut Collected, number: i64) -> Result<(), AllocError>
    requires { InRange made.old.ty number }
    ensures value { OnOk result (made.new.elems ≡ made.old.elems ++ number ∷ []) }
    ensures typed { OnOk result (made.new.ty ≡ made.old.ty) }
{
    made.extend(&[number])?;
    Ok(())
}

/// Puts what a reduction makes of so many elements from a position on. An extreme needs some.
pub(crate) fn add_row(
    kind: Reduction,
    a: &Strided<'_>,
    first: u32,
    count: u32,
    block: &mut [i64],
    made: &mut Collected,
) -> Result<(), AllocError>
    requires within { first + count ≤ length a.now.elems }
    requires small { length a.now.elems ≤ extent_limit }
    requires room { 0 < count → 0 < length block.old }
    requires some { IsTrue (is_extreme kind) → 0 < count }
    requires typed { made.old.ty ≡ reduced_type kind a.now.ty }
    ensures value { let xs = take count (drop first a.now.elems) in
        OnOk result (made.new.elems ≡ made.old.elems ++ reduced_row kind a.now.ty xs) }
    ensures typed { OnOk result (made.new.ty ≡ made.old.ty) }
{
    wrapping_laws();
    prefix_laws();
    match kind {
        Reduction::Sumover => push(made, sum_of(a, first, count, block)),
        Reduction::Prodover => push(made, product_of(a, first, count, block)),
        Reduction::Maximum => push(made, greatest_of(a, first, count, block)),
        Reduction::Minimum => push(made, least_of(a, first, count, block)),
        Reduction::MaximumInd => push(made, greatest_place(a, first, count, block)),
        Reduction::MinimumInd => push(made, least_place(a, first, count, block)),
        Reduction::Cumusumover => run_window::<Adding>(a, first, count, 0, block, made),
        Reduction::Cumuprodover => run_window::<Multiplying>(a, first, count, 1, block, made),
    }
}
