//! Reading a window in blocks, along dimension 1, in runs, and its sums.
ghost use Rattle.std.specs.Prelude.{◌≡◌, ◌<◌, ◌≤◌, ◌+◌, ◌+ℤ◌, ℕ, IsTrue, pos, length, take, drop, fold, get_or, All, IfSome};
ghost use Rattle.std.specs.Int.{int_wrap, w64};
ghost use Rattle.pdl_elem.specs.Types.{InRange};
ghost use Rattle.pdl_shape.specs.Shape.{extent_limit};
ghost use Rattle.pdl_numbers.specs.Folds.{HasFolded};
ghost use Rattle.pdl_numbers.specs.Numbers.{elements_in};
ghost use Rattle.pdl_numbers.specs.Reads.{LieAcross, across};

use crate::ranges::strided_is_in_range;
use crate::window::{Strided, strided_dims};
use pdl_numbers::{Folding, Numbers, Run, shown_laws};
use pdl_shape::{dims_list, incs_list};

/// Shorter columns than this are read as well one by one.
const FEW: u32 = 16;

/// Sets each element of `into` to the window's element at a position: those from `first` on, of
/// which there are enough.
pub fn strided_read(from: &Strided<'_>, first: u32, into: &mut [i64])
    requires { first + length into.old ≤ length from.now.elems }
    ensures value { into.new ≡ take (length into.old) (drop first from.now.elems) }
    ensures in_range { All (InRange from.now.ty) into.new }
{
    shown_laws();
    let buf = from.buf;
    buf.numbers.read(&from.placement, first, into)
}

/// Those of the window's elements from a position on that are neighbours in the buffer, in order:
/// all that are left, or those left of a row, or none where a step along a row goes elsewhere. No
/// clause says how many.
pub fn strided_run<'a>(from: &Strided<'a>, first: u32) -> Run<'a>
    requires { first < length from.now.elems }
    ensures type_is { result.ty ≡ from.now.ty }
    ensures shown { result.elems ≡ take (length result.elems) (drop first from.now.elems) }
    ensures in_range { All (InRange from.now.ty) result.elems }
{
    shown_laws();
    strided_is_in_range(from);
    let buf = from.buf;
    buf.numbers.run(&from.placement, first)
}

/// Takes one of the window's elements along dimension 1 into each of what others before it come to:
/// that at position `first`, and then those so far apart as dimension 0 is long. They are there, in
/// one plane. Each is read where it stands.
pub fn strided_take_across<F: Folding>(from: &Strided<'_>, first: u32, so_far: &mut [i64])
    requires some { first < length from.now.elems }
    requires small { length so_far.old ≤ extent_limit }
    requires along { LieAcross from.now.dims first (length so_far.old) }
    requires within { (k : ℕ) → k < length so_far.old →
        across from.now.dims first k < length from.now.elems }
    ensures { (k : ℕ) → k < length so_far.old →
        let number = get_or from.now.elems (across from.now.dims first k) (pos 0) in
        get_or so_far.new k (pos 0) ≡ F.taken (get_or so_far.old k (pos 0)) number }
{
    shown_laws();
    let buf = from.buf;
    buf.numbers.take_across::<F>(&from.placement, first, so_far)
}

/// Takes one of the window's elements along dimension 1 into each of so many packed numbers of its
/// type from a start on: those elements that `strided_take_across` takes. What comes of each is
/// wrapped to the type.
pub fn strided_fold_across<F: Folding>(
    from: &Strided<'_>,
    first: u32,
    start: usize,
    count: usize,
    into: &mut Numbers,
)
    requires typed { (elements_in into.old).ty ≡ from.now.ty }
    requires room { start + count ≤ length (elements_in into.old).elems }
    requires some { first < length from.now.elems }
    requires small { count ≤ extent_limit }
    requires along { LieAcross from.now.dims first count }
    requires within { (k : ℕ) → k < count →
        across from.now.dims first k < length from.now.elems }
    ensures typed { (elements_in into.new).ty ≡ (elements_in into.old).ty }
    ensures value { let old = elements_in into.old in
        HasFolded old.ty F.taken
        (λ k. get_or from.now.elems (across from.now.dims first k) (pos 0)) start count
        old.elems (elements_in into.new).elems }
{
    shown_laws();
    let buf = from.buf;
    into.fold_across::<F>(start, count, &buf.numbers, &from.placement, first);
}

/// Whether elements along dimension 1 lie closer together in the buffer than along dimension 0, so
/// that it takes less time to read them across. The clause says no more than
/// a reader needs: what is read is the same.
pub fn strided_is_turned(from: &Strided<'_>) -> bool
    ensures { IsTrue result → 0 < get_or from.now.dims 1 1 }
{
    let sizes = dims_list(strided_dims(from));
    let incs = incs_list(&from.placement.triple().incs);
    sizes.len() > 1
        && incs.len() > 1
        && sizes[1] >= FEW
        && incs[1].unsigned_abs() < incs[0].unsigned_abs()
}

/// The sum of so many of the window's elements from a position on, wrapped at 64 bits, and nothing
/// where they aren't neighbours in the buffer, in order: those are summed as well in blocks.
pub fn strided_sum(from: &Strided<'_>, first: u32, count: u32) -> Option<i64>
    requires { first + count ≤ length from.now.elems }
    ensures { let xs = take count (drop first from.now.elems) in
        IfSome result (λ sum. sum ≡ int_wrap w64 (fold (λ sum x. sum +ℤ x) (pos 0) xs)) }
{
    shown_laws();
    let buf = from.buf;
    buf.numbers.sum(&from.placement, first, count)
}
