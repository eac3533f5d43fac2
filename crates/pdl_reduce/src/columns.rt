//! Sums, products and extremes of the lists along dimension 0, many at once: an element of each
//! list, then the next one of each, taken in where it stands. Where elements along dimension 1 lie
//! closer together, the buffer is so read in its order. Sums and products that have the type of the
//! array are kept in its width on the way.
ghost use Rattle.std.specs.Prelude.{◌≡◌, ◌<◌, ◌≤◌, ◌+◌, ◌*◌, ◌%◌, ◌++◌, ℕ, pos, length, fold, map, get_or, OnOk};
ghost use Rattle.std.specs.List.{range_with_len};
ghost use Rattle.pdl_shape.specs.Shape.{extent_limit};
ghost use Rattle.pdl_numbers.specs.Folds.{WrapsLate};
ghost use Rattle.pdl_numbers.specs.Numbers.{elements_in};
ghost use Rattle.pdl_reduce.specs.Across.{come_to};
ghost use Rattle.pdl_reduce.specs.Reductions.{nth_list};

use crate::collected::Collected;
use crate::matrices::size_at;
use pdl_buf::{Strided, strided_dims, strided_fold_across, strided_take_across, strided_type};
use pdl_elem::{Ty, wrap, wrap_all, wrapping_laws};
use pdl_numbers::{Folding, Numbers};
use pdl_shape::dims_list;
use std::alloc::AllocError;

/// What the lists along dimension 0 from one on come to, in one plane, as many as there is room
/// for.
fn fold_lists<F: Folding>(a: &Strided<'_>, first: u32, size: u32, start: i64, so_far: &mut [i64])
    requires size { size ≡ get_or a.now.dims 0 1 }
    requires some { 0 < length so_far.old }
    requires few { length so_far.old ≤ extent_limit }
    requires small { length a.now.elems ≤ extent_limit }
    requires plane { first % get_or a.now.dims 1 1 + length so_far.old ≤ get_or a.now.dims 1 1 }
    requires within { (first + length so_far.old) * size ≤ length a.now.elems }
    ensures { (j : ℕ) → j < length so_far.old →
        get_or so_far.new j (pos 0) ≡ fold F.taken start (nth_list size a.now.elems (first + j)) }
{
    so_far.fill(start);
    for i in 0..size {
        strided_take_across::<F>(a, first * size + i, so_far);
    }
}

/// Puts what the lists along dimension 0 from one on come to, in one plane, as many as there is room
/// for starts, after the others, which have the array's type. Each is wrapped at every number that is
/// taken in: where wrapping late changes nothing, that is the same as to wrap it at the end.
pub(crate) fn put_lists<F: Folding>(
    a: &Strided<'_>,
    first: u32,
    size: u32,
    start: i64,
    starts: &mut [i64],
    made: &mut Numbers,
) -> Result<(), AllocError>
    requires late { WrapsLate F.taken }
    requires size { size ≡ get_or a.now.dims 0 1 }
    requires some { 0 < length starts.old }
    requires few { length starts.old ≤ extent_limit }
    requires small { length a.now.elems ≤ extent_limit }
    requires plane { first % get_or a.now.dims 1 1 + length starts.old ≤ get_or a.now.dims 1 1 }
    requires within { (first + length starts.old) * size ≤ length a.now.elems }
    requires typed { (elements_in made.old).ty ≡ a.now.ty }
    ensures { let old = elements_in made.old in
        let at = come_to old.ty F.taken start size a.now.elems in
        let new = map at (range_with_len first (length starts.old)) in
        OnOk result (elements_in made.new ≡ record old { elems = old.elems ++ new }) }
{
    wrapping_laws();
    let before = made.len();
    let count = starts.len();
    starts.fill(wrap(made.ty(), i128::from(start)));
    made.extend(starts)?;
    for i in 0..size {
        strided_fold_across::<F>(a, first * size + i, before, count, made);
    }
    Ok(())
}

/// How many lists from one on stand in one plane of so many, and no more than are left.
fn lists_in_plane(height: usize, first: usize, left: usize) -> usize
    requires height { 0 < height }
    requires left { 0 < left }
    ensures some { 0 < result }
    ensures few { result ≤ left }
    ensures plane { first % height + result ≤ height }
{
    left.min(height - first % height)
}

/// Puts what the lists along dimension 0 from one on come to, in one plane, as many as there is
/// room for, wrapped to the type.
fn add_part<F: Folding>(
    a: &Strided<'_>,
    ty: Ty,
    first: u32,
    size: u32,
    start: i64,
    so_far: &mut [i64],
    made: &mut Collected,
) -> Result<(), AllocError>
    requires size { size ≡ get_or a.now.dims 0 1 }
    requires some { 0 < length so_far.old }
    requires few { length so_far.old ≤ extent_limit }
    requires small { length a.now.elems ≤ extent_limit }
    requires plane { first % get_or a.now.dims 1 1 + length so_far.old ≤ get_or a.now.dims 1 1 }
    requires within { (first + length so_far.old) * size ≤ length a.now.elems }
    requires typed { made.old.ty ≡ ty }
    ensures value { let at = come_to ty F.taken start size a.now.elems in
        let new = map at (range_with_len first (length so_far.old)) in
        OnOk result (made.new.elems ≡ made.old.elems ++ new) }
    ensures typed { OnOk result (made.new.ty ≡ made.old.ty) }
{
    if F::wraps_late() && strided_type(a) == ty {
        return made.extend_lists::<F>(a, first, size, start, so_far);
    }
    fold_lists::<F>(a, first, size, start, so_far);
    wrap_all(ty, so_far);
    made.extend(so_far)?;
    Ok(())
}

/// Puts what each of so many lists along dimension 0 comes to from a start on, wrapped to the
/// type. There is room for a block of numbers.
pub(crate) fn add_lists<F: Folding>(
    a: &Strided<'_>,
    ty: Ty,
    count: u32,
    size: u32,
    start: i64,
    so_far: &mut [i64],
    made: &mut Collected,
) -> Result<(), AllocError>
    requires size { size ≡ get_or a.now.dims 0 1 }
    requires planes { 0 < get_or a.now.dims 1 1 }
    requires whole { count * size ≡ length a.now.elems }
    requires small { length a.now.elems ≤ extent_limit }
    requires some { 0 < count → 0 < length so_far.old }
    requires few { length so_far.old ≤ extent_limit }
    requires typed { made.old.ty ≡ ty }
    ensures value { let at = come_to ty F.taken start size a.now.elems in
        OnOk result (made.new.elems ≡ made.old.elems ++ map at (range_with_len 0 count)) }
    ensures typed { OnOk result (made.new.ty ≡ made.old.ty) }
{
    let height = size_at(dims_list(strided_dims(a)), 1);
    let count = count as usize;
    let mut done = 0;
    while done < count {
        let left = so_far.len().min(count - done);
        let run = lists_in_plane(height, done, left);
        let so_far = &mut so_far[..run];
        add_part::<F>(a, ty, done as u32, size, start, so_far, made)?;
        done += run;
    }
    Ok(())
}
