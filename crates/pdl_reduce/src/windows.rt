//! Folds of a window's elements, read in blocks.
ghost use Rattle.std.specs.Prelude.{◌≡◌, ◌≢◌, ◌<◌, ◌≤◌, ◌+◌, ◌++◌, length, fold, All, take, drop, position, IfOk, OnOk};
ghost use Rattle.std.specs.List.{list_all, list_any};
ghost use Rattle.std.specs.Ordering.{int_eq};
ghost use Rattle.pdl_elem.specs.Types.{InRange};
ghost use Rattle.pdl_shape.specs.Shape.{extent_limit};
ghost use Rattle.pdl_numbers.specs.Prefixes.{wrapped_prefixes};
ghost use Rattle.pdl_reduce.specs.Folds.{first_place};
ghost use Rattle.pdl_reduce.specs.Reductions.{is_set};

use crate::collected::Collected;
use crate::folds::fold_block;
use pdl_buf::{Strided, strided_read, strided_run, strided_type};
use pdl_numbers::{Folding, prefix_laws};
use std::alloc::AllocError;

/// At most so many elements are worked on at once, which stay in the cache.
pub(crate) const BLOCK: usize = 512;

/// So few elements are as well read into a block.
const FEW: usize = 16;

/// What the window's elements from a position on, as many as the part has room for, come to after
/// those before them.
fn fold_part<F: Folding>(a: &Strided<'_>, first: u32, start: i64, part: &mut [i64]) -> i64
    requires { first + length part.old ≤ length a.now.elems }
    ensures value { result ≡ fold F.taken start (take (length part.old) (drop first a.now.elems)) }
    ensures in_range { All (InRange a.now.ty) (take (length part.old) (drop first a.now.elems)) }
{
    strided_read(a, first, part);
    fold_block::<F>(start, part)
}

/// What elements come to by a fold, and where the last block of them begins that changed it: at 0
/// where none did.
#[derive(Drop)]
pub(crate) struct Folded {
    pub(crate) value: i64,
    pub(crate) changed: u32,
}

/// What so many elements of the window from a position on come to, from a start on, and how many of
/// them stand before the last block that changed it. They are numbers of the window's type.
pub(crate) fn fold_changes<F: Folding>(
    a: &Strided<'_>,
    first: u32,
    count: u32,
    start: i64,
    block: &mut [i64],
) -> Folded
    requires within { first + count ≤ length a.now.elems }
    requires small { length a.now.elems ≤ extent_limit }
    requires room { 0 < count → 0 < length block.old }
    ensures value { result.value ≡ fold F.taken start (take count (drop first a.now.elems)) }
    ensures changed { 0 < result.changed →
        fold F.taken start (take result.changed (drop first a.now.elems)) ≢ result.value }
    ensures bound { result.changed ≤ count }
    ensures in_range { All (InRange a.now.ty) (take count (drop first a.now.elems)) }
{
    let count = count as usize;
    let mut so_far = start;
    let mut changed = 0;
    let mut done = 0;
    while done < count {
        let run = block.len().min(count - done);
        let next = fold_part::<F>(a, first + done as u32, so_far, &mut block[..run]);
        if next != so_far {
            changed = done as u32;
        }
        so_far = next;
        done += run;
    }
    Folded {
        value: so_far,
        changed,
    }
}

/// What so many elements of the window from a position on come to, from a start on. They are
/// numbers of the window's type.
pub(crate) fn fold_window<F: Folding>(
    a: &Strided<'_>,
    first: u32,
    count: u32,
    start: i64,
    block: &mut [i64],
) -> i64
    requires within { first + count ≤ length a.now.elems }
    requires small { length a.now.elems ≤ extent_limit }
    requires room { 0 < count → 0 < length block.old }
    ensures value { result ≡ fold F.taken start (take count (drop first a.now.elems)) }
    ensures in_range { All (InRange a.now.ty) (take count (drop first a.now.elems)) }
{
    fold_changes::<F>(a, first, count, start, block).value
}

/// The first place of a number among the window's elements from a position on, as many as the part
/// has room for.
fn find_part(a: &Strided<'_>, first: u32, number: i64, part: &mut [i64]) -> Option<usize>
    requires { first + length part.old ≤ length a.now.elems }
    ensures { let xs = take (length part.old) (drop first a.now.elems) in
        result ≡ position (λ x. int_eq x number) xs }
{
    strided_read(a, first, part);
    part.iter().position(|x| *x == number)
}

/// The first place of a number among so many elements of the window from a position on, and 0 where
/// it isn't among them.
pub(crate) fn find_in_window(
    a: &Strided<'_>,
    first: u32,
    count: u32,
    number: i64,
    block: &mut [i64],
) -> u32
    requires within { first + count ≤ length a.now.elems }
    requires small { length a.now.elems ≤ extent_limit }
    requires room { 0 < count → 0 < length block.old }
    ensures place { result ≡ first_place number (take count (drop first a.now.elems)) }
    ensures bound { result ≤ count }
{
    let count = count as usize;
    let mut done = 0;
    while done < count {
        let run = block.len().min(count - done);
        let found = find_part(a, first + done as u32, number, &mut block[..run]);
        if let Some(place) = found {
            return (done + place) as u32;
        }
        done += run;
    }
    0
}

/// Puts what the window's elements from a position on, as many as the part has room for, come to
/// up to each of them, after those before them, wrapped to the type of what is made: straight from
/// the buffer where they are neighbours of that type. It answers what all come to.
fn run_part<F: Folding>(
    a: &Strided<'_>,
    first: u32,
    start: i64,
    part: &mut [i64],
    made: &mut Collected,
) -> Result<i64, AllocError>
    requires { first + length part.old ≤ length a.now.elems }
    ensures value { let xs = take (length part.old) (drop first a.now.elems) in
        IfOk result (λ end. end ≡ fold F.taken start xs) }
    ensures prefixes { let xs = take (length part.old) (drop first a.now.elems) in
        let new = wrapped_prefixes made.old.ty F.taken start xs in
        OnOk result (made.new.elems ≡ made.old.elems ++ new) }
    ensures typed { OnOk result (made.new.ty ≡ made.old.ty) }
{
    if part.len() > FEW && strided_type(a) == made.ty() {
        let run = strided_run(a, first);
        if part.len() <= run.len() {
            return made.extend_prefixes_of::<F>(start, &run.first(part.len()));
        }
    }
    strided_read(a, first, part);
    made.extend_prefixes::<F>(start, part)
}

/// Puts what the elements up to each place come to, wrapped to the type of what is made: those of
/// so many elements of the window from a position on.
pub(crate) fn run_window<F: Folding>(
    a: &Strided<'_>,
    first: u32,
    count: u32,
    start: i64,
    block: &mut [i64],
    made: &mut Collected,
) -> Result<(), AllocError>
    requires within { first + count ≤ length a.now.elems }
    requires small { length a.now.elems ≤ extent_limit }
    requires room { 0 < count → 0 < length block.old }
    ensures value { let xs = take count (drop first a.now.elems) in
        let new = wrapped_prefixes made.old.ty F.taken start xs in
        OnOk result (made.new.elems ≡ made.old.elems ++ new) }
    ensures typed { OnOk result (made.new.ty ≡ made.old.ty) }
{
    prefix_laws();
    let count = count as usize;
    let mut so_far = start;
    let mut done = 0;
    while done < count {
        let run = block.len().min(count - done);
        let position = first + done as u32;
        so_far = run_part::<F>(a, position, so_far, &mut block[..run], made)?;
        done += run;
    }
    Ok(())
}

/// Whether none of the window's elements from a position on is 0, as many as the part has room for.
fn all_in_part(a: &Strided<'_>, first: u32, part: &mut [i64]) -> bool
    requires { first + length part.old ≤ length a.now.elems }
    ensures { result ≡ list_all is_set (take (length part.old) (drop first a.now.elems)) }
{
    strided_read(a, first, part);
    part.iter().all(|x| *x != 0)
}

/// Whether none of the window's elements, of which there are so many, is 0.
pub(crate) fn all_set(a: &Strided<'_>, count: u32, block: &mut [i64]) -> bool
    requires count { count ≡ length a.now.elems }
    requires room { 0 < count → 0 < length block.old }
    ensures { result ≡ list_all is_set a.now.elems }
{
    let count = count as usize;
    let mut done = 0;
    while done < count {
        let run = block.len().min(count - done);
        if !all_in_part(a, done as u32, &mut block[..run]) {
            return false;
        }
        done += run;
    }
    true
}

/// Whether some of the window's elements from a position on isn't 0, as many as the part has room
/// for.
fn any_in_part(a: &Strided<'_>, first: u32, part: &mut [i64]) -> bool
    requires { first + length part.old ≤ length a.now.elems }
    ensures { result ≡ list_any is_set (take (length part.old) (drop first a.now.elems)) }
{
    strided_read(a, first, part);
    part.iter().any(|x| *x != 0)
}

/// Whether some of the window's elements, of which there are so many, isn't 0.
pub(crate) fn any_set(a: &Strided<'_>, count: u32, block: &mut [i64]) -> bool
    requires count { count ≡ length a.now.elems }
    requires room { 0 < count → 0 < length block.old }
    ensures { result ≡ list_any is_set a.now.elems }
{
    let count = count as usize;
    let mut done = 0;
    while done < count {
        let run = block.len().min(count - done);
        if any_in_part(a, done as u32, &mut block[..run]) {
            return true;
        }
        done += run;
    }
    false
}
