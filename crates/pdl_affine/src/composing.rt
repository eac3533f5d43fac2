//! The triple that shows a view over the base of its parent (PDL::API, affine transformations).
ghost use Rattle.std.specs.Prelude.{◌≡◌, ◌<◌, ◌≤◌, ◌*◌, ◌^◌, ◌+◌, ◌+ℤ◌, ◌*ℤ◌, pos, ℕ, map, length, unsigned_abs, slice_index, if◌then◌else◌, ◌==◌, IfSome};
ghost use Rattle.std.specs.List.{range_with_len};
ghost use Rattle.pdl_shape.specs.Shape.{dims_limit, extent_limit};
ghost use Rattle.pdl_shape.specs.Triple.{IsTriple};
ghost use Rattle.pdl_affine.specs.Views.{sizes};
ghost use Rattle.pdl_affine.specs.Windows.{windowed, triple_showing, Shows, LiesIn, form_place};
ghost use Rattle.pdl_affine.specs.Courses.{seen_form, IsSound, IsStraight, begun, gathered, counted_incs};

use crate::clumping::clump;
use crate::counting::{counted_offset, counting};
use crate::courses::list_courses;
use crate::forms::{Course, Form};
use pdl_shape::{Dims, MOST_DIMS, Triple, dims_list, incs_list, shape_laws, triple_of};
use smallvec::SmallVec;
use std::alloc::Global;

/// An increment so many times.
fn times(inc: i32, count: i64) -> i128
    requires { unsigned_abs count < 2 ^ 32 }
    ensures value { result ≡ inc *ℤ count }
    ensures small { unsigned_abs result ≤ 2 ^ 63 }
{
    i128::from(inc) * i128::from(count)
}

fn sum(a: i128, b: i128) -> i128
    requires first { unsigned_abs a ≤ 2 ^ 63 }
    requires second { unsigned_abs b ≤ 2 ^ 68 }
    ensures value { result ≡ a +ℤ b }
    ensures small { unsigned_abs result ≤ unsigned_abs b + 2 ^ 63 }
{
    a + b
}

/// The place of the first element, less the parent's offset.
fn begun(incs: &[i32], courses: &[Course]) -> i128
    requires { length incs.now ≤ dims_limit }
    ensures value { result ≡ begun incs.now courses.now }
    ensures small { unsigned_abs result ≤ length incs.now * 2 ^ 63 }
{
    match incs {
        [] => 0,
        [inc, incs @ ..] => match courses {
            [] => 0,
            [course, courses @ ..] => {
                let rest = begun(incs, courses);
                sum(times(*inc, i64::from(course.first)), rest)
            }
        },
    }
}

/// How far the place moves with one step along a dimension of the view.
fn gathered(incs: &[i32], courses: &[Course], dimension: usize) -> i128
    requires { length incs.now ≤ dims_limit }
    ensures value { result ≡ gathered incs.now courses.now dimension }
    ensures small { unsigned_abs result ≤ length incs.now * 2 ^ 63 }
{
    match incs {
        [] => 0,
        [inc, incs @ ..] => match courses {
            [] => 0,
            [course, courses @ ..] => {
                let rest = gathered(incs, courses, dimension);
                let step = step_along(*course, dimension);
                sum(times(*inc, i64::from(step)), rest)
            }
        },
    }
}

/// The step of a course along a dimension of the view.
fn step_along(course: Course, dimension: usize) -> i32
    ensures { result ≡ (if course.along == dimension then course.step else pos 0) }
{
    if course.along == dimension {
        course.step
    } else {
        0
    }
}

/// The increments of a view over its parent's.
fn counted_incs(
    alloc: Global,
    over: &Triple,
    courses: &[Course],
    dims: &Dims,
) -> SmallVec<i32, MOST_DIMS>
    requires narrow { (i : ℕ) → i < length dims.now → 1 < slice_index dims.now i →
        unsigned_abs (gathered over.now.incs courses.now i) < extent_limit }
    ensures { let moves = map (gathered over.now.incs courses.now)
        (range_with_len 0 (length dims.now)) in
        result.items ≡ counted_incs moves dims.now }
{
    let incs = incs_of(over);
    let sizes = dims_list(dims);
    let mut made = SmallVec::new(alloc);
    for (dimension, size) in sizes.iter().enumerate() {
        made.push_reserved(counting(gathered(incs, courses, dimension), *size));
    }
    made
}

/// The increments of a triple.
pub fn incs_of(over: &Triple) -> &[i32]
    ensures list { result.now ≡ over.now.incs }
    ensures limit { length result.now ≤ dims_limit }
    ensures triple { IsTriple over.now }
{
    incs_list(&over.incs)
}

/// The place of the first element of a view.
fn first_place(over: &Triple, courses: &[Course]) -> i128
    ensures value { result ≡ pos over.now.offset +ℤ begun over.now.incs courses.now }
    ensures triple { IsTriple over.now }
{
    let begun = begun(incs_of(over), courses);
    i128::from(over.offset) + begun
}

/// The triple that shows a view that is no clump.
fn straight(alloc: Global, form: &Form, dims: &Dims, over: &Triple) -> Triple
    requires sound { IsSound (seen_form form.now) over.now.dims }
    requires straight { IsStraight (seen_form form.now) }
    requires sized { dims.now ≡ sizes (seen_form form.now) over.now.dims }
    ensures shown { result ≡ triple_showing (form_place (seen_form form.now) over.now) dims.now }
    ensures shows { Shows result (form_place (seen_form form.now) over.now) }
    ensures inside { LiesIn result over.now }
{
    shape_laws();
    let mut courses = SmallVec::new(alloc);
    list_courses(form, &over.dims, &mut courses);
    let place = first_place(over, courses.as_slice());
    let incs = counted_incs(alloc, over, courses.as_slice(), dims);
    triple_of(alloc, counted_offset(place, dims), incs.as_slice(), dims)
}

/// The triple that shows a view of these dimensions, or `None` for a clump that doesn't join.
pub fn window(alloc: Global, form: &Form, dims: &Dims, over: &Triple) -> Option<Triple>
    requires sound { IsSound (seen_form form.now) over.now.dims }
    requires sized { dims.now ≡ sizes (seen_form form.now) over.now.dims }
    ensures window { result ≡ windowed (seen_form form.now) over.now }
    ensures shows { let place = form_place (seen_form form.now) over.now in
        IfSome result (λ triple. Shows triple place) }
    ensures inside { IfSome result (λ triple. LiesIn triple over.now) }
{
    match form {
        Form::Clumped(count) => clump(alloc, *count, dims, over),
        _ => Some(straight(alloc, form, dims, over)),
    }
}
