//! The parent's coordinate along each of its dimensions, for coordinates of a view.
ghost use Rattle.std.specs.Prelude.{◌≡◌, [], ◌<◌, ◌≤◌, ◌+◌, ◌-◌, ◌||◌, ◌==◌, ◌^◌, not, pos, slice_index, length, take, count_by, position, unwrap_or, if◌then◌else◌, nat_lt};
ghost use Rattle.pdl_shape.specs.Shape.{dims_limit};
ghost use Rattle.pdl_affine.specs.Courses.{seen_form, lines_of_taken, IsSound, IsStraight, IsCourse, AreCourses, course_at, full_course, still, exchanged_to, past, shifted_to, diagonal_to, squeezed_to};
ghost use Rattle.pdl_affine.specs.Views.{kept_dims, lists, lowest_of};

use crate::forms::{Course, Form, Taken};
use crate::resolving::lists;
use crate::sizing::{is_kept, lowest_of};
use pdl_shape::{Dims, MOST_DIMS, dims_list, shape_laws};
use smallvec::SmallVec;

/// Lists the course of each dimension of the parent, dimension 0 first, where none is listed yet.
pub fn list_courses(form: &Form, parent: &Dims, courses: &mut SmallVec<Course, MOST_DIMS>)
    requires sound { IsSound (seen_form form.now) parent.now }
    requires straight { IsStraight (seen_form form.now) }
    requires empty { courses.old.items ≡ [] }
    requires room { courses.old.capacity ≡ dims_limit }
    ensures { AreCourses (seen_form form.now) parent.now courses.new.items }
{
    let sizes = dims_list(parent);
    for dimension in 0..sizes.len() {
        courses.push_reserved(course(form, sizes, dimension));
    }
}

/// How one dimension of the parent runs along the view. It is asked for each of them in order.
fn course(form: &Form, parent: &[u32], dimension: usize) -> Course
    requires short { length parent.now ≤ dims_limit }
    requires inside { dimension < length parent.now }
    requires sound { IsSound (seen_form form.now) parent.now }
    requires straight { IsStraight (seen_form form.now) }
    ensures { IsCourse (seen_form form.now) parent.now dimension result }
{
    shape_laws();
    match form {
        Form::Sliced(taken) => sliced(taken, dimension, 0),
        Form::Exchanged(a, b) => full_course(exchanged(*a, *b, dimension)),
        Form::Shifted(a, b) => full_course(shifted(*a, *b, dimension)),
        Form::Arranged(order) => full_course(arranged(order, dimension)),
        Form::Inserted { place, .. } => full_course(past(*place, dimension)),
        Form::Diagonal(listed) => full_course(diagonal_to(listed, dimension)),
        Form::Squeezed => squeezed(parent, dimension),
        Form::Clumped(_) => full_course(dimension),
    }
}

/// All of a dimension, by that of the view.
fn full_course(along: usize) -> Course
    ensures { result ≡ full_course along }
{
    Course {
        first: 0,
        step: 1,
        along,
    }
}

/// One element of a dimension.
fn still(first: u32) -> Course
    ensures { result ≡ still first }
{
    Course {
        first,
        step: 0,
        along: 0,
    }
}

fn exchanged(a: usize, b: usize, dimension: usize) -> usize
    ensures { result ≡ exchanged_to a b dimension }
{
    if dimension == a {
        b
    } else if dimension == b {
        a
    } else {
        dimension
    }
}

/// The place after one is put in.
fn past(place: usize, dimension: usize) -> usize
    requires { dimension < 2 ^ 60 }
    ensures { result ≡ past place dimension }
{
    if dimension < place {
        dimension
    } else {
        dimension + 1
    }
}

fn shifted(a: usize, b: usize, dimension: usize) -> usize
    requires { dimension < 2 ^ 60 }
    ensures { result ≡ shifted_to a b dimension }
{
    if dimension == a {
        b
    } else {
        let rest = if dimension < a {
            dimension
        } else {
            dimension - 1
        };
        past(b, rest)
    }
}

fn place_in(order: &[usize], dimension: usize) -> Option<usize>
    ensures { result ≡ position (λ j. j == dimension) order.now }
{
    order.iter().position(|other| *other == dimension)
}

fn arranged(order: &[usize], dimension: usize) -> usize
    ensures { result ≡ unwrap_or (position (λ j. j == dimension) order.now) 0 }
{
    match place_in(order, dimension) {
        Some(place) => place,
        None => 0,
    }
}

fn diagonal_to(listed: &[usize], dimension: usize) -> usize
    ensures { result ≡ diagonal_to listed.now dimension }
{
    let kept = if lists(listed, dimension) {
        lowest_of(listed)
    } else {
        dimension
    };
    kept_before(listed, kept)
}

/// How many of the dimensions before one a diagonal keeps.
fn kept_before(listed: &[usize], dimension: usize) -> usize
    ensures { result ≡ length (kept_dims listed.now dimension) }
{
    let mut count = 0;
    for place in 0..dimension {
        if is_kept(listed, place) {
            count += 1;
        }
    }
    count
}

/// How many of the sizes before one aren't 1.
fn squeezed_to(parent: &[u32], dimension: usize) -> usize
    requires { dimension ≤ length parent.now }
    ensures { result ≡ squeezed_to parent.now dimension }
{
    parent[..dimension]
        .iter()
        .filter(|size| **size != 1)
        .count()
}

fn squeezed(parent: &[u32], dimension: usize) -> Course
    requires { dimension < length parent.now }
    ensures { result ≡ (if slice_index parent.now dimension == 1 then still 0
        else full_course (squeezed_to parent.now dimension)) }
{
    if parent[dimension] == 1 {
        still(0)
    } else {
        full_course(squeezed_to(parent, dimension))
    }
}

/// The course of a dimension that slice arguments take, before `along` dimensions of the view.
fn sliced(taken: &[Taken], dimension: usize, along: usize) -> Course
    requires { along + length taken.now < 2 ^ 64 }
    ensures { result ≡ course_at (lines_of_taken taken.now) dimension along }
{
    match taken {
        [] => still(0),
        [Taken::Added { .. }, rest @ ..] => sliced(rest, dimension, along + 1),
        [Taken::Lost { first }, rest @ ..] => {
            if dimension == 0 {
                still(*first)
            } else {
                sliced(rest, dimension - 1, along)
            }
        }
        [Taken::Kept { first, step, .. }, rest @ ..] => {
            if dimension == 0 {
                Course {
                    first: *first,
                    step: *step,
                    along,
                }
            } else {
                sliced(rest, dimension - 1, along + 1)
            }
        }
    }
}
