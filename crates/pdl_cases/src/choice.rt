//! Views that pick places of their parent one by one. The answer is the view's dimensions and
//! places, `-` standing for none, or the refusal.
//!
//! `index [SIZES] by [SIZES]: VALUES => [SIZES]: PLACES`
//! `range [SIZES] by [SIZES]: VALUES sizes SIZES edge EDGE => ..`
//! `where [SIZES] mask [SIZES]: VALUES => ..`
//! `clump_list [SIZES] by COUNT => ..`
//! `which VALUES => PLACES`

ghost use Rattle.std.specs.Prelude.{◌≡◌, IfSome, IsTrue, length};
ghost use Rattle.pdl_choice.specs.Where.{rises};
ghost use Rattle.pdl_shape.specs.Shape.{size_of};

use crate::answer::Answer;
use crate::cursor::Cursor;
use pdl_choice::{Choice, Edge, Positions, clump_list, index, range, where_places, which_places};
use pdl_shape::{Dims, dims_list, dims_of, elements_of};
use std::alloc::Global;
use std::fmt::Debug;

fn say_choice<F: Debug>(answer: &mut Answer, chosen: &Result<Choice, F>) {
    match chosen {
        Ok(choice) => {
            answer.list(dims_list(&choice.dims));
            answer.say(":");
            say_places(answer, choice.places.as_slice());
        }
        Err(fault) => answer.debug(fault),
    }
}

fn say_places(answer: &mut Answer, places: &[Option<u32>]) {
    for place in places {
        match place {
            Some(place) => answer.tell(" ", place),
            None => answer.say(" -"),
        }
    }
}

/// The dimensions that a line has next.
pub fn dims(line: &mut Cursor<'_>) -> Option<Dims> {
    let sizes = line.sizes()?;
    dims_of(line.alloc, &sizes).ok()
}

/// The elements of an array.
pub fn elements(line: &mut Cursor<'_>) -> Option<Vec<i64>> {
    line.expect(b':')?;
    line.numbers()
}

/// Dimensions, and as many numbers as these say.
#[derive(Drop)]
pub struct Values {
    pub dims: Dims,
    pub numbers: Vec<i64>,
}

/// The dimensions that a line has next, and numbers.
pub fn read_values(line: &mut Cursor<'_>) -> Option<Values>
    ensures { IfSome result (λ values. length values.numbers.items ≡ size_of values.dims) }
{
    let dims = dims(line)?;
    let numbers = counted(line, elements_of(&dims))?;
    Some(Values { dims, numbers })
}

// Elements, as many as these.
fn counted(line: &mut Cursor<'_>, count: u32) -> Option<Vec<i64>>
    ensures { IfSome result (λ numbers. length numbers.items ≡ count) }
{
    let numbers = elements(line)?;
    if numbers.len() == count as usize {
        Some(numbers)
    } else {
        None
    }
}

const EDGES: &[(&str, Edge)] = &[
    ("Refuse", Edge::Refuse),
    ("Zero", Edge::Zero),
    ("Nearest", Edge::Nearest),
    ("Periodic", Edge::Periodic),
];

// The dimensions of a parent, and this word behind them.
fn parent(line: &mut Cursor<'_>, word: &str) -> Option<Dims> {
    let parent = dims(line)?;
    line.expect_word(word)?;
    Some(parent)
}

/// The places of an `index`.
pub fn index_answer(line: &mut Cursor<'_>, answer: &mut Answer) -> Option<()> {
    let parent = parent(line, "by")?;
    let by = read_values(line)?;
    say_choice(answer, &index(line.alloc, &parent, &by.dims, &by.numbers));
    Some(())
}

/// The sizes of windows, and what stands beyond the edges.
pub fn sizes_and_edge(line: &mut Cursor<'_>) -> Option<(Vec<i64>, Edge)> {
    line.expect_word("sizes")?;
    let sizes = line.numbers()?;
    let edge = edge(line)?;
    Some((sizes, edge))
}

fn edge(line: &mut Cursor<'_>) -> Option<Edge> {
    line.expect_word("edge")?;
    line.named(EDGES)
}

/// The places of a `range`.
pub fn range_answer(line: &mut Cursor<'_>, answer: &mut Answer) -> Option<()> {
    let parent = parent(line, "by")?;
    let by = read_values(line)?;
    say_range(line, &parent, &by, answer)
}

fn say_range(line: &mut Cursor<'_>, parent: &Dims, by: &Values, answer: &mut Answer) -> Option<()>
    requires { length by.now.numbers.items ≡ size_of by.now.dims }
{
    let (sizes, edge) = sizes_and_edge(line)?;
    let chosen = range(line.alloc, parent, &by.dims, &by.numbers, &sizes, edge);
    say_choice(answer, &chosen);
    Some(())
}

/// The places of a `where`.
pub fn where_answer(line: &mut Cursor<'_>, answer: &mut Answer) -> Option<()> {
    let parent = parent(line, "mask")?;
    let mask = read_values(line)?;
    let chosen = where_places(line.alloc, &parent, &mask.dims, &mask.numbers);
    say_choice(answer, &chosen);
    Some(())
}

/// The places of a clump that is no window.
pub fn clump_answer(line: &mut Cursor<'_>, answer: &mut Answer) -> Option<()> {
    let parent = parent(line, "by")?;
    let count = line.number()?;
    say_choice(answer, &clump_list(line.alloc, &parent, count));
    Some(())
}

/// The places of the numbers that aren't 0.
pub fn places(alloc: Global, mask: &[i64]) -> Option<Positions>
    ensures { IfSome result (λ places. IsTrue (rises 0 (length mask.now) places)) }
{
    if mask.len() > 1_000_000 {
        return None;
    }
    match which_places(alloc, mask) {
        Ok(places) => Some(places),
        Err(_) => None,
    }
}

/// The same as an answer.
pub fn which_answer(line: &mut Cursor<'_>, answer: &mut Answer) -> Option<()> {
    let mask = line.numbers()?;
    let places = places(line.alloc, &mask)?;
    answer.all(places.as_slice());
    Some(())
}
