//! Affine views. Each is a list of transformations with `then` between them:
//! `xchg A B`, `mv A B`, `reorder NUMBERS`, `dummy PLACE SIZE`, `diagonal NUMBERS`, `squeeze`,
//! `clump COUNT`, `slice [ARGUMENTS]` with the arguments written as in slice texts.
//!
//! `plan [SIZES] VIEW => [SIZES]`: the view's dimensions, or the refusal.
//! `window [SIZES] VIEW => OFFSET [INCREMENTS] [SIZES]`: how the view is shown over an array in
//! order.
ghost use Rattle.std.specs.Prelude.{◌≡◌, IsTrue, IfSome};
ghost use Rattle.pdl_affine.specs.Views.{is_well_formed};

use crate::answer::Answer;
use crate::arguments::arguments;
use crate::choice::dims;
use crate::cursor::Cursor;
use pdl_affine::{Affine, AffinePlan, Numbers, compose, plan, plan_dims};
use pdl_shape::{Dims, Triple, dims_list, incs_list, whole_triple};

fn listed(line: &mut Cursor<'_>) -> Option<Numbers> {
    Some(Numbers::new(line.numbers()?))
}

fn diagonal(line: &mut Cursor<'_>) -> Option<Affine>
    ensures { IfSome result (λ trans. IsTrue (is_well_formed trans)) }
{
    let listed = listed(line)?;
    if listed.as_slice().is_empty() {
        return None;
    }
    Some(Affine::Diagonal(listed))
}

// The kinds of transformations.
#[derive(Clone, Copy)]
enum Kind {
    Xchg,
    Mv,
    Reorder,
    Dummy,
    Diagonal,
    Squeeze,
    Clump,
    Slice,
}

const KINDS: &[(&str, Kind)] = &[
    ("xchg", Kind::Xchg),
    ("mv", Kind::Mv),
    ("reorder", Kind::Reorder),
    ("dummy", Kind::Dummy),
    ("diagonal", Kind::Diagonal),
    ("squeeze", Kind::Squeeze),
    ("clump", Kind::Clump),
    ("slice", Kind::Slice),
];

/// The transformation that a line has next.
pub fn transformation(line: &mut Cursor<'_>) -> Option<Affine>
    ensures { IfSome result (λ trans. IsTrue (is_well_formed trans)) }
{
    match line.named(KINDS)? {
        Kind::Xchg => Some(Affine::Xchg(line.number()?, line.number()?)),
        Kind::Mv => Some(Affine::Mv(line.number()?, line.number()?)),
        Kind::Reorder => Some(Affine::Reorder(listed(line)?)),
        Kind::Dummy => Some(Affine::Dummy {
            place: line.number()?,
            size: line.number()?,
        }),
        Kind::Diagonal => diagonal(line),
        Kind::Squeeze => Some(Affine::Squeeze),
        Kind::Clump => Some(Affine::Clump(line.number()?)),
        Kind::Slice => Some(Affine::Slice(arguments(line)?)),
    }
}

/// The dimensions of a view.
pub fn plan_answer(line: &mut Cursor<'_>, answer: &mut Answer) -> Option<()> {
    let parent = dims(line)?;
    say_planned(line, &parent, answer)
}

// The dimensions of a line's next transformation of a parent.
fn say_planned(line: &mut Cursor<'_>, parent: &Dims, answer: &mut Answer) -> Option<()> {
    let trans = transformation(line)?;
    match plan(line.alloc, &trans, parent) {
        Ok(plan) => answer.list(dims_list(plan_dims(&plan))),
        Err(fault) => answer.debug(&fault),
    }
    Some(())
}

// Takes one transformation more over this window, and answers whether there is a window; says why
// there is none.
fn take_next(line: &mut Cursor<'_>, shown: &mut Triple, answer: &mut Answer) -> Option<bool> {
    let trans = transformation(line)?;
    match plan(line.alloc, &trans, &shown.dims) {
        Ok(plan) => Some(show_over(&plan, shown, answer)),
        Err(fault) => {
            answer.debug(&fault);
            Some(false)
        }
    }
}

// The same of a plan.
fn show_over(plan: &AffinePlan, shown: &mut Triple, answer: &mut Answer) -> bool
    requires { shown.old.dims ≡ plan.now.parent }
{
    match compose(answer.alloc, plan, shown) {
        Some(next) => {
            *shown = next;
            true
        }
        None => {
            answer.say("no window");
            false
        }
    }
}

fn say_window(answer: &mut Answer, shown: &Triple) {
    answer.show(&shown.offset);
    answer.say(" ");
    answer.list(incs_list(&shown.incs));
    answer.say(" ");
    answer.list(dims_list(&shown.dims));
}

/// The window of a view.
pub fn window_answer(line: &mut Cursor<'_>, answer: &mut Answer) -> Option<()> {
    let mut shown = whole(line)?;
    say_window_over(line, &mut shown, answer)
}

// The window of a line's whole array.
fn whole(line: &mut Cursor<'_>) -> Option<Triple> {
    let dims = dims(line)?;
    Some(whole_triple(line.alloc, &dims))
}

// The window of a line's transformations over this one.
fn say_window_over(line: &mut Cursor<'_>, shown: &mut Triple, answer: &mut Answer) -> Option<()> {
    for _ in 0..16 {
        if !take_next(line, shown, answer)? {
            return Some(());
        }
        if !line.takes_word("then") {
            say_window(answer, shown);
            return Some(());
        }
    }
    None
}
