//! Slice arguments in square brackets, written as in slice texts.
ghost use Rattle.std.specs.Prelude.{◌≡◌, IsTrue, IfSome};
ghost use Rattle.std.specs.List.{list_all};
ghost use Rattle.pdl_affine.specs.Views.{steps_on};

use crate::cursor::Cursor;
use pdl_slices::{SliceArg, SliceArgs};

// The argument of a place alone: `N)`, of which the parenthesis before it has been taken.
fn dropped(line: &mut Cursor<'_>) -> Option<SliceArg> {
    let place = i32::try_from(line.number()?).ok()?;
    line.expect(b')')?;
    Some(SliceArg::Dropped(place))
}

fn dummy(line: &mut Cursor<'_>) -> Option<SliceArg> {
    let size = u32::try_from(line.number().unwrap_or(1)).ok()?;
    Some(SliceArg::Dummy(size))
}

// A place or a step, which may be left out.
fn small(line: &mut Cursor<'_>) -> Option<Option<i32>> {
    match line.number() {
        Some(number) => Some(Some(i32::try_from(number).ok()?)),
        None => Some(None),
    }
}

fn argument(line: &mut Cursor<'_>) -> Option<SliceArg> {
    if line.takes(b'(') {
        return dropped(line);
    }
    if line.takes(b'*') {
        return dummy(line);
    }
    let from = small(line)?;
    if line.takes(b':') {
        span(line, from)
    } else {
        Some(SliceArg::One(from?))
    }
}

// What stands behind the first `:`.
fn span(line: &mut Cursor<'_>, from: Option<i32>) -> Option<SliceArg> {
    let to = small(line)?;
    let step = if line.takes(b':') { small(line)? } else { None };
    Some(if from.is_none() && to.is_none() && step.is_none() {
        SliceArg::Whole
    } else {
        SliceArg::Span { from, to, step }
    })
}

// The span has a step that isn't 0.
fn has_step(arg: &SliceArg) -> bool
    ensures { result ≡ steps_on arg.now }
{
    !matches!(arg, SliceArg::Span { step: Some(0), .. })
}

fn have_steps(args: &[SliceArg]) -> bool
    ensures { result ≡ list_all steps_on args.now }
{
    args.iter().all(|arg| has_step(arg))
}

fn read_arguments(line: &mut Cursor<'_>, args: &mut SliceArgs) -> Option<()> {
    if line.takes(b']') {
        return Some(());
    }
    for _ in 0..64 {
        args.push(argument(line)?).ok()?;
        if line.takes(b']') {
            return Some(());
        }
        line.expect(b',')?;
    }
    None
}

fn listed(line: &mut Cursor<'_>) -> Option<SliceArgs> {
    let mut args = SliceArgs::new(line.alloc);
    read_arguments(line, &mut args)?;
    Some(args)
}

/// The arguments that a line has next. No span has the step 0.
pub fn arguments(line: &mut Cursor<'_>) -> Option<SliceArgs>
    ensures { IfSome result (λ args. IsTrue (list_all steps_on args)) }
{
    line.expect(b'[')?;
    let args = listed(line)?;
    if have_steps(args.as_slice()) {
        Some(args)
    } else {
        None
    }
}
