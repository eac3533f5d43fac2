//! What slice arguments take of each dimension (PDL::Slices).
ghost use Rattle.std.specs.Prelude.{◌≡◌, ◌<◌, ◌≤◌, ◌^◌, length, map, option_map, Some, IfOk, IfErr, IfSome, OnOk, pos, ◌++◌, ◌∷◌, [], IsTrue, None, ◌≢◌, take, drop, ℕ, List};
ghost use Rattle.pdl_shape.specs.Counting.{from_end};
ghost use Rattle.pdl_shape.specs.Refusals.{out_of_range};
ghost use Rattle.pdl_affine.specs.Slicing.{end_of, kept, span_line, falls, is_step, spanned, line_of, lines_of};
ghost use Rattle.pdl_affine.specs.Courses.{line_of_taken, lines_of_taken, size_for, sizes_after, AreSmall, wholes};
ghost use Rattle.pdl_affine.specs.Views.{refusal_of, steps_on};
ghost use Rattle.std.specs.List.{list_all};

use crate::PlanFault;
use crate::forms::Taken;
use crate::putting::put;
use pdl_shape::from_end;
use pdl_slices::SliceArg;
use std::alloc::{AllocError, Global};

/// The coordinate along a dimension of this size that a number stands for.
fn coordinate_of(number: i32, size: u32) -> Option<u32>
    ensures { result ≡ from_end number size }
{
    match from_end(i64::from(number), size as usize) {
        Some(place) => Some(place as u32),
        None => None,
    }
}

fn end_of(number: Option<i32>, missing: u32, size: u32) -> Option<u32>
    ensures { result ≡ end_of number missing size }
{
    match number {
        None => Some(missing),
        Some(number) => coordinate_of(number, size),
    }
}

/// The whole of a dimension of this size.
fn all_of(size: u32) -> Taken
    ensures { line_of_taken result ≡ kept 0 (pos 1) size }
{
    Taken::Kept {
        first: 0,
        step: 1,
        size,
    }
}

/// The elements from one to another, both included.
fn span_line(from: u32, to: u32, step: Option<i32>) -> Taken
    requires from_in { from < 2 ^ 31 }
    requires to_in { to < 2 ^ 31 }
    requires moves { IsTrue (is_step step) }
    ensures { line_of_taken result ≡ span_line from to step }
{
    let far = from.abs_diff(to);
    match step {
        None => {
            let step = if from <= to { 1 } else { -1 };
            Taken::Kept {
                first: from,
                step,
                size: far + 1,
            }
        }
        Some(step) => {
            let leads = if step >= 0 { from <= to } else { to <= from };
            let size = if leads {
                far / step.unsigned_abs() + 1
            } else {
                0
            };
            Taken::Kept {
                first: from,
                step,
                size,
            }
        }
    }
}

fn falls(step: Option<i32>) -> bool
    ensures { result ≡ falls step }
{
    matches!(step, Some(step) if step < 0)
}

fn spanned(from: Option<i32>, to: Option<i32>, step: Option<i32>, size: u32) -> Option<Taken>
    requires small { size < 2 ^ 31 }
    requires moves { IsTrue (is_step step) }
    ensures { option_map line_of_taken result ≡ spanned from to step size }
{
    if from.is_none() && to.is_none() && size == 0 {
        return Some(all_of(0));
    }
    let last = size.saturating_sub(1);
    let (low, high) = if falls(step) { (last, 0) } else { (0, last) };
    let from = end_of(from, low, size)?;
    let to = end_of(to, high, size)?;
    Some(span_line(from, to, step))
}

/// What an argument takes of a dimension of this size, if its numbers are in range.
fn line_of(arg: SliceArg, size: u32) -> Option<Taken>
    requires small { size < 2 ^ 31 }
    requires moves { IsTrue (steps_on arg) }
    ensures { option_map line_of_taken result ≡ line_of arg size }
{
    match arg {
        SliceArg::Whole => Some(all_of(size)),
        SliceArg::One(number) => {
            let first = coordinate_of(number, size)?;
            Some(Taken::Kept {
                first,
                step: 1,
                size: 1,
            })
        }
        SliceArg::Dropped(number) => {
            let first = coordinate_of(number, size)?;
            Some(Taken::Lost { first })
        }
        SliceArg::Dummy(size) => Some(Taken::Added { size }),
        SliceArg::Span { from, to, step } => spanned(from, to, step, size),
    }
}

/// The size that an argument takes, which is 1 past the last, and the sizes that are left.
fn size_for<'a>(arg: &SliceArg, sizes: &'a [u32]) -> (u32, &'a [u32])
    ensures first { result.0 ≡ size_for arg.now sizes.now }
    ensures rest { result.1.now ≡ sizes_after arg.now sizes.now }
{
    match (arg, sizes) {
        (SliceArg::Dummy(_), _) | (_, []) => (1, sizes),
        (_, [size, rest @ ..]) => (*size, rest),
    }
}

/// What the arguments, and then the dimensions without an argument, take.
pub fn taken_of(alloc: Global, args: &[SliceArg], parent: &[u32]) -> Result<Vec<Taken>, PlanFault>
    requires small { AreSmall parent.now }
    requires moves { IsTrue (list_all steps_on args.now) }
    ensures ok { IfOk result (λ ts. lines_of args.now parent.now ≡ Some (lines_of_taken ts.items)) }
    ensures err { IfErr result (λ fault. IfSome (refusal_of fault) (λ refusal.
        (refusal ≡ out_of_range) × (lines_of args.now parent.now ≡ None))) }
{
    let mut taken = Vec::new(alloc);
    let mut rest = parent;
    for arg in args {
        let (size, after) = size_for(arg, rest);
        match line_of(*arg, size) {
            Some(line) => put(&mut taken, line)?,
            None => return Err(PlanFault::OutOfRange),
        }
        rest = after;
    }
    take_wholes(&mut taken, rest)?;
    Ok(taken)
}

/// Puts the whole of each dimension at the end.
fn take_wholes(taken: &mut Vec<Taken>, sizes: &[u32]) -> Result<(), AllocError>
    ensures { OnOk result (lines_of_taken taken.new.items ≡ lines_of_taken taken.old.items
        ++ wholes sizes.now) }
{
    for size in sizes {
        taken.push(all_of(*size))?;
    }
    Ok(())
}
