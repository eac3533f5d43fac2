//! What the parts of a formula are, and how operators are lent them.
ghost use Rattle.std.specs.Prelude.{◌≡◌, ◌+◌, Ok, IfOk};
ghost use Rattle.pdl_buf.specs.Made.{array_of};
ghost use Rattle.pdl_ops.specs.Answers.{Answers};
ghost use Rattle.pdl_ops.specs.Elementwise.{elementwise};
ghost use Rattle.pdl_ops.specs.Laws.{IsArray};
ghost use Rattle.pdl_flow.specs.Parts.{IsAnswered, changed, moved_by, seen};

use crate::kept::Kept;
use pdl_buf::{Made, Steps, Strided};
use pdl_elem::{BinaryOp, Ty, UnaryOp};
use pdl_ops::{OpFault, convert, copied, elementwise, unary_each};
use std::alloc::{AllocError, Global};
use std::sync::ledger::Ledger;

/// What a part of a formula is.
#[derive(Drop)]
pub enum Part<'a> {
    /// The value of an array, which is lent.
    Lent(&'a Kept),
    /// A number, or what an operator made.
    Own(Made),
}

/// What is done to each element of an operand.
#[derive(Drop)]
pub enum Change {
    Operator(UnaryOp),
    /// Wrapping to a type.
    Convert(Ty),
}

/// An operand changed at each element. What was made is put into a buffer before, where each element
/// that isn't 0 is a step.
pub(crate) fn changed<L: Ledger>(
    alloc: Global,
    change: Change,
    operand: Part<'_>,
    steps: &mut Steps<L>,
) -> Result<Made, OpFault>
    requires { IsArray (seen operand) }
    ensures { let wanted = Ok (changed change (seen operand.entry)) in
        IsAnswered (λ made. made) wanted (moved_by operand.entry) steps.old steps.new result }
{
    match operand {
        Part::Lent(kept) => changed_window(alloc, change, &kept.whole(alloc)),
        Part::Own(made) => {
            let kept = Kept::new(alloc, made, steps)?;
            changed_window(alloc, change, &kept.whole(alloc))
        }
    }
}

/// A window changed at each element.
fn changed_window(alloc: Global, change: Change, operand: &Strided<'_>) -> Result<Made, OpFault>
    ensures value { let wanted = Ok (changed change (array_of operand.now)) in
        Answers (λ made. made) wanted result }
    ensures made { IfOk result IsArray }
{
    match change {
        Change::Operator(op) => Ok(unary_each(alloc, op, operand)?),
        Change::Convert(ty) => Ok(convert(alloc, ty, operand)?),
    }
}

/// An operator of two operands at each position of the joined dimensions. What was made is put into
/// a buffer before, the left operand first, where each element that isn't 0 is a step.
pub(crate) fn joined<L: Ledger>(
    alloc: Global,
    op: BinaryOp,
    left: Part<'_>,
    right: Part<'_>,
    steps: &mut Steps<L>,
) -> Result<Made, OpFault>
    requires left { IsArray (seen left) }
    requires right { IsArray (seen right) }
    ensures { let wanted = elementwise op (seen left.entry) (seen right.entry) in
        let moved = moved_by left.entry + moved_by right.entry in
        IsAnswered (λ made. made) wanted moved steps.old steps.new result }
{
    match left {
        Part::Lent(kept) => joined_to(alloc, op, kept, right, steps),
        Part::Own(made) => {
            let kept = Kept::new(alloc, made, steps)?;
            joined_to(alloc, op, &kept, right, steps)
        }
    }
}

/// The same where the left operand is kept already.
fn joined_to<L: Ledger>(
    alloc: Global,
    op: BinaryOp,
    left: &Kept,
    right: Part<'_>,
    steps: &mut Steps<L>,
) -> Result<Made, OpFault>
    requires { IsArray (seen right) }
    ensures { let wanted = elementwise op left.now (seen right.entry) in
        IsAnswered (λ made. made) wanted (moved_by right.entry) steps.old steps.new result }
{
    match right {
        Part::Lent(kept) => elementwise(alloc, op, &left.whole(alloc), &kept.whole(alloc)),
        Part::Own(made) => {
            let kept = Kept::new(alloc, made, steps)?;
            elementwise(alloc, op, &left.whole(alloc), &kept.whole(alloc))
        }
    }
}

/// A part of a formula as an array of its own: an array's value is copied.
pub(crate) fn made_of(alloc: Global, part: Part<'_>) -> Result<Made, AllocError>
    requires { IsArray (seen part) }
    ensures value { IfOk result (λ made. made ≡ seen part.entry) }
    ensures made { IfOk result IsArray }
{
    match part {
        Part::Lent(kept) => copied(alloc, &kept.whole(alloc)),
        Part::Own(made) => Ok(made),
    }
}
