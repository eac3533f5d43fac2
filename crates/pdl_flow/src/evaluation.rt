//! The evaluation of a formula: each operator over whole arrays, the operands before it.
ghost use Rattle.std.specs.Prelude.{◌≡◌, ◌≤◌, ◌+◌, [], ◌∷◌, ◌++◌, All, Ok, IfOk, IfErr, OnOk, IsSomeAnd};
ghost use Rattle.pdl_elem.specs.Types.{InRange};
ghost use Rattle.pdl_buf.specs.declared.made.Made.{Made};
ghost use Rattle.pdl_ops.specs.Answers.{Answers};
ghost use Rattle.pdl_ops.specs.Laws.{IsArray};
ghost use Rattle.pdl_flow.specs.Formula.{IsFormula, arrays_in, tree_of};
ghost use Rattle.pdl_flow.specs.Inputs.{AreInputs, input_of, value_in};
ghost use Rattle.pdl_flow.specs.Meaning.{meaning};
ghost use Rattle.pdl_flow.specs.Parts.{IsEvaluated};
ghost use Rattle.pdl_flow.specs.Steps.{steps_in};
ghost use Rattle.pdl_flow.specs.Answers.{NamesNoDivisor};

use crate::formula::{Formula, Input, find_input};
use crate::kept::Kept;
use crate::laws::meaning_laws;
use crate::operand::{Change, Part, changed, joined, made_of};
use pdl_buf::{Elements, Made, Steps, tick};
use pdl_elem::Ty;
use pdl_ops::OpFault;
use pdl_shape::dims_within;
use std::alloc::Global;
use std::sync::ledger::Ledger;

/// The array that a formula is, of the values of the arrays that it reads: each has an input. No
/// operator of it divides. `Mismatch` or `TooLarge` where an operator is refused so, the left
/// operand's refusals first; never `DivideByZero`. It takes one step of `runs`. An array that is an
/// operand is lent to the operator; what an operator made is put into a buffer for the next one,
/// where each element that isn't 0 is a step of `steps`.
pub fn evaluate<L: Ledger, M: Ledger>(
    alloc: Global,
    formula: &Formula,
    inputs: &[Input<'_>],
    steps: &mut Steps<L>,
    runs: &mut Steps<M>,
) -> Result<Made, OpFault>
    requires formula { IsFormula (tree_of formula.now) }
    requires inputs { AreInputs inputs.now (tree_of formula.now) }
    ensures value { let wanted = meaning (value_in inputs.now) (tree_of formula.now) in
        Answers (λ made. made) wanted result }
    ensures undivided { IfErr result NamesNoDivisor }
    ensures made { IfOk result IsArray }
    ensures counted { OnOk result (steps.new
        ≡ steps.old + steps_in (value_in inputs.now) (tree_of formula.now)) }
    ensures at_most { steps.new
        ≤ steps.old + steps_in (value_in inputs.now) (tree_of formula.now) }
    ensures run { runs.new ≡ runs.old + 1 }
{
    meaning_laws();
    tick(runs);
    let part = part_of(alloc, formula, inputs, steps)?;
    Ok(made_of(alloc, part)?)
}

/// What a part of a formula is. What an operator makes comes packed, so that it is moved into a
/// buffer as it is.
fn part_of<'a, L: Ledger>(
    alloc: Global,
    formula: &Formula,
    inputs: &'a [Input<'_>],
    steps: &mut Steps<L>,
) -> Result<Part<'a>, OpFault>
    requires formula { IsFormula (tree_of formula.now) }
    requires inputs { AreInputs inputs.now (tree_of formula.now) }
    ensures { IsEvaluated (value_in inputs.now) (tree_of formula.now) steps.old steps.new result }
{
    match formula {
        Formula::Number(ty, value) => Ok(Part::Own(number(alloc, *ty, *value)?)),
        Formula::Array(array) => Ok(Part::Lent(lent(*array, inputs))),
        Formula::Unary(op, operand) => {
            let operand = part_of(alloc, operand, inputs, steps)?;
            let made = changed(alloc, Change::Operator(*op), operand, steps)?;
            Ok(Part::Own(made))
        }
        Formula::Convert(ty, operand) => {
            let operand = part_of(alloc, operand, inputs, steps)?;
            let made = changed(alloc, Change::Convert(*ty), operand, steps)?;
            Ok(Part::Own(made))
        }
        Formula::Binary(op, left, right) => {
            both_have_inputs(left, right, inputs);
            let left = part_of(alloc, left, inputs, steps)?;
            let right = part_of(alloc, right, inputs, steps)?;
            let made = joined(alloc, *op, left, right, steps)?;
            Ok(Part::Own(made))
        }
    }
}

/// Each array of two formulas has an input, and so has each of one of them. It does nothing.
fn both_have_inputs(left: &Formula, right: &Formula, inputs: &[Input<'_>])
    requires { All (λ k. IsSomeAnd (input_of inputs.now k) IsArray)
        (arrays_in (tree_of left.now) ++ arrays_in (tree_of right.now)) }
    ensures left { AreInputs inputs.now (tree_of left.now) }
    ensures right { AreInputs inputs.now (tree_of right.now) }
{}

/// A number as an array without dimensions.
fn number(alloc: Global, ty: Ty, value: i64) -> Result<Made, OpFault>
    requires { InRange ty value }
    ensures value { let wanted : Made = record { ty = ty; dims = []; elems = value ∷ [] } in
        Answers (λ made. made) (Ok wanted) result }
    ensures made { IfOk result IsArray }
{
    match vec![in alloc; value] {
        Ok(items) => Ok(Made {
            ty,
            dims: dims_within(alloc, &[]),
            elems: Elements::new(items),
        }),
        Err(_) => Err(OpFault::NoMemory),
    }
}

/// The value of an array by its input.
fn lent<'a>(array: u64, inputs: &'a [Input<'_>]) -> &'a Kept
    requires { IsSomeAnd (input_of inputs.now array) IsArray }
    ensures value { result.now ≡ value_in inputs.now array }
    ensures made { IsArray result.now }
{
    match find_input(inputs, array) {
        Some(kept) => kept,
        None => unreachable!(),
    }
}
