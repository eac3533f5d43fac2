//! A formula of an array, worked out by hand.
ghost use Rattle.std.specs.Prelude.{◌≡◌, ◌<◌, pos, IfOk};
ghost use Rattle.pdl_elem.specs.declared.BinaryOp.TheVariants.{Add, Mul};
ghost use Rattle.pdl_elem.specs.declared.Ty.TheVariants.{Long};
ghost use Rattle.pdl_buf.specs.Made.{IsMade};
ghost use Rattle.pdl_flow.specs.Formula.{array, binary, number, tree_of};

use crate::arrays::{is_array, shape};
use pdl_buf::{Made, new_steps};
use pdl_elem::{BinaryOp, Ty};
use pdl_flow::{Formula, Input, evaluate};
use pdl_ops::OpFault;
use pdl_shape::Dims;
use std::alloc::{AllocError, Global};
use std::marker::Brand;
use std::process::Abort;
use std::sync::ledger::{Blank, Ledger};

// Array 7 times 2, and 1 more.
fn twice_and_one(alloc: Global) -> Result<Formula, AllocError>
    ensures { IfOk result (λ f. tree_of f
        ≡ binary Add (binary Mul (array 7) (number Long (pos 2))) (number Long (pos 1))) }
{
    let array = Box::new(alloc, Formula::Array(7))?;
    let two = Box::new(alloc, Formula::Number(Ty::Long, 2))?;
    let twice = Box::new(alloc, Formula::Binary(BinaryOp::Mul, array, two))?;
    let one = Box::new(alloc, Formula::Number(Ty::Long, 1))?;
    Ok(Formula::Binary(BinaryOp::Add, twice, one))
}

// What the formula is of an array 7 of longs, with steps and runs that are counted in ledgers.
fn evaluated<L: Ledger, M: Ledger>(
    alloc: Global,
    formula: &Formula,
    dims: &Dims,
    elems: &[i64],
    steps: Blank,
    runs: Blank,
) -> Result<Made, OpFault>
    requires steps_name { steps.name ≡ L.name }
    requires steps_parts { steps.parts ≡ L.parts }
    requires some_steps { 0 < steps.parts }
    requires runs_name { runs.name ≡ M.name }
    requires runs_parts { runs.parts ≡ M.parts }
    requires some_runs { 0 < runs.parts }
    requires formula { tree_of formula.now
        ≡ binary Add (binary Mul (array 7) (number Long (pos 2))) (number Long (pos 1)) }
    requires made { IsMade Long dims.now elems.now }
{
    let mut steps = new_steps::<L>(steps);
    let mut runs = new_steps::<M>(runs);
    let input = Input::new(alloc, 7, Ty::Long, dims, elems, &mut steps)?;
    evaluate(alloc, formula, &[input], &mut steps, &mut runs)
}

// The same in new ledgers.
fn evaluated_anew(
    alloc: Global,
    formula: &Formula,
    dims: &Dims,
    elems: &[i64],
) -> Result<Made, OpFault>
    requires formula { tree_of formula.now
        ≡ binary Add (binary Mul (array 7) (number Long (pos 2))) (number Long (pos 1)) }
    requires made { IsMade Long dims.now elems.now }
{
    evaluated::<Brand, Brand>(alloc, formula, dims, elems, Blank::new(1), Blank::new(1))
}

// Of the longs 0, 5 and 2 it is 1, 11 and 5.
fn of_three(rt: &impl Abort, alloc: Global, formula: &Formula)
    requires { tree_of formula.now
        ≡ binary Add (binary Mul (array 7) (number Long (pos 2))) (number Long (pos 1)) }
{
    let dims = shape(rt, alloc, &[3]);
    let made = evaluated_anew(alloc, formula, &dims, &[0, 5, 2]).expect(rt, "values");
    is_array(rt, alloc, &made, Ty::Long, &[3], &[1, 11, 5]);
}

#[test]
fn evaluates_a_formula(rt: HostRuntime) {
    let rt = &rt;
    let formula = twice_and_one(rt.alloc()).expect(rt, "memory");
    of_three(rt, rt.alloc(), &formula);
}
