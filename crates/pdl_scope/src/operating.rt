//! Operators on the arrays of a scope.
ghost use Rattle.std.specs.Prelude.{◌≡◌, ◌+◌, ◌≤◌, true, IfOk};
ghost use Rattle.pdl_numbers.specs.Typed.{count_moved};
ghost use Rattle.pdl_buf.specs.Made.{IsMade};
ghost use Rattle.pdl_ops.specs.Elementwise.{unary_each};
ghost use Rattle.pdl_world.specs.Sound.{IsLive};
ghost use Rattle.pdl_engine.specs.Reading.{read_steps};
ghost use Rattle.pdl_engine.specs.State.{is_fresh};
ghost use Rattle.pdl_machine.specs.Arrays.{array_in};
ghost use Rattle.pdl_machine.specs.Operators.{binary_each};
ghost use Rattle.pdl_machine.specs.Outcome.{new_root};
ghost use Rattle.pdl_machine.specs.Then.{and_then};
ghost use Rattle.pdl_scope.specs.Answers.{Answers, Evaluates};
ghost use Rattle.pdl_scope.specs.Costs.{make_steps};
ghost use Rattle.pdl_scope.specs.Faults.{operator_named};
ghost use Rattle.pdl_scope.specs.Scope.{engine_of, Grows, arrays_of};

use crate::fault::ScopeFault;
use crate::reading::{ready, ready_two};
use crate::scope::Scope;
use pdl_buf::{Made, Steps};
use pdl_elem::{BinaryOp, UnaryOp};
use pdl_engine::{ArrayId, Engine};
use pdl_ops::{OpFault, elementwise, unary_each};
use std::alloc::Global;
use std::sync::ledger::Ledger;

impl Scope {
    /// The new array of an operator of one operand. It takes at most the steps that it takes to read
    /// the operand, and one for each new element that isn't 0.
    pub fn unary<L: Ledger>(
        &mut self,
        op: UnaryOp,
        id: ArrayId,
        steps: &mut Steps<L>,
    ) -> Result<ArrayId, ScopeFault>
        requires { IsLive self.old.arrays.world id }
        ensures value { let wanted = unary_each op (array_in self.old.arrays id) in
            Evaluates (new_root self.old.arrays wanted) self.new result }
        ensures grown { Grows self.old self.new }
        ensures counted { let made = unary_each op (array_in self.old.arrays id) in
            let read = read_steps (engine_of self.old) id in
            steps.new ≤ steps.old + (read + count_moved made.elems) }
    {
        ready(&mut self.engine, id, steps)?;
        let made = unary_each(self.alloc, op, &self.engine.lend(id))?;
        self.adopt(made, steps)
    }

    /// The new array of an operator of two operands. It takes at most the steps that it takes to read
    /// both, and one for each new element that isn't 0.
    pub fn binary<L: Ledger>(
        &mut self,
        op: BinaryOp,
        left: ArrayId,
        right: ArrayId,
        steps: &mut Steps<L>,
    ) -> Result<ArrayId, ScopeFault>
        requires left { IsLive self.old.arrays.world left }
        requires right { IsLive self.old.arrays.world right }
        ensures value { let a = self.old.arrays in
            let wanted = binary_each op (array_in a left) (array_in a right) in
            Evaluates (and_then wanted (new_root a)) self.new result }
        ensures grown { Grows self.old self.new }
        ensures counted { let a = self.old.arrays in
            let e = engine_of self.old in
            let wanted = binary_each op (array_in a left) (array_in a right) in
            let read = read_steps e left + read_steps e right in
            steps.new ≤ steps.old + (read + make_steps wanted) }
    {
        ready_two(&mut self.engine, left, right, steps)?;
        match operated(self.alloc, &self.engine, op, left, right) {
            Ok(made) => self.adopt(made, steps),
            Err(fault) => Err(fault),
        }
    }
}

/// What an operator gives for two arrays that can be lent.
fn operated(
    alloc: Global,
    engine: &Engine,
    op: BinaryOp,
    left: ArrayId,
    right: ArrayId,
) -> Result<Made, ScopeFault>
    requires left { IsLive engine.now.world left }
    requires right { IsLive engine.now.world right }
    requires left_fresh { is_fresh engine.now left ≡ true }
    requires right_fresh { is_fresh engine.now right ≡ true }
    ensures value { let a = arrays_of engine.now in
        Answers (binary_each op (array_in a left) (array_in a right)) result }
    ensures made { IfOk result (λ m. IsMade m.ty m.dims m.elems) }
{
    operator_named(elementwise(alloc, op, &engine.lend(left), &engine.lend(right)))
}

/// What an operator gave, with its refusal by the name of a script's fault.
#[inline(always)]
pub(crate) fn operator_named<T>(found: Result<T, OpFault>) -> Result<T, ScopeFault>
    ensures { result ≡ operator_named found }
{
    match found {
        Ok(made) => Ok(made),
        Err(fault) => Err(ScopeFault::from(fault)),
    }
}
