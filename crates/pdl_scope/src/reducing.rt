//! Reductions of an array, and products of two. They take the steps that it takes to read what they
//! are of, and no more.
ghost use Rattle.std.specs.Prelude.{◌≡◌, ◌+◌, ◌≤◌, IfOk, Result};
ghost use Rattle.pdl_buf.specs.Made.{IsMade};
ghost use Rattle.pdl_buf.specs.declared.made.Made.{Made};
ghost use Rattle.pdl_reduce.specs.Answers as reduce;
ghost use Rattle.pdl_reduce.specs.Refusals.{ReduceRefusal};
ghost use Rattle.pdl_reduce.specs.Reductions.{reduced, whole_reduced};
ghost use Rattle.pdl_reduce.specs.Pairings.{paired};
ghost use Rattle.pdl_world.specs.Sound.{IsLive};
ghost use Rattle.pdl_engine.specs.Reading.{read_steps};
ghost use Rattle.pdl_machine.specs.Arrays.{array_in};
ghost use Rattle.pdl_machine.specs.Refused.{reduce_fault, or_named};
ghost use Rattle.pdl_scope.specs.Answers.{Answers};
ghost use Rattle.pdl_scope.specs.Scope.{engine_of, OnlyReads};

use crate::fault::ScopeFault;
use crate::reading::{ready, ready_two};
use crate::scope::Scope;
use pdl_buf::{Made, Steps};
use pdl_engine::ArrayId;
use pdl_reduce::{Pairing, ReduceFault, Reduction, Whole, pair, reduce, reduce_whole};
use std::sync::ledger::Ledger;

impl Scope {
    /// A reduction of an array along dimension 0.
    pub fn reduced<L: Ledger>(
        &mut self,
        kind: Reduction,
        id: ArrayId,
        steps: &mut Steps<L>,
    ) -> Result<Made, ScopeFault>
        requires { IsLive self.old.arrays.world id }
        ensures value { let wanted = reduced kind (array_in self.old.arrays id) in
            Answers (or_named reduce_fault wanted) result }
        ensures made { IfOk result (λ m. IsMade m.ty m.dims m.elems) }
        ensures same { OnlyReads self.old self.new }
        ensures counted { steps.new ≤ steps.old + read_steps (engine_of self.old) id }
    {
        ready(&mut self.engine, id, steps)?;
        named(reduce(self.alloc, kind, &self.engine.lend(id)))
    }

    /// A reduction of all elements of an array.
    pub fn reduced_whole<L: Ledger>(
        &mut self,
        kind: Whole,
        id: ArrayId,
        steps: &mut Steps<L>,
    ) -> Result<Made, ScopeFault>
        requires { IsLive self.old.arrays.world id }
        ensures value { let wanted = whole_reduced kind (array_in self.old.arrays id) in
            Answers (or_named reduce_fault wanted) result }
        ensures made { IfOk result (λ m. IsMade m.ty m.dims m.elems) }
        ensures same { OnlyReads self.old self.new }
        ensures counted { steps.new ≤ steps.old + read_steps (engine_of self.old) id }
    {
        ready(&mut self.engine, id, steps)?;
        named(reduce_whole(self.alloc, kind, &self.engine.lend(id)))
    }

    /// A product of two arrays.
    pub fn paired<L: Ledger>(
        &mut self,
        kind: Pairing,
        left: ArrayId,
        right: ArrayId,
        steps: &mut Steps<L>,
    ) -> Result<Made, ScopeFault>
        requires left { IsLive self.old.arrays.world left }
        requires right { IsLive self.old.arrays.world right }
        ensures value { let a = self.old.arrays in
            let wanted = paired kind (array_in a left) (array_in a right) in
            Answers (or_named reduce_fault wanted) result }
        ensures made { IfOk result (λ m. IsMade m.ty m.dims m.elems) }
        ensures same { OnlyReads self.old self.new }
        ensures counted { let e = engine_of self.old in
            steps.new ≤ steps.old + (read_steps e left + read_steps e right) }
    {
        ready_two(&mut self.engine, left, right, steps)?;
        let engine = &self.engine;
        named(pair(self.alloc, kind, &engine.lend(left), &engine.lend(right)))
    }
}

/// What a reduction gave, with its refusal by the name of a script's fault.
fn named(reduction: Result<Made, ReduceFault>) -> Result<Made, ScopeFault>
    ensures value { (wanted : Result Made ReduceRefusal) → reduce.Answers wanted reduction →
        Answers (or_named reduce_fault wanted) result }
    ensures made { IfOk reduction (λ m. IsMade m.ty m.dims m.elems) →
        IfOk result (λ m. IsMade m.ty m.dims m.elems) }
{
    match reduction {
        Ok(made) => Ok(made),
        Err(fault) => Err(ScopeFault::from(fault)),
    }
}
