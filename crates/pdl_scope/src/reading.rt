//! Reading the elements of arrays. What can be lent is read without a step.
ghost use Rattle.std.specs.Prelude.{◌≡◌, ◌≢◌, IsTrue, ◌+◌, ◌≤◌, ◌<◌, length, All, IfOk, None, is_some, true, false, OnOk};
ghost use Rattle.pdl_elem.specs.Types.{InRange};
ghost use Rattle.pdl_shape.specs.Shape.{size_of};
ghost use Rattle.pdl_buf.specs.Made.{IsMade};
ghost use Rattle.pdl_choice.specs.Where.{rises, which};
ghost use Rattle.pdl_ops.specs.Elementwise.{converted};
ghost use Rattle.pdl_world.specs.Paths.{root_of};
ghost use Rattle.pdl_world.specs.World.{dims_in, ty_in, elements};
ghost use Rattle.pdl_world.specs.Sound.{IsLive};
ghost use Rattle.pdl_machine.specs.Arrays.{array_in};
ghost use Rattle.pdl_machine.specs.Fills.{only};
ghost use Rattle.pdl_engine.specs.Reading.{read_steps};
ghost use Rattle.pdl_engine.specs.State.{base, is_fresh, SameArrays, StayFresh};
ghost use Rattle.pdl_scope.specs.Costs.{ReadsNoDearer};
ghost use Rattle.pdl_scope.specs.Scope.{engine_of, OnlyReads};

use crate::scope::Scope;
use pdl_assign::BLOCK;
use pdl_buf::{Elements, Made, Steps, strided_get};
use pdl_choice::{Positions, which_places};
use pdl_elem::Ty;
use pdl_engine::{ArrayId, Engine, all_shown};
use pdl_ops::{convert, copied};
use pdl_shape::{copy_dims, elements_of};
use std::alloc::{AllocError, Global};
use std::sync::ledger::Ledger;

impl Scope {
    /// The elements of an array, copied. One that can be lent already is looked up once.
    pub fn numbers<L: Ledger>(
        &mut self,
        id: ArrayId,
        steps: &mut Steps<L>,
    ) -> Result<Vec<i64>, AllocError>
        requires { IsLive self.old.arrays.world id }
        ensures items { IfOk result (λ ns. ns.items ≡ elements self.old.arrays.world id) }
        ensures in_range { let ty = ty_in self.old.arrays.world id in
            IfOk result (λ ns. All (InRange ty) ns.items) }
        ensures count { let dims = dims_in self.old.arrays.world id in
            IfOk result (λ ns. length ns.items ≡ size_of dims) }
        ensures same { OnlyReads self.old self.new }
        ensures counted { steps.new ≤ steps.old + read_steps (engine_of self.old) id }
    {
        if let Some(shown) = self.engine.try_lend(id) {
            return all_shown(self.alloc, &shown);
        }
        self.numbers_when_ready(id, steps)
    }

    /// The same where the array can't be lent already: it is made so first. It stays a call: in line
    /// its window would be cleared for one that can.
    #[inline(never)]
    fn numbers_when_ready<L: Ledger>(
        &mut self,
        id: ArrayId,
        steps: &mut Steps<L>,
    ) -> Result<Vec<i64>, AllocError>
        requires { IsLive self.old.arrays.world id }
        ensures items { IfOk result (λ ns. ns.items ≡ elements self.old.arrays.world id) }
        ensures in_range { let ty = ty_in self.old.arrays.world id in
            IfOk result (λ ns. All (InRange ty) ns.items) }
        ensures count { let dims = dims_in self.old.arrays.world id in
            IfOk result (λ ns. length ns.items ≡ size_of dims) }
        ensures same { OnlyReads self.old self.new }
        ensures counted { steps.new ≤ steps.old + read_steps (engine_of self.old) id }
    {
        ready(&mut self.engine, id, steps)?;
        all_shown(self.alloc, &self.engine.lend(id))
    }

    /// Whether an array has exactly one element. Nothing is read.
    pub fn is_single(&self, id: ArrayId) -> bool
        requires { IsLive self.now.arrays.world id }
        ensures { result ≡ is_some (only (elements self.now.arrays.world id)) }
    {
        elements_of(self.engine.dims(id)) == 1
    }

    /// The number of an array of exactly one element. Nothing is read of any other.
    pub fn only_number<L: Ledger>(
        &mut self,
        id: ArrayId,
        steps: &mut Steps<L>,
    ) -> Result<Option<i64>, AllocError>
        requires { IsLive self.old.arrays.world id }
        ensures number { IfOk result (λ n. n ≡ only (elements self.old.arrays.world id)) }
        ensures same { OnlyReads self.old self.new }
        ensures counted { steps.new ≤ steps.old + read_steps (engine_of self.old) id }
        ensures unread { IfOk result (λ n. n ≡ None
            → (self.new ≡ self.old) × (steps.new ≡ steps.old)) }
    {
        if !self.is_single(id) {
            return Ok(None);
        }
        ready(&mut self.engine, id, steps)?;
        Ok(Some(strided_get(&self.engine.lend(id), 0)))
    }

    /// A new array like an array. A view that picks places, wasn't read and goes when the statement
    /// ends isn't brought up to date for it where it has more elements than one block.
    pub fn copied<L: Ledger>(
        &mut self,
        id: ArrayId,
        steps: &mut Steps<L>,
    ) -> Result<Made, AllocError>
        requires { IsLive self.old.arrays.world id }
        ensures value { IfOk result (λ m. m ≡ array_in self.old.arrays id) }
        ensures made { IfOk result (λ m. IsMade m.ty m.dims m.elems) }
        ensures same { OnlyReads self.old self.new }
        ensures counted { steps.new ≤ steps.old + read_steps (engine_of self.old) id }
    {
        if self.is_passing(id) {
            return self.gathered(id, steps);
        }
        ready(&mut self.engine, id, steps)?;
        copied(self.alloc, &self.engine.lend(id))
    }

    /// Whether an array is a view of more elements than one block that wasn't read, and the newest of
    /// those that go when the statement ends: so nothing reads it again.
    fn is_passing(&self, id: ArrayId) -> bool
        requires { IsLive self.now.arrays.world id }
        ensures own { let w = self.now.arrays.world in result ≡ true → base w id ≡ id }
        ensures view { let w = self.now.arrays.world in result ≡ true → root_of w id ≢ id }
        ensures stale { result ≡ true → is_fresh (engine_of self.now) id ≡ false }
    {
        self.leaving.last().copied() == Some(id)
            && elements_of(self.engine.dims(id)) as usize > BLOCK
            && self.engine.is_unread(id)
    }

    /// A new array like a view that wasn't read, whose elements are gathered from its root. It stays a
    /// call: in line it would make the frame of each copy large.
    #[inline(never)]
    fn gathered<L: Ledger>(&mut self, id: ArrayId, steps: &mut Steps<L>) -> Result<Made, AllocError>
        requires live { IsLive self.old.arrays.world id }
        requires own { base self.old.arrays.world id ≡ id }
        requires view { root_of self.old.arrays.world id ≢ id }
        requires stale { is_fresh (engine_of self.old) id ≡ false }
        ensures value { IfOk result (λ m. m ≡ array_in self.old.arrays id) }
        ensures made { IfOk result (λ m. IsMade m.ty m.dims m.elems) }
        ensures same { OnlyReads self.old self.new }
        ensures counted { steps.new ≤ steps.old + read_steps (engine_of self.old) id }
    {
        let ty = self.engine.ty(id);
        let dims = copy_dims(self.engine.dims(id));
        let buf = self.engine.gathered(id, steps)?;
        Ok(Made {
            ty,
            dims,
            elems: Elements::kept(buf),
        })
    }

    /// A new array of an array's elements, each wrapped to a type.
    pub fn converted<L: Ledger>(
        &mut self,
        ty: Ty,
        id: ArrayId,
        steps: &mut Steps<L>,
    ) -> Result<Made, AllocError>
        requires { IsLive self.old.arrays.world id }
        ensures value { IfOk result (λ m. m ≡ converted ty (array_in self.old.arrays id)) }
        ensures made { IfOk result (λ m. IsMade m.ty m.dims m.elems) }
        ensures same { OnlyReads self.old self.new }
        ensures counted { steps.new ≤ steps.old + read_steps (engine_of self.old) id }
    {
        ready(&mut self.engine, id, steps)?;
        convert(self.alloc, ty, &self.engine.lend(id))
    }

    /// The positions at which an array isn't 0, rising.
    pub fn set_positions<L: Ledger>(
        &mut self,
        id: ArrayId,
        steps: &mut Steps<L>,
    ) -> Result<Positions, AllocError>
        requires { IsLive self.old.arrays.world id }
        ensures places { IfOk result (λ ps. ps ≡ which (elements self.old.arrays.world id)) }
        ensures rises { let count = size_of (dims_in self.old.arrays.world id) in
            IfOk result (λ ps. IsTrue (rises 0 count ps)) }
        ensures few { let count = size_of (dims_in self.old.arrays.world id) in
            IfOk result (λ ps. length ps ≤ count) }
        ensures below { let count = size_of (dims_in self.old.arrays.world id) in
            IfOk result (λ ps. All (λ p. p < count) ps) }
        ensures same { OnlyReads self.old self.new }
        ensures counted { steps.new ≤ steps.old + read_steps (engine_of self.old) id }
    {
        let _count = elements_of(self.dims(id));
        let numbers = self.numbers(id, steps)?;
        which_places(self.alloc, &numbers)
    }
}

/// Makes an array one that can be lent. Where it is one already, nothing else is looked at and no
/// step is taken. No array takes more steps to read afterwards than before.
pub(crate) fn ready<L: Ledger>(
    engine: &mut Engine,
    id: ArrayId,
    steps: &mut Steps<L>,
) -> Result<(), AllocError>
    requires { IsLive engine.old.world id }
    ensures same { SameArrays engine.old engine.new }
    ensures stay { StayFresh engine.old engine.new }
    ensures itself { OnOk result (is_fresh engine.new id ≡ true) }
    ensures costs { ReadsNoDearer engine.old engine.new }
    ensures counted { steps.new ≤ steps.old + read_steps engine.old id }
{
    if engine.is_fresh(id) {
        return Ok(());
    }
    engine.ready(id, steps)
}

/// Makes two arrays ones that can be lent.
pub(crate) fn ready_two<L: Ledger>(
    engine: &mut Engine,
    left: ArrayId,
    right: ArrayId,
    steps: &mut Steps<L>,
) -> Result<(), AllocError>
    requires left { IsLive engine.old.world left }
    requires right { IsLive engine.old.world right }
    ensures same { SameArrays engine.old engine.new }
    ensures stay { StayFresh engine.old engine.new }
    ensures costs { ReadsNoDearer engine.old engine.new }
    ensures left_fresh { OnOk result (is_fresh engine.new left ≡ true) }
    ensures right_fresh { OnOk result (is_fresh engine.new right ≡ true) }
    ensures counted { let e = engine.old in
        steps.new ≤ steps.old + (read_steps e left + read_steps e right) }
{
    ready(engine, left, steps)?;
    ready(engine, right, steps)
}
