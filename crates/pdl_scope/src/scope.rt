//! Names, kernels, arrays, which of these watchers are attached to, and flows.
ghost use Rattle.std.specs.Prelude.{◌≡◌, ℕ, ◌+◌, ◌<◌, ◌≤◌, true, false, [], length, map, sum_by, All, IfOk, IfSome, IsTrue, is_some, slice_get, Some};
ghost use Rattle.pdl_shape.specs.Shape.{IsDims};
ghost use Rattle.pdl_numbers.specs.Typed.{count_moved};
ghost use Rattle.pdl_buf.specs.Made.{IsMade};
ghost use Rattle.pdl_world.specs.Formula.{is_well_formed};
ghost use Rattle.pdl_world.specs.Refused.{view_refusal};
ghost use Rattle.pdl_world.specs.World.{dims_in, ty_in};
ghost use Rattle.pdl_world.specs.Sound.{IsLive};
ghost use Rattle.pdl_engine.specs.Held.{written_back};
ghost use Rattle.pdl_engine.specs.Reading.{KeepsViews, read_steps};
ghost use Rattle.pdl_engine.specs.State.{no_arrays, is_fresh, IsLazy};
ghost use Rattle.pdl_machine.specs.Calls.{outputs_of};
ghost use Rattle.pdl_machine.specs.Names.{found, nothing_named, number_of};
ghost use Rattle.pdl_machine.specs.State.{kept, with_world, IsWhole};
ghost use Rattle.pdl_machine.specs.Tidy.{settled, tidy};
ghost use Rattle.pdl_machine.specs.Outcome.{new_root, new_view};
ghost use Rattle.pdl_machine.specs.Step.{bind_value, roots_bound, kernel_named};
ghost use Rattle.pdl_scope.specs.Scope.{engine_of, machine, scope_in, Grows, OnlyReads, array_of, arrays_seen, shape_in};
ghost use Rattle.pdl_scope.specs.Answers.{AnswersAs, Evaluates, IfScript, Runs};
ghost use Rattle.pdl_scope.specs.Costs.{arrays_after, can_call, IsInOrder, MovesUpTo};

use crate::calling::kernel_outputs;
use crate::fault::ScopeFault;
use crate::flowing::let_all_go;
use crate::flows::KeptFlow;
use crate::holding::{bind_all, hold_for_name, note, note_some};
use crate::kernels::{DefinedKernel, Kernels};
use crate::laws::{hold_once_laws, joining_laws, leaving_laws};
use crate::names::Names;
use pdl_buf::{Elements, Made, Steps};
use pdl_elem::{Name, Ty};
use pdl_engine::{ArrayId, Engine};
use pdl_machine::Fault;
use pdl_shape::Dims;
use pdl_world::Trans;
use std::alloc::Global;
use std::marker::Model;
use std::sync::ledger::Ledger;

/// Names, kernels, the slots of watchers, flows, and an engine that keeps the arrays that names,
/// attached slots and formulas reach, and those of the statement that runs. It is seen as its names,
/// its arrays, the arrays that slots are attached to, its flows, and what its engine can lend.
#[derive(Drop)]
pub struct Scope {
    pub(crate) alloc: Global,
    pub(crate) names: Names,
    pub(crate) kernels: Kernels,
    pub(crate) engine: Engine,
    /// By slots the array that the slot's watcher is attached to, which is held once more for it.
    pub(crate) watches: Vec<Option<ArrayId>>,
    /// In the order in which they were made. What a formula reads is held once for each place in
    /// it; the root isn't held.
    pub(crate) flows: Vec<KeptFlow>,
    /// Arrays that are held once more until the statement ends: those that it made, and those that
    /// a name or a flow gave up.
    pub(crate) leaving: Vec<ArrayId>,
}

impl Model for Scope {
    ghost use Rattle.std.specs.Coded.{codes};
    ghost use Rattle.pdl_flow.specs.Coding.{coded_formula};
    ghost use Rattle.pdl_scope.specs.Scope.{names_in, scope_in, state_in, IsHeld, Scope as Seen};

    ghost Value = { Seen };

    ghost coded = { Prim.hlevel (codes, coded_formula) };

    ghost view = { λ s. let names = names_in s.names.entries s.kernels in
        scope_in names s.watches.items s.flows.items s.engine };

    ghost invariant = { λ s. let names = names_in s.names.entries s.kernels in
        let state = state_in names s.watches.items s.flows.items s.engine in
        IsHeld state s.engine.holds s.leaving.items };
}

impl Scope {
    /// No names, no kernels, no arrays, no slot attached, and no flows.
    pub fn new(alloc: Global) -> Scope
        ensures { result ≡ scope_in nothing_named [] [] no_arrays }
    {
        Scope {
            alloc,
            names: Names::new(alloc),
            kernels: Kernels::new(alloc),
            engine: Engine::new(alloc),
            watches: Vec::new(alloc),
            flows: Vec::new(alloc),
            leaving: Vec::new(alloc),
        }
    }

    /// Each scope is whole. The call does nothing when it runs.
    pub fn whole(&self)
        ensures { IsWhole (machine self.now) }
    {
        let _alloc = self.alloc;
    }

    /// Each scope is whole, and its views are lazy. The call does nothing when it runs.
    pub fn in_order(&self)
        ensures { IsInOrder self.now }
    {
        self.whole();
        self.lazy_law();
    }

    /// What a scope can lend is as its engine's law of lazy views says. The call does nothing when
    /// it runs.
    pub fn lazy_law(&self)
        ensures { IsLazy (engine_of self.now) }
    {
        self.engine.lazy_law()
    }

    /// The allocator of all that the scope keeps.
    pub fn alloc(&self) -> Global {
        self.alloc
    }

    /// The array that a name is bound to, if it is.
    pub fn number_of(&self, name: &Name) -> Option<ArrayId>
        ensures number { result ≡ number_of self.now.names name.now }
        ensures live { IfSome result (IsLive self.now.arrays.world) }
    {
        self.names.get(name)
    }

    /// How many names are bound.
    pub fn len(&self) -> usize
        ensures { result ≡ length self.now.names.arrays }
    {
        self.names.len()
    }

    /// The name at a place in the order of the first bindings, with its array.
    pub fn entry(&self, index: usize) -> (&Name, ArrayId)
        requires { index < length self.now.names.arrays }
        ensures entry { slice_get self.now.names.arrays index ≡ Some (result.0.now, result.1) }
        ensures live { IsLive self.now.arrays.world result.1 }
    {
        self.names.entry(index)
    }

    /// The sizes of an array.
    pub fn dims(&self, id: ArrayId) -> &Dims
        requires { IsLive self.now.arrays.world id }
        ensures now { result.now ≡ dims_in self.now.arrays.world id }
        ensures limits { IsDims result.now }
    {
        self.engine.dims(id)
    }

    /// The type of an array.
    pub fn ty(&self, id: ArrayId) -> Ty
        requires { IsLive self.now.arrays.world id }
        ensures { result ≡ ty_in self.now.arrays.world id }
    {
        self.engine.ty(id)
    }

    /// A new array of these dimensions and elements, which can be lent. It takes at most a step for
    /// each number that isn't 0.
    pub fn make<L: Ledger>(
        &mut self,
        ty: Ty,
        dims: &Dims,
        elems: Elements,
        steps: &mut Steps<L>,
    ) -> Result<ArrayId, ScopeFault>
        requires { IsMade ty dims.now elems }
        ensures value { let wanted = new_root self.old.arrays (array_of ty dims.now elems) in
            Evaluates wanted self.new result }
        ensures grown { Grows self.old self.new }
        ensures fresh { IfOk result (λ id. is_fresh (engine_of self.new) id ≡ true) }
        ensures roots { KeepsViews self.new.arrays.world self.old.arrays.world }
        ensures counted { steps.new ≤ steps.old + count_moved elems }
    {
        joining_laws();
        self.engine.holds_law();
        self.leaving.reserve(1)?;
        let id = self.engine.make(ty, dims, elems, steps)?;
        note(&mut self.leaving, id);
        Ok(id)
    }

    /// A new array of what was made for it, whose elements are taken over.
    pub fn adopt<L: Ledger>(
        &mut self,
        made: Made,
        steps: &mut Steps<L>,
    ) -> Result<ArrayId, ScopeFault>
        requires { IsMade made.ty made.dims made.elems }
        ensures value { Evaluates (new_root self.old.arrays made) self.new result }
        ensures grown { Grows self.old self.new }
        ensures fresh { IfOk result (λ id. is_fresh (engine_of self.new) id ≡ true) }
        ensures roots { KeepsViews self.new.arrays.world self.old.arrays.world }
        ensures counted { steps.new ≤ steps.old + count_moved made.elems }
    {
        let elems = made.elems;
        self.make(made.ty, &made.dims, elems, steps)
    }

    /// A new array like one that is kept elsewhere, whose elements are copied.
    pub fn make_like<L: Ledger>(
        &mut self,
        made: &Made,
        steps: &mut Steps<L>,
    ) -> Result<ArrayId, ScopeFault>
        requires { IsMade made.now.ty made.now.dims made.now.elems }
        ensures value { Evaluates (new_root self.old.arrays made.now) self.new result }
        ensures grown { Grows self.old self.new }
        ensures fresh { IfOk result (λ id. is_fresh (engine_of self.new) id ≡ true) }
        ensures roots { KeepsViews self.new.arrays.world self.old.arrays.world }
        ensures counted { steps.new ≤ steps.old + count_moved made.now.elems }
    {
        let elems = made.elems.copied(self.alloc, made.ty)?;
        self.make(made.ty, &made.dims, elems, steps)
    }

    /// A new view of an array, whose transformation is well formed.
    pub fn view(&mut self, parent: ArrayId, trans: Trans) -> Result<ArrayId, ScopeFault>
        requires live { IsLive self.old.arrays.world parent }
        requires well_formed { IsTrue (is_well_formed trans) }
        ensures value { let refusal = view_refusal self.old.arrays.world parent trans in
            Evaluates (new_view self.old.arrays parent trans refusal) self.new result }
        ensures grown { Grows self.old self.new }
    {
        joining_laws();
        self.engine.holds_law();
        self.leaving.reserve(1)?;
        let id = self.engine.view(parent, trans)?;
        note(&mut self.leaving, id);
        Ok(id)
    }

    /// Binds a name to an array, with `TooManyNames` where it is new and 512 are bound.
    pub fn bind(&mut self, name: &Name, id: ArrayId) -> Result<(), ScopeFault>
        requires { IsLive self.old.arrays.world id }
        ensures runs { let wanted = bind_value (machine self.old) name.now (self.old.arrays, id) in
            Runs wanted self.old self.new [] [] result }
        ensures arrays { self.new.arrays ≡ self.old.arrays }
    {
        hold_once_laws();
        self.engine.holds_law();
        self.leaving.reserve(1)?;
        let had = self.names.bind(name, id)?;
        hold_for_name(&mut self.engine, &mut self.leaving, id);
        note_some(&mut self.leaving, had);
        Ok(())
    }

    /// Binds names to new arrays in order. Where there isn't room for all of them none is bound, and
    /// nothing is made. Whatever it answers, it takes at most a step for each element that moves for
    /// the arrays of the names; so at most one for each number of the outputs that isn't 0.
    pub fn bind_roots<L: Ledger>(
        &mut self,
        bound: &[Name],
        outputs: &[Made],
        steps: &mut Steps<L>,
    ) -> Result<(), ScopeFault>
        requires { All (λ m. IsMade m.ty m.dims m.elems) outputs.now }
        ensures runs { let wanted = roots_bound (machine self.old) bound.now outputs.now in
            Runs wanted self.old self.new [] [] result }
        ensures within { let wanted = roots_bound (machine self.old) bound.now outputs.now in
            let late = arrays_after wanted self.old.arrays in
            MovesUpTo 0 self.old late steps.old steps.new }
        ensures counted { let most = sum_by (λ m. count_moved m.elems) outputs.now in
            steps.new ≤ steps.old + most }
        ensures refused { IfScript result
            ((self.new ≡ self.old) × (steps.new ≡ steps.old)) }
    {
        let count = bound.len().min(outputs.len());
        if !self.names.has_room(&bound[..count]) {
            return Err(ScopeFault::Script(Fault::TooManyNames));
        }
        // all that wants memory comes before the first name is bound
        let mut made = Vec::with_capacity(self.alloc, count)?;
        for i in 0..count {
            let name = bound[i].clone()?;
            let id = self.make_like(&outputs[i], steps)?;
            made.push((name, id))?;
        }
        self.names.reserve(count)?;
        self.leaving.reserve(count)?;
        bind_all(&mut self.engine, &mut self.names, &mut self.leaving, made);
        Ok(())
    }

    /// Takes back the holds that end with a statement, so that what no name, no watcher and no flow
    /// that stays needs goes. From the newest on, a flow whose root isn't there any more goes too.
    /// What is left when the state is tidied is the same, and what is left can be lent as before. It
    /// takes no memory, and at most a step for each element that waits in a view that goes: so none
    /// where each view that waits is left.
    pub fn let_go<L: Ledger>(&mut self, steps: &mut Steps<L>)
        ensures gone { let s = machine self.old in
            machine self.new ≡ with_world (settled s) (kept s) }
        ensures unseen { tidy (machine self.new) ≡ tidy (machine self.old) }
        ensures stay { (v : ℕ) → IsLive self.new.arrays.world v
            → is_fresh (engine_of self.old) v ≡ true → is_fresh (engine_of self.new) v ≡ true }
        ensures risen { steps.old ≤ steps.new }
        ensures counted { KeepsViews self.old.arrays.world self.new.arrays.world
            → steps.new ≡ steps.old }
        ensures written { let e = engine_of self.old in
            steps.new ≤ steps.old + written_back e self.new.arrays.world e.world }
    {
        leaving_laws();
        self.engine.lazy_law();
        let_all_go(&mut self.engine, &mut self.flows, &self.leaving, steps);
        self.leaving.clear();
    }

    /// How many arrays there are.
    pub fn live(&self) -> u64
        ensures { result ≡ length self.now.arrays.world }
    {
        self.engine.live()
    }

    /// Defines a kernel of a name, with `TooManyKernels` where it is new and 256 are there.
    pub fn define(&mut self, name: Name, kernel: DefinedKernel) -> Result<(), ScopeFault>
        ensures { let wanted = kernel_named (machine self.old) name kernel in
            Runs wanted self.old self.new [] [] result }
    {
        self.kernels.define(name, kernel)
    }

    /// Whether a call of this name is a kernel's.
    pub fn has_kernel(&self, name: &Name) -> bool
        ensures { result ≡ is_some (found self.now.names.kernels name.now) }
    {
        self.kernels.get(name).is_some()
    }

    /// What the call of a kernel's name gives for arrays, of which so many outputs are wanted. It
    /// takes at most the steps that it takes to read each of the arrays, and none where the kernel
    /// can't run on them.
    pub fn kernel_outputs<L: Ledger>(
        &mut self,
        name: &Name,
        wanted: usize,
        ids: &[ArrayId],
        steps: &mut Steps<L>,
    ) -> Result<Vec<Made>, ScopeFault>
        requires { All (IsLive self.old.arrays.world) ids.now }
        ensures value { let seen = arrays_seen self.old.arrays ids.now in
            let outputs = outputs_of self.old.names name.now wanted seen in
            AnswersAs (λ ms. ms.items) outputs result }
        ensures made { IfOk result (λ ms. All (λ m. IsMade m.ty m.dims m.elems) ms.items) }
        ensures same { OnlyReads self.old self.new }
        ensures counted { let e = engine_of self.old in
            steps.new ≤ steps.old + sum_by (read_steps e) ids.now }
        ensures unmoved { let shapes = map (shape_in (engine_of self.old)) ids.now in
            can_call self.old.names name.now wanted shapes ≡ false
            → (self.new ≡ self.old) × (steps.new ≡ steps.old) }
    {
        match self.kernels.get(name) {
            Some(defined) => kernel_outputs(
                self.alloc,
                defined.kernel(),
                &mut self.engine,
                wanted,
                ids,
                steps,
            ),
            None => Err(ScopeFault::Script(Fault::UnknownFunction)),
        }
    }
}
