//! Arrays that are cut from their parents or get other dimensions, and names that are taken away.
ghost use Rattle.std.specs.Prelude.{◌≡◌, ◌+◌, ◌<◌, ◌≤◌, ◌^◌, [], length, true, false, vec_capacity, Ok, IfErr, OnOk, OnErr};
ghost use Rattle.pdl_shape.specs.Shape.{size_of};
ghost use Rattle.pdl_world.specs.Cut.{breaks, sever, reshape};
ghost use Rattle.pdl_world.specs.Paths.{root_of};
ghost use Rattle.pdl_world.specs.Sound.{IsLive};
ghost use Rattle.pdl_world.specs.World.{dims_in};
ghost use Rattle.pdl_nodes.specs.declared.relaid.RelayFault.TheVariants.{Breaks};
ghost use Rattle.pdl_engine.specs.State.{StayFresh, ready_steps};
ghost use Rattle.pdl_machine.specs.Cuts.{reshaped};
ghost use Rattle.pdl_machine.specs.State.{with_arrays};
ghost use Rattle.pdl_machine.specs.Names.{unbind, Names};
ghost use Rattle.pdl_machine.specs.Step.{bind_severed, severing};
ghost use Rattle.pdl_machine.specs.Then.{and_then};
ghost use Rattle.pdl_scope.specs.Answers.{IfScript, Runs};
ghost use Rattle.pdl_scope.specs.Costs.{MovesNothing};
ghost use Rattle.pdl_scope.specs.Holding.{IsHeldBeside, StaysHeld, StaysHeldUnread};
ghost use Rattle.pdl_scope.specs.Scope.{engine_of, machine};

use crate::fault::ScopeFault;
use crate::flowing::{end_flow, kept_shape, room_to_end};
use crate::holding::{bind_one, hold_parent, note};
use crate::laws::{cut_apart_laws, more_held_law};
use crate::scope::Scope;
use pdl_buf::Steps;
use pdl_elem::Name;
use pdl_engine::{ArrayId, Engine, ReshapeFault};
use pdl_machine::{Fault, flow_laws};
use pdl_shape::Dims;
use pdl_world::{cut_laws, keeping_laws, reshape_laws};
use std::alloc::AllocError;
use std::sync::ledger::Ledger;

impl Scope {
    /// Cuts an array from its parent; the flow of a root ends. The parent, or what the formula read,
    /// is kept until the statement ends, and all room is taken before. It takes at most the steps
    /// that make the array ready, and one for each of its elements; on a root none.
    pub fn sever<L: Ledger>(&mut self, id: ArrayId, steps: &mut Steps<L>) -> Result<(), ScopeFault>
        requires { IsLive self.old.arrays.world id }
        ensures runs { Runs (severing (machine self.old) id) self.old self.new [] [] result }
        ensures counted { let e = engine_of self.old in
            steps.new ≤ steps.old + (ready_steps e id + size_of (dims_in e.world id)) }
        ensures spent { let e = engine_of self.old in root_of e.world id ≡ id
            → MovesNothing e (engine_of self.new) steps.old steps.new }
    {
        more_held_law();
        let room = room_to_end(&self.flows, id);
        self.leaving.reserve(room)?;
        cut_apart(&mut self.engine, &mut self.leaving, id, steps)?;
        end_flow(&mut self.flows, &mut self.leaving, id);
        Ok(())
    }

    /// Cuts an array from its parent and binds a name to it, with `TooManyNames` where the name is
    /// new and 512 are bound; the flow of a root ends. All room is taken before the cut, which takes
    /// the steps that it takes alone.
    pub fn bind_severed<L: Ledger>(
        &mut self,
        name: &Name,
        id: ArrayId,
        steps: &mut Steps<L>,
    ) -> Result<(), ScopeFault>
        requires { IsLive self.old.arrays.world id }
        ensures runs { let wanted = bind_severed (machine self.old) name.now (self.old.arrays, id) in
            Runs wanted self.old self.new [] [] result }
        ensures counted { let e = engine_of self.old in
            steps.new ≤ steps.old + (ready_steps e id + size_of (dims_in e.world id)) }
        ensures spent { let e = engine_of self.old in root_of e.world id ≡ id
            → MovesNothing e (engine_of self.new) steps.old steps.new }
        ensures refused { IfScript result
            ((self.new ≡ self.old) × (steps.new ≡ steps.old)) }
    {
        if self.names.is_full_for(name) {
            return Err(ScopeFault::Script(Fault::TooManyNames));
        }
        cut_laws();
        keeping_laws();
        let name = name.clone()?;
        self.names.reserve(1)?;
        let room = room_to_end(&self.flows, id);
        self.leaving.reserve(room + 1)?;
        cut_apart(&mut self.engine, &mut self.leaving, id, steps)?;
        end_flow(&mut self.flows, &mut self.leaving, id);
        bind_one(
            &mut self.engine,
            &mut self.names,
            &mut self.leaving,
            name,
            id,
        );
        Ok(())
    }

    /// Gives an array other dimensions, with `ReshapeBreaks` where the formula of a view that
    /// reaches it refuses, else `StillWatched` where a watcher is attached to it or to one that
    /// reaches it, else `FlowTarget` where it is the root of a flow, and else `FlowReads` where a
    /// flow reads it or one that reaches it: then nothing is moved. The parent that it may have is
    /// kept until the statement ends. It takes at most the steps that make the array ready, and one
    /// for each new element.
    pub fn reshape<L: Ledger>(
        &mut self,
        id: ArrayId,
        dims: &Dims,
        steps: &mut Steps<L>,
    ) -> Result<(), ScopeFault>
        requires { IsLive self.old.arrays.world id }
        ensures runs { let old = self.old in
            let arrays = reshaped old.watches old.flows old.arrays id dims.now in
            let wanted = and_then arrays (λ a. Ok (with_arrays (machine self.old) a, [])) in
            Runs wanted self.old self.new [] [] result }
        ensures counted { let e = engine_of self.old in
            steps.new ≤ steps.old + (ready_steps e id + size_of dims.now) }
        ensures unchanged { IfScript result
            (MovesNothing (engine_of self.old) (engine_of self.new) steps.old steps.new) }
    {
        if let Some(fault) = kept_shape(&self.engine, &self.watches, &self.flows, id) {
            if self.engine.breaks(id, dims)? {
                return Err(ScopeFault::Script(Fault::ReshapeBreaks));
            }
            return Err(ScopeFault::Script(fault));
        }
        self.leaving.reserve(1)?;
        Ok(laid_anew(&mut self.engine, &mut self.leaving, id, dims, steps)?)
    }

    /// Takes a name away, with `UnknownName` where it isn't bound. Its array is kept until the
    /// statement ends.
    pub fn undef(&mut self, name: &Name) -> Result<(), ScopeFault>
        ensures { let names = unbind self.old.names name.now in
            let after = λ (ns : Names). record (machine self.old) { names = ns } in
            let wanted = and_then names (λ ns. Ok (after ns, [])) in
            Runs wanted self.old self.new [] [] result }
    {
        more_held_law();
        self.leaving.reserve(1)?;
        match self.names.remove(name) {
            Some(had) => {
                note(&mut self.leaving, had);
                Ok(())
            }
            None => Err(ScopeFault::Script(Fault::UnknownName)),
        }
    }
}

/// Cuts an array from its parent, which is held beside it.
fn cut_apart<L: Ledger>(
    engine: &mut Engine,
    leaving: &mut Vec<ArrayId>,
    id: ArrayId,
    steps: &mut Steps<L>,
) -> Result<(), AllocError>
    requires live { IsLive engine.old.world id }
    requires room { length leaving.old.items < vec_capacity leaving.old }
    requires small { length leaving.old.items < 2 ^ 62 }
    requires held { IsHeldBeside engine.old leaving.old.items }
    ensures ok { OnOk result (engine.new.world ≡ sever engine.old.world id) }
    ensures err { OnErr result (engine.new.world ≡ engine.old.world) }
    ensures next { engine.new.next ≡ engine.old.next }
    ensures stay { OnErr result (StayFresh engine.old engine.new) }
    ensures counted { let e = engine.old in
        steps.new ≤ steps.old + (ready_steps e id + size_of (dims_in e.world id)) }
    ensures spent { root_of engine.old.world id ≡ id
        → MovesNothing engine.old engine.new steps.old steps.new }
    ensures held { StaysHeld engine.old leaving.old.items engine.new leaving.new.items }
    ensures count { length leaving.new.items ≤ length leaving.old.items + 1 }
    ensures room { vec_capacity leaving.old ≤ vec_capacity leaving.new }
{
    cut_apart_laws();
    hold_parent(engine, leaving, id);
    engine.sever(id, steps)
}

/// Gives an array other dimensions, and holds the parent that it may have.
fn laid_anew<L: Ledger>(
    engine: &mut Engine,
    leaving: &mut Vec<ArrayId>,
    id: ArrayId,
    dims: &Dims,
    steps: &mut Steps<L>,
) -> Result<(), ReshapeFault>
    requires live { IsLive engine.old.world id }
    requires room { length leaving.old.items < vec_capacity leaving.old }
    requires small { length leaving.old.items < 2 ^ 62 }
    requires held { IsHeldBeside engine.old leaving.old.items }
    ensures ok { OnOk result (engine.new.world ≡ reshape engine.old.world id dims.now) }
    ensures allowed { OnOk result (breaks engine.old.world id dims.now ≡ false) }
    ensures broken { IfErr result
        (λ fault. fault ≡ Breaks → breaks engine.old.world id dims.now ≡ true) }
    ensures err { OnErr result (engine.new.world ≡ engine.old.world) }
    ensures next { engine.new.next ≡ engine.old.next }
    ensures stay { OnErr result (StayFresh engine.old engine.new) }
    ensures counted { steps.new ≤ steps.old + (ready_steps engine.old id + size_of dims.now) }
    ensures unchanged { IfErr result
        (λ fault. fault ≡ Breaks → MovesNothing engine.old engine.new steps.old steps.new) }
    ensures held { StaysHeldUnread id engine.old leaving.old.items engine.new leaving.new.items }
{
    reshape_laws();
    keeping_laws();
    flow_laws();
    hold_parent(engine, leaving, id);
    engine.reshape(id, dims, steps)
}
