//! Assigning to an array that can be lent: values, what an operator makes of its elements, or the
//! elements of another array.
ghost use Rattle.std.specs.Prelude.{◌≡◌, ◌≢◌, ◌+◌, ◌≤◌, ℕ, true, false, length, map, All};
ghost use Rattle.pdl_elem.specs.Types.{InRange};
ghost use Rattle.pdl_shape.specs.Shape.{size_of};
ghost use Rattle.pdl_numbers.specs.Updates.{Suits, updated};
ghost use Rattle.pdl_world.specs.Parts.{assign_part};
ghost use Rattle.pdl_world.specs.Paths.{root_of};
ghost use Rattle.pdl_world.specs.Sound.{IsLive, IsSound};
ghost use Rattle.pdl_world.specs.World.{assign, dims_in, elements, has_repeats, places_in, ty_in};
ghost use Rattle.pdl_engine.specs.State.{TargetIsFresh, TargetWaits, base, is_fresh};

use crate::engine::{ArrayId, Engine};
use pdl_buf::{Buf, Steps};
use pdl_nodes::row_laws;
use pdl_numbers::Update;
use pdl_world::part_laws;
use std::sync::ledger::Ledger;

impl Engine {
    /// Puts the values at the array's positions, in rising order. The array is one that can be
    /// lent. Arrays of other families can be lent afterwards as before. It takes a step for each
    /// value, and no memory.
    pub fn assign<L: Ledger>(&mut self, id: ArrayId, values: &[i64], steps: &mut Steps<L>)
        requires live { IsLive self.old.world id }
        requires fresh { is_fresh self.old id ≡ true }
        requires count { length values.now ≡ size_of (dims_in self.old.world id) }
        requires in_range { All (InRange (ty_in self.old.world id)) values.now }
        ensures world { self.new.world ≡ assign self.old.world id values.now }
        ensures holds { self.new.holds ≡ self.old.holds }
        ensures next { self.new.next ≡ self.old.next }
        ensures others { (u : ℕ) → (root_of self.old.world u ≡ root_of self.old.world id → ⊥)
            → is_fresh self.old u ≡ true → is_fresh self.new u ≡ true }
        ensures sound { IsSound self.new.world }
        ensures target { TargetIsFresh self.old id self.new }
        ensures waits { TargetWaits self.old id self.new }
        ensures counted { steps.new ≡ steps.old + length values.now }
    {
        part_laws();
        self.assign_part(id, 0, values, steps)
    }

    /// Puts values at the array's positions from one on, in rising order. Else it is as `assign`: the
    /// array is one that can be lent, arrays of other families can be lent afterwards as before, and
    /// it takes a step for each value, and no memory. Parts one after another are the whole
    /// assignment. The array itself can be lent afterwards unless its base has repeats.
    pub fn assign_part<L: Ledger>(
        &mut self,
        id: ArrayId,
        first: u32,
        values: &[i64],
        steps: &mut Steps<L>,
    )
        requires live { IsLive self.old.world id }
        requires fresh { is_fresh self.old id ≡ true }
        requires within { first + length values.now ≤ size_of (dims_in self.old.world id) }
        requires in_range { All (InRange (ty_in self.old.world id)) values.now }
        ensures world { self.new.world ≡ assign_part self.old.world id first values.now }
        ensures holds { self.new.holds ≡ self.old.holds }
        ensures next { self.new.next ≡ self.old.next }
        ensures others { (u : ℕ) → (root_of self.old.world u ≡ root_of self.old.world id → ⊥)
            → is_fresh self.old u ≡ true → is_fresh self.new u ≡ true }
        ensures sound { IsSound self.new.world }
        ensures target { TargetIsFresh self.old id self.new }
        ensures waits { TargetWaits self.old id self.new }
        ensures counted { steps.new ≡ steps.old + length values.now }
    {
        row_laws();
        part_laws();
        pdl_push::assign(&mut self.table, id, first, values, steps)
    }

    /// Each element of an array becomes an operator's value on it and one number, which is of its
    /// type and no divisor 0. The array is one that can be lent, its base is its root, and it shows
    /// no place twice. Else it is as `assign` of these values: they are put where the elements
    /// stand, in one pass. It takes a step for each, and no memory. The array can be lent
    /// afterwards.
    pub fn update<L: Ledger>(&mut self, id: ArrayId, change: Update, steps: &mut Steps<L>)
        requires live { IsLive self.old.world id }
        requires fresh { is_fresh self.old id ≡ true }
        requires over_root { base self.old.world id ≡ root_of self.old.world id }
        requires once { has_repeats (places_in self.old.world id) ≡ false }
        requires suits { Suits (ty_in self.old.world id) change }
        ensures world { let w = self.old.world in
            let values = map (updated (ty_in w id) change) (elements w id) in
            self.new.world ≡ assign w id values }
        ensures holds { self.new.holds ≡ self.old.holds }
        ensures next { self.new.next ≡ self.old.next }
        ensures others { (u : ℕ) → (root_of self.old.world u ≡ root_of self.old.world id → ⊥)
            → is_fresh self.old u ≡ true → is_fresh self.new u ≡ true }
        ensures sound { IsSound self.new.world }
        ensures target { TargetIsFresh self.old id self.new }
        ensures waits { TargetWaits self.old id self.new }
        ensures counted { steps.new ≡ steps.old + size_of (dims_in self.old.world id) }
    {
        row_laws();
        part_laws();
        pdl_push::update(&mut self.table, id, change, steps)
    }

    /// Puts the elements of an array at the positions of another one. Both can be lent, are of
    /// different roots, and have the same type and dimensions, and the target's elements stand in its
    /// root. Else it is as `assign` of these values: they are copied from one buffer to the other in
    /// their own width. It takes a step for each, and no memory. The target can be lent afterwards.
    pub fn copy<L: Ledger>(&mut self, id: ArrayId, source: ArrayId, steps: &mut Steps<L>)
        requires live { IsLive self.old.world id }
        requires source { IsLive self.old.world source }
        requires fresh { is_fresh self.old id ≡ true }
        requires source_fresh { is_fresh self.old source ≡ true }
        requires over_root { base self.old.world id ≡ root_of self.old.world id }
        requires apart { root_of self.old.world source ≢ root_of self.old.world id }
        requires same_type { ty_in self.old.world source ≡ ty_in self.old.world id }
        requires same_dims { dims_in self.old.world source ≡ dims_in self.old.world id }
        ensures world { self.new.world ≡ assign self.old.world id (elements self.old.world source) }
        ensures holds { self.new.holds ≡ self.old.holds }
        ensures next { self.new.next ≡ self.old.next }
        ensures others { (u : ℕ) → (root_of self.old.world u ≡ root_of self.old.world id → ⊥)
            → is_fresh self.old u ≡ true → is_fresh self.new u ≡ true }
        ensures sound { IsSound self.new.world }
        ensures target { TargetIsFresh self.old id self.new }
        ensures waits { TargetWaits self.old id self.new }
        ensures counted { steps.new ≡ steps.old + size_of (dims_in self.old.world id) }
    {
        row_laws();
        part_laws();
        pdl_push::copy(&mut self.table, id, source, steps)
    }

    /// Puts these elements at the positions of a root, as `assign` does. They are taken over as they
    /// are kept: no element is moved, so it takes no step, and no memory.
    pub fn replace(&mut self, id: ArrayId, values: Buf)
        requires live { IsLive self.old.world id }
        requires fresh { is_fresh self.old id ≡ true }
        requires root { root_of self.old.world id ≡ id }
        requires type_is { values.ty ≡ ty_in self.old.world id }
        requires count { length values.elems ≡ size_of (dims_in self.old.world id) }
        requires in_range { All (InRange (ty_in self.old.world id)) values.elems }
        ensures world { self.new.world ≡ assign self.old.world id values.elems }
        ensures holds { self.new.holds ≡ self.old.holds }
        ensures next { self.new.next ≡ self.old.next }
        ensures others { (u : ℕ) → (root_of self.old.world u ≡ root_of self.old.world id → ⊥)
            → is_fresh self.old u ≡ true → is_fresh self.new u ≡ true }
        ensures sound { IsSound self.new.world }
        ensures target { TargetIsFresh self.old id self.new }
        ensures waits { TargetWaits self.old id self.new }
    {
        row_laws();
        part_laws();
        pdl_push::replace(&mut self.table, id, values)
    }
}
