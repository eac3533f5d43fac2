//! Which arrays the slots of watchers are attached to, and what watchers are to be told.
ghost use Rattle.std.specs.Option.{option_map_or};
ghost use Rattle.std.specs.Prelude.{◌≡◌, false, ◌+◌, ◌<◌, ◌≤◌, sum_by, [], length, take, IfOk, IfSome, IsSome, is_some, None, Ok, OnOk, OnErr, ◌∷◌};
ghost use Rattle.pdl_world.specs.Sound.{IsLive};
ghost use Rattle.pdl_world.specs.World.{assign, elements};
ghost use Rattle.pdl_world.specs.Paths.{root_of};
ghost use Rattle.pdl_world.specs.Swept.{is_listed};
ghost use Rattle.pdl_engine.specs.Reading.{read_steps};
ghost use Rattle.pdl_engine.specs.State.{SameArrays, StayFresh};
ghost use Rattle.pdl_watch.specs.Changes.{changes};
ghost use Rattle.pdl_watch.specs.Slots.{lists_of};
ghost use Rattle.pdl_machine.specs.Cuts.{is_watched};
ghost use Rattle.pdl_machine.specs.Flows.{all_read};
ghost use Rattle.pdl_machine.specs.State.{AreLive};
ghost use Rattle.pdl_machine.specs.Watches.{attach, attached, detach, notices, padded, slot_notices, trimmed, watch_of};
ghost use Rattle.pdl_scope.specs.Answers.{Runs};
ghost use Rattle.pdl_scope.specs.Plans.{ArePlanned, IsChange, all_assigned, listed, roots_in};
ghost use Rattle.pdl_scope.specs.Scope.{machine, slots_limit};

use crate::fault::ScopeFault;
use crate::flows::KeptFlow;
use crate::following::{Change, find_change};
use crate::holding::note_some;
use crate::laws::{detaching_laws, hold_once_laws};
use crate::scope::Scope;
use pdl_buf::Steps;
use pdl_engine::{ArrayId, Engine};
use pdl_shape::elements_of;
use pdl_watch::{Notice, change_laws, changes};
use pdl_world::{assignment_laws, part_laws};
use std::alloc::{AllocError, Global};
use std::sync::ledger::Ledger;

impl Scope {
    /// By slots the array that the slot's watcher is attached to. Slots behind the last one aren't
    /// attached.
    pub fn watches(&self) -> &[Option<ArrayId>]
        ensures { result.now ≡ self.now.watches }
    {
        &self.watches
    }

    /// Attaches the watcher of a slot, which isn't attached, to an array. The array is held for it,
    /// and all room is taken before.
    pub fn watch(&mut self, id: ArrayId, slot: usize) -> Result<(), ScopeFault>
        requires live { IsLive self.old.arrays.world id }
        requires small { slot < slots_limit }
        requires free { watch_of self.old.watches slot ≡ None }
        ensures { let watches = attach self.old.watches slot id in
            let wanted = Ok (record (machine self.old) { watches = watches }, []) in
            Runs wanted self.old self.new [] [] result }
    {
        hold_once_laws();
        self.engine.holds_law();
        attach(&mut self.watches, slot, id)?;
        self.engine.hold(id);
        Ok(())
    }

    /// Detaches the watcher of a slot. Its array is kept until the statement ends, and all room is
    /// taken before.
    pub fn unwatch(&mut self, slot: usize) -> Result<(), ScopeFault>
        requires attached { IsSome (watch_of self.old.watches slot) }
        ensures { let watches = detach self.old.watches slot in
            let wanted = Ok (record (machine self.old) { watches = watches }, []) in
            Runs wanted self.old self.new [] [] result }
    {
        detaching_laws();
        self.leaving.reserve(1)?;
        let had = detach(&mut self.watches, slot);
        note_some(&mut self.leaving, had);
        Ok(())
    }
}

/// Attaches a slot to an array in a list by slots, which gets an entry for each slot up to this
/// one. Out of memory, it leaves the list.
fn attach(watches: &mut Vec<Option<ArrayId>>, slot: usize, id: ArrayId) -> Result<(), AllocError>
    requires { slot < slots_limit }
    ensures ok { OnOk result (watches.new.items ≡ attach watches.old.items slot id) }
    ensures err { OnErr result (watches.new.items ≡ watches.old.items) }
{
    pad(watches, slot + 1)?;
    watches[slot] = Some(id);
    Ok(())
}

/// Lengthens a list by slots to so many entries, if it has fewer. Out of memory, it leaves the
/// list.
fn pad(watches: &mut Vec<Option<ArrayId>>, count: usize) -> Result<(), AllocError>
    ensures ok { OnOk result (watches.new.items ≡ padded watches.old.items count) }
    ensures err { OnErr result (watches.new.items ≡ watches.old.items) }
{
    let missing = count.saturating_sub(watches.len());
    watches.reserve(missing)?;
    for added in 0..missing {
        match watches.push(None) {
            Ok(()) => (),
            Err(_) => unreachable!(),
        }
    }
    Ok(())
}

/// Detaches a slot in a list by slots, and answers the array that it was attached to.
fn detach(watches: &mut Vec<Option<ArrayId>>, slot: usize) -> Option<ArrayId>
    requires { slot < length watches.old.items }
    ensures given_up { result ≡ watch_of watches.old.items slot }
    ensures watches { watches.new.items ≡ detach watches.old.items slot }
{
    let had = watches[slot];
    watches[slot] = None;
    trim(watches);
    had
}

/// Whether a slot is attached by its entry in a list by slots.
fn is_attached(watches: &[Option<ArrayId>], slot: usize) -> bool
    requires { slot < length watches.now }
    ensures { result ≡ is_some (watch_of watches.now slot) }
{
    watches[slot].is_some()
}

/// How many entries a list by slots has up to the last one that attaches a slot.
fn attached_count(watches: &[Option<ArrayId>]) -> usize
    ensures { trimmed watches.now ≡ take result watches.now }
{
    let mut count = watches.len();
    'trimming: while count > 0 {
        if is_attached(watches, count - 1) {
            return count;
        }
        count -= 1;
    }
    0
}

/// Drops the entries of a list by slots behind the last one that attaches a slot.
fn trim(watches: &mut Vec<Option<ArrayId>>)
    ensures { watches.new.items ≡ trimmed watches.old.items }
{
    let count = attached_count(watches);
    watches.truncate(count);
}

/// Whether a slot is attached to an array, or to one that reaches it by parents.
pub(crate) fn is_watched(engine: &Engine, watches: &[Option<ArrayId>], id: ArrayId) -> bool
    requires { AreLive engine.now.world (attached watches.now) }
    ensures { result ≡ is_watched watches.now engine.now.world id }
{
    for watch in watches {
        if is_below(engine, *watch, id) {
            return true;
        }
    }
    false
}

/// Whether the array of a slot, if it is attached, reaches an array by parents.
fn is_below(engine: &Engine, watch: Option<ArrayId>, id: ArrayId) -> bool
    requires { IfSome watch (IsLive engine.now.world) }
    ensures { result ≡ is_watched (watch ∷ []) engine.now.world id }
{
    match watch {
        Some(seen) => engine.reaches(seen, id),
        None => false,
    }
}

/// How many elements will be looked up, at most, to foresee what slots are told, and what flows
/// read of the family of an array that is assigned to.
pub(crate) fn lookups(
    engine: &Engine,
    watches: &[Option<ArrayId>],
    flows: &[KeptFlow],
    target: ArrayId,
) -> u64
    requires target { IsLive engine.now.world target }
    requires watched { AreLive engine.now.world (attached watches.now) }
    requires read { AreLive engine.now.world (all_read flows.now) }
{
    let root = engine.root(target);
    watched_count(engine, watches, root).saturating_add(read_count(engine, flows, root, target))
}

/// How many elements the arrays of a root have that slots are attached to, each slot's counted.
fn watched_count(engine: &Engine, watches: &[Option<ArrayId>], root: ArrayId) -> u64
    requires { AreLive engine.now.world (attached watches.now) }
{
    let mut count: u64 = 0;
    for watch in watches {
        count = count.saturating_add(count_watched(engine, *watch, root));
    }
    count
}

/// How many elements the array of a slot has, and none where it isn't attached or has another root.
fn count_watched(engine: &Engine, watch: Option<ArrayId>, root: ArrayId) -> u64
    requires { IfSome watch (IsLive engine.now.world) }
{
    match watch {
        Some(id) => count_below(engine, id, root),
        None => 0,
    }
}

/// How many elements are looked up for what formulas of flows read of a root, each place in a formula
/// counted, where an array of the root is assigned to.
fn read_count(engine: &Engine, flows: &[KeptFlow], root: ArrayId, target: ArrayId) -> u64
    requires { AreLive engine.now.world (all_read flows.now) }
{
    let mut count: u64 = 0;
    for flow in flows {
        count = count.saturating_add(count_all(engine, flow.reads(), root, target));
    }
    count
}

/// How many elements those of these arrays have together that have this root. A root that is the
/// target has the values, which aren't looked up.
fn count_all(engine: &Engine, ids: &[ArrayId], root: ArrayId, target: ArrayId) -> u64
    requires { AreLive engine.now.world ids.now }
{
    let mut count: u64 = 0;
    for id in ids {
        if *id != root || root != target {
            count = count.saturating_add(count_below(engine, *id, root));
        }
    }
    count
}

/// How many elements an array has, and none where it has another root.
fn count_below(engine: &Engine, id: ArrayId, root: ArrayId) -> u64
    requires { IsLive engine.now.world id }
{
    if engine.root(id) != root {
        return 0;
    }
    u64::from(elements_of(engine.dims(id)))
}

/// Whether a formula of a flow reads an array that isn't a root.
pub(crate) fn reads_views(engine: &Engine, flows: &[KeptFlow]) -> bool
    requires { AreLive engine.now.world (all_read flows.now) }
{
    for flow in flows {
        if has_view(engine, flow.reads()) {
            return true;
        }
    }
    false
}

/// Whether one of these arrays isn't a root.
fn has_view(engine: &Engine, ids: &[ArrayId]) -> bool
    requires { AreLive engine.now.world ids.now }
{
    for id in ids {
        if engine.root(*id) != *id {
            return true;
        }
    }
    false
}

/// What the watcher of each slot is to be told of the assignments of a plan, which will be made.
/// What could be lent can be lent. Where no slot is attached nothing is looked at.
pub(crate) fn foreseen<L: Ledger>(
    alloc: Global,
    engine: &mut Engine,
    number: u64,
    plan: &[Change],
    watches: &[Option<ArrayId>],
    steps: &mut Steps<L>,
) -> Result<Vec<Vec<Notice>>, AllocError>
    requires watched { AreLive engine.old.world (attached watches.now) }
    requires plan { ArePlanned engine.old plan.now }
    ensures told { let w = engine.old.world in
        let wanted = notices number w (all_assigned w plan.now) watches.now in
        IfOk result (λ all. lists_of all.items ≡ wanted) }
    ensures same { SameArrays engine.old engine.new }
    ensures stay { StayFresh engine.old engine.new }
    ensures quiet { attached watches.now ≡ [] → steps.new ≡ steps.old }
    ensures counted { let most = sum_by (read_steps engine.old) (attached watches.now) in
        steps.new ≤ steps.old + most }
{
    let mut all = Vec::with_capacity(alloc, watches.len())?;
    engine.resting_law();
    for watch in watches {
        engine.resting_law();
        let told = slot_foreseen(alloc, engine, number, plan, *watch, steps)?;
        all.push(told)?;
    }
    Ok(all)
}

/// What the watcher of one slot is to be told.
fn slot_foreseen<L: Ledger>(
    alloc: Global,
    engine: &mut Engine,
    number: u64,
    plan: &[Change],
    watch: Option<ArrayId>,
    steps: &mut Steps<L>,
) -> Result<Vec<Notice>, AllocError>
    requires watched { IfSome watch (IsLive engine.old.world) }
    requires plan { ArePlanned engine.old plan.now }
    ensures told { let w = engine.old.world in
        let wanted = slot_notices number w (all_assigned w plan.now) watch in
        IfOk result (λ ns. ns.items ≡ wanted) }
    ensures same { SameArrays engine.old engine.new }
    ensures stay { StayFresh engine.old engine.new }
    ensures quiet { watch ≡ None → steps.new ≡ steps.old }
    ensures counted { let most = option_map_or (read_steps engine.old) watch 0 in
        steps.new ≤ steps.old + most }
{
    match watch {
        Some(id) => array_foreseen(alloc, engine, number, plan, id, steps),
        None => Ok(Vec::new(alloc)),
    }
}

/// Where an array will change, and how. Of an array of a root that the plan doesn't alter nothing is
/// read.
fn array_foreseen<L: Ledger>(
    alloc: Global,
    engine: &mut Engine,
    number: u64,
    plan: &[Change],
    seen: ArrayId,
    steps: &mut Steps<L>,
) -> Result<Vec<Notice>, AllocError>
    requires live { IsLive engine.old.world seen }
    requires plan { ArePlanned engine.old plan.now }
    ensures told { let w = engine.old.world in
        let wanted = changes number (elements w seen) (elements (all_assigned w plan.now) seen) in
        IfOk result (λ ns. ns.items ≡ wanted) }
    ensures same { SameArrays engine.old engine.new }
    ensures stay { StayFresh engine.old engine.new }
    ensures counted { steps.new ≤ steps.old + read_steps engine.old seen }
    ensures apart { is_listed (roots_in plan.now) (root_of engine.old.world seen) ≡ false
        → (engine.new ≡ engine.old) × (steps.new ≡ steps.old) }
{
    assignment_laws();
    part_laws();
    change_laws();
    match find_change(plan, engine.root(seen)) {
        Some(change) => changes_foreseen(alloc, engine, number, change, seen, steps),
        None => Ok(Vec::new(alloc)),
    }
}

/// Where an array will change by one assignment, and how.
fn changes_foreseen<L: Ledger>(
    alloc: Global,
    engine: &mut Engine,
    number: u64,
    change: &Change,
    seen: ArrayId,
    steps: &mut Steps<L>,
) -> Result<Vec<Notice>, AllocError>
    requires live { IsLive engine.old.world seen }
    requires own { IsChange engine.old change.now }
    ensures told { let w = engine.old.world in
        let after = elements (assign w change.now.target (listed change.now.values)) seen in
        IfOk result (λ ns. ns.items ≡ changes number (elements w seen) after) }
    ensures same { SameArrays engine.old engine.new }
    ensures stay { StayFresh engine.old engine.new }
    ensures counted { steps.new ≤ steps.old + read_steps engine.old seen }
{
    change_laws();
    match change.foresee(alloc, engine, seen, steps)? {
        Some(foreseen) => changes(alloc, number, &foreseen.before, &foreseen.after),
        None => Ok(Vec::new(alloc)),
    }
}
