//! How often a scope holds its arrays.
ghost use Rattle.std.specs.Prelude.{◌≡◌, ℕ, ◌+◌, ◌<◌, ◌≤◌, ◌^◌, List, [], ◌∷◌, ◌++◌, length, map, true, false, vec_capacity, All, IfSome, IsTrue};
ghost use Rattle.std.specs.Option.{option_to_list};
ghost use Rattle.pdl_world.specs.Paths.{parent_in};
ghost use Rattle.pdl_world.specs.Swept.{is_listed};
ghost use Rattle.pdl_world.specs.Sound.{IsLive};
ghost use Rattle.pdl_engine.specs.Held.{count_at};
ghost use Rattle.pdl_machine.specs.Names.{with_name, names_limit};
ghost use Rattle.pdl_machine.specs.State.{AreLive};
ghost use Rattle.pdl_scope.specs.Room.{with_names};
ghost use Rattle.pdl_scope.specs.Holding.{AreHeld, AreHeldBeside, IsHeldBeside, IsHeldForName, IsHeldWith, SameButHolds, StaysHeld, StaysHeldFor, LetsGo};
ghost use Rattle.pdl_scope.specs.LetGo.{GoesOn};

use crate::laws::{hold_once_laws, releasing_laws};
use crate::names::Names;
use pdl_buf::Steps;
use pdl_elem::Name;
use pdl_engine::{ArrayId, Engine};
use std::sync::ledger::Ledger;

/// Notes an array at the end of a list that has room for it.
pub(crate) fn note(list: &mut Vec<ArrayId>, id: ArrayId)
    requires { length list.old.items < vec_capacity list.old }
    ensures items { list.new.items ≡ list.old.items ++ id ∷ [] }
    ensures room { vec_capacity list.old ≤ vec_capacity list.new }
{
    match list.push(id) {
        Ok(()) => (),
        Err(_) => unreachable!(),
    }
}

/// Notes an array, if there is one, at the end of a list that has room for it.
pub(crate) fn note_some(list: &mut Vec<ArrayId>, id: Option<ArrayId>)
    requires { length list.old.items < vec_capacity list.old }
    ensures items { list.new.items ≡ list.old.items ++ option_to_list id }
    ensures room { vec_capacity list.old ≤ vec_capacity list.new }
{
    if let Some(id) = id {
        note(list, id);
    }
}

/// Notes arrays in order at the end of a list that has room for them.
pub(crate) fn note_all(list: &mut Vec<ArrayId>, ids: &[ArrayId])
    requires { length list.old.items + length ids.now ≤ vec_capacity list.old }
    ensures items { list.new.items ≡ list.old.items ++ ids.now }
    ensures room { vec_capacity list.old ≤ vec_capacity list.new }
{
    for id in ids {
        note(list, *id);
    }
}

/// Takes an array off the end of a list, if it stands there.
fn take_last(list: &mut Vec<ArrayId>, id: ArrayId) -> bool
    ensures taken { IsTrue result → list.old.items ≡ list.new.items ++ id ∷ [] }
    ensures kept { result ≡ false → list.new.items ≡ list.old.items }
    ensures room { vec_capacity list.new ≡ vec_capacity list.old }
{
    if list.last().copied() == Some(id) {
        list.pop();
        true
    } else {
        false
    }
}

/// Holds an array for a name. Where it stands last among those that leave, the name takes over the
/// hold that it has there.
pub(crate) fn hold_for_name(engine: &mut Engine, leaving: &mut Vec<ArrayId>, id: ArrayId)
    requires live { IsLive engine.old.world id }
    requires room { count_at engine.old.holds id < 2 ^ 63 }
    ensures held { IsHeldForName engine.old leaving.old.items id engine.new leaving.new.items }
    ensures few { length leaving.new.items ≤ length leaving.old.items }
    ensures room { vec_capacity leaving.new ≡ vec_capacity leaving.old }
{
    if !take_last(leaving, id) {
        engine.hold(id);
    }
}

/// Holds the parent of an array, if there is one, until the statement ends.
pub(crate) fn hold_parent(engine: &mut Engine, leaving: &mut Vec<ArrayId>, id: ArrayId)
    requires live { IsLive engine.old.world id }
    requires room { length leaving.old.items < vec_capacity leaving.old }
    requires small { length leaving.old.items < 2 ^ 62 }
    requires held { IsHeldBeside engine.old leaving.old.items }
    ensures same { SameButHolds engine.old engine.new }
    ensures parent { let parent = parent_in engine.old.world id in
        IfSome parent (λ p. is_listed leaving.new.items p ≡ true) }
    ensures held { StaysHeld engine.old leaving.old.items engine.new leaving.new.items }
    ensures count { length leaving.new.items ≤ length leaving.old.items + 1 }
    ensures room { vec_capacity leaving.old ≤ vec_capacity leaving.new }
{
    hold_once_laws();
    engine.holds_law();
    if let Some(parent) = engine.parent(id) {
        engine.hold(parent);
        note(leaving, parent);
    }
}

/// Binds a name to an array, which is held for it, and notes the one that the name gives up. All
/// room for it was taken before.
pub(crate) fn bind_one(
    engine: &mut Engine,
    names: &mut Names,
    leaving: &mut Vec<ArrayId>,
    name: Name,
    id: ArrayId,
)
    requires live { IsLive engine.old.world id }
    requires spare { 0 < names.old.spare }
    requires room { length leaving.old.items < vec_capacity leaving.old }
    requires few { length (with_name names.old.entries name id) ≤ names_limit }
    requires small { length leaving.old.items < 2 ^ 62 }
    requires held { IsHeldWith names.old.entries engine.old leaving.old.items }
    ensures names { names.new.entries ≡ with_name names.old.entries name id }
    ensures same { SameButHolds engine.old engine.new }
    ensures held { StaysHeldFor names.old.entries engine.old leaving.old.items
        names.new.entries engine.new leaving.new.items }
    ensures spare { names.old.spare ≤ names.new.spare + 1 }
    ensures count { length leaving.new.items ≤ length leaving.old.items + 1 }
    ensures room { vec_capacity leaving.old ≤ vec_capacity leaving.new }
{
    hold_once_laws();
    engine.holds_law();
    hold_for_name(engine, leaving, id);
    let had = names.put(name, id);
    note_some(leaving, had);
}

/// Binds names to arrays in order. All room for it was taken before.
pub(crate) fn bind_all(
    engine: &mut Engine,
    names: &mut Names,
    leaving: &mut Vec<ArrayId>,
    mut bound: Vec<(Name, ArrayId)>,
)
    requires live { AreLive engine.old.world (map (λ n. n.1) bound.items) }
    requires spare { length bound.items ≤ names.old.spare }
    requires room { length leaving.old.items + length bound.items ≤ vec_capacity leaving.old }
    requires small { length leaving.old.items + length bound.items < 2 ^ 62 }
    requires few { length (with_names names.old.entries bound.items) ≤ names_limit }
    requires held { IsHeldWith names.old.entries engine.old leaving.old.items }
    ensures names { names.new.entries ≡ with_names names.old.entries bound.items }
    ensures same { SameButHolds engine.old engine.new }
    ensures held { StaysHeldFor names.old.entries engine.old leaving.old.items
        names.new.entries engine.new leaving.new.items }
{
    bound.reverse();
    while let Some((name, id)) = bound.pop() {
        bind_one(engine, names, leaving, name, id);
    }
}

/// Takes one hold back for each place in a list: what the others reach stays. What is left can be
/// lent as before. It takes at most a step for each element that waits in a view that goes.
pub(crate) fn release_all<L: Ledger>(engine: &mut Engine, leaving: &[ArrayId], steps: &mut Steps<L>)
    requires { AreHeldBeside engine.old leaving.now }
    ensures lets_go { (staying : List ℕ) → AreHeld engine.old staying leaving.now
        → LetsGo staying engine.old engine.new [] }
    ensures goes_on { GoesOn engine.old engine.new steps.old steps.new }
{
    releasing_laws();
    for id in leaving {
        engine.holds_law();
        engine.lazy_law();
        engine.release(*id, steps);
    }
}
