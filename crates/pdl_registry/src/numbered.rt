//! Values by numbers: `std`'s ordered map, the highest number first, and before it the newest,
//! which are asked for most and go soonest.
ghost use Rattle.std.specs.Prelude.{◌≡◌, ◌≢◌, ℕ, ◌<◌, ◌≤◌, ◌++◌, List, [], length, map, reverse, is_some, IsSome, IsSomeAnd, MatchOption, Some, None, IfSome, IfNone, OnOk, OnErr};
ghost use Rattle.std.specs.Option.{ForSome, option_copied};
ghost use Rattle.pdl_registry.specs.Numbered.{IsAbove, IsPlace, IsPut, Rises, first_from, most_newest, value_at};

use crate::descending::Descending;
use crate::limits::MOST_NEWEST;
use std::alloc::{AllocError, Global};
use std::collections::BTreeMap;
use std::marker::Model;
use std::ops::Index;

/// Values by numbers. The newest stand in a short list before the map, and go into the map, oldest
/// first, as newer ones come. So a number that goes soon was never in the map, where each insertion
/// and each removal beside 500 others takes hundreds of instructions.
#[derive(Drop)]
pub struct Numbered<V> {
    settled: BTreeMap<Descending, V>,
    newest: Vec<(u64, V)>,
}

impl<V> Model for Numbered<V> {
    ghost use Rattle.std.specs.Prelude.{ℕ, ◌≤◌, List, ◌++◌, length, reverse};
    ghost use Rattle.pdl_registry.specs.Numbered.{Rises, most_newest};

    ghost Value = { List (ℕ × V) };

    ghost view = { λ n. reverse n.settled.entries ++ n.newest.items };

    ghost invariant = { λ n.
        Rises (reverse n.settled.entries ++ n.newest.items)
        × (length n.newest.items ≤ most_newest) };
}

impl<V: Copy + Drop> Numbered<V> {
    /// No number has a value. It takes no memory.
    pub fn new(alloc: Global) -> Numbered<V>
        ensures { result ≡ [] }
    {
        Numbered {
            settled: BTreeMap::new(alloc),
            newest: Vec::new(alloc),
        }
    }

    /// The value of a number, if it has one.
    pub fn get(&self, id: u64) -> Option<&V>
        ensures { option_copied result ≡ value_at self.now id }
    {
        match place(&self.newest, id) {
            Some(at) => Some(&self.newest[at].1),
            None => self.settled.get(&Descending::of(id)),
        }
    }

    /// Whether a number has a value.
    pub fn has(&self, id: u64) -> bool
        ensures { result ≡ is_some (value_at self.now id) }
    {
        self.get(id).is_some()
    }

    /// How many numbers have a value.
    pub fn len(&self) -> usize
        ensures { result ≡ length self.now }
    {
        self.settled.len() + self.newest.len()
    }

    /// Gives a number the value that a call makes of the one that it has; one without a value is
    /// left so.
    pub fn change<F: FnOnce(V) -> V>(&mut self, id: u64, by: F)
        requires { ForSome (value_at self.old id) (F.pre by) }
        ensures here { MatchOption (value_at self.old id)
            (value_at self.new id ≡ None)
            (λ x. IsSomeAnd (value_at self.new id) (F.post by x)) }
        ensures others { (u : ℕ) → u ≢ id → value_at self.new u ≡ value_at self.old u }
        ensures rises { Rises self.new }
    {
        match place(&self.newest, id) {
            Some(at) => {
                let value = by(self.newest[at].1);
                self.newest[at] = (id, value);
            }
            None => match self.settled.get_mut(&Descending::of(id)) {
                Some(kept) => {
                    *kept = by(*kept);
                }
                None => {}
            },
        }
    }

    /// Gives a number above all others a value.
    pub fn insert(&mut self, id: u64, value: V) -> Result<(), AllocError>
        requires above { IsAbove id self.old }
        ensures put { OnOk result (IsPut self.old self.new id (Some value)) }
        ensures rises { Rises self.new }
        ensures err { OnErr result (self.new ≡ self.old) }
    {
        settle(&mut self.settled, &mut self.newest)?;
        self.newest.push((id, value))?;
        Ok(())
    }

    /// Takes the value of a number away, if it has one, and hands it out.
    pub fn remove(&mut self, id: u64) -> Option<V>
        ensures taken { result ≡ value_at self.old id }
        ensures put { IsPut self.old self.new id None }
        ensures absent { IfNone result (self.new ≡ self.old) }
        ensures rises { Rises self.new }
    {
        match place(&self.newest, id) {
            Some(at) => {
                let (_, taken) = self.newest.remove(at);
                Some(taken)
            }
            None => self.settled.remove(&Descending::of(id)),
        }
    }

    /// The lowest number from this one on that has a value.
    pub fn from(&self, id: u64) -> Option<u64>
        ensures { result ≡ first_from (map (λ e. e.0) self.now) id }
    {
        match self.settled.range(..=Descending::of(id)).next_back() {
            Some((first, _)) => Some(first.number()),
            None => first_of(&self.newest, id),
        }
    }
}

impl<V: Copy + Drop> Index<u64> for Numbered<V> {
    type Output = V;

    ghost can_index = { λ m v. IsSome (value_at m v) };

    ghost index_gives = { λ m v x. value_at m v ≡ Some x };

    fn index(&self, id: u64) -> &V {
        self.get(id).unwrap()
    }
}

/// Puts the oldest of the newest numbers into the map, where there is no room for one more.
fn settle<V: Copy + Drop>(
    settled: &mut BTreeMap<Descending, V>,
    newest: &mut Vec<(u64, V)>,
) -> Result<(), AllocError>
    requires rises { Rises (reverse settled.old.entries ++ newest.old.items) }
    requires few { length newest.old.items ≤ most_newest }
    ensures same { reverse settled.new.entries ++ newest.new.items
        ≡ reverse settled.old.entries ++ newest.old.items }
    ensures room { OnOk result (length newest.new.items < most_newest) }
    ensures few { length newest.new.items ≤ most_newest }
{
    if newest.len() < MOST_NEWEST {
        return Ok(());
    }
    let (id, value) = newest[0];
    settled.insert(Descending::of(id), value)?;
    newest.remove(0);
    Ok(())
}

/// Where a number stands. The last are looked at first, since they are asked for most; a number
/// below the first stands nowhere.
fn place<V>(entries: &[(u64, V)], id: u64) -> Option<usize>
    requires { Rises entries.now }
    ensures found { IfSome result (IsPlace entries.now id) }
    ensures absent { IfNone result (value_at entries.now id ≡ None) }
{
    let mut at = entries.len();
    if at == 0 || id < entries[0].0 {
        return None;
    }
    while at > 0 {
        at -= 1;
        if entries[at].0 == id {
            return Some(at);
        }
    }
    None
}

/// The first number from this one on.
fn first_of<V>(entries: &[(u64, V)], id: u64) -> Option<u64>
    ensures { result ≡ first_from (map (λ e. e.0) entries.now) id }
{
    let mut at = 0;
    while at < entries.len() {
        if id <= entries[at].0 {
            return Some(entries[at].0);
        }
        at += 1;
    }
    None
}
