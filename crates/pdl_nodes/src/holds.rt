//! How often each number is held.
ghost use Rattle.std.specs.Prelude.{◌≡◌, ◌≢◌, ℕ, ◌+◌, ◌-◌, ◌<◌, ◌^◌, ◌==◌, if◌then◌else◌, [], ◌∷◌, true, false, Some, None, OnOk, OnErr};
ghost use Rattle.pdl_nodes.specs.Rows.{NumbersBelow, has, row_at};
ghost use Rattle.pdl_registry.specs.Numbered.{IsAbove};
ghost use Rattle.pdl_nodes.specs.Holds.{hold_at, is_held, stands, count, going, with_going, goes_in, less_one, one_more, held_once, Beside};

use crate::node::Node;
use crate::table::Table;
use pdl_registry::Numbered;
use std::alloc::{AllocError, Global};
use std::marker::Model;

/// How often a number is held, and how many of its views are noted as those that go.
#[derive(Clone, Copy, Drop)]
pub struct Hold {
    pub count: u64,
    pub going: u64,
}

/// The holds by number. Contracts see the numbers with their holds.
#[derive(Drop)]
pub struct Holds {
    by_number: Numbered<Hold>,
}

impl Model for Holds {
    ghost use Rattle.pdl_nodes.specs.Holds.{Counts};

    ghost Value = { Counts };

    ghost view = { λ h. h.by_number };
}

impl Holds {
    /// No array is held, and none is counted as going.
    pub fn new(alloc: Global) -> Holds
        ensures { result ≡ [] }
    {
        Holds {
            by_number: Numbered::new(alloc),
        }
    }

    /// Whether an array of so many views goes: it isn't held, and all of them go.
    pub fn goes(&self, id: u64, views: u64) -> bool
        ensures { result ≡ goes_in views (hold_at self.now id) }
    {
        match self.by_number.get(id) {
            Some(hold) => hold.count == 0 && hold.going == views,
            None => false,
        }
    }

    /// Whether the number has holds, be it none.
    pub fn has(&self, id: u64) -> bool
        ensures { result ≡ stands self.now id }
    {
        self.by_number.has(id)
    }

    /// Whether the number is held.
    pub fn is_held(&self, id: u64) -> bool
        ensures { result ≡ is_held self.now id }
    {
        match self.by_number.get(id) {
            Some(hold) => hold.count > 0,
            None => false,
        }
    }

    /// Notes that one view more goes, of an array of so many views.
    pub fn note(&mut self, id: u64, views: u64)
        requires { going self.old id < views }
        ensures here { hold_at self.new id
            ≡ with_going (going self.old id + 1) (hold_at self.old id) }
        ensures others { (v : ℕ) → v ≢ id → hold_at self.new v ≡ hold_at self.old v }
    {
        self.by_number.change(
            id,
            |hold| Hold {
                going: hold.going + 1,
                ..hold
            },
        );
    }

    /// Takes the note of one view back, which is gone.
    pub fn take_note(&mut self, id: u64)
        ensures here { hold_at self.new id
            ≡ with_going (going self.old id - 1) (hold_at self.old id) }
        ensures others { (v : ℕ) → v ≢ id → hold_at self.new v ≡ hold_at self.old v }
    {
        self.by_number.change(
            id,
            |hold| Hold {
                going: hold.going.saturating_sub(1),
                ..hold
            },
        );
    }

    /// Holds a number above all others once.
    pub fn insert(&mut self, id: u64) -> Result<(), AllocError>
        requires above { IsAbove id self.old }
        ensures here { OnOk result (hold_at self.new id ≡ Some (held_once)) }
        ensures others { (v : ℕ) → v ≢ id → hold_at self.new v ≡ hold_at self.old v }
        ensures err { OnErr result (self.new ≡ self.old) }
    {
        self.by_number.insert(id, Hold { count: 1, going: 0 })?;
        Ok(())
    }

    /// Holds a number once more.
    pub fn hold(&mut self, id: u64)
        requires { count self.old id < 2 ^ 63 }
        ensures here { hold_at self.new id ≡ one_more (hold_at self.old id) }
        ensures others { (v : ℕ) → v ≢ id → hold_at self.new v ≡ hold_at self.old v }
    {
        self.by_number.change(
            id,
            |hold| Hold {
                count: hold.count + 1,
                ..hold
            },
        );
    }

    /// Takes one hold back.
    pub fn take(&mut self, id: u64)
        requires { 0 < count self.old id }
        ensures here { hold_at self.new id ≡ less_one (hold_at self.old id) }
        ensures others { (v : ℕ) → v ≢ id → hold_at self.new v ≡ hold_at self.old v }
    {
        self.by_number.change(
            id,
            |hold| Hold {
                count: hold.count - 1,
                ..hold
            },
        );
    }

    /// Whether a number is held once.
    fn is_last(&self, id: u64) -> bool
        ensures { result ≡ (count self.now id == 1) }
    {
        match self.by_number.get(id) {
            Some(hold) => hold.count == 1,
            None => false,
        }
    }

    /// Takes one hold back, and forgets a number that was held once. The answer says whether it
    /// was.
    pub fn take_out(&mut self, id: u64) -> bool
        requires { 0 < count self.old id }
        ensures last { result ≡ (count self.old id == 1) }
        ensures here { hold_at self.new id
            ≡ if result then None else less_one (hold_at self.old id) }
        ensures others { (v : ℕ) → v ≢ id → hold_at self.new v ≡ hold_at self.old v }
    {
        if self.is_last(id) {
            self.remove(id);
            return true;
        }
        self.take(id);
        false
    }

    /// Forgets a number.
    pub fn remove(&mut self, id: u64)
        ensures here { hold_at self.new id ≡ None }
        ensures others { (v : ℕ) → v ≢ id → hold_at self.new v ≡ hold_at self.old v }
    {
        self.by_number.remove(id);
    }
}

/// Keeps one more node, held once, under a number that is above all others and that no node has as
/// its root. A view isn't marked. Out of memory, it leaves the rows, and the holds of all numbers.
pub fn insert(table: &mut Table, holds: &mut Holds, id: u64, node: Node) -> Result<(), AllocError>
    requires below { NumbersBelow id table.old }
    requires new_root { (v : ℕ) → has table.old v ≡ true → (row_at table.old v).root ≢ id }
    requires unmarked { node.root ≢ id → node.mark ≡ false }
    requires beside { Beside table.old holds.old }
    ensures ok { OnOk result (table.new ≡ (id, node) ∷ table.old) }
    ensures held { OnOk result (hold_at holds.new id ≡ Some held_once) }
    ensures beside { Beside table.new holds.new }
    ensures others { (v : ℕ) → v ≢ id → hold_at holds.new v ≡ hold_at holds.old v }
    ensures err { OnErr result (table.new ≡ table.old) }
{
    table.insert(id, node)?;
    match holds.insert(id) {
        Ok(()) => Ok(()),
        Err(refused) => {
            table.remove(id);
            Err(refused)
        }
    }
}
