//! The views of each array.
ghost use Rattle.std.specs.Prelude.{◌≡◌, ◌≢◌, ℕ, ◌+◌, ◌-◌, ◌||◌, ◌==◌, ◌∷◌, if◌then◌else◌, true, false, nat_lt, length, [], Some, OnOk, OnErr};
ghost use Rattle.pdl_nodes.specs.Children.{AreSame, IsMore, has_number, is_view_of, noted, notes, views};

use std::alloc::{AllocError, Global};
use std::collections::{BTreeMap, BTreeSet};
use std::marker::Model;

/// The views of one array: the newest that came, until it goes or another comes, and the others. So
/// a view that goes before another comes is never put into the set.
#[derive(Drop)]
struct Views {
    newest: Option<u64>,
    others: BTreeSet<u64>,
}

impl Model for Views {
    ghost use Rattle.std.specs.Prelude.{ℕ, List};
    ghost use Rattle.pdl_nodes.specs.Children.{IsApart, numbers_of};

    ghost Value = { List ℕ };

    ghost view = { λ v. numbers_of v.newest v.others };

    ghost invariant = { λ v. IsApart v.newest v.others };
}

/// Puts a view into a set.
fn put(known: &mut BTreeSet<u64>, view: u64) -> Result<(), AllocError>
    ensures { OnOk result ((u : ℕ) → has_number known.new.keys u
        ≡ if view == u then true else has_number known.old.keys u) }
{
    known.insert(view)?;
    Ok(())
}

impl Views {
    /// This view alone.
    fn only(alloc: Global, view: u64) -> Views
        ensures { result ≡ view ∷ [] }
    {
        Views {
            newest: Some(view),
            others: BTreeSet::new(alloc),
        }
    }

    /// How many there are.
    fn len(&self) -> u64
        ensures { result ≡ length self.now }
    {
        let others = self.others.len() as u64;
        match self.newest {
            Some(_) => others + 1,
            None => others,
        }
    }

    /// Puts them into a set.
    fn copy(&self, known: &mut BTreeSet<u64>) -> Result<(), AllocError>
        ensures { OnOk result ((u : ℕ) → has_number known.new.keys u
            ≡ (has_number known.old.keys u || has_number self.now u)) }
    {
        match self.newest {
            Some(view) => put(known, view)?,
            None => {}
        }
        known.extend(self.others.iter().copied())
    }

    /// Adds a view as the newest one. The newest before it takes an entry of the set.
    fn add(&mut self, view: u64) -> Result<(), AllocError>
        requires absent { has_number self.old view ≡ false }
        ensures count { OnOk result (length self.new ≡ length self.old + 1) }
        ensures those { OnOk result
            ((u : ℕ) → has_number self.new u ≡ if view == u then true else has_number self.old u) }
        ensures err { OnErr result (self.new ≡ self.old) }
    {
        if let Some(before) = self.newest {
            self.others.insert(before)?;
        }
        self.newest = Some(view);
        Ok(())
    }

    /// Takes a view out. The answer says whether any is left.
    fn take(&mut self, view: u64) -> bool
        requires listed { has_number self.old view ≡ true }
        ensures count { length self.old ≡ length self.new + 1 }
        ensures those { (u : ℕ) → has_number self.new u
            ≡ if view == u then false else has_number self.old u }
        ensures left { result ≡ nat_lt 0 (length self.new) }
    {
        if self.newest == Some(view) {
            self.newest = None;
        } else {
            self.others.remove(&view);
        }
        self.newest.is_some() || !self.others.is_empty()
    }
}

/// The views of each array that has any, by their numbers.
#[derive(Drop)]
pub struct Children {
    alloc: Global,
    by_parent: BTreeMap<u64, Views>,
}

impl Model for Children {
    ghost use Rattle.std.specs.Ordering.{nat_cmp};
    ghost use Rattle.std.specs.BTreeMap.{IsOrdered};
    ghost use Rattle.pdl_nodes.specs.Children.{Noted};

    ghost Value = { Noted };

    ghost view = { λ c. c.by_parent.entries };

    ghost invariant = { λ c. IsOrdered nat_cmp c.by_parent };
}

impl Children {
    /// No views.
    pub fn new(alloc: Global) -> Children
        ensures { result ≡ [] }
    {
        Children {
            alloc,
            by_parent: BTreeMap::new(alloc),
        }
    }

    /// How many views of an array there are.
    pub fn of(&self, id: u64) -> u64
        ensures { result ≡ noted self.now id }
    {
        match self.by_parent.get(&id) {
            Some(views) => views.len(),
            None => 0,
        }
    }

    /// Puts the views of an array into a set.
    pub fn copy_views(&self, id: u64, known: &mut BTreeSet<u64>) -> Result<(), AllocError>
        ensures { OnOk result ((u : ℕ) → has_number known.new.keys u
            ≡ (has_number known.old.keys u || notes self.now id u)) }
    {
        match self.by_parent.get(&id) {
            Some(views) => views.copy(known),
            None => Ok(()),
        }
    }

    /// Notes one view more of an array.
    fn add_to(&mut self, id: u64, view: u64) -> Result<(), AllocError>
        requires absent { notes self.old id view ≡ false }
        ensures here { OnOk result (noted self.new id ≡ noted self.old id + 1) }
        ensures those { OnOk result
            ((u : ℕ) → notes self.new id u ≡ if view == u then true else notes self.old id u) }
        ensures others { (v : ℕ) → v ≢ id → views self.new v ≡ views self.old v }
        ensures err { OnErr result (views self.new id ≡ views self.old id) }
    {
        match self.by_parent.get_mut(&id) {
            Some(views) => views.add(view),
            None => {
                self.by_parent.insert(id, Views::only(self.alloc, view))?;
                Ok(())
            }
        }
    }

    /// Notes one view less of an array.
    fn take_from(&mut self, id: u64, view: u64)
        requires noted { notes self.old id view ≡ true }
        ensures here { noted self.old id ≡ noted self.new id + 1 }
        ensures those { (u : ℕ) → notes self.new id u
            ≡ if view == u then false else notes self.old id u }
        ensures others { (v : ℕ) → v ≢ id → views self.new v ≡ views self.old v }
    {
        match self.by_parent.get_mut(&id) {
            Some(views) => {
                if views.take(view) {
                    return;
                }
            }
            None => {
                return;
            }
        }
        self.by_parent.remove(&id);
    }

    /// Notes this view more of its parent, if it has one.
    pub fn add(&mut self, parent: Option<u64>, view: u64) -> Result<(), AllocError>
        requires absent { (v : ℕ) → notes self.old v view ≡ false }
        ensures ok { OnOk result (IsMore self.old self.new parent view) }
        ensures err { OnErr result (AreSame self.old self.new) }
    {
        match parent {
            Some(id) => self.add_to(id, view),
            None => Ok(()),
        }
    }

    /// Notes this view less of its parent, if it has one.
    pub fn take(&mut self, parent: Option<u64>, view: u64)
        requires noted { (v : ℕ) → notes self.old v view ≡ is_view_of parent v }
        ensures { IsMore self.new self.old parent view }
    {
        match parent {
            Some(id) => self.take_from(id, view),
            None => {}
        }
    }
}
