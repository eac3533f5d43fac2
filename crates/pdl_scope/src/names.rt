//! The names that arrays are bound to.
ghost use Rattle.std.specs.Prelude.{◌≡◌, ◌+◌, ◌<◌, ◌≤◌, [], length, slice_get, Some, None, Ok, IfOk, IfErr, IfSome, IfNone, OnOk, OnErr};
ghost use Rattle.pdl_machine.specs.declared.fault.Fault.TheVariants.{TooManyNames};
ghost use Rattle.pdl_machine.specs.Names.{found, entered, is_full_for, with_name, without_name, names_limit};
ghost use Rattle.pdl_scope.specs.Answers.{IsFault};
ghost use Rattle.pdl_scope.specs.Room.{new_among, has_room};

use crate::fault::ScopeFault;
use indexmap::IndexMap;
use pdl_elem::Name;
use pdl_engine::ArrayId;
use pdl_machine::{Fault, MOST_NAMES};
use std::alloc::{AllocError, Global};
use std::marker::Model;

/// The bound names with their arrays, in the order of their first bindings.
#[derive(Drop)]
pub struct Names {
    arrays: IndexMap<Name, ArrayId>,
}

impl Model for Names {
    ghost use Rattle.indexmap.specs.IndexMap.{spare};
    ghost use Rattle.pdl_scope.specs.Room.{Table};

    ghost Value = { Table };

    ghost view = { λ n. record { entries = n.arrays.entries; spare = spare n.arrays } };
}

impl Names {
    /// No names. It takes no memory.
    pub fn new(alloc: Global) -> Names
        ensures { result.entries ≡ [] }
    {
        Names {
            arrays: IndexMap::new(alloc),
        }
    }

    /// The array that a name is bound to, if it is.
    pub fn get(&self, name: &Name) -> Option<ArrayId>
        ensures { result ≡ found self.now.entries name.now }
    {
        self.arrays.get(name).copied()
    }

    /// Binds a name to an array, with `TooManyNames` where it is new and 512 are bound. It answers
    /// the array that a known name gives up.
    pub fn bind(&mut self, name: &Name, id: ArrayId) -> Result<Option<ArrayId>, ScopeFault>
        ensures ok { let wanted = entered names_limit TooManyNames self.old.entries name.now id in
            OnOk result (wanted ≡ Ok self.new.entries) }
        ensures given_up { IfOk result (λ had. had ≡ found self.old.entries name.now) }
        ensures fault { let wanted = entered names_limit TooManyNames self.old.entries name.now id in
            IfErr result (IsFault wanted) }
        ensures err { OnErr result (self.new.entries ≡ self.old.entries) }
    {
        match self.rebind(name, id) {
            Some(had) => Ok(Some(had)),
            None => self.bind_new(name, id),
        }
    }

    /// Binds a known name to another array, and answers the one that it gives up.
    fn rebind(&mut self, name: &Name, id: ArrayId) -> Option<ArrayId>
        ensures given_up { result ≡ found self.old.entries name.now }
        ensures known { IfSome result (λ had. self.new.entries ≡ with_name self.old.entries name.now id) }
        ensures unknown { IfNone result (self.new.entries ≡ self.old.entries) }
    {
        let index = match self.arrays.get_index_of(name) {
            Some(index) => index,
            None => return None,
        };
        match self.arrays.get_index_mut(index) {
            Some(array) => {
                let had = *array;
                *array = id;
                Some(had)
            }
            None => unreachable!(),
        }
    }

    /// Binds a name that isn't bound, with `TooManyNames` where 512 are.
    fn bind_new(&mut self, name: &Name, id: ArrayId) -> Result<Option<ArrayId>, ScopeFault>
        requires { found self.old.entries name.now ≡ None }
        ensures ok { let wanted = entered names_limit TooManyNames self.old.entries name.now id in
            OnOk result (wanted ≡ Ok self.new.entries) }
        ensures given_up { IfOk result (λ had. had ≡ None) }
        ensures fault { let wanted = entered names_limit TooManyNames self.old.entries name.now id in
            IfErr result (IsFault wanted) }
        ensures err { OnErr result (self.new.entries ≡ self.old.entries) }
    {
        if self.arrays.len() >= MOST_NAMES {
            return Err(ScopeFault::Script(Fault::TooManyNames));
        }
        match self.arrays.insert(name.clone()?, id) {
            Ok(_) => Ok(None),
            Err(_) => Err(ScopeFault::NoMemory),
        }
    }

    /// Takes a name away, and answers the array that it gives up, if it is bound.
    pub fn remove(&mut self, name: &Name) -> Option<ArrayId>
        ensures given_up { result ≡ found self.old.entries name.now }
        ensures names { self.new.entries ≡ without_name self.old.entries name.now }
        ensures unknown { IfNone result (self.new.entries ≡ self.old.entries) }
    {
        self.arrays.shift_remove(name)
    }

    /// Whether there is no room for a name: it is new, and 512 are bound.
    pub fn is_full_for(&self, name: &Name) -> bool
        ensures { result ≡ is_full_for names_limit self.now.entries name.now }
    {
        self.arrays.len() >= MOST_NAMES && self.arrays.get(name).is_none()
    }

    /// Takes the memory of so many new names.
    pub fn reserve(&mut self, count: usize) -> Result<(), AllocError>
        ensures names { self.new.entries ≡ self.old.entries }
        ensures spare { OnOk result (count ≤ self.new.spare) }
    {
        self.arrays.reserve(count)
    }

    /// Binds a name to an array, and answers the one that a known name gives up. The memory of a
    /// new name was taken before.
    pub fn put(&mut self, name: Name, id: ArrayId) -> Option<ArrayId>
        requires { 0 < self.old.spare }
        ensures given_up { result ≡ found self.old.entries name }
        ensures names { self.new.entries ≡ with_name self.old.entries name id }
        ensures spare { self.old.spare ≤ self.new.spare + 1 }
    {
        match self.arrays.insert(name, id) {
            Ok(had) => had,
            Err(_) => unreachable!(),
        }
    }

    /// Whether there is room for these names: with the new ones among them at most 512 are bound.
    pub fn has_room(&self, bound: &[Name]) -> bool
        requires { length self.now.entries ≤ names_limit }
        ensures { result ≡ has_room self.now.entries bound.now }
    {
        self.new_among(bound) <= MOST_NAMES - self.arrays.len()
    }

    /// How many of these names are new, each counted once.
    fn new_among(&self, bound: &[Name]) -> usize
        ensures count { result ≡ new_among self.now.entries bound.now }
        ensures within { result ≤ length bound.now }
    {
        match bound {
            [] => 0,
            [first, rest @ ..] => {
                let known = self.get(first).is_some() || rest.contains(first);
                let others = self.new_among(rest);
                if known { others } else { 1 + others }
            }
        }
    }

    /// How many names are bound.
    pub fn len(&self) -> usize
        ensures { result ≡ length self.now.entries }
    {
        self.arrays.len()
    }

    /// The name at a place in the order of the first bindings, with its array.
    pub fn entry(&self, index: usize) -> (&Name, ArrayId)
        requires { index < length self.now.entries }
        ensures { slice_get self.now.entries index ≡ Some (result.0.now, result.1) }
    {
        match self.arrays.get_index(index) {
            Some((name, id)) => (name, *id),
            None => unreachable!(),
        }
    }
}
