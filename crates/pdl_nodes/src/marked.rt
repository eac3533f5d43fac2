//! The views of each root that may be marked.
ghost use Rattle.std.specs.Prelude.{◌≡◌, ◌≢◌, ◌==◌, ℕ, true, ◌∷◌, [], OnOk};
ghost use Rattle.std.specs.List.{filter};
ghost use Rattle.pdl_world.specs.Swept.{is_listed};
ghost use Rattle.pdl_nodes.specs.Changes.{unmark_in};
ghost use Rattle.pdl_nodes.specs.Marked.{listed, listed_in};
ghost use Rattle.pdl_nodes.specs.Rows.{each};
ghost use Rattle.pdl_nodes.specs.Table.{rows_of, IsTable};

use crate::node::Node;
use pdl_registry::Numbered;
use slab::Slab;
use std::alloc::{AllocError, Global};
use std::collections::BTreeMap;

/// For each root the views of its family that may be marked, and the place of each in its list. No
/// clause speaks of places: a view is taken out of a list where it stands at its place.
#[derive(Drop)]
pub struct Marked {
    by_root: BTreeMap<u64, Vec<u64>>,
    places: BTreeMap<u64, usize>,
}

impl Marked {
    /// No views.
    pub fn new(alloc: Global) -> Marked {
        Marked {
            by_root: BTreeMap::new(alloc),
            places: BTreeMap::new(alloc),
        }
    }

    /// The views that are listed of a root.
    pub fn views(&self, root: u64) -> &[u64]
        ensures { result.now ≡ listed self.now root }
    {
        match self.by_root.get(&root) {
            Some(views) => views.as_slice(),
            None => &[],
        }
    }

    /// Lists a view of a root.
    pub fn insert(&mut self, alloc: Global, root: u64, id: u64) -> Result<(), AllocError>
        ensures listed { OnOk result (is_listed (listed self.new root) id ≡ true) }
        ensures stay { (r v : ℕ) → is_listed (listed self.old r) v ≡ true
            → is_listed (listed self.new r) v ≡ true }
    {
        let place = list(&mut self.by_root, alloc, root, id)?;
        self.places.insert(id, place)?;
        Ok(())
    }

    /// Of a root's views this one alone stays listed, if it is.
    pub fn keep(&mut self, root: u64, id: u64)
        ensures kept { listed self.new root ≡ filter (λ v. v == id) (listed self.old root) }
        ensures others { (r : ℕ) → r ≢ root → listed self.new r ≡ listed self.old r }
    {
        match self.by_root.get_mut(&root) {
            Some(views) => {
                forget_places(&mut self.places, views, id);
                note_place(&mut self.places, id, 0);
                keep_one(views, id)
            }
            None => {}
        }
    }

    /// Of a root no view stays listed: what is listed would be listed once more when it is marked
    /// again.
    pub fn unlist(&mut self, root: u64)
        ensures unlisted { listed self.new root ≡ filter (λ v. v == root) (listed self.old root) }
        ensures others { (r : ℕ) → r ≢ root → listed self.new r ≡ listed self.old r }
    {
        self.keep(root, root)
    }

    /// Forgets a number of the family of a root, be it the root or a view. It goes over no list.
    pub fn forget(&mut self, root: u64, id: u64)
        ensures stay { (r v : ℕ) → r ≢ id → v ≢ id → is_listed (listed self.old r) v ≡ true
            → is_listed (listed self.new r) v ≡ true }
    {
        let place = self.places.remove(&id);
        if root == id {
            self.by_root.remove(&id);
            return;
        }
        match self.by_root.get_mut(&root) {
            Some(views) => take_out(views, &mut self.places, id, place),
            None => {}
        }
    }
}

/// Lists a view of a root, and says at which place.
fn list(
    by_root: &mut BTreeMap<u64, Vec<u64>>,
    alloc: Global,
    root: u64,
    id: u64,
) -> Result<usize, AllocError>
    ensures listed { OnOk result (is_listed (listed_in by_root.new root) id ≡ true) }
    ensures stay { (r v : ℕ) → is_listed (listed_in by_root.old r) v ≡ true
        → is_listed (listed_in by_root.new r) v ≡ true }
{
    match by_root.get_mut(&root) {
        Some(views) => {
            let place = views.len();
            views.push(id)?;
            Ok(place)
        }
        None => {
            let mut views = Vec::new(alloc);
            views.push(id)?;
            by_root.insert(root, views)?;
            Ok(0)
        }
    }
}

/// Forgets the places of these views, but for one.
fn forget_places(places: &mut BTreeMap<u64, usize>, views: &[u64], id: u64) {
    for view in views.iter() {
        if *view != id {
            places.remove(view);
        }
    }
}

/// Notes the place of a view, if it has one.
fn note_place(places: &mut BTreeMap<u64, usize>, id: u64, at: usize) {
    match places.get_mut(&id) {
        Some(place) => {
            *place = at;
        }
        None => {}
    }
}

/// Takes a view out of a list, if it stands at this place: the last moves there.
fn take_out(views: &mut Vec<u64>, places: &mut BTreeMap<u64, usize>, id: u64, place: Option<usize>)
    ensures { (v : ℕ) → v ≢ id → is_listed views.old.items v ≡ true → is_listed views.new.items v ≡ true }
{
    let Some(at) = place else {
        return;
    };
    if at >= views.len() {
        return;
    }
    if views[at] != id {
        return;
    }
    views.swap_remove(at);
    if at < views.len() {
        note_place(places, views[at], at);
    }
}

/// Leaves this number alone in a list, if it is there.
fn keep_one(views: &mut Vec<u64>, id: u64)
    ensures { views.new.items ≡ filter (λ v. v == id) views.old.items }
{
    views.retain(|view| *view == id);
}

/// Takes the mark from a node of a root's family, if there is such a node and it isn't the base.
pub fn unmark_one(keys: &Numbered<usize>, nodes: &mut Slab<Node>, id: u64, root: u64, base: u64)
    requires { IsTable keys.now nodes.old }
    ensures table { IsTable keys.now nodes.new }
    ensures rows { rows_of nodes.new keys.now
        ≡ each (unmark_in (id ∷ []) root base) (rows_of nodes.old keys.now) }
{
    if id != base {
        match keys.get(id) {
            Some(key) => nodes[*key].unmark(root),
            None => {}
        }
    }
}

/// Takes the mark from those nodes of a root's family that are among these, but for the base.
pub fn unmark(keys: &Numbered<usize>, nodes: &mut Slab<Node>, views: &[u64], root: u64, base: u64)
    requires { IsTable keys.now nodes.old }
    ensures table { IsTable keys.now nodes.new }
    ensures rows { rows_of nodes.new keys.now
        ≡ each (unmark_in views.now root base) (rows_of nodes.old keys.now) }
{
    for id in views.iter() {
        unmark_one(keys, nodes, *id, root, base);
    }
}
