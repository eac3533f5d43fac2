//! Nodes by their numbers: a slab, and the key of each number.
ghost use Rattle.std.specs.Prelude.{◌≡◌, ◌≢◌, ℕ, ◌+◌, ◌-◌, ◌<◌, ◌≤◌, ◌^◌, ◌==◌, ◌∷◌, ◌||◌, if◌then◌else◌, [], drop, true, false, length, is_none, Some, None, All, IfSome, OnOk, OnErr};
ghost use Rattle.std.specs.Option.{IsSome};
ghost use Rattle.slab.specs.Slab.{HasRoomFor};
ghost use Rattle.pdl_elem.specs.Types.{InRange};
ghost use Rattle.pdl_shape.specs.Places.{AllBelow, write};
ghost use Rattle.pdl_shape.specs.Shape.{size_of};
ghost use Rattle.pdl_world.specs.Cut.{has_views};
ghost use Rattle.pdl_nodes.specs.Below.{AreBelow};
ghost use Rattle.pdl_nodes.specs.Children.{AreSame, IsMore, children, has_number, is_view, is_view_of, notes};
ghost use Rattle.pdl_nodes.specs.Marked.{AreListed};
ghost use Rattle.pdl_registry.specs.Numbered.{IsAbove, IsPut, Rises, value_at};
ghost use Rattle.pdl_nodes.specs.Table.{IsTable, rows_of};
ghost use Rattle.pdl_nodes.specs.Rows.{NumbersBelow, row_at, has, each, from, without};
ghost use Rattle.pdl_nodes.specs.Row.{is_buffered, parent_of, shown_of};
ghost use Rattle.pdl_nodes.specs.Changes.{kept_in, wait_in, fill_in, marked_in, mark_in};
ghost use Rattle.pdl_nodes.specs.Renewed.{CanDerive, CanRenew, is_of, layout_at, renew, renewed_in, rooted_in};
ghost use Rattle.pdl_nodes.specs.Families.{InOrder};
ghost use Rattle.pdl_nodes.specs.Known.{AreKnown};
ghost use Rattle.pdl_nodes.specs.Put.{IsWrite, put_in};
ghost use Rattle.pdl_nodes.specs.Copies.{CanCopy, shown_at};
ghost use Rattle.pdl_nodes.specs.Updates.{CanUpdate, updated_at};
ghost use Rattle.pdl_nodes.specs.Worlds.{IsRoot, latest, shape};
ghost use Rattle.pdl_nodes.specs.declared.node.Goal.TheVariants.{Root};

use crate::children::Children;
use crate::copies::copy_into;
use crate::marked::{Marked, unmark, unmark_one};
use crate::node::{Goal, Lifted, Node, Shown};
use crate::relaid::Relaid;
use pdl_affine::{view_laws, window_laws};
use pdl_buf::{Buf, Steps};
use pdl_choice::Places;
use pdl_elem::wrapping_laws;
use pdl_numbers::Update;
use pdl_registry::Numbered;
use pdl_shape::{Dims, shape_laws, triple_laws};
use pdl_world::repeat_laws;
use slab::Slab;
use std::alloc::{AllocError, Global};
use std::collections::BTreeSet;
use std::marker::Model;
use std::sync::ledger::Ledger;

/// The arrays that are kept, by their numbers. Contracts see them as rows, newest first.
#[derive(Drop)]
pub struct Table {
    keys: Numbered<usize>,
    nodes: Slab<Node>,
    marked: Marked,
    children: Children,
}

impl Model for Table {
    ghost use Rattle.pdl_nodes.specs.Rows.{Rows};
    ghost use Rattle.pdl_nodes.specs.Children.{AreCounted};
    ghost use Rattle.pdl_nodes.specs.Marked.{AreListed};
    ghost use Rattle.pdl_nodes.specs.Table.{rows_of, IsTable};

    ghost Value = { Rows };

    ghost view = { λ t. rows_of t.nodes t.keys };

    ghost invariant = { λ t. (IsTable t.keys t.nodes ×
        AreListed (rows_of t.nodes t.keys) t.marked) ×
        AreCounted (rows_of t.nodes t.keys) t.children };
}

/// Keeps the key of a new number, and notes it as a view of its parent, if it has one. A refusal
/// changes neither.
fn put_key(
    keys: &mut Numbered<usize>,
    children: &mut Children,
    id: u64,
    key: usize,
    parent: Option<u64>,
) -> Result<(), AllocError>
    requires ordered { Rises keys.old }
    requires above { IsAbove id keys.old }
    requires absent { (v : ℕ) → notes children.old v id ≡ false }
    ensures ordered { Rises keys.new }
    ensures updates { OnOk result (IsPut keys.old keys.new id (Some key)) }
    ensures more { OnOk result (IsMore children.old children.new parent id) }
    ensures kept { OnErr result (keys.new ≡ keys.old) }
    ensures same { OnErr result (AreSame children.old children.new) }
{
    children.add(parent, id)?;
    match keys.insert(id, key) {
        Ok(()) => Ok(()),
        Err(refused) => {
            children.take(parent, id);
            Err(refused)
        }
    }
}

/// Makes room for one node more, and keeps its key under its number.
fn make_room(
    nodes: &mut Slab<Node>,
    keys: &mut Numbered<usize>,
    children: &mut Children,
    id: u64,
    parent: Option<u64>,
) -> Result<(), AllocError>
    requires ordered { Rises keys.old }
    requires above { IsAbove id keys.old }
    requires absent { (v : ℕ) → notes children.old v id ≡ false }
    ensures ordered { Rises keys.new }
    ensures room { OnOk result (HasRoomFor nodes.new 1) }
    ensures updates { OnOk result
        (IsPut keys.old keys.new id (Some nodes.new.vacant_key)) }
    ensures more { OnOk result (IsMore children.old children.new parent id) }
    ensures rest { nodes.new ≡ record nodes.old { capacity = nodes.new.capacity } }
    ensures kept { OnErr result (keys.new ≡ keys.old) }
    ensures same { OnErr result (AreSame children.old children.new) }
{
    nodes.reserve(1)?;
    let key = nodes.vacant_key();
    put_key(keys, children, id, key, parent)
}

/// Marks a base of a family, the root itself or a view that is marked already, of which this is the
/// key, and takes the mark from the others of this family.
fn mark_at(
    keys: &Numbered<usize>,
    nodes: &mut Slab<Node>,
    marked: &mut Marked,
    root: u64,
    base: u64,
    key: usize,
)
    requires table { IsTable keys.now nodes.old }
    requires listed { AreListed (rows_of nodes.old keys.now) marked.old }
    requires key { value_at keys.now base ≡ Some key }
    requires root { has (rows_of nodes.old keys.now) root ≡ true }
    requires live { has (rows_of nodes.old keys.now) base ≡ true }
    requires family { (row_at (rows_of nodes.old keys.now) base).root ≡ root }
    requires buffered { is_buffered (row_at (rows_of nodes.old keys.now) base) ≡ true }
    requires was_marked { base ≢ root
        → (row_at (rows_of nodes.old keys.now) base).mark ≡ true }
    ensures table { IsTable keys.now nodes.new }
    ensures listed { AreListed (rows_of nodes.new keys.now) marked.new }
    ensures rows { rows_of nodes.new keys.now
        ≡ each (mark_in root base) (rows_of nodes.old keys.now) }
{
    unmark(keys, nodes, marked.views(root), root, base);
    unmark_one(keys, nodes, root, root, base);
    nodes[key].set_mark();
    marked.keep(root, base);
}

/// The key of an array where that of another is at hand: if it is another it is looked up.
fn key_of(keys: &Numbered<usize>, other: u64, key: usize, id: u64) -> usize
    requires other { value_at keys.now other ≡ Some key }
    requires live { IsSome (value_at keys.now id) }
    ensures { value_at keys.now id ≡ Some result }
{
    if id == other { key } else { keys[id] }
}

impl Table {
    /// No nodes.
    pub fn new(alloc: Global) -> Table
        ensures { result ≡ [] }
    {
        Table {
            keys: Numbered::new(alloc),
            nodes: Slab::new(alloc),
            marked: Marked::new(alloc),
            children: Children::new(alloc),
        }
    }

    /// The node of a number.
    pub fn node(&self, id: u64) -> &Node
        requires live { has self.now id ≡ true }
        ensures { result.now ≡ row_at self.now id }
    {
        &self.nodes[self.keys[id]]
    }

    /// The base of the node of this number: where that is the node itself it isn't looked up again.
    pub fn base_of<'a>(&'a self, id: u64, node: &'a Node) -> &'a Node
        requires here { node.now ≡ row_at self.now id }
        requires live { has self.now node.now.base ≡ true }
        ensures { result.now ≡ row_at self.now node.now.base }
    {
        let base = node.base();
        if base == id { node } else { self.node(base) }
    }

    /// Keeps one more node, under a number that is above all others and that no node has as its
    /// root. A view isn't marked. Out of memory, it changes nothing.
    pub fn insert(&mut self, id: u64, node: Node) -> Result<(), AllocError>
        requires below { NumbersBelow id self.old }
        requires new_root { (v : ℕ) → has self.old v ≡ true → (row_at self.old v).root ≢ id }
        requires unmarked { node.root ≢ id → node.mark ≡ false }
        ensures ok { OnOk result (self.new ≡ (id, node) ∷ self.old) }
        ensures err { OnErr result (self.new ≡ self.old) }
    {
        let parent = node.parent();
        match make_room(
            &mut self.nodes,
            &mut self.keys,
            &mut self.children,
            id,
            parent,
        ) {
            Ok(()) => {
                self.nodes.insert_reserved(node);
                Ok(())
            }
            Err(refused) => {
                // By a call: in line each field's drop would be checked here anew.
                drop(node);
                Err(refused)
            }
        }
    }

    /// Lets a node go, if the number has one, and says its parent, if it has one.
    pub fn remove(&mut self, id: u64) -> Option<u64>
        ensures rows { self.new ≡ without id self.old }
        ensures parent { result ≡ parent_of (row_at self.old id) }
    {
        let Some(key) = self.keys.remove(id) else {
            return None;
        };
        let node = &self.nodes[key];
        let root = node.root();
        let parent = node.parent();
        // By a call, as in `insert`.
        drop(self.nodes.remove(key));
        self.marked.forget(root, id);
        self.children.take(parent, id);
        parent
    }

    /// Removes an array that is a root, and leaves a view. The answer says whether it is a root.
    pub fn remove_root(&mut self, id: u64) -> bool
        requires live { has self.old id ≡ true }
        ensures root { result ≡ is_none (parent_of (row_at self.old id)) }
        ensures rows { self.new ≡ if result then without id self.old else self.old }
    {
        if self.node(id).parent().is_some() {
            return false;
        }
        self.remove(id);
        true
    }

    /// Puts the elements that wait in the family of a root into it, in order. It takes a step for
    /// each. Marks, and what waits, are left to the caller.
    pub fn put_back<L: Ledger>(&mut self, root: u64, id: u64, steps: &mut Steps<L>)
        requires order { InOrder self.old }
        requires known { AreKnown self.old }
        requires root { IsRoot self.old root }
        requires waits { (row_at self.old root).waiting ≡ Some id }
        ensures put { self.new ≡ each (kept_in root (latest self.old root)) self.old }
        ensures counted { steps.new ≡ steps.old + size_of (row_at self.old id).triple.dims }
    {
        let key = self.keys[id];
        let node = &self.nodes[key];
        let repeats = node.repeats();
        let Lifted { kept, places } = self.nodes[key].lift();
        let at = self.keys[root];
        self.nodes[at].write(places.as_slice(), &kept, steps);
        self.nodes[key].fill(kept, repeats, Some(places));
    }

    /// Puts values for the positions of an array from one on into its root or its base, in order.
    /// It takes a step for each value. Marks, and what waits, are left to the caller.
    pub fn put<L: Ledger>(
        &mut self,
        at: &Shown,
        goal: Goal,
        first: u32,
        values: &[i64],
        steps: &mut Steps<L>,
    )
        requires write { IsWrite self.old at.now.id first values.now }
        requires shown { at.now ≡ shown_of at.now.id (row_at self.old at.now.id) }
        ensures put { self.new ≡ each (put_in goal self.old at.now.id first values.now) self.old }
        ensures counted { steps.new ≡ steps.old + length values.now }
    {
        let base = self.keys[at.base];
        let into = key_of(&self.keys, at.base, base, at.number(goal));
        let known = self.nodes[base].take_places();
        self.nodes[into].put(goal, &known, &at.triple, first, values, steps);
        self.nodes[base].set_places(known);
    }

    /// Each element of an array whose base is its root becomes an operator's value on it and one
    /// number, where it stands. The array shows no place twice. It takes a step for each. Marks are
    /// left to the caller.
    pub fn update<L: Ledger>(&mut self, at: &Shown, change: Update, steps: &mut Steps<L>)
        requires update { CanUpdate change self.old at.now.id }
        requires shown { at.now ≡ shown_of at.now.id (row_at self.old at.now.id) }
        requires over_root { at.now.base ≡ at.now.root }
        ensures write { IsWrite self.old at.now.id 0 (updated_at change self.old at.now.id) }
        ensures put { let values = updated_at change self.old at.now.id in
            self.new ≡ each (put_in Root self.old at.now.id 0 values) self.old }
        ensures counted { steps.new ≡ steps.old + size_of at.now.triple.dims }
    {
        shape_laws();
        wrapping_laws();
        repeat_laws();
        let key = self.keys[at.root];
        self.nodes[key].update(change, &at.triple, steps);
    }

    /// Puts the elements of an array at the positions of another one, whose base is its root. Both
    /// have the same type and dimensions, and different roots. They are copied from one buffer to
    /// the other. It takes a step for each. Marks are left to the caller.
    pub fn copy<L: Ledger>(&mut self, at: &Shown, source: u64, steps: &mut Steps<L>)
        requires copy { CanCopy self.old at.now.id source }
        requires shown { at.now ≡ shown_of at.now.id (row_at self.old at.now.id) }
        requires over_root { at.now.base ≡ at.now.root }
        ensures write { IsWrite self.old at.now.id 0 (shown_at self.old source) }
        ensures put { let values = shown_at self.old source in
            self.new ≡ each (put_in Root self.old at.now.id 0 values) self.old }
        ensures counted { steps.new ≡ steps.old + size_of at.now.triple.dims }
    {
        shape_laws();
        let key = self.keys[at.root];
        let mut elements = self.nodes[key].take_kept();
        copy_into(
            &self.keys,
            &self.nodes,
            source,
            &at.triple,
            &mut elements,
            steps,
        );
        self.nodes[key].keep(elements);
    }

    /// Notes the view that waits in the family of a root, or that none does.
    pub fn set_waiting(&mut self, id: u64, waiting: Option<u64>)
        requires live { has self.old id ≡ true }
        ensures { self.new ≡ each (wait_in id waiting) self.old }
    {
        let key = self.keys[id];
        self.nodes[key].set_waiting(waiting);
    }

    /// Keeps these elements in a node, which is marked then, and notes whether two of its positions
    /// have one place. Places that were found now are known from now on. Out of memory, it changes
    /// nothing.
    pub fn fill(
        &mut self,
        alloc: Global,
        id: u64,
        kept: Buf,
        repeats: bool,
        places: Option<Places>,
    ) -> Result<(), AllocError>
        requires live { has self.old id ≡ true }
        requires same_type { kept.ty ≡ (row_at self.old id).ty }
        ensures ok { OnOk result (self.new ≡ each (fill_in id kept.elems repeats places) self.old) }
        ensures err { OnErr result (self.new ≡ self.old) }
    {
        let key = self.keys[id];
        let root = self.nodes[key].root();
        self.marked.insert(alloc, root, id)?;
        self.nodes[key].fill(kept, repeats, places);
        Ok(())
    }

    /// Marks a root. No other node loses its mark.
    pub fn mark_root(&mut self, id: u64)
        requires live { has self.old id ≡ true }
        requires root { (row_at self.old id).root ≡ id }
        requires buffered { is_buffered (row_at self.old id) ≡ true }
        ensures { self.new ≡ each (marked_in id) self.old }
    {
        let key = self.keys[id];
        self.nodes[key].set_mark();
    }

    /// Whether an array is the parent of a view.
    pub fn has_views(&self, id: u64) -> bool
        ensures { result ≡ has_views (shape self.now) id }
    {
        self.children.of(id) > 0
    }

    /// How many views an array has.
    pub fn children(&self, id: u64) -> u64
        ensures { result ≡ children self.now id }
    {
        self.children.of(id)
    }

    /// Puts the views of an array into a set.
    pub(crate) fn copy_views(&self, id: u64, known: &mut BTreeSet<u64>) -> Result<(), AllocError>
        ensures { OnOk result ((u : ℕ) → has_number known.new.keys u
            ≡ (has_number known.old.keys u || is_view self.now id u)) }
    {
        self.children.copy_views(id, known)
    }

    /// How many nodes there are.
    pub fn count(&self) -> usize
        ensures { result ≡ length self.now }
    {
        self.keys.len()
    }

    /// Marks a base of the family of a root, the root itself or a view that is marked already, and
    /// takes the mark from the others of this family. It goes over those views of the family that
    /// were marked since the last such call.
    pub fn mark(&mut self, root: u64, base: u64)
        requires root { has self.old root ≡ true }
        requires live { has self.old base ≡ true }
        requires family { (row_at self.old base).root ≡ root }
        requires buffered { is_buffered (row_at self.old base) ≡ true }
        requires marked { base ≢ root → (row_at self.old base).mark ≡ true }
        ensures { self.new ≡ each (mark_in root base) self.old }
    {
        let key = self.keys[base];
        mark_at(
            &self.keys,
            &mut self.nodes,
            &mut self.marked,
            root,
            base,
            key,
        );
    }

    /// Puts values for the positions from one on into a root, in order, and marks it alone of its
    /// family, as `mark` does, a step for each value. A view is left as it is, and the answer says
    /// where its elements stand.
    pub fn put_root<L: Ledger>(
        &mut self,
        id: u64,
        first: u32,
        values: &[i64],
        steps: &mut Steps<L>,
    ) -> Option<Shown>
        requires { IsWrite self.old id first values.now }
        ensures root { is_none result ≡ ((row_at self.old id).root == id) }
        ensures view { IfSome result (λ at. at ≡ shown_of id (row_at self.old id)) }
        ensures put { self.new ≡ if is_none result
            then each (mark_in id id) (each (put_in Root self.old id first values.now) self.old)
            else self.old }
        ensures counted { steps.new
            ≡ steps.old + (if is_none result then length values.now else 0) }
    {
        let key = self.keys[id];
        let node = &self.nodes[key];
        if node.root() != id {
            return Some(node.shown(id));
        }
        self.nodes[key].put_in_order(first, values, steps);
        mark_at(&self.keys, &mut self.nodes, &mut self.marked, id, id, key);
        None
    }

    /// Puts values at places of a root, those from a position on, in order. A value without a place is
    /// dropped. It takes a step for each value. Marks, and what waits, are left to the caller.
    pub fn put_listed<L: Ledger>(
        &mut self,
        root: u64,
        places: &[Option<u32>],
        first: u32,
        values: &[i64],
        steps: &mut Steps<L>,
    )
        requires order { InOrder self.old }
        requires root { IsRoot self.old root }
        requires listed { first + length values.now ≤ length places.now }
        requires within { AllBelow (size_of (row_at self.old root).triple.dims) places.now }
        requires in_range { All (InRange (row_at self.old root).ty) values.now }
        ensures put { let kept = (row_at self.old root).kept in
            self.new ≡ each (kept_in root (write (drop first places.now) values.now kept)) self.old }
        ensures counted { steps.new ≡ steps.old + length values.now }
    {
        let from = first as usize;
        let end = from + values.len();
        let key = self.keys[root];
        self.nodes[key].put_listed(&places[from..end], values, steps);
    }

    /// A root keeps these elements in the place of its own, and is marked alone of its family, as
    /// `mark` does.
    pub fn replace(&mut self, id: u64, kept: Buf)
        requires order { InOrder self.old }
        requires root { IsRoot self.old id }
        requires same_type { kept.ty ≡ (row_at self.old id).ty }
        ensures { self.new ≡ each (mark_in id id) (each (kept_in id kept.elems) self.old) }
    {
        let key = self.keys[id];
        self.nodes[key].keep(kept);
        mark_at(&self.keys, &mut self.nodes, &mut self.marked, id, id, key);
    }

    /// The oldest live number from this one on.
    pub fn from(&self, id: u64) -> Option<u64>
        ensures { result ≡ from self.now id }
    {
        self.keys.from(id)
    }

    /// Makes a node a root of these dimensions and elements, which is marked. Its views, if it has
    /// any, aren't derived anew: `renew` does so.
    fn become_root(&mut self, alloc: Global, id: u64, dims: &Dims, kept: Buf)
        requires live { has self.old id ≡ true }
        requires same_type { kept.ty ≡ (row_at self.old id).ty }
        ensures { self.new ≡ each (rooted_in id dims.now kept.elems) self.old }
    {
        let key = self.keys[id];
        let node = &self.nodes[key];
        let parent = node.parent();
        self.nodes[key].become_root(alloc, id, dims, kept);
        self.children.take(parent, id);
    }

    /// Derives a view anew of its parent, by the layout that was made anew for it, or else its own.
    /// There is nothing to derive where its parent isn't of the family of the new root.
    fn renew_one(&mut self, alloc: Global, new: u64, id: u64, layouts: &mut Relaid)
        requires live { has self.old id ≡ true }
        requires can { CanDerive layouts.old self.old new id }
        ensures rows { self.new ≡ each (renewed_in layouts.old new self.old id) self.old }
        ensures left { (u : ℕ) → u ≢ id → layout_at layouts.new u ≡ layout_at layouts.old u }
    {
        let Some(parent) = self.node(id).parent() else {
            return;
        };
        let above = self.node(parent);
        if above.root() != new {
            return;
        }
        let ty = above.ty();
        let above = above.shown(parent);
        let key = self.keys[id];
        self.nodes[key].renew(alloc, id, ty, &above, layouts.take(id));
    }

    /// An array becomes a root of these dimensions and elements, and each view below it is derived
    /// anew: by the layouts that were made anew, for other dimensions, or by their own, where none
    /// were made, for a cut. It looks at no other array.
    pub fn renew(
        &mut self,
        alloc: Global,
        id: u64,
        dims: &Dims,
        kept: Buf,
        layouts: Relaid,
        below: &[u64],
    )
        requires can { CanRenew layouts self.old id dims.now kept.elems }
        requires same_type { kept.ty ≡ (row_at self.old id).ty }
        requires below { AreBelow self.old id below.now }
        ensures { self.new ≡ renew layouts self.old id dims.now kept.elems }
    {
        shape_laws();
        triple_laws();
        view_laws();
        window_laws();
        self.become_root(alloc, id, dims, kept);
        let mut layouts = layouts;
        for view in below.iter() {
            self.renew_one(alloc, id, *view, &mut layouts);
        }
        self.unlist(id);
    }

    /// Lists no view of a root of whose family none is marked.
    fn unlist(&mut self, id: u64)
        requires { (u : ℕ) → has self.old u ≡ true → (row_at self.old u).root ≡ id
            → u ≢ id → (row_at self.old u).mark ≡ false }
        ensures { self.new ≡ self.old }
    {
        self.marked.unlist(id);
    }
}
