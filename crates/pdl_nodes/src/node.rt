//! What is kept of one array.
ghost use Rattle.std.specs.Prelude.{◌≡◌, ℕ, ◌+◌, ◌<◌, ◌≤◌, ◌^◌, ◌==◌, if◌then◌else◌, [], drop, length, map, All, is_some, true, false, Some, None};
ghost use Rattle.std.specs.List.{range_with_len};
ghost use Rattle.pdl_elem.specs.Types.{InRange};
ghost use Rattle.pdl_shape.specs.Places.{AllBelow, write};
ghost use Rattle.pdl_shape.specs.Shape.{extent_limit, size_of};
ghost use Rattle.pdl_shape.specs.Triple.{Reaches};
ghost use Rattle.pdl_numbers.specs.Shown.{shown_through};
ghost use Rattle.pdl_numbers.specs.Updates.{ShowsOnce, Suits, updated};
ghost use Rattle.pdl_numbers.specs.Writes.{onward, placed_from};
ghost use Rattle.pdl_nodes.specs.Row.{goal_of, parent_of, is_buffered, shown_of};
ghost use Rattle.pdl_nodes.specs.Assigned.{seen};
ghost use Rattle.pdl_nodes.specs.Changes.{or_known};
ghost use Rattle.pdl_nodes.specs.Placed.{goes_by, in_order, placed_by};
ghost use Rattle.pdl_nodes.specs.Spots.{spots};

use crate::moves::{OverBase, ThroughBase, are_seen};
use crate::origin::Origin;
use pdl_buf::{
    Buf, Steps, scatter, scatter_along, scatter_by, scatter_from, scatter_onward, update,
};
use pdl_choice::Places;
use pdl_elem::Ty;
use pdl_numbers::{Placement, Route, Update};
use pdl_shape::{Triple, copy_triple, elements_of};
use std::alloc::Global;
use std::marker::Model;
use std::sync::ledger::Ledger;

/// What was kept of a view, and its places.
#[derive(Drop)]
pub struct Lifted {
    pub kept: Buf,
    pub places: Places,
}

/// Where the elements of an array stand: over its base, as a triple shows them, and in its root.
#[derive(Drop)]
pub struct Shown {
    pub id: u64,
    pub root: u64,
    pub base: u64,
    pub triple: Triple,
}

/// Where values of an array are put: into its root, or into its base, where they wait.
#[derive(Clone, Copy)]
pub enum Goal {
    Root,
    Base,
}

impl Shown {
    /// The number of the array whose elements values are put into.
    pub fn number(&self, goal: Goal) -> u64
        ensures { result ≡ goal_of goal self.now }
    {
        match goal {
            Goal::Root => self.root,
            Goal::Base => self.base,
        }
    }
}

/// One array.
#[derive(Drop)]
pub struct Node {
    pub(crate) origin: Origin,
    pub(crate) root: u64,
    pub(crate) ty: Ty,
    /// The array whose elements show this one.
    pub(crate) base: u64,
    /// How they show it.
    pub(crate) triple: Triple,
    /// The elements of a base. A marked array and a root have a buffer.
    pub(crate) kept: Option<Buf>,
    /// Whether the kept elements are those of the array.
    pub(crate) mark: bool,
    /// Whether two positions of a marked base have one place.
    pub(crate) repeats: bool,
    /// The root's place of each position of a view that is its own base, once they were found.
    pub(crate) places: Option<Places>,
    /// Of a root: the view whose elements wait to be written back.
    pub(crate) waiting: Option<u64>,
}

impl Model for Node {
    ghost use Rattle.pdl_nodes.specs.Row.{Row, IsNode, elements_or};

    ghost Value = { Row };

    ghost invariant = { λ n. IsNode n.origin n.ty n.mark n.kept };

    ghost view = { λ n. record {
      origin = n.origin;
      ty = n.ty;
      root = n.root;
      base = n.base;
      triple = n.triple;
      kept = elements_or n.kept;
      mark = n.mark;
      repeats = n.repeats;
      places = n.places;
      waiting = n.waiting;
    } };
}

impl Node {
    /// The number of the parent, or nothing for a root.
    pub fn parent(&self) -> Option<u64>
        ensures { result ≡ parent_of self.now }
    {
        self.origin.parent()
    }

    /// Where the array comes from.
    pub fn origin(&self) -> &Origin
        ensures { result.now ≡ self.now.origin }
    {
        &self.origin
    }

    /// The type of the elements.
    pub fn ty(&self) -> Ty
        ensures { result ≡ self.now.ty }
    {
        self.ty
    }

    /// The number of the root.
    pub fn root(&self) -> u64
        ensures { result ≡ self.now.root }
    {
        self.root
    }

    /// The number of the base.
    pub fn base(&self) -> u64
        ensures { result ≡ self.now.base }
    {
        self.base
    }

    /// Where the elements of the array of this number stand.
    pub fn shown(&self, id: u64) -> Shown
        ensures { result ≡ shown_of id self.now }
    {
        Shown {
            id,
            root: self.root,
            base: self.base,
            triple: copy_triple(&self.triple),
        }
    }

    /// The triple over the base's elements.
    pub fn triple(&self) -> &Triple
        ensures { result.now ≡ self.now.triple }
    {
        &self.triple
    }

    /// What is kept of a base.
    pub fn kept(&self) -> &Buf
        requires { is_buffered self.now ≡ true }
        ensures { result.now ≡ record { ty = self.now.ty; elems = self.now.kept } }
    {
        match &self.kept {
            Some(kept) => kept,
            None => unreachable!(),
        }
    }

    /// Whether what is kept are the elements.
    pub fn mark(&self) -> bool
        ensures { result ≡ self.now.mark }
    {
        self.mark
    }

    /// Whether a marked base has repeats.
    pub fn repeats(&self) -> bool
        ensures { result ≡ self.now.repeats }
    {
        self.repeats
    }

    /// Of a root: the view that waits.
    pub fn waiting(&self) -> Option<u64>
        ensures { result ≡ self.now.waiting }
    {
        self.waiting
    }

    /// The root's places of a view that is its own base, once they were found.
    pub fn places(&self) -> &Option<Places>
        ensures { result.now ≡ self.now.places }
    {
        &self.places
    }

    /// Takes what is kept of a view, and its places, out. It isn't marked then.
    pub fn lift(&mut self) -> Lifted
        requires view { is_some (parent_of self.old) ≡ true }
        requires buffered { self.old.mark ≡ true }
        requires found { is_some self.old.places ≡ true }
        ensures kept { result.kept ≡ record { ty = self.old.ty; elems = self.old.kept } }
        ensures places { self.old.places ≡ Some result.places }
        ensures left { self.new ≡ record self.old { kept = []; mark = false; places = None } }
    {
        self.mark = false;
        match (self.kept.take(), self.places.take()) {
            (Some(kept), Some(places)) => Lifted { kept, places },
            _ => unreachable!(),
        }
    }

    /// Keeps these elements of the same type, and is marked. Places that were found now are known
    /// from now on.
    pub fn fill(&mut self, kept: Buf, repeats: bool, places: Option<Places>)
        requires same_type { kept.ty ≡ self.old.ty }
        ensures { self.new ≡ record self.old {
          kept = kept.elems;
          mark = true;
          repeats = repeats;
          places =
              or_known places self.old.places;
        } }
    {
        self.kept = Some(kept);
        self.mark = true;
        self.repeats = repeats;
        if places.is_some() {
            self.places = places;
        }
    }

    /// Keeps these elements of the same type in the place of its own.
    pub(crate) fn keep(&mut self, kept: Buf)
        requires { kept.ty ≡ self.old.ty }
        ensures { self.new ≡ record self.old { kept = kept.elems } }
    {
        self.kept = Some(kept);
    }

    /// Puts the elements of a buffer at places of what is kept, in order. It takes a step for each.
    pub fn write<L: Ledger>(&mut self, places: &[Option<u32>], from: &Buf, steps: &mut Steps<L>)
        requires buffered { is_buffered self.old ≡ true }
        requires same_type { from.now.ty ≡ self.old.ty }
        requires paired { length places.now ≡ length from.now.elems }
        ensures value { self.new
            ≡ record self.old { kept = write places.now from.now.elems self.old.kept } }
        ensures counted { steps.new ≡ steps.old + length places.now }
    {
        match &mut self.kept {
            Some(kept) => scatter_from(kept, places, from, steps),
            None => unreachable!(),
        }
    }

    /// Puts values at places of what is kept, in order. A value without a place is dropped. It takes a
    /// step for each value.
    pub(crate) fn put_listed<L: Ledger>(
        &mut self,
        places: &[Option<u32>],
        values: &[i64],
        steps: &mut Steps<L>,
    )
        requires buffered { is_buffered self.old ≡ true }
        requires paired { length values.now ≡ length places.now }
        requires within { AllBelow (length self.old.kept) places.now }
        requires in_range { All (InRange self.old.ty) values.now }
        ensures value { self.new
            ≡ record self.old { kept = write places.now values.now self.old.kept } }
        ensures counted { steps.new ≡ steps.old + length values.now }
    {
        match &mut self.kept {
            Some(kept) => scatter(kept, places, values, steps),
            None => unreachable!(),
        }
    }

    /// Puts values at the places that a route gives to the first positions into what is kept, in
    /// order. It takes a step for each value.
    pub(crate) fn put_by<R: Route, L: Ledger>(
        &mut self,
        route: &R,
        values: &[i64],
        steps: &mut Steps<L>,
    )
        requires buffered { is_buffered self.old ≡ true }
        requires few { length values.now ≤ R.count route.now }
        requires small { length values.now < 2 ^ 32 }
        requires in_range { All (InRange self.old.ty) values.now }
        ensures value { let places = map (R.goes_to route.now) (range_with_len 0 (length values.now)) in
            self.new ≡ record self.old { kept = write places values.now self.old.kept } }
        ensures counted { steps.new ≡ steps.old + length values.now }
    {
        match &mut self.kept {
            Some(kept) => scatter_by(kept, route, values, steps),
            None => unreachable!(),
        }
    }

    /// Puts values at the places that a placement shows from a position on into what is kept, in
    /// order. It takes a step for each value.
    fn put_along<L: Ledger>(
        &mut self,
        placement: &Placement,
        first: u32,
        values: &[i64],
        steps: &mut Steps<L>,
    )
        requires buffered { is_buffered self.old ≡ true }
        requires within { first + length values.now ≤ size_of placement.now.dims }
        requires in_range { All (InRange self.old.ty) values.now }
        ensures value { let places = placed_from placement.now first (length values.now) in
            self.new ≡ record self.old { kept = write places values.now self.old.kept } }
        ensures counted { steps.new ≡ steps.old + length values.now }
    {
        match &mut self.kept {
            Some(kept) => scatter_along(kept, placement, first, values, steps),
            None => unreachable!(),
        }
    }

    /// Puts values from a position on into what is kept, in order. It takes a step for each value.
    fn put_from<L: Ledger>(&mut self, first: u32, values: &[i64], steps: &mut Steps<L>)
        requires buffered { is_buffered self.old ≡ true }
        requires within { first + length values.now ≤ extent_limit }
        requires in_range { All (InRange self.old.ty) values.now }
        ensures value { let places = onward first (length values.now) in
            self.new ≡ record self.old { kept = write places values.now self.old.kept } }
        ensures counted { steps.new ≡ steps.old + length values.now }
    {
        match &mut self.kept {
            Some(kept) => scatter_onward(kept, first, values, steps),
            None => unreachable!(),
        }
    }

    /// Puts values for the positions from one on that a triple shows over a base, of which these
    /// places are known, into what is kept of the goal. It takes a step for each value.
    pub(crate) fn put<L: Ledger>(
        &mut self,
        goal: Goal,
        known: &Option<Places>,
        triple: &Triple,
        first: u32,
        values: &[i64],
        steps: &mut Steps<L>,
    )
        requires buffered { is_buffered self.old ≡ true }
        requires within { first + length values.now ≤ size_of triple.now.dims }
        requires in_range { All (InRange self.old.ty) values.now }
        ensures value { self.new ≡ record self.old {
          kept = write (drop first (goes_by goal known.now triple.now)) values.now
              self.old.kept;
        } }
        ensures counted { steps.new ≡ steps.old + length values.now }
    {
        match goal {
            Goal::Root => self.put_over(known, triple, first, values, steps),
            Goal::Base => match known {
                None => self.put_over(known, triple, first, values, steps),
                Some(places) => {
                    let places = places.as_slice();
                    self.put_through(places, triple, first, values, steps)
                }
            },
        }
    }

    /// Puts values for the positions from one on at the root's places that a triple shows over a
    /// base, of which these are known. It takes a step for each value.
    fn put_over<L: Ledger>(
        &mut self,
        known: &Option<Places>,
        triple: &Triple,
        first: u32,
        values: &[i64],
        steps: &mut Steps<L>,
    )
        requires buffered { is_buffered self.old ≡ true }
        requires within { first + length values.now ≤ size_of triple.now.dims }
        requires in_range { All (InRange self.old.ty) values.now }
        ensures value { self.new ≡ record self.old
            { kept = write (drop first (placed_by known.now triple.now)) values.now self.old.kept } }
        ensures counted { steps.new ≡ steps.old + length values.now }
    {
        let _count = elements_of(&triple.dims);
        let placement = Placement::of(triple);
        match known {
            None => self.put_along(&placement, first, values, steps),
            Some(places) => {
                let places = places.as_slice();
                let route = OverBase {
                    placement,
                    places,
                    first,
                };
                self.put_by(&route, values, steps)
            }
        }
    }

    /// Puts values for the positions from one on at the places of a base that a triple shows and
    /// that have one of these places in the root. It takes a step for each value.
    fn put_through<L: Ledger>(
        &mut self,
        places: &[Option<u32>],
        triple: &Triple,
        first: u32,
        values: &[i64],
        steps: &mut Steps<L>,
    )
        requires buffered { is_buffered self.old ≡ true }
        requires within { first + length values.now ≤ size_of triple.now.dims }
        requires in_range { All (InRange self.old.ty) values.now }
        ensures value { let at = map (seen places.now) (spots triple.now) in self.new
            ≡ record self.old { kept = write (drop first at) values.now self.old.kept } }
        ensures counted { steps.new ≡ steps.old + length values.now }
    {
        let _count = elements_of(&triple.dims);
        let placement = Placement::of(triple);
        if are_seen(places, &placement, first, values.len()) {
            return self.put_along(&placement, first, values, steps);
        }
        let route = ThroughBase {
            placement,
            places,
            first,
        };
        self.put_by(&route, values, steps)
    }

    /// Puts values for the positions from one on into what is kept of an array that is its own
    /// base, in order. It takes a step for each value.
    pub(crate) fn put_in_order<L: Ledger>(
        &mut self,
        first: u32,
        values: &[i64],
        steps: &mut Steps<L>,
    )
        requires buffered { is_buffered self.old ≡ true }
        requires within { first + length values.now ≤ size_of self.old.triple.dims }
        requires in_range { All (InRange self.old.ty) values.now }
        ensures value { let places = in_order (size_of self.old.triple.dims) in
            self.new ≡ record self.old
            { kept = write (drop first places) values.now self.old.kept } }
        ensures counted { steps.new ≡ steps.old + length values.now }
    {
        let _count = elements_of(&self.triple.dims);
        self.put_from(first, values, steps)
    }

    /// Each kept element that a triple shows becomes an operator's value on it and one number, where
    /// it stands. The triple shows none of them twice. It takes a step for each.
    pub(crate) fn update<L: Ledger>(
        &mut self,
        change: Update,
        triple: &Triple,
        steps: &mut Steps<L>,
    )
        requires buffered { is_buffered self.old ≡ true }
        requires suits { Suits self.old.ty change }
        requires once { ShowsOnce triple.now }
        requires reaches { Reaches triple.now (length self.old.kept) }
        ensures value { let values = map (updated self.old.ty change)
            (shown_through triple.now self.old.kept) in
            let places = placed_from triple.now 0 (size_of triple.now.dims) in
            self.new ≡ record self.old { kept = write places values self.old.kept } }
        ensures counted { steps.new ≡ steps.old + size_of triple.now.dims }
    {
        let placement = Placement::of(triple);
        match &mut self.kept {
            Some(kept) => update(kept, change, &placement, steps),
            None => unreachable!(),
        }
    }

    /// Takes the places out that are known.
    pub(crate) fn take_places(&mut self) -> Option<Places>
        ensures places { result ≡ self.old.places }
        ensures left { self.new ≡ record self.old { places = None } }
    {
        self.places.take()
    }

    /// Knows these places.
    pub(crate) fn set_places(&mut self, places: Option<Places>)
        ensures { self.new ≡ record self.old { places = places } }
    {
        self.places = places;
    }

    /// Is marked. A base has a buffer.
    pub fn set_mark(&mut self)
        requires { is_buffered self.old ≡ true }
        ensures { self.new ≡ record self.old { mark = true } }
    {
        self.mark = true;
    }

    /// Notes what waits in the family of this root.
    pub fn set_waiting(&mut self, waiting: Option<u64>)
        ensures { self.new ≡ record self.old { waiting = waiting } }
    {
        self.waiting = waiting;
    }

    /// Loses its mark if it is of this root's family.
    pub fn unmark(&mut self, root: u64)
        ensures { self.new ≡ record self.old
            { mark = if self.old.root == root then false else self.old.mark } }
    {
        if self.root == root {
            self.mark = false;
        }
    }
}
