//! The engine and its calls.
ghost use Rattle.std.specs.Prelude.{◌≡◌, ◌≢◌, ◌↔◌, ℕ, ℤ, List, ◌+◌, ◌<◌, ◌≤◌, ◌^◌, if◌then◌else◌, nat_lt, true, false, length, IfOk, IfErr, IfSome, IsTrue, OnOk, OnErr, Ok, Some, None, is_ok, is_some, option_map, ◌==◌};
ghost use Rattle.pdl_numbers.specs.Typed.{count_moved};
ghost use Rattle.pdl_buf.specs.Made.{IsMade};
ghost use Rattle.pdl_shape.specs.Shape.{IsDims, size_of};
ghost use Rattle.pdl_world.specs.Cut.{breaks, reshape, sever};
ghost use Rattle.pdl_world.specs.Formula.{is_well_formed};
ghost use Rattle.pdl_world.specs.Paths.{depth_limit, parent_in, path, root_of};
ghost use Rattle.pdl_world.specs.Refused.{view_refusal};
ghost use Rattle.pdl_world.specs.Sound.{IsLive, IsSound};
ghost use Rattle.pdl_world.specs.Swept.{is_listed};
ghost use Rattle.pdl_world.specs.World.{assign, dims_in, elements, has_repeats, look, places_in, root, ty_in, view};
ghost use Rattle.pdl_nodes.specs.Sized.{IsLayout};
ghost use Rattle.pdl_engine.specs.Foresights.{Foretells, IsForeseen};
ghost use Rattle.pdl_registry.specs.Numbered.{first_from};
ghost use Rattle.pdl_nodes.specs.declared.relaid.RelayFault.TheVariants.{Breaks};
ghost use Rattle.pdl_nodes.specs.Faults.{Names};
ghost use Rattle.pdl_engine.specs.Held.{AllHaveHolds, AreApart, ChangesFamily, FamilyIsSettled, IsReleased, count_at, holders, one_more_at, written_back};
ghost use Rattle.pdl_engine.specs.Looks.{array_numbers, past, trans_in};
ghost use Rattle.pdl_engine.specs.Reading.{read_steps};
ghost use Rattle.pdl_engine.specs.Resting.{IsResting};
ghost use Rattle.pdl_engine.specs.State.{IsLazy, IsLentAs, Joins, OthersWait, PathIsFresh, SameArrays, StayFresh, base, is_fresh, no_arrays, ready_steps, shown_in, waiting};

use crate::depth::is_deeper;
use crate::foreseeing::{Foreseen, Foresight, foresee, foretell};
use crate::spread::lies_apart;
use crate::{gathering, reaching, readying, releases, severing, through};
use pdl_buf::{Buf, Elements, NoMemory, Steps, Strided, buf_of_elements, strided};
use pdl_elem::Ty;
use pdl_nodes::{
    Holds, Layout, Origin, RelayFault as ReshapeFault, Table, ViewFault, insert, layout, root_node,
    row_laws, view_node,
};
use pdl_shape::{Dims, dims_list, shape_laws, triple_laws};
use pdl_world::{
    MOST_VIEWS, Trans, assignment_laws, cut_laws, growth_laws, part_laws, repeat_laws,
    reshape_laws, sweep_laws,
};
use std::alloc::{AllocError, Global};
use std::marker::Model;
use std::sync::ledger::Ledger;

/// The number of an array, below 2^64 - 1. Numbers are never used again in one engine.
pub type ArrayId = u64;

/// Arrays, each a root or a view of an older one. Each is held or has views, but for those that a
/// cut may have left loose, which are listed until the next release.
#[derive(Drop)]
pub struct Engine {
    alloc: Global,
    pub(crate) table: Table,
    holds: Holds,
    next: u64,
    loose: Vec<u64>,
}

impl Model for Engine {
    ghost use Rattle.pdl_engine.specs.Loose.{IsTight};
    ghost use Rattle.pdl_engine.specs.State.{State};
    ghost use Rattle.pdl_engine.specs.StateOf.{IsEngine, state_of};

    ghost Value = { State };

    ghost view = { λ n. state_of n.table n.holds n.next };

    ghost invariant = { λ n.
        IsEngine n.table n.holds n.next × IsTight n.loose.items n.table n.holds };
}

impl Engine {
    /// An engine without arrays.
    pub fn new(alloc: Global) -> Engine
        ensures { result ≡ no_arrays }
    {
        Engine {
            alloc,
            table: Table::new(alloc),
            holds: Holds::new(alloc),
            next: 0,
            loose: Vec::new(alloc),
        }
    }

    /// The sizes of an array.
    pub fn dims(&self, id: ArrayId) -> &Dims
        requires { IsLive self.now.world id }
        ensures now { result.now ≡ dims_in self.now.world id }
        ensures limits { IsDims result.now }
    {
        row_laws();
        let dims = &self.table.node(id).triple().dims;
        // the limits of dimensions are known where they are listed
        let _sizes = dims_list(dims);
        dims
    }

    /// The type of an array's elements, which is its root's.
    pub fn ty(&self, id: ArrayId) -> Ty
        requires { IsLive self.now.world id }
        ensures { result ≡ ty_in self.now.world id }
    {
        row_laws();
        self.table.node(id).ty()
    }

    /// Whether there is an array of this number.
    pub fn is_live(&self, id: ArrayId) -> bool
        ensures { result ≡ is_some (look self.now.world id) }
    {
        row_laws();
        self.holds.has(id)
    }

    /// How many arrays there are.
    pub fn live(&self) -> u64
        ensures { result ≡ length self.now.world }
    {
        self.table.count() as u64
    }

    /// Whether an array has as many views on its path to the root as there may be, and one more
    /// array: then no view of it may be.
    fn is_deep(&self, id: ArrayId) -> bool
        requires { IsLive self.now.world id }
        ensures { result ≡ nat_lt depth_limit (length (path self.now.world id)) }
    {
        row_laws();
        is_deeper(&self.table, id, MOST_VIEWS)
    }

    /// Whether an array can be lent.
    pub fn is_fresh(&self, id: ArrayId) -> bool
        requires { IsLive self.now.world id }
        ensures { result ≡ is_fresh self.now id }
    {
        row_laws();
        pdl_pull::is_fresh(&self.table, id)
    }

    /// An array's type, dimensions and elements. The array is one that can be lent.
    pub fn lend(&self, id: ArrayId) -> Strided<'_>
        requires live { IsLive self.now.world id }
        requires fresh { is_fresh self.now id ≡ true }
        ensures { result ≡ shown_in self.now id }
    {
        match self.try_lend(id) {
            Some(window) => window,
            None => unreachable!(),
        }
    }

    /// An array's type, dimensions and elements, if it can be lent.
    pub fn try_lend(&self, id: ArrayId) -> Option<Strided<'_>>
        requires { IsLive self.now.world id }
        ensures { result ≡ if is_fresh self.now id then Some (shown_in self.now id) else None }
    {
        row_laws();
        shape_laws();
        let node = self.table.node(id);
        let base = self.table.base_of(id, node);
        if !base.mark() {
            return None;
        }
        Some(strided(base.kept(), node.triple()))
    }

    /// A law: what can be lent of a family, and what waits in it (PDL::Dataflow). It does nothing.
    pub fn lazy_law(&self)
        ensures { IsLazy self.now }
    {
        row_laws();
        // the invariant is known where a field is read
        let _next = self.next;
    }

    /// A law: each array has holds once, be it none, and nothing else has. It does nothing.
    pub fn holds_law(&self)
        ensures each { AllHaveHolds self.now }
        ensures once { AreApart (holders self.now.holds) }
    {
        row_laws();
        // the invariant is known where a field is read
        let _next = self.next;
    }

    /// A law: what is so between any two calls. It does nothing.
    pub fn resting_law(&self)
        ensures { IsResting self.now }
    {
        row_laws();
        // the invariant is known where a field is read
        let _next = self.next;
    }

    /// A new root of these dimensions and elements, which can be lent. It takes a step for each
    /// number that isn't 0.
    pub fn make<L: Ledger>(
        &mut self,
        ty: Ty,
        dims: &Dims,
        elems: Elements,
        steps: &mut Steps<L>,
    ) -> Result<ArrayId, NoMemory>
        requires { IsMade ty dims.now elems }
        ensures made { IfOk result (λ id. Joins self.old id (root ty dims.now elems) self.new) }
        ensures fresh { IfOk result (λ id. is_fresh self.new id ≡ true) }
        ensures counted { OnOk result (steps.new ≡ steps.old + count_moved elems) }
        ensures err { OnErr result (self.new ≡ self.old) }
        ensures bounded { steps.new ≤ steps.old + count_moved elems }
        ensures sound { IsSound self.new.world }
    {
        row_laws();
        growth_laws();
        shape_laws();
        triple_laws();
        let id = self.next;
        let Some(next) = id.checked_add(1) else {
            return Err(AllocError);
        };
        // the limits of dimensions are known where they are listed
        let _limits = dims_list(dims);
        let kept = buf_of_elements(self.alloc, ty, elems, steps)?;
        let node = root_node(self.alloc, id, ty, dims, kept);
        insert(&mut self.table, &mut self.holds, id, node)?;
        self.next = next;
        Ok(id)
    }

    /// A new view of an array. Its transformation is well formed. It is refused exactly where the
    /// transformation's formula refuses the parent's dimensions, and else with `TooDeep` exactly
    /// where its path would have more than 64 views.
    pub fn view(&mut self, parent: ArrayId, trans: Trans) -> Result<ArrayId, ViewFault>
        requires live { IsLive self.old.world parent }
        requires well_formed { IsTrue (is_well_formed trans) }
        ensures made { IfOk result (λ id. Joins self.old id (view parent trans) self.new) }
        ensures allowed { OnOk result (view_refusal self.old.world parent trans ≡ None) }
        ensures lent { IfOk result (λ id. IsLentAs self.old parent id self.new) }
        ensures refused { IfErr result
            (λ fault. Names fault (view_refusal self.old.world parent trans)) }
        ensures err { OnErr result (self.new ≡ self.old) }
        ensures sound { IsSound self.new.world }
    {
        // the invariant is known where a field is read, and with it that the world is sound
        let _next = self.next;
        let layout = self.layout_of(parent, &trans)?;
        Ok(self.insert_view(parent, trans, layout)?)
    }

    /// The layout of a view of an array, where nothing refuses it.
    fn layout_of(&self, parent: ArrayId, trans: &Trans) -> Result<Layout, ViewFault>
        requires live { IsLive self.now.world parent }
        requires well_formed { IsTrue (is_well_formed trans.now) }
        ensures layout { IfOk result (IsLayout trans.now (dims_in self.now.world parent)) }
        ensures allowed { OnOk result (view_refusal self.now.world parent trans.now ≡ None) }
        ensures refused { IfErr result
            (λ fault. Names fault (view_refusal self.now.world parent trans.now)) }
    {
        let layout = layout(self.alloc, trans, self.dims(parent))?;
        if self.is_deep(parent) {
            return Err(ViewFault::TooDeep);
        }
        Ok(layout)
    }

    /// A new view of an array, of the layout that its transformation has on the parent.
    fn insert_view(
        &mut self,
        parent: ArrayId,
        trans: Trans,
        layout: Layout,
    ) -> Result<ArrayId, NoMemory>
        requires live { IsLive self.old.world parent }
        requires well_formed { IsTrue (is_well_formed trans) }
        requires allowed { view_refusal self.old.world parent trans ≡ None }
        requires layout { IsLayout trans (dims_in self.old.world parent) layout }
        ensures made { IfOk result (λ id. Joins self.old id (view parent trans) self.new) }
        ensures lent { IfOk result (λ id. IsLentAs self.old parent id self.new) }
        ensures err { OnErr result (self.new ≡ self.old) }
        ensures sound { IsSound self.new.world }
    {
        row_laws();
        growth_laws();
        let id = self.next;
        let Some(next) = id.checked_add(1) else {
            return Err(AllocError);
        };
        let above = self.table.node(parent);
        let node = view_node(self.alloc, id, parent, trans, layout, above)?;
        insert(&mut self.table, &mut self.holds, id, node)?;
        self.next = next;
        Ok(id)
    }

    /// Makes an array and each array on its path to the root so that they can be lent. What waits
    /// in the family is written back first. Out of memory, it may leave some of them so.
    pub fn ready<L: Ledger>(&mut self, id: ArrayId, steps: &mut Steps<L>) -> Result<(), NoMemory>
        requires { IsLive self.old.world id }
        ensures same { SameArrays self.old self.new }
        ensures stay { StayFresh self.old self.new }
        ensures fresh { OnOk result (PathIsFresh self.new id) }
        ensures itself { OnOk result (is_fresh self.new id ≡ true) }
        ensures settled { waiting self.new id ≡ None }
        ensures others { OthersWait self.old id self.new }
        ensures counted { steps.new ≤ steps.old + ready_steps self.old id }
    {
        row_laws();
        readying::ready(&mut self.table, self.alloc, id, steps)
    }

    /// Whether the base of an array is its root, so that its elements stand there.
    pub fn stands_in_root(&self, id: ArrayId) -> bool
        requires { IsLive self.now.world id }
        ensures { let w = self.now.world in result ≡ true ↔ base w id ≡ root_of w id }
    {
        row_laws();
        let node = self.table.node(id);
        node.base() == node.root()
    }

    /// Whether it is plain that an array is a view that is its own base and wasn't read: it can't be
    /// lent, and its places weren't found yet. What is assigned to all of it needn't be put into
    /// elements of its own then, nor what it shows be read from them. Where it is false nothing is
    /// said.
    pub fn is_unread(&self, id: ArrayId) -> bool
        requires { IsLive self.now.world id }
        ensures own { result ≡ true → base self.now.world id ≡ id }
        ensures view { result ≡ true → root_of self.now.world id ≢ id }
        ensures stale { result ≡ true → is_fresh self.now id ≡ false }
    {
        row_laws();
        let node = self.table.node(id);
        if node.base() != id {
            return false;
        }
        if node.root() == id {
            return false;
        }
        if node.mark() {
            return false;
        }
        node.places().is_none()
    }

    /// Puts the elements of an array, in rising order, at the positions of such a view: they go into
    /// its root. The view's own elements aren't brought up to date, neither before nor afterwards. The
    /// other array can be lent, is of another root, and has the same type and dimensions. What waits
    /// in the view's family is written back first, and the arrays above the view are brought up to
    /// date, for its places; of the family that can be lent afterwards which is shown over the root.
    /// It takes no more steps than to make the view one that can be lent. Out of memory, the arrays are
    /// as they were, and what could be lent can be lent.
    pub fn assign_through<L: Ledger>(
        &mut self,
        id: ArrayId,
        source: ArrayId,
        steps: &mut Steps<L>,
    ) -> Result<(), NoMemory>
        requires live { IsLive self.old.world id }
        requires source { IsLive self.old.world source }
        requires own { base self.old.world id ≡ id }
        requires view { root_of self.old.world id ≢ id }
        requires stale { is_fresh self.old id ≡ false }
        requires source_fresh { is_fresh self.old source ≡ true }
        requires apart { root_of self.old.world source ≢ root_of self.old.world id }
        requires same_type { ty_in self.old.world source ≡ ty_in self.old.world id }
        requires same_dims { dims_in self.old.world source ≡ dims_in self.old.world id }
        ensures world { let w = self.old.world in
            OnOk result (self.new.world ≡ assign w id (elements w source)) }
        ensures holds { self.new.holds ≡ self.old.holds }
        ensures next { self.new.next ≡ self.old.next }
        ensures same { OnErr result (SameArrays self.old self.new) }
        ensures stay { OnErr result (StayFresh self.old self.new) }
        ensures others { (u : ℕ) → (root_of self.old.world u ≡ root_of self.old.world id → ⊥)
            → is_fresh self.old u ≡ true → is_fresh self.new u ≡ true }
        ensures settled { waiting self.new id ≡ None }
        ensures waits { OthersWait self.old id self.new }
        ensures sound { IsSound self.new.world }
        ensures counted { let most = ready_steps self.old id in steps.new ≤ steps.old + most }
    {
        row_laws();
        part_laws();
        through::assign_through(&mut self.table, self.alloc, id, source, steps)
    }

    /// A buffer of such a view's elements, read from its root at its places. The view's own elements
    /// aren't brought up to date, and it keeps none of these. What waits in its family is written
    /// back first, and the arrays above the view are brought up to date, for its places. It takes no
    /// more steps than to make the view one that can be lent. Out of memory, it may leave some of the
    /// arrays above the view so.
    pub fn gathered<L: Ledger>(
        &mut self,
        id: ArrayId,
        steps: &mut Steps<L>,
    ) -> Result<Buf, NoMemory>
        requires live { IsLive self.old.world id }
        requires own { base self.old.world id ≡ id }
        requires view { root_of self.old.world id ≢ id }
        requires stale { is_fresh self.old id ≡ false }
        ensures value { let w = self.old.world in
            IfOk result (λ b. b ≡ record { ty = ty_in w id; elems = elements w id }) }
        ensures count { let size = size_of (dims_in self.old.world id) in
            IfOk result (λ b. length b.elems ≡ size) }
        ensures same { SameArrays self.old self.new }
        ensures stay { StayFresh self.old self.new }
        ensures settled { waiting self.new id ≡ None }
        ensures others { OthersWait self.old id self.new }
        ensures counted { let most = ready_steps self.old id in steps.new ≤ steps.old + most }
    {
        row_laws();
        gathering::gathered(&mut self.table, self.alloc, id, steps)
    }

    /// The root of an array, by which two arrays are of one family.
    pub fn root(&self, id: ArrayId) -> ArrayId
        requires { IsLive self.now.world id }
        ensures { result ≡ root_of self.now.world id }
    {
        row_laws();
        self.table.node(id).root()
    }

    /// Whether the base of an array that can be lent has repeats. Where it has none the array can
    /// be lent again once values were assigned to it.
    pub fn base_repeats(&self, id: ArrayId) -> bool
        requires live { IsLive self.now.world id }
        requires fresh { is_fresh self.now id ≡ true }
        ensures { let w = self.now.world in result ≡ has_repeats (places_in w (base w id)) }
    {
        row_laws();
        let node = self.table.node(id);
        let base = self.table.base_of(id, node);
        base.repeats()
    }

    /// Whether it is plain that an array that can be lent has no repeats: its base has none, and no
    /// two of its coordinates show one position of the base, since its increments lie apart.
    pub fn shows_once(&self, id: ArrayId) -> bool
        requires live { IsLive self.now.world id }
        requires fresh { is_fresh self.now id ≡ true }
        ensures { result ≡ true → has_repeats (places_in self.now.world id) ≡ false }
    {
        row_laws();
        shape_laws();
        repeat_laws();
        if self.base_repeats(id) {
            return false;
        }
        lies_apart(self.table.node(id).triple())
    }

    /// What an assignment of these values, one for each position, to an array that can be lent will
    /// write. It is kept so that as many elements as `lookups` says are foreseen by it at little cost;
    /// the answer is the same. It takes no step, and `NoMemory` is the only refusal.
    pub fn foretell(
        &self,
        target: ArrayId,
        values: &[i64],
        lookups: u64,
    ) -> Result<Foresight, NoMemory>
        requires live { IsLive self.now.world target }
        requires fresh { is_fresh self.now target ≡ true }
        requires count { length values.now ≡ size_of (dims_in self.now.world target) }
        ensures { IfOk result (Foretells self.now.world target values.now) }
    {
        row_laws();
        let found = foretell(&self.table, self.alloc, target, values, lookups)?;
        Ok(found)
    }

    /// What an array shows before an assignment that will be made and after it, and nothing where
    /// that is to an array of another root, so that this one stays (PDL::Dataflow). Of such an
    /// array nothing is read. Any other is made ready, as `ready` does, with these steps alone. The
    /// arrays stay, and what could be lent can be lent, so the values can be assigned afterwards;
    /// so it is out of memory, which is the only refusal.
    pub fn foresee<L: Ledger>(
        &mut self,
        foresight: &Foresight,
        seen: ArrayId,
        steps: &mut Steps<L>,
    ) -> Result<Option<Foreseen>, NoMemory>
        requires { IsLive self.old.world seen }
        ensures value { (v : ℕ) → (vs : List ℤ) → Foretells self.old.world v vs foresight.now
            → IfOk result (IsForeseen self.old.world v vs seen) }
        ensures alike { IfOk result
            (λ o. IfSome o (λ f. length f.after.items ≡ length f.before.items)) }
        ensures same { SameArrays self.old self.new }
        ensures stay { StayFresh self.old self.new }
        ensures others { OthersWait self.old seen self.new }
        ensures counted { steps.new ≤ steps.old + read_steps self.old seen }
        ensures apart { root_of self.old.world seen ≢ foresight.now.root
            → (self.new ≡ self.old) × (steps.new ≡ steps.old) }
        ensures nothing { root_of self.old.world seen ≢ foresight.now.root → result ≡ Ok None }
        ensures both { root_of self.old.world seen ≡ foresight.now.root
            → IfOk result (λ o. is_some o ≡ true) }
    {
        assignment_laws();
        if self.is_apart(foresight, seen) {
            return Ok(None);
        }
        self.ready_to_lend(seen, steps)?;
        let found = self.foreseen_now(foresight, seen)?;
        Ok(Some(found))
    }

    /// Whether an array has another root than the one that will be assigned to.
    fn is_apart(&self, foresight: &Foresight, seen: ArrayId) -> bool
        requires { IsLive self.now.world seen }
        ensures { IsTrue result ↔ (root_of self.now.world seen ≢ foresight.now.root) }
    {
        row_laws();
        self.table.node(seen).root() != foresight.root()
    }

    /// Makes an array ready that can't be lent. One that can be is left as it is, with what waits in
    /// its family.
    fn ready_to_lend<L: Ledger>(
        &mut self,
        id: ArrayId,
        steps: &mut Steps<L>,
    ) -> Result<(), NoMemory>
        requires { IsLive self.old.world id }
        ensures same { SameArrays self.old self.new }
        ensures stay { StayFresh self.old self.new }
        ensures itself { OnOk result (is_fresh self.new id ≡ true) }
        ensures others { OthersWait self.old id self.new }
        ensures counted { steps.new ≤ steps.old + read_steps self.old id }
    {
        if self.is_fresh(id) {
            return Ok(());
        }
        self.ready(id, steps)
    }

    /// What `foresee` answers, where the array can be lent.
    fn foreseen_now(&self, foresight: &Foresight, seen: ArrayId) -> Result<Foreseen, NoMemory>
        requires live { IsLive self.now.world seen }
        requires fresh { is_fresh self.now seen ≡ true }
        requires family { root_of self.now.world seen ≡ foresight.now.root }
        ensures value { (v : ℕ) → (vs : List ℤ) → Foretells self.now.world v vs foresight.now
            → IfOk result (λ f. IsForeseen self.now.world v vs seen (Some f)) }
        ensures alike { IfOk result (λ f. length f.after.items ≡ length f.before.items) }
    {
        row_laws();
        let found = foresee(&self.table, self.alloc, foresight, seen)?;
        Ok(found)
    }

    /// The parent of a view, or nothing for a root.
    pub fn parent(&self, id: ArrayId) -> Option<ArrayId>
        requires { IsLive self.now.world id }
        ensures { result ≡ parent_in self.now.world id }
    {
        row_laws();
        self.table.node(id).parent()
    }

    /// The transformation of a view, or nothing for a root.
    pub fn trans(&self, id: ArrayId) -> Option<&Trans>
        requires { IsLive self.now.world id }
        ensures trans { option_map (λ t. t.now) result ≡ trans_in self.now.world id }
        ensures well_formed { IfSome result (λ t. IsTrue (is_well_formed t.now)) }
    {
        row_laws();
        match self.table.node(id).origin() {
            Origin::View { trans, .. } => Some(trans.get()),
            Origin::Root => None,
        }
    }

    /// The oldest array that is newer than this one, or the oldest of all.
    pub fn next_live(&self, after: Option<ArrayId>) -> Option<ArrayId>
        requires { IfSome after (IsLive self.now.world) }
        ensures { result ≡ first_from (array_numbers self.now.world) (past after) }
    {
        row_laws();
        self.table.from(past(after))
    }

    /// Whether an array is on the path of another to its root, itself counted.
    pub fn reaches(&self, below: ArrayId, above: ArrayId) -> bool
        requires { IsLive self.now.world below }
        ensures { result ≡ is_listed (path self.now.world below) above }
    {
        row_laws();
        reaching::reaches(&self.table, below, above)
    }

    /// Whether these dimensions of an array would break a view: the formula of one that reaches it
    /// by parents refuses its parent's.
    pub fn breaks(&self, id: ArrayId, dims: &Dims) -> Result<bool, NoMemory>
        requires { IsLive self.now.world id }
        ensures { IfOk result (λ b. b ≡ breaks self.now.world id dims.now) }
    {
        row_laws();
        match self.table.relaid(self.alloc, id, dims) {
            Ok(_) => Ok(false),
            Err(ReshapeFault::Breaks) => Ok(true),
            Err(ReshapeFault::NoMemory) => Err(AllocError),
        }
    }

    /// Holds an array once more. A new array is held once.
    pub fn hold(&mut self, id: ArrayId)
        requires live { IsLive self.old.world id }
        requires room { count_at self.old.holds id < 2 ^ 63 }
        ensures { self.new ≡ record self.old { holds = one_more_at self.old.holds id } }
    {
        row_laws();
        self.holds.hold(id);
    }

    /// Takes one hold of an array back. What no held array reaches by parents goes; what waits in a
    /// view that goes is written back before, if its root stays. It takes a step for each element
    /// that is written back, and no memory.
    pub fn release<L: Ledger>(&mut self, id: ArrayId, steps: &mut Steps<L>)
        requires { 0 < count_at self.old.holds id }
        ensures released { IsReleased self.old id self.new }
        ensures counted { steps.new ≡ steps.old
            + written_back self.old self.new.world self.new.world }
        ensures sound { IsSound self.new.world }
    {
        row_laws();
        sweep_laws();
        releases::release(&mut self.table, &mut self.holds, &self.loose, id, steps);
        self.loose.clear();
    }

    /// Cuts an array from its parent: it becomes a root with its elements, which can be lent, and
    /// its own views stay with it; of these those can be lent whose base the array is. Whatever has
    /// another root then can be lent if it could be. What waits in the family is written back
    /// first. On a root it does nothing, and takes no memory. Out of memory, it leaves the world,
    /// and what could be lent. It takes at most the steps of `ready`, and one for each element.
    pub fn sever<L: Ledger>(&mut self, id: ArrayId, steps: &mut Steps<L>) -> Result<(), NoMemory>
        requires { IsLive self.old.world id }
        ensures root { root_of self.old.world id ≡ id → self.new ≡ self.old }
        ensures spent { root_of self.old.world id ≡ id → steps.new ≡ steps.old }
        ensures done { root_of self.old.world id ≡ id → is_ok result ≡ true }
        ensures ok { OnOk result (self.new.world ≡ sever self.old.world id) }
        ensures err { OnErr result (self.new.world ≡ self.old.world) }
        ensures family { ChangesFamily self.old id self.new }
        ensures settled { root_of self.old.world id ≢ id → FamilyIsSettled self.old id self.new }
        ensures stay { OnErr result (StayFresh self.old self.new) }
        ensures fresh { OnOk result (root_of self.old.world id ≢ id → is_fresh self.new id ≡ true) }
        ensures outdated { OnOk result (root_of self.old.world id ≢ id
            → (u : ℕ) → IsLive self.old.world u → root_of self.new.world u ≡ id
            → is_fresh self.new u ≡ (base self.new.world u == id)) }
        ensures counted { steps.new ≤ steps.old
            + (ready_steps self.old id + size_of (dims_in self.old.world id)) }
        ensures sound { IsSound self.new.world }
    {
        row_laws();
        cut_laws();
        severing::sever(
            &mut self.table,
            &self.holds,
            &mut self.loose,
            self.alloc,
            id,
            steps,
        )
    }

    /// Gives an array other dimensions: it becomes a root of its first elements, in order, with
    /// zeros after them where there are fewer, and can be lent. Each view that reaches it is
    /// derived anew by its transformation; of these those can be lent whose base the array is, and
    /// of all others those that could be. `Breaks` comes only where the formula of such a view
    /// refuses, and there it never succeeds; it changes nothing. What waits in the family is written
    /// back first. Out of memory, it leaves the world, and what could be lent. It takes at most the
    /// steps of `ready`, and one for each new element.
    pub fn reshape<L: Ledger>(
        &mut self,
        id: ArrayId,
        dims: &Dims,
        steps: &mut Steps<L>,
    ) -> Result<(), ReshapeFault>
        requires { IsLive self.old.world id }
        ensures ok { OnOk result (self.new.world ≡ reshape self.old.world id dims.now) }
        ensures allowed { OnOk result (breaks self.old.world id dims.now ≡ false) }
        ensures broken { IfErr result
            (λ fault. fault ≡ Breaks → breaks self.old.world id dims.now ≡ true) }
        ensures unchanged { IfErr result
            (λ fault. fault ≡ Breaks → (self.new ≡ self.old) × (steps.new ≡ steps.old)) }
        ensures err { OnErr result (self.new.world ≡ self.old.world) }
        ensures family { ChangesFamily self.old id self.new }
        ensures settled { OnOk result (FamilyIsSettled self.old id self.new) }
        ensures stay { OnErr result (StayFresh self.old self.new) }
        ensures fresh { OnOk result (is_fresh self.new id ≡ true) }
        ensures outdated { OnOk result
            ((u : ℕ) → IsLive self.old.world u → root_of self.new.world u ≡ id
            → is_fresh self.new u ≡ (base self.new.world u == id)) }
        ensures counted { steps.new ≤ steps.old + (ready_steps self.old id + size_of dims.now) }
        ensures sound { IsSound self.new.world }
    {
        row_laws();
        reshape_laws();
        // the limits of dimensions are known where they are listed
        let _limits = dims_list(dims);
        severing::reshape(
            &mut self.table,
            &self.holds,
            &mut self.loose,
            self.alloc,
            id,
            dims,
            steps,
        )
    }
}

/// The number behind this one, and 0 behind none.
fn past(after: Option<ArrayId>) -> u64
    requires { past after < 2 ^ 64 }
    ensures { result ≡ past after }
{
    match after {
        Some(id) => id + 1,
        None => 0,
    }
}
