//! Assignments to the arrays of a scope.
ghost use Rattle.std.specs.Prelude.{◌≡◌, ◌≢◌, ◌+◌, ◌≤◌, ◌&&◌, Ok, true, false, [], IfOk, IfSome, IsTrue, OnOk, is_some, length, sum_by};
ghost use Rattle.pdl_shape.specs.Shape.{size_of};
ghost use Rattle.pdl_buf.specs.Made.{IsMade};
ghost use Rattle.pdl_world.specs.Paths.{root_of};
ghost use Rattle.pdl_world.specs.Sound.{IsLive};
ghost use Rattle.pdl_world.specs.World.{assign, dims_in, ty_in};
ghost use Rattle.pdl_engine.specs.Reading.{IsWarm, KeepsViews, read_steps};
ghost use Rattle.pdl_engine.specs.State.{is_fresh, SameArrays, StayFresh};
ghost use Rattle.pdl_assign.specs.Through.{GoesThrough};
ghost use Rattle.pdl_lexemes.specs.declared.AssignOp.TheVariants.{Set};
ghost use Rattle.pdl_machine.specs.Arrays.{array_in};
ghost use Rattle.pdl_machine.specs.Flows.{followers, is_flow};
ghost use Rattle.pdl_machine.specs.Following.{AreFlows};
ghost use Rattle.pdl_machine.specs.Operators.{values_for};
ghost use Rattle.pdl_machine.specs.State.{AreLive};
ghost use Rattle.pdl_machine.specs.Step.{assigned};
ghost use Rattle.pdl_machine.specs.Watches.{attached, notices};
ghost use Rattle.pdl_watch.specs.Slots.{lists_of};
ghost use Rattle.pdl_scope.specs.Answers.{AnswersAs, IfScript};
ghost use Rattle.pdl_scope.specs.Assigning.{Assigns, CanAssign, GoesInBlocks, IsAlone};
ghost use Rattle.pdl_scope.specs.Costs.{ReadsNoDearer};
ghost use Rattle.pdl_scope.specs.FlowCosts.{following_steps};
ghost use Rattle.pdl_scope.specs.Plans.{IsPlan, values_in};
ghost use Rattle.pdl_scope.specs.Scope.{engine_of, arrays_of, OnlyReads};

use crate::fault::ScopeFault;
use crate::flows::KeptFlow;
use crate::following::{Change, Values, assign_all, is_followed, plan_flows};
use crate::laws::assign_elements_laws;
use crate::operating::operator_named;
use crate::reading::{ready, ready_two};
use crate::scope::Scope;
use crate::watching::{foreseen, lookups, reads_views};
use pdl_assign::{BLOCK, assign_blocks, assign_through, can_block, goes_through};
use pdl_buf::{Elements, Steps};
use pdl_engine::{ArrayId, Engine};
use pdl_lexemes::AssignOp;
use pdl_ops::{Keeping, values_for};
use pdl_shape::elements_of;
use pdl_watch::Notice;
use std::alloc::{AllocError, Global};
use std::sync::ledger::Ledger;

impl Scope {
    /// Assigns an array to another one by a sign, after which flows follow, and answers by slots what
    /// watchers are to be told: a notice of this number for each position at which the array of the slot
    /// changed. What is written are the values by the elements at the start, whether they are found
    /// all at once or block by block; and all values and notices are found before one value is
    /// written, which takes no memory. Each flow that reads, directly or through flows, an array of
    /// the target's root takes at most one step of `runs`, and none where the script is refused. It
    /// takes at most a step for each position, beside those that it takes to read both arrays and each
    /// array that a slot is attached to, and those of the flows that follow. Where it is to be readable,
    /// what was assigned to can be lent afterwards, unless its base has repeats.
    pub fn assign<L: Ledger, M: Ledger>(
        &mut self,
        sign: AssignOp,
        target: ArrayId,
        value: ArrayId,
        readable: bool,
        number: u64,
        steps: &mut Steps<L>,
        runs: &mut Steps<M>,
    ) -> Result<Vec<Vec<Notice>>, ScopeFault>
        requires target { IsLive self.old.arrays.world target }
        requires value { IsLive self.old.arrays.world value }
        requires unflowed { let root = root_of self.old.arrays.world target in
            is_flow self.old.flows root ≡ false }
        ensures runs { Assigns sign target value self.old self.new result }
        ensures told { let before = self.old.arrays.world in
            let wanted = notices number before self.new.arrays.world self.old.watches in
            IfOk result (λ all. lists_of all.items ≡ wanted) }
        ensures affected { let old = self.old in
            runs.new ≤ runs.old + length (followers old.arrays.world old.flows target) }
        ensures unrun { IfScript result (runs.new ≡ runs.old) }
        ensures warm { IsTrue readable → OnOk result (IsWarm (engine_of self.new) target) }
        ensures views { KeepsViews self.new.arrays.world self.old.arrays.world }
        ensures at_once { let e = engine_of self.old in followers e.world self.old.flows target ≡ []
            → is_fresh e target ≡ true → is_fresh e value ≡ true → attached self.old.watches ≡ []
            → steps.new ≤ steps.old + size_of (dims_in e.world target) }
        ensures counted { let e = engine_of self.old in
            let size = size_of (dims_in e.world target) in
            let watched = sum_by (read_steps e) (attached self.old.watches) in
            let after = assigned sign self.old.arrays target value in
            let flows = followers e.world self.old.flows target in
            steps.new ≤ steps.old + (read_steps e target + read_steps e value) + watched + size
            + following_steps e flows size after }
    {
        if !self.is_alone(target) {
            return self.assign_planned(sign, target, value, number, steps, runs);
        }
        match self.assign_alone(sign, target, value, readable, steps) {
            Ok(()) => Ok(Vec::new(self.alloc)),
            Err(fault) => Err(fault),
        }
    }

    /// Whether nothing is to be found of an assignment to this array but its values: no slot is
    /// attached, and no flow reads an array of its root.
    fn is_alone(&self, target: ArrayId) -> bool
        requires { IsLive self.now.arrays.world target }
        ensures alone { result ≡ true → IsAlone self.now target }
        ensures more { result ≡ false → IsAlone self.now target → ⊥ }
    {
        self.watches.is_empty()
            && (self.flows.is_empty()
                || !is_followed(&self.engine, &self.flows, self.engine.root(target)))
    }

    /// What `assign` does where no slot is attached and no flow follows. How many elements the target
    /// has is asked first: for few of them no other way is looked for than by a list.
    fn assign_alone<L: Ledger>(
        &mut self,
        sign: AssignOp,
        target: ArrayId,
        value: ArrayId,
        readable: bool,
        steps: &mut Steps<L>,
    ) -> Result<(), ScopeFault>
        requires target { IsLive self.old.arrays.world target }
        requires value { IsLive self.old.arrays.world value }
        requires unflowed { let root = root_of self.old.arrays.world target in
            is_flow self.old.flows root ≡ false }
        requires alone { IsAlone self.old target }
        ensures runs { Assigns sign target value self.old self.new result }
        ensures warm { IsTrue readable → OnOk result (IsWarm (engine_of self.new) target) }
        ensures views { KeepsViews self.new.arrays.world self.old.arrays.world }
        ensures counted { let e = engine_of self.old in
            steps.new ≤ steps.old + (read_steps e target + read_steps e value)
            + size_of (dims_in e.world target) }
    {
        if self.has_few(target) {
            return self.assign_listed(sign, target, value, steps);
        }
        self.assign_many(sign, target, value, readable, steps)
    }

    /// Whether an array has no more elements than one block of an assignment.
    fn has_few(&self, id: ArrayId) -> bool
        requires { IsLive self.now.arrays.world id }
    {
        elements_of(self.engine.dims(id)) as usize <= BLOCK
    }

    /// What `assign_alone` does where the target has more elements than one block. It stays a call, as
    /// `assign_in_blocks` does.
    #[inline(never)]
    fn assign_many<L: Ledger>(
        &mut self,
        sign: AssignOp,
        target: ArrayId,
        value: ArrayId,
        readable: bool,
        steps: &mut Steps<L>,
    ) -> Result<(), ScopeFault>
        requires target { IsLive self.old.arrays.world target }
        requires value { IsLive self.old.arrays.world value }
        requires unflowed { let root = root_of self.old.arrays.world target in
            is_flow self.old.flows root ≡ false }
        requires alone { IsAlone self.old target }
        ensures runs { Assigns sign target value self.old self.new result }
        ensures warm { IsTrue readable → OnOk result (IsWarm (engine_of self.new) target) }
        ensures views { KeepsViews self.new.arrays.world self.old.arrays.world }
        ensures counted { let e = engine_of self.old in
            steps.new ≤ steps.old + (read_steps e target + read_steps e value)
            + size_of (dims_in e.world target) }
    {
        if !readable && self.goes_through(sign, target, value, steps)? {
            return self.assign_through(target, value, steps);
        }
        self.assign_lent(sign, target, value, steps)
    }

    /// Whether an assignment goes through the target's places, so that none of its elements is read. To
    /// find out, the value is made one that can be lent, which the assignment wants in any case.
    fn goes_through<L: Ledger>(
        &mut self,
        sign: AssignOp,
        target: ArrayId,
        value: ArrayId,
        steps: &mut Steps<L>,
    ) -> Result<bool, AllocError>
        requires target { IsLive self.old.arrays.world target }
        requires value { IsLive self.old.arrays.world value }
        ensures same { OnlyReads self.old self.new }
        ensures through { IfOk result
            (λ b. b ≡ true → GoesThrough sign (engine_of self.new) target value) }
        ensures lent { IfOk result (λ b. b ≡ true → is_fresh (engine_of self.new) value ≡ true) }
        ensures counted { let e = engine_of self.old in
            steps.new ≤ steps.old + (read_steps e target + read_steps e value) }
        ensures spent { let e = engine_of self.old in let f = engine_of self.new in
            OnOk result (steps.new + (read_steps f target + read_steps f value)
            ≤ steps.old + (read_steps e target + read_steps e value)) }
    {
        ready(&mut self.engine, value, steps)?;
        Ok(goes_through(&self.engine, sign, target, value))
    }

    /// What `assign_many` does through the target's places, into its root. The target's own elements
    /// aren't brought up to date.
    fn assign_through<L: Ledger>(
        &mut self,
        target: ArrayId,
        value: ArrayId,
        steps: &mut Steps<L>,
    ) -> Result<(), ScopeFault>
        requires target { IsLive self.old.arrays.world target }
        requires value { IsLive self.old.arrays.world value }
        requires unflowed { let root = root_of self.old.arrays.world target in
            is_flow self.old.flows root ≡ false }
        requires alone { IsAlone self.old target }
        requires lent { is_fresh (engine_of self.old) value ≡ true }
        requires through { GoesThrough Set (engine_of self.old) target value }
        ensures runs { Assigns Set target value self.old self.new result }
        ensures views { KeepsViews self.new.arrays.world self.old.arrays.world }
        ensures counted { steps.new ≤ steps.old + read_steps (engine_of self.old) target }
    {
        assign_elements_laws();
        Ok(assign_through(&mut self.engine, target, value, steps)?)
    }

    /// What `assign_many` does where the target is made one that can be lent.
    fn assign_lent<L: Ledger>(
        &mut self,
        sign: AssignOp,
        target: ArrayId,
        value: ArrayId,
        steps: &mut Steps<L>,
    ) -> Result<(), ScopeFault>
        requires target { IsLive self.old.arrays.world target }
        requires value { IsLive self.old.arrays.world value }
        requires unflowed { let root = root_of self.old.arrays.world target in
            is_flow self.old.flows root ≡ false }
        requires alone { IsAlone self.old target }
        ensures runs { Assigns sign target value self.old self.new result }
        ensures warm { OnOk result (IsWarm (engine_of self.new) target) }
        ensures views { KeepsViews self.new.arrays.world self.old.arrays.world }
        ensures counted { let e = engine_of self.old in
            steps.new ≤ steps.old + (read_steps e target + read_steps e value)
            + size_of (dims_in e.world target) }
    {
        if self.goes_in_blocks(sign, target, value, steps)? {
            return self.assign_in_blocks(sign, target, value, steps);
        }
        self.assign_listed(sign, target, value, steps)
    }

    /// Whether an assignment is made block by block, without a list of its values: it is plain that no
    /// block reads what one before it wrote. To find out, both arrays are made ones that can be lent,
    /// which the assignment wants in any case.
    fn goes_in_blocks<L: Ledger>(
        &mut self,
        sign: AssignOp,
        target: ArrayId,
        value: ArrayId,
        steps: &mut Steps<L>,
    ) -> Result<bool, AllocError>
        requires target { IsLive self.old.arrays.world target }
        requires value { IsLive self.old.arrays.world value }
        ensures same { OnlyReads self.old self.new }
        ensures blocks { IfOk result (λ b. b ≡ true → GoesInBlocks sign self.new target value) }
        ensures counted { let e = engine_of self.old in
            steps.new ≤ steps.old + (read_steps e target + read_steps e value) }
        ensures spent { let e = engine_of self.old in let f = engine_of self.new in
            OnOk result (steps.new + (read_steps f target + read_steps f value)
            ≤ steps.old + (read_steps e target + read_steps e value)) }
    {
        ready_two(&mut self.engine, target, value, steps)?;
        Ok(can_block(&self.engine, sign, target, value))
    }

    /// What `assign_many` does, block by block. All of the right side is looked at before the first
    /// write, and no memory is wanted. It stays a call: in line its rooms for a block would make the
    /// frame of each assignment large.
    #[inline(never)]
    fn assign_in_blocks<L: Ledger>(
        &mut self,
        sign: AssignOp,
        target: ArrayId,
        value: ArrayId,
        steps: &mut Steps<L>,
    ) -> Result<(), ScopeFault>
        requires target { IsLive self.old.arrays.world target }
        requires value { IsLive self.old.arrays.world value }
        requires unflowed { let root = root_of self.old.arrays.world target in
            is_flow self.old.flows root ≡ false }
        requires alone { IsAlone self.old target }
        requires blocks { GoesInBlocks sign self.old target value }
        ensures runs { Assigns sign target value self.old self.new result }
        ensures warm { OnOk result (IsWarm (engine_of self.new) target) }
        ensures views { KeepsViews self.new.arrays.world self.old.arrays.world }
        ensures counted { steps.new ≤ steps.old + size_of (dims_in self.old.arrays.world target) }
    {
        assign_elements_laws();
        match assign_blocks(&mut self.engine, sign, target, value, steps) {
            Ok(()) => Ok(()),
            Err(fault) => Err(ScopeFault::from(fault)),
        }
    }

    /// Whether flows follow an assignment to this array: then formulas read what is written.
    fn has_followers(&self, target: ArrayId) -> bool
        requires { IsLive self.now.arrays.world target }
        ensures { result ≡ true → followers self.now.arrays.world self.now.flows target ≢ [] }
    {
        is_followed(&self.engine, &self.flows, self.engine.root(target))
    }

    /// What `assign_alone` does, with a list of all values, which are found before one is written. It is
    /// in line at both of its calls, since that for few values is spared a call.
    #[inline(always)]
    fn assign_listed<L: Ledger>(
        &mut self,
        sign: AssignOp,
        target: ArrayId,
        value: ArrayId,
        steps: &mut Steps<L>,
    ) -> Result<(), ScopeFault>
        requires target { IsLive self.old.arrays.world target }
        requires value { IsLive self.old.arrays.world value }
        requires unflowed { let root = root_of self.old.arrays.world target in
            is_flow self.old.flows root ≡ false }
        requires alone { IsAlone self.old target }
        ensures runs { Assigns sign target value self.old self.new result }
        ensures warm { OnOk result (IsWarm (engine_of self.new) target) }
        ensures views { KeepsViews self.new.arrays.world self.old.arrays.world }
        ensures counted { let e = engine_of self.old in
            steps.new ≤ steps.old + (read_steps e target + read_steps e value)
            + size_of (dims_in e.world target) }
    {
        assign_elements_laws();
        let listed = Keeping::Listed;
        let found = written(
            self.alloc,
            &mut self.engine,
            sign,
            target,
            value,
            listed,
            steps,
        );
        let found = match found {
            Ok(found) => found,
            Err(fault) => return Err(fault),
        };
        let values = found.into_vec(self.alloc)?;
        self.engine.assign(target, &values, steps);
        Ok(())
    }

    /// What `assign` does with a plan: the assignment, and those by which flows follow it. They and
    /// all notices are found before one value is written. It stays a call, as `assign_in_blocks` does.
    #[inline(never)]
    fn assign_planned<L: Ledger, M: Ledger>(
        &mut self,
        sign: AssignOp,
        target: ArrayId,
        value: ArrayId,
        number: u64,
        steps: &mut Steps<L>,
        runs: &mut Steps<M>,
    ) -> Result<Vec<Vec<Notice>>, ScopeFault>
        requires target { IsLive self.old.arrays.world target }
        requires value { IsLive self.old.arrays.world value }
        requires unflowed { let root = root_of self.old.arrays.world target in
            is_flow self.old.flows root ≡ false }
        ensures runs { Assigns sign target value self.old self.new result }
        ensures told { let before = self.old.arrays.world in
            let wanted = notices number before self.new.arrays.world self.old.watches in
            IfOk result (λ all. lists_of all.items ≡ wanted) }
        ensures affected { let old = self.old in
            runs.new ≤ runs.old + length (followers old.arrays.world old.flows target) }
        ensures unrun { IfScript result (runs.new ≡ runs.old) }
        ensures warm { OnOk result (IsWarm (engine_of self.new) target) }
        ensures views { KeepsViews self.new.arrays.world self.old.arrays.world }
        ensures counted { let e = engine_of self.old in
            let size = size_of (dims_in e.world target) in
            let watched = sum_by (read_steps e) (attached self.old.watches) in
            let after = assigned sign self.old.arrays target value in
            let flows = followers e.world self.old.flows target in
            steps.new ≤ steps.old + (read_steps e target + read_steps e value) + watched + size
            + following_steps e flows size after }
    {
        assign_elements_laws();
        let is_read = self.has_followers(target);
        let found = written(
            self.alloc,
            &mut self.engine,
            sign,
            target,
            value,
            keeping_for(is_read),
            steps,
        );
        let values = match found {
            Ok(values) => values,
            Err(fault) => return Err(fault),
        };
        let plan = planned(
            self.alloc,
            &mut self.engine,
            target,
            values,
            is_read,
            &self.watches,
            &self.flows,
            steps,
            runs,
        )?;
        let all = foreseen(
            self.alloc,
            &mut self.engine,
            number,
            &plan,
            &self.watches,
            steps,
        )?;
        assign_all(self.alloc, &mut self.engine, plan, steps);
        Ok(all)
    }
}

/// How the values of an assignment are kept, of which formulas read arrays or none does.
fn keeping_for(is_read: bool) -> Keeping {
    if is_read {
        Keeping::Packed
    } else {
        Keeping::Listed
    }
}

/// The plan of an assignment of these values to an array: itself, and those by which flows follow it,
/// of which there is none where formulas don't read the values.
fn planned<L: Ledger, M: Ledger>(
    alloc: Global,
    engine: &mut Engine,
    target: ArrayId,
    values: Elements,
    is_read: bool,
    watches: &[Option<ArrayId>],
    flows: &[KeptFlow],
    steps: &mut Steps<L>,
    runs: &mut Steps<M>,
) -> Result<Vec<Change>, AllocError>
    requires can { CanAssign engine.old target values }
    requires read { followers engine.old.world flows.now target ≡ [] → is_read ≡ false }
    requires watched { AreLive engine.old.world (attached watches.now) }
    requires flows { AreFlows (arrays_of engine.old) flows.now }
    requires unflowed { is_flow flows.now (root_of engine.old.world target) ≡ false }
    ensures plan { let e = engine.old in
        IfOk result (λ cs. IsPlan e flows.now target values engine.new cs.items) }
    ensures same { SameArrays engine.old engine.new }
    ensures stay { StayFresh engine.old engine.new }
    ensures runs { let w = engine.old.world in
        runs.new ≤ runs.old + length (followers w flows.now target) }
    ensures counted { let e = engine.old in
        let size = size_of (dims_in e.world target) in
        let after = record (arrays_of e) { world = assign e.world target values } in
        let flows = followers e.world flows.now target in
        steps.new ≤ steps.old + following_steps e flows size (Ok after) }
    ensures paid { let e = engine.old in
        let size = size_of (dims_in e.world target) in
        let after = record (arrays_of e) { world = assign e.world target values } in
        let flows = followers e.world flows.now target in
        IfOk result (λ cs. steps.new + values_in cs.items
        ≤ steps.old + size + following_steps e flows size (Ok after)) }
    ensures costs { IfOk result (λ cs. ReadsNoDearer engine.old engine.new) }
{
    let many = lookups(engine, watches, flows, target);
    let values = Values::new(alloc, engine, target, values, is_read, steps)?;
    let change = Change::new(alloc, engine, target, values, many)?;
    let mut plan = vec![in alloc; change]?;
    let is_looked_at = !watches.is_empty() || reads_views(engine, flows);
    plan_flows(alloc, engine, flows, &mut plan, is_looked_at, steps, runs)?;
    Ok(plan)
}

/// The values that an assignment writes, if both arrays can be lent already: then each of them is
/// looked up once.
#[inline(always)]
fn written_at_once(
    alloc: Global,
    engine: &Engine,
    sign: AssignOp,
    target: ArrayId,
    value: ArrayId,
    keeping: Keeping,
) -> Option<Result<Elements, ScopeFault>>
    requires target { IsLive engine.now.world target }
    requires value { IsLive engine.now.world value }
    ensures fresh { is_some result ≡ (is_fresh engine.now target && is_fresh engine.now value) }
    ensures value { let a = arrays_of engine.now in
        let wanted = values_for sign (array_in a target) (array_in a value) in
        IfSome result (λ r. AnswersAs (λ vs. vs) wanted r) }
    ensures made { let w = engine.now.world in
        IfSome result (λ r. IfOk r (λ vs. IsMade (ty_in w target) (dims_in w target) vs)) }
{
    let into = engine.try_lend(target)?;
    let from = engine.try_lend(value)?;
    Some(operator_named(values_for(alloc, sign, &into, &from, keeping)))
}

/// The values that an assignment writes, after which its target can be lent.
fn written<L: Ledger>(
    alloc: Global,
    engine: &mut Engine,
    sign: AssignOp,
    target: ArrayId,
    value: ArrayId,
    keeping: Keeping,
    steps: &mut Steps<L>,
) -> Result<Elements, ScopeFault>
    requires target { IsLive engine.old.world target }
    requires value { IsLive engine.old.world value }
    ensures same { SameArrays engine.old engine.new }
    ensures stay { StayFresh engine.old engine.new }
    ensures costs { ReadsNoDearer engine.old engine.new }
    ensures fresh { OnOk result (is_fresh engine.new target ≡ true) }
    ensures value { let a = arrays_of engine.new in
        AnswersAs (λ vs. vs) (values_for sign (array_in a target) (array_in a value)) result }
    ensures made { let w = engine.new.world in
        IfOk result (λ vs. IsMade (ty_in w target) (dims_in w target) vs) }
    ensures counted { let e = engine.old in
        steps.new ≤ steps.old + (read_steps e target + read_steps e value) }
{
    if let Some(found) = written_at_once(alloc, engine, sign, target, value, keeping) {
        return found;
    }
    written_when_ready(alloc, engine, sign, target, value, keeping, steps)
}

/// The same where not both arrays can be lent already: they are made so first. It stays a call: in
/// line its windows would be cleared for those that can.
#[inline(never)]
fn written_when_ready<L: Ledger>(
    alloc: Global,
    engine: &mut Engine,
    sign: AssignOp,
    target: ArrayId,
    value: ArrayId,
    keeping: Keeping,
    steps: &mut Steps<L>,
) -> Result<Elements, ScopeFault>
    requires target { IsLive engine.old.world target }
    requires value { IsLive engine.old.world value }
    ensures same { SameArrays engine.old engine.new }
    ensures stay { StayFresh engine.old engine.new }
    ensures costs { ReadsNoDearer engine.old engine.new }
    ensures fresh { OnOk result (is_fresh engine.new target ≡ true) }
    ensures value { let a = arrays_of engine.new in
        AnswersAs (λ vs. vs) (values_for sign (array_in a target) (array_in a value)) result }
    ensures made { let w = engine.new.world in
        IfOk result (λ vs. IsMade (ty_in w target) (dims_in w target) vs) }
    ensures counted { let e = engine.old in
        steps.new ≤ steps.old + (read_steps e target + read_steps e value) }
{
    ready_two(engine, target, value, steps)?;
    match written_at_once(alloc, engine, sign, target, value, keeping) {
        Some(found) => found,
        None => unreachable!(),
    }
}
