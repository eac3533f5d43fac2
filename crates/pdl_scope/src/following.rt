//! What flows make of an assignment: a plan of assignments to different roots, each found before
//! one of them is made (PDL::Dataflow).
ghost use Rattle.std.specs.Prelude.{◌≡◌, ◌≢◌, ℕ, None, Some, ◌+◌, ◌≤◌, ◌∷◌, ◌++◌, [], true, false, List, All, IfOk, IfSome, OnOk, if◌then◌else◌, is_some, length, option_map, sum_by, IsTrue, ◌↔◌};
ghost use Rattle.pdl_numbers.specs.Typed.{count_moved};
ghost use Rattle.pdl_buf.specs.Made.{IsMade};
ghost use Rattle.pdl_ops.specs.Answers.{refusal_named};
ghost use Rattle.pdl_flow.specs.Formula.{arrays_in};
ghost use Rattle.pdl_buf.specs.declared.made.Made.{Made};
ghost use Rattle.pdl_flow.specs.Inputs.{Given, input_of};
ghost use Rattle.pdl_world.specs.Paths.{root_of};
ghost use Rattle.pdl_world.specs.Sound.{IsLive, IsSound};
ghost use Rattle.pdl_world.specs.Swept.{is_listed};
ghost use Rattle.pdl_world.specs.Windows.{base};
ghost use Rattle.pdl_world.specs.World.{assign, dims_in, elements, has_repeats, places_in, ty_in};
ghost use Rattle.pdl_engine.specs.Foresights.{Foretells, IsForeseen};
ghost use Rattle.pdl_engine.specs.Reading.{IsWarm, read_steps};
ghost use Rattle.pdl_engine.specs.State.{SameArrays, StayFresh, is_fresh};
ghost use Rattle.pdl_machine.specs.Arrays.{array_in};
ghost use Rattle.pdl_machine.specs.Flows.{affected, reads_from};
ghost use Rattle.pdl_machine.specs.Following.{AreFlows, IsFlow, follow, followed};
ghost use Rattle.pdl_machine.specs.State.{AreLive};
ghost use Rattle.pdl_watch.specs.Slots.{StartsWith};
ghost use Rattle.pdl_scope.specs.Assigning.{CanAssign};
ghost use Rattle.pdl_scope.specs.Costs.{ReadsNoDearer};
ghost use Rattle.pdl_scope.specs.FlowCosts.{find_steps, follow_steps, followed_steps, input_steps, once};
ghost use Rattle.pdl_scope.specs.Plans.{AllCanAssign, AreApart, AreFor, ArePlanned, AreShown, AreSingle, IsChange, KeepInputs, NoFlowIn, all_assigned, change_to, input_at, listed, met_by, planned, roots_in, values_in};
ghost use Rattle.pdl_scope.specs.Scope.{arrays_of};
ghost use Rattle.pdl_scope.specs.declared.following.Change.{Change};

use crate::flows::KeptFlow;
use crate::reading::ready;
use pdl_assign::assign_shown;
use pdl_buf::{Elements, Made, Steps};
use pdl_engine::{ArrayId, Engine, Foreseen, Foresight, all_shown};
use pdl_flow::{Input, Kept, evaluate, has_input, meaning_laws};
use pdl_machine::dumpable_laws;
use pdl_ops::OpFault;
use pdl_shape::{copy_dims, elements_of};
use pdl_world::{assignment_laws, cut_laws, part_laws};
use std::alloc::{AllocError, Global};
use std::sync::ledger::Ledger;

/// The values of an assignment, one for each position of its target.
#[derive(Drop)]
pub(crate) enum Values {
    /// In a buffer, as the target keeps them: formulas are lent them, and they are written block by
    /// block.
    Kept(Kept),
    /// As a list, which is written at once.
    Listed(Vec<i64>),
}

impl Values {
    /// The values for an array, in a buffer if formulas will read them and they can be written block
    /// by block; then each of them that isn't 0 is a step.
    pub(crate) fn new<L: Ledger>(
        alloc: Global,
        engine: &Engine,
        target: ArrayId,
        values: Elements,
        is_read: bool,
        steps: &mut Steps<L>,
    ) -> Result<Values, AllocError>
        requires { CanAssign engine.now target values }
        ensures fit { IfOk result (AreFor engine.now.world target) }
        ensures listed { IfOk result (λ v. listed v ≡ values) }
        ensures can { IfOk result (λ v. CanAssign engine.now target (listed v)) }
        ensures unread { is_read ≡ false → steps.new ≡ steps.old }
        ensures counted { steps.new ≤ steps.old + count_moved values }
    {
        if is_read && !engine.base_repeats(target) {
            return Values::packed(alloc, engine, target, values, steps);
        }
        let list = values.into_vec(alloc)?;
        Ok(Values::Listed(list))
    }

    /// The values for an array whose base has no repeats, in a buffer.
    fn packed<L: Ledger>(
        alloc: Global,
        engine: &Engine,
        target: ArrayId,
        values: Elements,
        steps: &mut Steps<L>,
    ) -> Result<Values, AllocError>
        requires can { CanAssign engine.now target values }
        requires steady { let w = engine.now.world in
            has_repeats (places_in w (base w target)) ≡ false }
        ensures fit { IfOk result (AreFor engine.now.world target) }
        ensures listed { IfOk result (λ v. listed v ≡ values) }
        ensures can { IfOk result (λ v. CanAssign engine.now target (listed v)) }
        ensures counted { steps.new ≤ steps.old + count_moved values }
    {
        let made = Made {
            ty: engine.ty(target),
            dims: copy_dims(engine.dims(target)),
            elems: values,
        };
        let kept = Kept::new(alloc, made, steps)?;
        Ok(Values::Kept(kept))
    }

    /// What an assignment of them to an array will write, where so many elements are to be looked up.
    fn foretell(
        &self,
        alloc: Global,
        engine: &Engine,
        target: ArrayId,
        lookups: u64,
    ) -> Result<Foresight, AllocError>
        requires { CanAssign engine.now target (listed self.now) }
        ensures { IfOk result (Foretells engine.now.world target (listed self.now)) }
    {
        match self {
            Values::Kept(kept) => {
                let values = all_shown(alloc, &kept.whole(alloc))?;
                engine.foretell(target, &values, lookups)
            }
            Values::Listed(values) => engine.foretell(target, values, lookups),
        }
    }
}

/// An assignment that will be made.
#[derive(Drop)]
pub(crate) struct Change {
    /// The root of the array that is assigned to, whose elements it alters.
    root: ArrayId,
    target: ArrayId,
    values: Values,
    /// What it will write, where elements are to be looked up by it.
    foresight: Option<Foresight>,
}

impl Change {
    /// The assignment of these values to an array, where so many elements are to be looked up by it.
    pub(crate) fn new(
        alloc: Global,
        engine: &Engine,
        target: ArrayId,
        values: Values,
        lookups: u64,
    ) -> Result<Change, AllocError>
        requires can { CanAssign engine.now target (listed values) }
        requires fit { AreFor engine.now.world target values }
        ensures made { IfOk result (IsChange engine.now) }
        ensures target { IfOk result (λ c. c.target ≡ target) }
        ensures values { IfOk result (λ c. c.values ≡ values) }
    {
        let foresight = foretold(alloc, engine, target, &values, lookups)?;
        Ok(Change {
            root: engine.root(target),
            target,
            values,
            foresight,
        })
    }

    /// What an array shows before it and after it, and nothing where the array has another root: such
    /// an array isn't read. What it will write is found here where it wasn't before.
    pub(crate) fn foresee<L: Ledger>(
        &self,
        alloc: Global,
        engine: &mut Engine,
        seen: ArrayId,
        steps: &mut Steps<L>,
    ) -> Result<Option<Foreseen>, AllocError>
        requires live { IsLive engine.old.world seen }
        requires own { IsChange engine.old self.now }
        ensures value { let w = engine.old.world in
            IfOk result (IsForeseen w self.now.target (listed self.now.values) seen) }
        ensures alike { IfOk result
            (λ o. IfSome o (λ f. length f.after.items ≡ length f.before.items)) }
        ensures same { SameArrays engine.old engine.new }
        ensures stay { StayFresh engine.old engine.new }
        ensures counted { steps.new ≤ steps.old + read_steps engine.old seen }
        ensures apart { IfOk result
            (λ o. o ≡ None → (engine.new ≡ engine.old) × (steps.new ≡ steps.old)) }
    {
        match &self.foresight {
            Some(foresight) => engine.foresee(foresight, seen, steps),
            None => {
                let foresight = self.values.foretell(alloc, engine, self.target, 0)?;
                engine.foresee(&foresight, seen, steps)
            }
        }
    }
}

/// What an assignment of these values to an array will write, if elements are to be looked up by it.
fn foretold(
    alloc: Global,
    engine: &Engine,
    target: ArrayId,
    values: &Values,
    lookups: u64,
) -> Result<Option<Foresight>, AllocError>
    requires { CanAssign engine.now target (listed values.now) }
    ensures { let w = engine.now.world in
        IfOk result (λ o. IfSome o (Foretells w target (listed values.now))) }
{
    if lookups == 0 {
        return Ok(None);
    }
    let foresight = values.foretell(alloc, engine, target, lookups)?;
    Ok(Some(foresight))
}

/// The assignment of a plan to an array of this root.
pub(crate) fn find_change(plan: &[Change], root: ArrayId) -> Option<&Change>
    ensures { option_map (λ c. c.now) result ≡ change_to plan.now root }
{
    for change in plan {
        if change.root == root {
            return Some(change);
        }
    }
    None
}

/// Whether a plan has an assignment to an array of this root.
fn is_altered(plan: &[Change], root: ArrayId) -> bool
    ensures { result ≡ is_listed (roots_in plan.now) root }
{
    find_change(plan, root).is_some()
}

/// Whether an array is noted, and is this one.
fn is_noted(noted: Option<ArrayId>, id: ArrayId) -> bool
    ensures { IsTrue result ↔ (noted ≡ Some id) }
{
    match noted {
        Some(known) => known == id,
        None => false,
    }
}

/// Whether an array has a root. An array that has another one is noted, and isn't looked up where it
/// is asked about again.
fn has_root(engine: &Engine, id: ArrayId, root: ArrayId, apart: &mut Option<ArrayId>) -> bool
    requires live { IsLive engine.now.world id }
    requires apart { IfSome apart.old (λ k. root_of engine.now.world k ≢ root) }
    ensures has { result ≡ is_listed (root ∷ []) (root_of engine.now.world id) }
    ensures apart { IfSome apart.new (λ k. root_of engine.now.world k ≢ root) }
{
    if is_noted(*apart, id) {
        return false;
    }
    if engine.root(id) == root {
        return true;
    }
    *apart = Some(id);
    false
}

/// Whether a flow's formula reads an array of a root. The array that was last found to have another
/// one is noted.
fn reads_root(engine: &Engine, flow: &KeptFlow, root: ArrayId, apart: &mut Option<ArrayId>) -> bool
    requires live { AreLive engine.now.world (arrays_in flow.now.formula) }
    requires apart { IfSome apart.old (λ k. root_of engine.now.world k ≢ root) }
    ensures reads { result ≡ reads_from engine.now.world flow.now (root ∷ []) }
    ensures apart { IfSome apart.new (λ k. root_of engine.now.world k ≢ root) }
{
    for read in flow.reads() {
        if has_root(engine, *read, root, apart) {
            return true;
        }
    }
    false
}

/// Whether a flow's formula reads an array that assignments of a plan alter.
fn reads_changed(engine: &Engine, flow: &KeptFlow, plan: &[Change]) -> bool
    requires { AreLive engine.now.world (arrays_in flow.now.formula) }
    ensures { result ≡ reads_from engine.now.world flow.now (roots_in plan.now) }
{
    for read in flow.reads() {
        if is_altered(plan, engine.root(*read)) {
            return true;
        }
    }
    false
}

/// Whether an assignment to an array of a root has flows follow it. An array that many flows read one
/// after another is looked up once.
pub(crate) fn is_followed(engine: &Engine, flows: &[KeptFlow], root: ArrayId) -> bool
    requires { AreFlows (arrays_of engine.now) flows.now }
    ensures followed { result ≡ true → affected engine.now.world flows.now (root ∷ []) ≢ [] }
    ensures alone { result ≡ false → affected engine.now.world flows.now (root ∷ []) ≡ [] }
{
    let mut apart = None;
    for flow in flows {
        if reads_root(engine, flow, root, &mut apart) {
            return true;
        }
    }
    false
}

/// What an array shows, as a formula's input. The array is read once, and each element that isn't 0
/// is a step.
fn input_now<'a, L: Ledger>(
    alloc: Global,
    engine: &mut Engine,
    id: ArrayId,
    steps: &mut Steps<L>,
) -> Result<Input<'a>, AllocError>
    requires { IsLive engine.old.world id }
    ensures input { IfOk result (λ i. i ≡ input_at (arrays_of engine.old) id) }
    ensures same { SameArrays engine.old engine.new }
    ensures stay { StayFresh engine.old engine.new }
    ensures counted { let e = engine.old in
        steps.new ≤ steps.old + input_steps e (arrays_of e) id }
{
    ready(engine, id, steps)?;
    Input::shown(alloc, id, &engine.lend(id), steps)
}

/// The values of an assignment to a root, as the root's input of a formula.
fn input_of_values<'a, L: Ledger>(
    alloc: Global,
    engine: &Engine,
    change: &'a Change,
    steps: &mut Steps<L>,
) -> Result<Input<'a>, AllocError>
    requires { IsChange engine.now change.now }
    ensures input { let w = engine.now.world in let v = change.now.target in
        let es = listed change.now.values in
        let value : Made = record { ty = ty_in w v; dims = dims_in w v; elems = es } in
        let given : Given = record { array = v; value = value } in IfOk result (λ i. i ≡ given) }
    ensures counted { steps.new ≤ steps.old + count_moved (listed change.now.values) }
{
    let id = change.target;
    match &change.values {
        Values::Kept(kept) => Ok(Input::lent(id, kept)),
        Values::Listed(list) => Input::new(alloc, id, engine.ty(id), engine.dims(id), list, steps),
    }
}

/// What an array shows after an assignment, as a formula's input. A root that is assigned to shows
/// the values: nothing is looked up.
fn input_after<'a, L: Ledger>(
    alloc: Global,
    engine: &mut Engine,
    change: &'a Change,
    id: ArrayId,
    steps: &mut Steps<L>,
) -> Result<Input<'a>, AllocError>
    requires live { IsLive engine.old.world id }
    requires own { IsChange engine.old change.now }
    ensures input { let a = arrays_of engine.old in
        IfOk result (λ i. i ≡ input_at (planned a (change.now ∷ [])) id) }
    ensures same { SameArrays engine.old engine.new }
    ensures stay { StayFresh engine.old engine.new }
    ensures counted { let e = engine.old in
        let after = planned (arrays_of e) (change.now ∷ []) in
        steps.new ≤ steps.old + input_steps e after id }
{
    engine.resting_law();
    assignment_laws();
    cut_laws();
    dumpable_laws();
    if id == change.target && id == change.root {
        return input_of_values(alloc, engine, change, steps);
    }
    match change.foresee(alloc, engine, id, steps)? {
        Some(foreseen) => Input::new(
            alloc,
            id,
            engine.ty(id),
            engine.dims(id),
            &foreseen.after,
            steps,
        ),
        None => input_now(alloc, engine, id, steps),
    }
}

/// What an array shows after the assignments of a plan, as a formula's input.
fn input_planned<'a, L: Ledger>(
    alloc: Global,
    engine: &mut Engine,
    plan: &'a [Change],
    id: ArrayId,
    steps: &mut Steps<L>,
) -> Result<Input<'a>, AllocError>
    requires live { IsLive engine.old.world id }
    requires plan { ArePlanned engine.old plan.now }
    ensures input { let after = planned (arrays_of engine.old) plan.now in
        IfOk result (λ i. i ≡ input_at after id) }
    ensures same { SameArrays engine.old engine.new }
    ensures stay { StayFresh engine.old engine.new }
    ensures counted { let after = planned (arrays_of engine.old) plan.now in
        steps.new ≤ steps.old + input_steps engine.old after id }
{
    assignment_laws();
    part_laws();
    match find_change(plan, engine.root(id)) {
        Some(change) => input_after(alloc, engine, change, id, steps),
        None => input_now(alloc, engine, id, steps),
    }
}

/// Adds to inputs of a formula what an array shows after the assignments of a plan, unless the array
/// has an input.
fn add_input<'a, L: Ledger>(
    alloc: Global,
    engine: &mut Engine,
    plan: &'a [Change],
    id: ArrayId,
    inputs: &mut Vec<Input<'a>>,
    steps: &mut Steps<L>,
) -> Result<(), AllocError>
    requires live { IsLive engine.old.world id }
    requires plan { ArePlanned engine.old plan.now }
    requires shown { AreShown (planned (arrays_of engine.old) plan.now) inputs.old.items }
    requires single { AreSingle inputs.old.items }
    ensures shown { let after = planned (arrays_of engine.old) plan.now in
        OnOk result (AreShown after inputs.new.items) }
    ensures here { OnOk result (is_some (input_of inputs.new.items id) ≡ true) }
    ensures kept { OnOk result (KeepInputs inputs.old.items inputs.new.items) }
    ensures single { OnOk result (AreSingle inputs.new.items) }
    ensures met { let met = met_by inputs.old.items in
        OnOk result (met_by inputs.new.items ≡ (if is_listed met id then met else met ++ id ∷ [])) }
    ensures same { SameArrays engine.old engine.new }
    ensures stay { StayFresh engine.old engine.new }
    ensures counted { let after = planned (arrays_of engine.old) plan.now in
        let here = is_listed (met_by inputs.old.items) id in
        steps.new ≤ steps.old + (if here then 0 else input_steps engine.old after id) }
{
    if has_input(inputs, id) {
        return Ok(());
    }
    let input = input_planned(alloc, engine, plan, id, steps)?;
    inputs.push(input)?;
    Ok(())
}

/// What these arrays show after the assignments of a plan, as inputs of a formula: one for each of
/// them, however often it stands there.
fn inputs_planned<'a, L: Ledger>(
    alloc: Global,
    engine: &mut Engine,
    plan: &'a [Change],
    reads: &[ArrayId],
    steps: &mut Steps<L>,
) -> Result<Vec<Input<'a>>, AllocError>
    requires live { AreLive engine.old.world reads.now }
    requires plan { ArePlanned engine.old plan.now }
    ensures inputs { let after = planned (arrays_of engine.old) plan.now in
        IfOk result (λ is. All (λ k. input_of is.items k ≡ Some (array_in after k)) reads.now) }
    ensures single { IfOk result (λ is. AreSingle is.items) }
    ensures same { SameArrays engine.old engine.new }
    ensures stay { StayFresh engine.old engine.new }
    ensures counted { let after = planned (arrays_of engine.old) plan.now in
        steps.new ≤ steps.old + sum_by (input_steps engine.old after) (once [] reads.now) }
{
    let mut inputs = Vec::with_capacity(alloc, reads.len())?;
    engine.resting_law();
    for read in reads {
        engine.resting_law();
        add_input(alloc, engine, plan, *read, &mut inputs, steps)?;
    }
    Ok(inputs)
}

/// The elements that a flow's root gets when it follows the assignments of a plan. They are found
/// in one step of `runs`. Out of memory is the only refusal, since the arrays that its formula
/// reads have the types and dimensions that they had.
fn elements_of_flow<L: Ledger, M: Ledger>(
    alloc: Global,
    engine: &mut Engine,
    flow: &KeptFlow,
    plan: &[Change],
    steps: &mut Steps<L>,
    runs: &mut Steps<M>,
) -> Result<Elements, AllocError>
    requires flow { IsFlow (arrays_of engine.old) flow.now }
    requires plan { ArePlanned engine.old plan.now }
    ensures follows { let before = planned (arrays_of engine.old) plan.now in
        IfOk result (λ es. follow before flow.now
        ≡ record before { world = assign before.world flow.now.root es }) }
    ensures made { let w = engine.old.world in let r = flow.now.root in
        IfOk result (λ es. IsMade (ty_in w r) (dims_in w r) es) }
    ensures same { SameArrays engine.old engine.new }
    ensures stay { StayFresh engine.old engine.new }
    ensures before { runs.old ≤ runs.new }
    ensures run { runs.new ≤ runs.old + 1 }
    ensures counted { let before = planned (arrays_of engine.old) plan.now in
        steps.new ≤ steps.old + find_steps engine.old before flow.now }
    ensures costs { IfOk result (λ es. ReadsNoDearer engine.old engine.new) }
{
    assignment_laws();
    dumpable_laws();
    meaning_laws();
    engine.resting_law();
    let inputs = inputs_planned(alloc, engine, plan, flow.reads(), steps)?;
    engine.resting_law();
    match evaluate(alloc, flow.formula(), &inputs, steps, runs) {
        Ok(made) => Ok(made.elems),
        Err(fault) => Err(out_of_memory(fault)),
    }
}

/// A fault that names no refusal.
fn out_of_memory(fault: OpFault) -> AllocError
    requires { refusal_named fault ≡ None }
{
    let _fault = fault;
    AllocError
}

/// Adds to a plan the assignment by which a flow follows it. It is told whether elements of the
/// flow's root may be looked up by slots, or through views. What it takes at most pays for the values
/// that will be written too.
fn plan_flow<L: Ledger, M: Ledger>(
    alloc: Global,
    engine: &mut Engine,
    flow: &KeptFlow,
    plan: &mut Vec<Change>,
    is_looked_at: bool,
    steps: &mut Steps<L>,
    runs: &mut Steps<M>,
) -> Result<(), AllocError>
    requires flow { IsFlow (arrays_of engine.old) flow.now }
    requires plan { ArePlanned engine.old plan.old.items }
    requires apart { is_listed (roots_in plan.old.items) flow.now.root ≡ false }
    ensures planned { OnOk result (ArePlanned engine.new plan.new.items) }
    ensures follows { let a = arrays_of engine.old in
        OnOk result (planned a plan.new.items ≡ follow (planned a plan.old.items) flow.now) }
    ensures roots { OnOk result
        (roots_in plan.new.items ≡ roots_in plan.old.items ++ flow.now.root ∷ []) }
    ensures behind { OnOk result (StartsWith plan.new.items plan.old.items) }
    ensures same { SameArrays engine.old engine.new }
    ensures stay { StayFresh engine.old engine.new }
    ensures before { runs.old ≤ runs.new }
    ensures run { runs.new ≤ runs.old + 1 }
    ensures counted { let before = planned (arrays_of engine.old) plan.old.items in
        steps.new ≤ steps.old + follow_steps engine.old before flow.now }
    ensures paid { let before = planned (arrays_of engine.old) plan.old.items in
        OnOk result (steps.new + values_in plan.new.items
        ≤ steps.old + values_in plan.old.items + follow_steps engine.old before flow.now) }
    ensures costs { OnOk result (ReadsNoDearer engine.old engine.new) }
{
    let root = flow.root();
    let elems = elements_of_flow(alloc, engine, flow, plan, steps, runs)?;
    ready(engine, root, steps)?;
    let values = Values::new(alloc, engine, root, elems, true, steps)?;
    let lookups = if is_looked_at {
        u64::from(elements_of(engine.dims(root)))
    } else {
        0
    };
    let change = Change::new(alloc, engine, root, values, lookups)?;
    plan.push(change)?;
    Ok(())
}

/// Adds to a plan the assignments by which flows follow it, in the order of the flows: one for each
/// flow that reads, directly or through flows, what the plan alters. Each of these takes one step
/// of `runs`; where there is none nothing is looked at but roots. It is told whether elements of
/// flows' roots may be looked up by slots, or through views. What it takes at most pays for the values
/// that will be written too.
pub(crate) fn plan_flows<L: Ledger, M: Ledger>(
    alloc: Global,
    engine: &mut Engine,
    flows: &[KeptFlow],
    plan: &mut Vec<Change>,
    is_looked_at: bool,
    steps: &mut Steps<L>,
    runs: &mut Steps<M>,
) -> Result<(), AllocError>
    requires flows { AreFlows (arrays_of engine.old) flows.now }
    requires plan { ArePlanned engine.old plan.old.items }
    requires apart { NoFlowIn plan.old.items flows.now }
    ensures planned { OnOk result (ArePlanned engine.new plan.new.items) }
    ensures follow { let a = arrays_of engine.old in
        let flows = affected a.world flows.now (roots_in plan.old.items) in
        OnOk result (planned a plan.new.items ≡ followed (planned a plan.old.items) flows) }
    ensures behind { OnOk result (StartsWith plan.new.items plan.old.items) }
    ensures same { SameArrays engine.old engine.new }
    ensures stay { StayFresh engine.old engine.new }
    ensures runs { let roots = roots_in plan.old.items in
        runs.new ≤ runs.old + length (affected engine.old.world flows.now roots) }
    ensures counted { let a = arrays_of engine.old in
        let flows = affected a.world flows.now (roots_in plan.old.items) in
        let before = planned a plan.old.items in
        steps.new ≤ steps.old + followed_steps engine.old before flows }
    ensures paid { let a = arrays_of engine.old in
        let flows = affected a.world flows.now (roots_in plan.old.items) in
        let before = planned a plan.old.items in
        OnOk result (steps.new + values_in plan.new.items
        ≤ steps.old + values_in plan.old.items + followed_steps engine.old before flows) }
    ensures costs { OnOk result (ReadsNoDearer engine.old engine.new) }
    ensures alone { affected engine.old.world flows.now (roots_in plan.old.items) ≡ []
        → (plan.new ≡ plan.old) × (engine.new ≡ engine.old) × (steps.new ≡ steps.old) }
{
    for flow in flows {
        if reads_changed(engine, flow, plan) {
            plan_flow(alloc, engine, flow, plan, is_looked_at, steps, runs)?;
        }
    }
    Ok(())
}

/// Makes an assignment, which takes no memory, and at most a step for each value. A root takes a
/// buffer over as it is.
fn make_change<L: Ledger>(alloc: Global, engine: &mut Engine, change: Change, steps: &mut Steps<L>)
    requires sound { IsSound engine.old.world }
    requires root { change.root ≡ root_of engine.old.world change.target }
    requires can { CanAssign engine.old change.target (listed change.values) }
    requires fit { AreFor engine.old.world change.target change.values }
    ensures world { engine.new.world
        ≡ assign engine.old.world change.target (listed change.values) }
    ensures holds { engine.new.holds ≡ engine.old.holds }
    ensures next { engine.new.next ≡ engine.old.next }
    ensures sound { IsSound engine.new.world }
    ensures others { let w = engine.old.world in
        (u : ℕ) → (root_of w u ≡ root_of w change.target → ⊥)
        → is_fresh engine.old u ≡ true → is_fresh engine.new u ≡ true }
    ensures warm { IsWarm engine.new change.target }
    ensures counted { steps.new ≤ steps.old + length (listed change.values) }
{
    assignment_laws();
    let Change {
        target,
        root,
        values,
        foresight: _foresight,
    } = change;
    match values {
        Values::Kept(kept) => {
            if root == target {
                engine.replace(target, kept.into_buf())
            } else {
                assign_shown(engine, target, &kept.whole(alloc), steps)
            }
        }
        Values::Listed(values) => engine.assign(target, &values, steps),
    }
}

/// Makes the assignments of a plan, which takes no memory, and at most a step for each value.
pub(crate) fn assign_all<L: Ledger>(
    alloc: Global,
    engine: &mut Engine,
    mut plan: Vec<Change>,
    steps: &mut Steps<L>,
)
    requires can { AllCanAssign engine.old plan.items }
    requires apart { AreApart engine.old.world plan.items }
    ensures world { engine.new.world ≡ all_assigned engine.old.world plan.items }
    ensures holds { engine.new.holds ≡ engine.old.holds }
    ensures next { engine.new.next ≡ engine.old.next }
    ensures sound { IsSound engine.new.world }
    ensures warm { (c : Change) → (cs : List Change) → plan.items ≡ c ∷ cs
        → IsWarm engine.new c.target }
    ensures counted { steps.new ≤ steps.old + values_in plan.items }
{
    assignment_laws();
    engine.resting_law();
    plan.reverse();
    while let Some(change) = plan.pop() {
        make_change(alloc, engine, change, steps);
    }
    engine.resting_law();
}
