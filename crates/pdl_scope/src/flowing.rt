//! Flows of a scope: a root that equals a formula begins to, ends, and goes (PDL::Dataflow).
ghost use Rattle.std.specs.Prelude.{◌≡◌, ℕ, ◌+◌, ◌<◌, ◌≤◌, ◌^◌, List, [], ◌∷◌, ◌++◌, length, true, false, if◌then◌else◌, vec_capacity, is_some, IfErr, IfNone, IfSome, Ok, OnOk, Some, slice_get};
ghost use Rattle.pdl_numbers.specs.Typed.{count_moved};
ghost use Rattle.pdl_flow.specs.Formula.{arrays_in, tree_of, IsFormula};
ghost use Rattle.pdl_flow.specs.Meaning.{meaning};
ghost use Rattle.pdl_world.specs.Paths.{root_of};
ghost use Rattle.pdl_world.specs.Sound.{IsLive};
ghost use Rattle.pdl_world.specs.World.{elements, look};
ghost use Rattle.pdl_engine.specs.Held.{count_at};
ghost use Rattle.pdl_engine.specs.Reading.{read_steps};
ghost use Rattle.pdl_engine.specs.State.{State};
ghost use Rattle.pdl_machine.specs.Arrays.{array_in};
ghost use Rattle.pdl_machine.specs.Cuts.{is_read};
ghost use Rattle.pdl_machine.specs.Flows.{Flow, all_read, flows_with, is_flow, is_reached, without_flow};
ghost use Rattle.pdl_machine.specs.Following.{AreFlows};
ghost use Rattle.pdl_machine.specs.Names.{is_full_for, names_limit};
ghost use Rattle.pdl_machine.specs.Outcome.{new_root};
ghost use Rattle.pdl_machine.specs.State.{AreLive, with_flow};
ghost use Rattle.pdl_machine.specs.Step.{begun, bind_value, bound};
ghost use Rattle.pdl_machine.specs.Watches.{attached};
ghost use Rattle.pdl_scope.specs.Answers.{IfScript, Runs};
ghost use Rattle.pdl_scope.specs.Costs.{arrays_after, MovesUpTo};
ghost use Rattle.pdl_scope.specs.Flowing.{HasRootAt, RootsRise, have_flow, kept_shape, read_by};
ghost use Rattle.pdl_scope.specs.Holding.{AreHeld, LetsGo, SameButHolds};
ghost use Rattle.pdl_scope.specs.LetGo.{GoesOn, HadFlows, HasFlows, IsHeldByFlows, KeepsNeeded, without_at};
ghost use Rattle.pdl_scope.specs.Scope.{arrays_of, engine_of, machine, reads_limit, times};
ghost use Rattle.pdl_scope.specs.declared.fault.ScopeFault.TheVariants.{NoMemory};

use crate::fault::ScopeFault;
use crate::flows::KeptFlow;
use crate::holding::{bind_one, note_all, release_all};
use crate::laws::{hold_once_laws, leaving_laws, more_held_law};
use crate::limits::MOST_READS;
use crate::scope::Scope;
use crate::watching::is_watched;
use pdl_buf::Steps;
use pdl_elem::Name;
use pdl_engine::{ArrayId, Engine, hold_laws};
use pdl_flow::{Formula, meaning_laws};
use pdl_machine::{Fault, flow_laws};
use pdl_world::{growth_laws, keeping_laws, newest_laws};
use std::alloc::AllocError;
use std::sync::ledger::Ledger;

impl Scope {
    /// Whether an array's root is a flow's.
    pub fn is_flowing(&self, id: ArrayId) -> bool
        requires { IsLive self.now.arrays.world id }
        ensures { let w = self.now.arrays.world in result ≡ is_flow self.now.flows (root_of w id) }
    {
        !self.flows.is_empty() && is_flow(&self.flows, self.engine.root(id))
    }

    /// Binds a name to a new root that equals a formula from then on, with `TooManyNames` where the
    /// name is new and 512 are bound. An array that has the formula's value is given, whose
    /// elements the root gets. It takes at most the steps that it takes to read that array, and one
    /// for each of its elements that isn't 0.
    pub fn flow<L: Ledger>(
        &mut self,
        name: &Name,
        formula: Formula,
        value: ArrayId,
        steps: &mut Steps<L>,
    ) -> Result<(), ScopeFault>
        requires value { IsLive self.old.arrays.world value }
        requires formula { IsFormula (tree_of formula) }
        requires live { AreLive self.old.arrays.world (arrays_in (tree_of formula)) }
        requires equal { meaning (array_in self.old.arrays) (tree_of formula)
            ≡ Ok (array_in self.old.arrays value) }
        ensures runs { let arrays = self.old.arrays in
            let flowing = begun (machine self.old) arrays (tree_of formula) in
            let wanted = bound flowing name.now (new_root arrays (array_in arrays value)) in
            Runs wanted self.old self.new [] [] result }
        ensures counted { let e = engine_of self.old in
            steps.new ≤ steps.old + (read_steps e value + count_moved (elements e.world value)) }
        ensures within { let arrays = self.old.arrays in
            let flowing = begun (machine self.old) arrays (tree_of formula) in
            let wanted = bound flowing name.now (new_root arrays (array_in arrays value)) in
            let most = read_steps (engine_of self.old) value in
            MovesUpTo most self.old (arrays_after wanted arrays) steps.old steps.new }
        ensures refused { IfScript result
            ((self.new ≡ self.old) × (steps.new ≡ steps.old)) }
    {
        if self.names.is_full_for(name) {
            return Err(ScopeFault::Script(Fault::TooManyNames));
        }
        self.flow_as(name, formula, value, steps)
    }

    /// The same where there is room for the name.
    fn flow_as<L: Ledger>(
        &mut self,
        name: &Name,
        formula: Formula,
        value: ArrayId,
        steps: &mut Steps<L>,
    ) -> Result<(), ScopeFault>
        requires value { IsLive self.old.arrays.world value }
        requires formula { IsFormula (tree_of formula) }
        requires live { AreLive self.old.arrays.world (arrays_in (tree_of formula)) }
        requires equal { meaning (array_in self.old.arrays) (tree_of formula)
            ≡ Ok (array_in self.old.arrays value) }
        requires room { is_full_for names_limit self.old.names.arrays name.now ≡ false }
        ensures runs { let arrays = self.old.arrays in
            let flowing = begun (machine self.old) arrays (tree_of formula) in
            let wanted = bound flowing name.now (new_root arrays (array_in arrays value)) in
            Runs wanted self.old self.new [] [] result }
        ensures counted { let e = engine_of self.old in
            steps.new ≤ steps.old + (read_steps e value + count_moved (elements e.world value)) }
        ensures memory { IfErr result (λ e. e ≡ NoMemory) }
    {
        growth_laws();
        newest_laws();
        meaning_laws();
        flow_laws();
        self.whole();
        let made = self.copied(value, steps)?;
        let root = self.adopt(made, steps)?;
        self.whole();
        self.begin(name, formula, root)
    }

    /// Binds a name to a root that equals a formula, and goes on to. All room is taken before.
    fn begin(&mut self, name: &Name, formula: Formula, root: ArrayId) -> Result<(), ScopeFault>
        requires flows { let flows = flows_with self.old.flows root (tree_of formula) in
            AreFlows self.old.arrays flows }
        requires room { is_full_for names_limit self.old.names.arrays name.now ≡ false }
        ensures runs { let flowing = with_flow (machine self.old) root (tree_of formula) in
            let wanted = bind_value flowing name.now (self.old.arrays, root) in
            Runs wanted self.old self.new [] [] result }
        ensures memory { IfErr result (λ e. e ≡ NoMemory) }
    {
        keeping_laws();
        hold_laws();
        let mut reads = Vec::new(self.alloc);
        note_arrays(&formula, &mut reads)?;
        if !reads_fit(&self.flows, reads.len()) {
            return Err(ScopeFault::NoMemory);
        }
        let name = name.clone()?;
        self.names.reserve(1)?;
        self.leaving.reserve(1)?;
        self.flows.reserve(1)?;
        self.engine.holds_law();
        hold_all(&mut self.engine, &reads);
        keep(&mut self.flows, KeptFlow::new(root, formula, reads));
        bind_one(
            &mut self.engine,
            &mut self.names,
            &mut self.leaving,
            name,
            root,
        );
        Ok(())
    }
}

/// Notes the arrays that a formula reads, in the order of its text, at the end of a list.
fn note_arrays(formula: &Formula, list: &mut Vec<ArrayId>) -> Result<(), AllocError>
    ensures { let reads = arrays_in (tree_of formula.now) in
        OnOk result (list.new.items ≡ list.old.items ++ reads) }
{
    match formula {
        Formula::Number(_, _) => Ok(()),
        Formula::Array(array) => Ok(list.push(*array)?),
        Formula::Unary(_, operand) => note_arrays(operand, list),
        Formula::Convert(_, operand) => note_arrays(operand, list),
        Formula::Binary(_, left, right) => {
            note_arrays(left, list)?;
            note_arrays(right, list)
        }
    }
}

/// Whether formulas may name arrays so many times more.
fn reads_fit(flows: &[KeptFlow], more: usize) -> bool
    ensures fit { result ≡ true → length (all_read flows.now) + more ≤ reads_limit }
    ensures over { result ≡ false → reads_limit < length (all_read flows.now) + more }
{
    let mut count = more;
    for flow in flows {
        count = count.saturating_add(flow.reads().len());
    }
    count <= MOST_READS
}

/// Holds each array of a list once more.
fn hold_all(engine: &mut Engine, ids: &[ArrayId])
    requires live { AreLive engine.old.world ids.now }
    requires room { (v : ℕ) → count_at engine.old.holds v + length ids.now < 2 ^ 63 }
    ensures same { SameButHolds engine.old engine.new }
    ensures counts { (v : ℕ) →
        count_at engine.new.holds v ≡ count_at engine.old.holds v + times ids.now v }
{
    hold_once_laws();
    for id in ids {
        engine.holds_law();
        engine.hold(*id);
    }
}

/// Keeps a flow behind the others, for which there is room.
fn keep(flows: &mut Vec<KeptFlow>, flow: KeptFlow)
    requires { length flows.old.items < vec_capacity flows.old }
    ensures { flows.new.items ≡ flows.old.items ++ flow ∷ [] }
{
    match flows.push(flow) {
        Ok(()) => (),
        Err(_) => unreachable!(),
    }
}

/// Whether an array is the root of a flow.
fn is_flow(flows: &[KeptFlow], id: ArrayId) -> bool
    requires { RootsRise flows.now }
    ensures { result ≡ is_flow flows.now id }
{
    place_of_flow(flows, id).is_some()
}

/// Whether one of these arrays reaches an array by parents.
fn reach(engine: &Engine, ids: &[ArrayId], above: ArrayId) -> bool
    requires { AreLive engine.now.world ids.now }
    ensures { result ≡ is_reached engine.now.world ids.now above }
{
    for id in ids {
        if engine.reaches(*id, above) {
            return true;
        }
    }
    false
}

/// Whether a formula reads an array, or one that reaches it by parents.
fn is_read(engine: &Engine, flows: &[KeptFlow], id: ArrayId) -> bool
    requires { AreLive engine.now.world (all_read flows.now) }
    ensures { result ≡ is_read flows.now engine.now.world id }
{
    for flow in flows {
        if reach(engine, flow.reads(), id) {
            return true;
        }
    }
    false
}

/// Why an array keeps its dimensions, whatever others it is to get.
pub(crate) fn kept_shape(
    engine: &Engine,
    watches: &[Option<ArrayId>],
    flows: &[KeptFlow],
    id: ArrayId,
) -> Option<Fault>
    requires watched { AreLive engine.now.world (attached watches.now) }
    requires read { AreLive engine.now.world (all_read flows.now) }
    requires rising { RootsRise flows.now }
    ensures { result ≡ kept_shape watches.now flows.now engine.now.world id }
{
    if is_watched(engine, watches, id) {
        return Some(Fault::StillWatched);
    }
    if is_flow(flows, id) {
        return Some(Fault::FlowTarget);
    }
    if is_read(engine, flows, id) {
        return Some(Fault::FlowReads);
    }
    None
}

/// The place of a root's flow, if it has one. It is searched for by halves, since roots rise.
fn place_of_flow(flows: &[KeptFlow], root: ArrayId) -> Option<usize>
    requires { RootsRise flows.now }
    ensures here { IfSome result (HasRootAt flows.now root) }
    ensures none { IfNone result (is_flow flows.now root ≡ false) }
{
    flows.binary_search_by_key(&root, |flow| flow.root()).ok()
}

/// How many arrays leave where one is cut: its parent, and what its flow reads.
pub(crate) fn room_to_end(flows: &[KeptFlow], root: ArrayId) -> usize
    requires { RootsRise flows.now }
    ensures room { result ≡ length (read_by flows.now root) + 1 }
    ensures small { result ≤ 2 ^ 60 }
{
    match place_of_flow(flows, root) {
        Some(place) => flows[place].reads().len() + 1,
        None => 1,
    }
}

/// Takes the flow of a root out, if it has one, and notes the arrays that its formula reads at the
/// end of a list. All room for it was taken before.
pub(crate) fn end_flow(flows: &mut Vec<KeptFlow>, leaving: &mut Vec<ArrayId>, root: ArrayId)
    requires rising { RootsRise flows.old.items }
    requires room { let read = length (read_by flows.old.items root) in
        length leaving.old.items + read ≤ vec_capacity leaving.old }
    ensures flows { flows.new.items ≡ without_flow flows.old.items root }
    ensures leaving { leaving.new.items ≡ leaving.old.items ++ read_by flows.old.items root }
    ensures room { vec_capacity leaving.old ≤ vec_capacity leaving.new }
{
    match place_of_flow(flows, root) {
        Some(place) => {
            let flow = flows.remove(place);
            note_all(leaving, flow.reads());
        }
        None => (),
    }
}

/// Lets arrays go that leave, and then the flows that nothing needs any more, with what they read.
/// Only an array that has the root of a flow can make it go: where none of these has, flows aren't
/// asked.
pub(crate) fn let_all_go<L: Ledger>(
    engine: &mut Engine,
    flows: &mut Vec<KeptFlow>,
    leaving: &[ArrayId],
    steps: &mut Steps<L>,
)
    requires flows { AreFlows (arrays_of engine.old) flows.old.items }
    requires held { IsHeldByFlows engine.old flows.old.items leaving.now }
    ensures needed { (staying : List ℕ) →
        AreHeld engine.old (staying ++ all_read flows.old.items) leaving.now →
        KeepsNeeded staying engine.old flows.old.items engine.new flows.new.items }
    ensures goes_on { GoesOn engine.old engine.new steps.old steps.new }
{
    leaving_laws();
    engine.holds_law();
    let may_go = have_flow(engine, flows, leaving);
    release_all(engine, leaving, steps);
    if may_go {
        let_flows_go(engine, flows, steps);
    }
}

/// Whether one of these arrays has a flow's root as its root. Where there are no flows, none of the
/// arrays is looked up.
#[tactic(auto, using(crate::proofs::FlowingNoFlows::no_flow))]
fn have_flow(engine: &Engine, flows: &[KeptFlow], ids: &[ArrayId]) -> bool
    requires rising { RootsRise flows.now }
    requires live { AreLive engine.now.world ids.now }
    ensures { result ≡ have_flow engine.now.world flows.now ids.now }
{
    if flows.is_empty() {
        return false;
    }
    for id in ids {
        if is_flow(flows, engine.root(*id)) {
            return true;
        }
    }
    false
}

/// Takes the flows out that nothing needs, from the newest on, and lets what they read go: a flow
/// is needed whose root is there still.
fn let_flows_go<L: Ledger>(engine: &mut Engine, flows: &mut Vec<KeptFlow>, steps: &mut Steps<L>)
    requires { HadFlows engine.old flows.old.items }
    ensures needed { (staying : List ℕ) → (first : State) →
        HasFlows engine.old flows.old.items staying first →
        KeepsNeeded staying first flows.old.items engine.new flows.new.items }
    ensures goes_on { GoesOn engine.old engine.new steps.old steps.new }
{
    leaving_laws();
    let mut left = flows.len();
    'going: while left > 0 {
        left -= 1;
        let_flow_go(engine, flows, left, steps);
    }
}

/// Takes a flow out whose root isn't there any more, and lets what it reads go.
fn let_flow_go<L: Ledger>(
    engine: &mut Engine,
    flows: &mut Vec<KeptFlow>,
    place: usize,
    steps: &mut Steps<L>,
)
    requires within { place < length flows.old.items }
    requires held { IsHeldByFlows engine.old flows.old.items [] }
    ensures flows { (f : Flow) → slice_get flows.old.items place ≡ Some f →
        flows.new.items ≡ (if is_some (look engine.old.world f.root) then flows.old.items
        else without_at place flows.old.items) }
    ensures lets_go { (staying : List ℕ) →
        AreHeld engine.old (staying ++ all_read flows.old.items) [] →
        LetsGo (staying ++ all_read flows.new.items) engine.old engine.new [] }
    ensures goes_on { GoesOn engine.old engine.new steps.old steps.new }
{
    more_held_law();
    if engine.is_live(flows[place].root()) {
        return;
    }
    let flow = flows.remove(place);
    release_all(engine, flow.reads(), steps);
}
