//! What each statement does.
ghost use Rattle.std.specs.Option.{option_map_or};
ghost use Rattle.std.specs.Prelude.{◌≡◌, ◌≤◌, ◌+◌, [], ◌++◌, length, map, All, None, Ok, OnOk, IfOk};
ghost use Rattle.pdl_syntax.specs.TreeOf.{tree_of};
ghost use Rattle.pdl_syntax.specs.StatementTree.{statement_of, assign, bind_list as bind_list', sever as sever', show as show', view_of};
ghost use Rattle.pdl_syntax.specs.WellMade.{AreArrays, AreArgArrays, IsWellMade};
ghost use Rattle.pdl_machine.specs.Names.{number_of};
ghost use Rattle.pdl_machine.specs.Then.{and_then};
ghost use Rattle.pdl_machine.specs.Value.{value_of};
ghost use Rattle.pdl_machine.specs.Step.{bind_severed, bound, list_bound, target, assigning, after_printing, effect, newline};
ghost use Rattle.pdl_machine.specs.Watches.{notices};
ghost use Rattle.pdl_print.specs.Pieces.{Begins};
ghost use Rattle.pdl_watch.specs.Slots.{lists_of, present_in, slots_by};
ghost use Rattle.pdl_scope.specs.Answers.{IfScript, Runs};
ghost use Rattle.pdl_scope.specs.Costs.{arrays_after, MovesUpTo};
ghost use Rattle.pdl_session.specs.Came.{evaluated, list_came, sides_evaluated, unbound};
ghost use Rattle.pdl_session.specs.Costs.{named_steps, ready_all};
ghost use Rattle.pdl_session.specs.Moves.{assign_steps, cut_steps, value_size};
ghost use Rattle.pdl_scope.specs.Scope.{engine_of, machine, slots_limit};
ghost use Rattle.pdl_session.specs.News.{IsNewsOf};
ghost use Rattle.pdl_session.specs.declared.news.News.TheVariants.{Nothing};
ghost use Rattle.pdl_session.specs.Bounds.{LeavesReadable, MovesPlainly, warm_after};
ghost use Rattle.pdl_session.specs.Evaluations.{RunsAtMost};
ghost use Rattle.pdl_session.specs.Performed.{Performs};
ghost use Rattle.pdl_session.specs.Statements.{MovesByForm};
ghost use Rattle.pdl_session.specs.Arguments.{arguments, AreGivenLive};

use crate::call::{call, several};
use crate::defining::define_kernel;
use crate::dumping::dump;
use crate::eval::{eval, take};
use crate::flowing::flow;
use crate::given::Given;
use crate::news::News;
use crate::resizing::reshape;
use crate::target::assigned_to;
use crate::watching::{unwatch, watch};
use pdl_buf::Steps;
use pdl_elem::Name;
use pdl_engine::ArrayId;
use pdl_lexemes::AssignOp;
use pdl_machine::{Fault, watching_laws};
use pdl_scope::{Scope, ScopeFault, cost_laws};
use pdl_syntax::{Expr, Statement, Target, ViewCall, calls_are_trees};
use pdl_watch::{Notice, Watcher};
use pdl_world::growth_laws;
use std::alloc::AllocError;
use std::sync::ledger::Ledger;

/// Binds a name to a value.
fn bind_value<L: Ledger>(
    scope: &mut Scope,
    name: &Name,
    value: &Expr,
    steps: &mut Steps<L>,
) -> Result<(), ScopeFault>
    requires { AreArrays (tree_of value.now) }
    ensures runs { let valued = value_of scope.old.names scope.old.arrays (tree_of value.now) in
        Runs (bound (machine scope.old) name.now valued) scope.old scope.new [] [] result }
    ensures within { let s = scope.old in
        let tree = tree_of value.now in
        let late = evaluated s.names s.arrays tree in
        MovesUpTo (named_steps s tree) s late steps.old steps.new }
{
    let id = eval(scope, value, steps)?;
    scope.bind(name, id)
}

/// Binds a name to a value that is cut from its parent; where it is a flow's root, the flow ends.
/// The cut takes at most a step for each of its elements, beside what the value takes.
fn bind_severed<L: Ledger>(
    scope: &mut Scope,
    name: &Name,
    value: &Expr,
    steps: &mut Steps<L>,
) -> Result<(), ScopeFault>
    requires { AreArrays (tree_of value.now) }
    ensures runs { let valued = value_of scope.old.names scope.old.arrays (tree_of value.now) in
        let wanted = and_then valued (bind_severed (machine scope.old) name.now) in
        Runs wanted scope.old scope.new [] [] result }
    ensures within { let s = scope.old in
        let tree = tree_of value.now in
        let most = named_steps s tree + value_size (value_of s.names s.arrays tree) in
        let late = evaluated s.names s.arrays tree in
        MovesUpTo most s late steps.old steps.new }
{
    let id = eval(scope, value, steps)?;
    scope.bind_severed(name, id, steps)
}

/// Cuts the array of a name from its parent, which takes at most what makes it ready, and a step
/// for each of its elements. Where it is a flow's root, the flow ends.
fn sever<L: Ledger>(scope: &mut Scope, name: &Name, steps: &mut Steps<L>) -> Result<(), ScopeFault>
    ensures runs { let wanted = effect [] (machine scope.old) (sever' name.now) in
        Runs wanted scope.old scope.new [] [] result }
    ensures counted { let id = number_of scope.old.names name.now in
        let most = option_map_or (cut_steps (engine_of scope.old)) id 0 in
        steps.new ≤ steps.old + most }
{
    match scope.number_of(name) {
        Some(id) => scope.sever(id, steps),
        None => Err(ScopeFault::Script(Fault::UnknownName)),
    }
}

/// Binds the outputs of the call of a name, whose arguments were evaluated, to a list of names.
/// Each argument is read once at most.
fn bind_outputs<L: Ledger>(
    scope: &mut Scope,
    bound: &[Name],
    function: &Name,
    given: &[Given],
    steps: &mut Steps<L>,
) -> Result<(), ScopeFault>
    requires { AreGivenLive scope.old.arrays.world given.now }
    ensures runs { let args = arguments given.now in
        let wanted = list_bound (machine scope.old) bound.now function.now (scope.old.arrays, args) in
        Runs wanted scope.old scope.new [] [] result }
    ensures within { let s = scope.old in
        let args = arguments given.now in
        let wanted = list_bound (machine s) bound.now function.now (s.arrays, args) in
        let left = unbound s.names bound.now function.now (s.arrays, args) in
        MovesUpTo (ready_all s given.now) s (arrays_after wanted left) steps.old steps.new }
{
    if bound.len() != 1 {
        let outputs = several(scope, function, bound.len(), given, steps)?;
        return scope.bind_roots(bound, &outputs, steps);
    }
    let id = call(scope, function, given, steps)?;
    scope.bind(&bound[0], id)
}

/// Binds the outputs of a call to a list of names.
fn bind_list<L: Ledger>(
    scope: &mut Scope,
    bound: &[Name],
    value: &Expr,
    steps: &mut Steps<L>,
) -> Result<(), ScopeFault>
    requires { AreArrays (tree_of value.now) }
    ensures runs { let form = bind_list' bound.now (tree_of value.now) in
        let wanted = effect [] (machine scope.old) form in
        Runs wanted scope.old scope.new [] [] result }
    ensures within { let most = named_steps scope.old (tree_of value.now) in
        let late = list_came scope.old bound.now (tree_of value.now) in
        MovesUpTo most scope.old late steps.old steps.new }
{
    calls_are_trees();
    match value {
        Expr::Call(function, args) => {
            let none = Vec::with_capacity(scope.alloc(), args.len())?;
            let given = take(scope, none, args, steps)?;
            bind_outputs(scope, bound, function, &given, steps)
        }
        _ => Err(ScopeFault::Script(Fault::Syntax)),
    }
}

/// Assigns by a sign: the target's array comes first, then the value's, and then flows follow. The
/// answer is what watchers are to be told, by slots. At most one formula is evaluated for each flow
/// that reads, directly or through flows, an array of the target's root. The assignment takes, beside
/// what both expressions take, at most what it takes to read each array that a slot is attached to, a
/// step for each element of the target, and what the flows take that follow. The target's array is
/// noted where it is a bare name's.
fn assign_value<L: Ledger, M: Ledger>(
    scope: &mut Scope,
    to: &Target,
    sign: AssignOp,
    value: &Expr,
    number: u64,
    bare: &mut Option<ArrayId>,
    steps: &mut Steps<L>,
    runs: &mut Steps<M>,
) -> Result<Vec<Vec<Notice>>, ScopeFault>
    requires views { All (λ v. AreArgArrays v.1) (map view_of to.now.views.items) }
    requires made { AreArrays (tree_of value.now) }
    ensures runs { let place = target to.now.name (map view_of to.now.views.items) in
        let wanted = assigning (machine scope.old) place sign (tree_of value.now) in
        Runs wanted scope.old scope.new [] [] result }
    ensures within { let place = target to.now.name (map view_of to.now.views.items) in
        let most = assign_steps scope.old place sign (tree_of value.now) in
        let late = sides_evaluated scope.old place (tree_of value.now) in
        MovesUpTo most scope.old late steps.old steps.new }
    ensures flowing { let place = map view_of to.now.views.items in
        let statement = assign to.now.name place sign (tree_of value.now) in
        RunsAtMost scope.old statement runs.old runs.new }
    ensures unrun { IfScript result (runs.new ≡ runs.old) }
    ensures told { let w = scope.old.arrays.world in
        let wanted = notices number w scope.new.arrays.world scope.new.watches in
        IfOk result (λ all. lists_of all.items ≡ wanted) }
    ensures moves { let place = map view_of to.now.views.items in
        let statement = assign to.now.name place sign (tree_of value.now) in
        MovesPlainly statement scope.old scope.new steps.old steps.new }
    ensures readable { let place = map view_of to.now.views.items in
        let statement = assign to.now.name place sign (tree_of value.now) in
        OnOk result (LeavesReadable statement scope.old scope.new) }
    ensures bare { let place = map view_of to.now.views.items in
        let statement = assign to.now.name place sign (tree_of value.now) in
        OnOk result (bare.new ≡ warm_after scope.old statement) }
{
    watching_laws();
    growth_laws();
    cost_laws();
    scope.in_order();
    let views: &[ViewCall] = &to.views;
    let is_bare = views.is_empty();
    let to = assigned_to(scope, to, steps)?;
    *bare = is_bare.then_some(to);
    scope.in_order();
    let from = eval(scope, value, steps)?;
    scope.in_order();
    scope.assign(sign, to, from, is_bare, number, steps, runs)
}

/// Prints a value, or its info. A part of the text may stand in `out` when out of memory.
fn show<L: Ledger>(
    scope: &mut Scope,
    value: &Expr,
    info: bool,
    out: &mut Vec<u8>,
    steps: &mut Steps<L>,
) -> Result<(), ScopeFault>
    requires { AreArrays (tree_of value.now) }
    ensures within { let s = scope.old in
        let tree = tree_of value.now in
        let late = evaluated s.names s.arrays tree in
        MovesUpTo (named_steps s tree) s late steps.old steps.new }
    ensures performs { let valued = value_of scope.old.names scope.old.arrays (tree_of value.now) in
        let wanted = and_then valued (λ v. Ok (after_printing (machine scope.old) info v)) in
        Performs wanted scope.old scope.new out.old.items out.new.items result }
    ensures moves { let statement = show' (tree_of value.now) info in
        MovesPlainly statement scope.old scope.new steps.old steps.new }
    ensures readable { let statement = show' (tree_of value.now) info in
        OnOk result (LeavesReadable statement scope.old scope.new) }
{
    let id = eval(scope, value, steps)?;
    Ok(scope.print(id, info, out, steps)?)
}

/// Prints a text and a newline. A part of them may stand in `out` when out of memory.
fn print_text(text: &[u8], out: &mut Vec<u8>) -> Result<(), AllocError>
    ensures text { OnOk result (out.new.items ≡ out.old.items ++ (text.now ++ newline)) }
    ensures front { Begins out.old.items out.new.items }
{
    out.extend_from_slice(text)?;
    Ok(out.push(b'\n')?)
}

/// Runs one statement, and answers what watchers are to hear of it; which slots have one decides
/// what can be attached. The array of a bare name that it assigns to is noted. Where it is refused,
/// names and `out` are as they were, be it by a fault or by being out of memory; new arrays may have
/// come.
#[tactic(auto, using(crate::proofs::PerformedStatements::cut_front))]
pub fn run<W: Watcher, L: Ledger, M: Ledger>(
    scope: &mut Scope,
    statement: &Statement,
    number: u64,
    watchers: &Vec<Option<W>>,
    bare: &mut Option<ArrayId>,
    out: &mut Vec<u8>,
    steps: &mut Steps<L>,
    runs: &mut Steps<M>,
) -> Result<News, ScopeFault>
    requires made { IsWellMade (statement_of statement.now) }
    requires few { length watchers.now.items ≤ slots_limit }
    requires none { bare.old ≡ None }
    ensures runs { let present = present_in (slots_by W.seen watchers.now.items) in
        let wanted = effect present (machine scope.old) (statement_of statement.now) in
        Runs wanted scope.old scope.new out.old.items out.new.items result }
    ensures news { let w = scope.old.arrays.world in
        let told = notices number w scope.new.arrays.world scope.new.watches in
        IfOk result (IsNewsOf (statement_of statement.now) told) }
    ensures bounded { let tree = statement_of statement.now in
        MovesByForm tree scope.old steps.old steps.new }
    ensures flowing { RunsAtMost scope.old (statement_of statement.now) runs.old runs.new }
    ensures unrun { IfScript result (runs.new ≡ runs.old) }
    ensures moves { let statement = statement_of statement.now in
        MovesPlainly statement scope.old scope.new steps.old steps.new }
    ensures readable { let statement = statement_of statement.now in
        OnOk result (LeavesReadable statement scope.old scope.new) }
    ensures bare { let statement = statement_of statement.now in
        OnOk result (bare.new ≡ warm_after scope.old statement) }
{
    let mark = out.len();
    let mut news = News::Nothing;
    match perform(
        scope, statement, number, watchers, &mut news, bare, out, steps, runs,
    ) {
        Ok(()) => Ok(news),
        Err(fault) => {
            out.truncate(mark);
            Err(fault)
        }
    }
}

/// Does what a statement says, and puts what watchers are to hear in place of nothing, and the array
/// of a bare name that it assigns to in place of none. A part of its text may stand in `out` where it
/// is refused. It moves what the statement's form says at most.
fn perform<W: Watcher, L: Ledger, M: Ledger>(
    scope: &mut Scope,
    statement: &Statement,
    number: u64,
    watchers: &Vec<Option<W>>,
    news: &mut News,
    bare: &mut Option<ArrayId>,
    out: &mut Vec<u8>,
    steps: &mut Steps<L>,
    runs: &mut Steps<M>,
) -> Result<(), ScopeFault>
    requires made { IsWellMade (statement_of statement.now) }
    requires few { length watchers.now.items ≤ slots_limit }
    requires nothing { news.old ≡ Nothing }
    requires none { bare.old ≡ None }
    ensures performs { let present = present_in (slots_by W.seen watchers.now.items) in
        let wanted = effect present (machine scope.old) (statement_of statement.now) in
        Performs wanted scope.old scope.new out.old.items out.new.items result }
    ensures news { let w = scope.old.arrays.world in
        let told = notices number w scope.new.arrays.world scope.new.watches in
        OnOk result (IsNewsOf (statement_of statement.now) told news.new) }
    ensures bounded { let tree = statement_of statement.now in
        MovesByForm tree scope.old steps.old steps.new }
    ensures flowing { RunsAtMost scope.old (statement_of statement.now) runs.old runs.new }
    ensures unrun { IfScript result (runs.new ≡ runs.old) }
    ensures moves { let statement = statement_of statement.now in
        MovesPlainly statement scope.old scope.new steps.old steps.new }
    ensures readable { let statement = statement_of statement.now in
        OnOk result (LeavesReadable statement scope.old scope.new) }
    ensures bare { let statement = statement_of statement.now in
        OnOk result (bare.new ≡ warm_after scope.old statement) }
{
    match statement {
        Statement::Bind {
            name,
            value,
            sever: false,
        } => bind_value(scope, name, value, steps),
        Statement::Bind {
            name,
            value,
            sever: true,
        } => bind_severed(scope, name, value, steps),
        Statement::BindList { names, value } => bind_list(scope, names, value, steps),
        Statement::Assign { target, op, value } => {
            let all = assign_value(scope, target, *op, value, number, bare, steps, runs)?;
            *news = News::Notices(all);
            Ok(())
        }
        Statement::Show { value, info } => show(scope, value, *info, out, steps),
        Statement::ShowText { text } => Ok(print_text(text.bytes(), out)?),
        Statement::Sever { name } => sever(scope, name, steps),
        Statement::Reshape { name, sizes } => reshape(scope, name, sizes, steps),
        Statement::Undef { name } => scope.undef(name),
        Statement::Vars => Ok(scope.print_names(out)?),
        Statement::Dump => dump(scope, out, steps),
        Statement::Flow { name, value } => flow(scope, name, value, steps),
        Statement::PpDef {
            name,
            signature,
            code,
        } => define_kernel(scope, name, signature, code),
        Statement::Watch { name, slot } => watch(scope, name, *slot, watchers),
        Statement::Unwatch { slot } => {
            *news = News::End(*slot as usize);
            unwatch(scope, *slot)
        }
    }
}
