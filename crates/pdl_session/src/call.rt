//! The built-in calls: what each gives, and how that joins the arrays.
ghost use Rattle.std.specs.Prelude.{◌≡◌, ◌≤◌, ◌+◌, [], ◌∷◌, All, IfOk, if◌then◌else◌};
ghost use Rattle.pdl_elem.specs.Types.{InRange};
ghost use Rattle.pdl_lexemes.specs.Lists.{type_of};
ghost use Rattle.pdl_buf.specs.Made.{IsMade};
ghost use Rattle.pdl_machine.specs.declared.fault.Fault.TheVariants.{WrongArguments, UnknownFunction};
ghost use Rattle.pdl_machine.specs.Calls.{outcome, builtin_value, callee_of, call_value, only_root, outputs_of, several};
ghost use Rattle.pdl_machine.specs.Outcome.{new_root, view_placed};
ghost use Rattle.pdl_machine.specs.Then.{and_then};
ghost use Rattle.pdl_machine.specs.Value.{number_made};
ghost use Rattle.pdl_world.specs.Formula.{is_well_formed};
ghost use Rattle.pdl_scope.specs.Answers.{AnswersAs, Evaluates};
ghost use Rattle.pdl_session.specs.Bounds.{MakesRoot};
ghost use Rattle.pdl_session.specs.Came.{came};
ghost use Rattle.pdl_session.specs.Costs.{read_all, read_by, ready_all, EvaluatesWithin};
ghost use Rattle.pdl_session.specs.Arguments.{arguments, AreGivenLive, all_seen_of, outcome_of, IsOutcomeMade};
ghost use Rattle.pdl_scope.specs.Scope.{Grows, OnlyReads};
ghost use Rattle.std.specs.Prelude.{IsTrue};

use crate::fill::filled;
use crate::given::Given;
use crate::inquiry::{dim, inquiry};
use crate::outcome::Outcome;
use crate::reducing::{paired, reduced, reduced_whole};
use crate::shapes::arrays_given;
use crate::views::arrangement::arrangement;
use crate::views::choices::{index, masked, range};
use crate::views::nice::nice;
use crate::views::slice::slice;
use pdl_buf::{Elements, Made, Steps};
use pdl_elem::{Name, Ty};
use pdl_engine::ArrayId;
use pdl_machine::{Builtin, Fault, builtin_named};
use pdl_scope::{Scope, ScopeFault, cost_laws};
use pdl_shape::dims_of;
use pdl_world::Trans;
use std::sync::ledger::Ledger;

/// The array of a number: no dimensions, long where it is at most 2147483647, else longlong. It takes
/// at most one step.
pub fn number_array<L: Ledger>(
    scope: &mut Scope,
    number: i64,
    steps: &mut Steps<L>,
) -> Result<ArrayId, ScopeFault>
    ensures value { Evaluates (new_root scope.old.arrays (number_made number)) scope.new result }
    ensures grown { Grows scope.old scope.new }
    ensures root { MakesRoot 1 scope.old scope.new steps.old steps.new result }
    ensures within { let s = scope.old in
        let late = came (new_root s.arrays (number_made number)) s.arrays in
        EvaluatesWithin 0 s scope.new late steps.old steps.new result }
{
    cost_laws();
    match dims_of(scope.alloc(), &[]) {
        Ok(dims) => {
            let elems = Elements::new(vec![in scope.alloc(); number; 1]?);
            let made = scope.make(number_type(number), &dims, elems, steps);
            scope.in_order();
            made
        }
        Err(_) => unreachable!(),
    }
}

/// The call of a name with its arguments. What it takes to make these ready pays for reading them,
/// and for the array that comes.
pub fn call<L: Ledger>(
    scope: &mut Scope,
    name: &Name,
    given: &[Given],
    steps: &mut Steps<L>,
) -> Result<ArrayId, ScopeFault>
    requires { AreGivenLive scope.old.arrays.world given.now }
    ensures value { let seen = arguments given.now in
        let wanted = call_value scope.old.names name.now scope.old.arrays seen in
        Evaluates wanted scope.new result }
    ensures grown { Grows scope.old scope.new }
    ensures within { let s = scope.old in
        let wanted = call_value s.names name.now s.arrays (arguments given.now) in
        let most = ready_all s given.now in
        EvaluatesWithin most s scope.new (came wanted s.arrays) steps.old steps.new result }
{
    match builtin_named(name.bytes()) {
        Some(builtin) => builtin_call(scope, builtin, given, steps),
        None => {
            let outputs = kernel_outputs(scope, name, 1, given, steps)?;
            only_root(scope, &outputs, steps)
        }
    }
}

/// The outputs of the call of a name, where not one is wanted. A built-in call has one.
pub fn several<L: Ledger>(
    scope: &mut Scope,
    name: &Name,
    wanted: usize,
    given: &[Given],
    steps: &mut Steps<L>,
) -> Result<Vec<Made>, ScopeFault>
    requires { AreGivenLive scope.old.arrays.world given.now }
    ensures value { let seen = all_seen_of scope.old.arrays given.now in
        let outputs = and_then (callee_of scope.old.names name.now) (several wanted seen) in
        AnswersAs (λ ms. ms.items) outputs result }
    ensures made { IfOk result (λ ms. All (λ m. IsMade m.ty m.dims m.elems) ms.items) }
    ensures same { OnlyReads scope.old scope.new }
    ensures counted { steps.new ≤ steps.old + read_all scope.old given.now }
{
    match builtin_named(name.bytes()) {
        Some(_) => Err(ScopeFault::Script(Fault::WrongArguments)),
        None => kernel_outputs(scope, name, wanted, given, steps),
    }
}

/// The outputs of the call of a kernel's name, whose arguments are arrays.
fn kernel_outputs<L: Ledger>(
    scope: &mut Scope,
    name: &Name,
    wanted: usize,
    given: &[Given],
    steps: &mut Steps<L>,
) -> Result<Vec<Made>, ScopeFault>
    requires { AreGivenLive scope.old.arrays.world given.now }
    ensures value { let seen = all_seen_of scope.old.arrays given.now in
        let outputs = outputs_of scope.old.names name.now wanted seen in
        AnswersAs (λ ms. ms.items) outputs result }
    ensures made { IfOk result (λ ms. All (λ m. IsMade m.ty m.dims m.elems) ms.items) }
    ensures same { OnlyReads scope.old scope.new }
    ensures counted { steps.new ≤ steps.old + read_all scope.old given.now }
{
    match arrays_given(scope.alloc(), given)? {
        Some(ids) => scope.kernel_outputs(name, wanted, &ids, steps),
        None => Err(ScopeFault::Script(not_arrays(scope.has_kernel(name)))),
    }
}

/// The fault of arguments that aren't all arrays: a kernel wants arrays, and no other name is known.
fn not_arrays(is_kernel: bool) -> Fault
    ensures { result ≡ (if is_kernel then WrongArguments else UnknownFunction) }
{
    if is_kernel {
        Fault::WrongArguments
    } else {
        Fault::UnknownFunction
    }
}

/// The only output, where one value is wanted.
fn only_root<L: Ledger>(
    scope: &mut Scope,
    outputs: &[Made],
    steps: &mut Steps<L>,
) -> Result<ArrayId, ScopeFault>
    requires { All (λ m. IsMade m.ty m.dims m.elems) outputs.now }
    ensures value { Evaluates (only_root scope.old.arrays outputs.now) scope.new result }
    ensures grown { Grows scope.old scope.new }
    ensures within { let s = scope.old in
        let late = came (only_root s.arrays outputs.now) s.arrays in
        EvaluatesWithin 0 s scope.new late steps.old steps.new result }
{
    cost_laws();
    match outputs {
        [made] => {
            let made = scope.make_like(made, steps);
            scope.in_order();
            made
        }
        _ => Err(ScopeFault::Script(Fault::WrongArguments)),
    }
}

/// A built-in call.
pub fn builtin_call<L: Ledger>(
    scope: &mut Scope,
    builtin: Builtin,
    given: &[Given],
    steps: &mut Steps<L>,
) -> Result<ArrayId, ScopeFault>
    requires { AreGivenLive scope.old.arrays.world given.now }
    ensures value { let wanted = builtin_value builtin scope.old.arrays (arguments given.now) in
        Evaluates wanted scope.new result }
    ensures grown { Grows scope.old scope.new }
    ensures within { let s = scope.old in
        let wanted = builtin_value builtin s.arrays (arguments given.now) in
        let most = ready_all s given.now in
        EvaluatesWithin most s scope.new (came wanted s.arrays) steps.old steps.new result }
{
    cost_laws();
    scope.in_order();
    match outcome(scope, builtin, given, steps) {
        Ok(Outcome::New(made)) => {
            let made = scope.adopt(made, steps);
            scope.in_order();
            made
        }
        Ok(Outcome::View(trans)) => {
            let made = view_first(scope, given, trans);
            scope.in_order();
            made
        }
        Err(fault) => Err(fault),
    }
}

/// A view of the array that stands first.
fn view_first(scope: &mut Scope, given: &[Given], trans: Trans) -> Result<ArrayId, ScopeFault>
    requires live { AreGivenLive scope.old.arrays.world given.now }
    requires well_formed { IsTrue (is_well_formed trans) }
    ensures value { let wanted = view_placed scope.old.arrays (arguments given.now) trans in
        Evaluates wanted scope.new result }
    ensures grown { Grows scope.old scope.new }
{
    match given.first() {
        Some(Given::Array(id)) => scope.view(*id, trans),
        _ => {
            drop(trans);
            Err(ScopeFault::Script(Fault::WrongArguments))
        }
    }
}

/// What a built-in call gives for its arguments. Only what it reads of them is made ready.
fn outcome<L: Ledger>(
    scope: &mut Scope,
    builtin: Builtin,
    given: &[Given],
    steps: &mut Steps<L>,
) -> Result<Outcome, ScopeFault>
    requires { AreGivenLive scope.old.arrays.world given.now }
    ensures value { let wanted = outcome builtin (all_seen_of scope.old.arrays given.now) in
        AnswersAs outcome_of wanted result }
    ensures made { IfOk result IsOutcomeMade }
    ensures same { OnlyReads scope.old scope.new }
    ensures counted { steps.new ≤ steps.old + read_by scope.old builtin given.now }
{
    match builtin {
        Builtin::Filled(fill) => filled(scope, fill, given, steps),
        Builtin::Told(kind) => inquiry(scope, kind, given, steps),
        Builtin::Dim => dim(scope, given, steps),
        Builtin::Slice => slice(scope.alloc(), given),
        Builtin::Nice => nice(scope, given, steps),
        Builtin::Arranged(word) => arrangement(scope, word, given, steps),
        Builtin::Index => index(scope, given, steps),
        Builtin::Where => masked(scope, given, steps),
        Builtin::Range => range(scope, given, steps),
        Builtin::Reduced(kind) => reduced(scope, kind, given, steps),
        Builtin::Whole(kind) => reduced_whole(scope, kind, given, steps),
        Builtin::Paired(kind) => paired(scope, kind, given, steps),
    }
}

/// The type of a number that stands in a script.
pub fn number_type(number: i64) -> Ty
    ensures ty { result ≡ type_of (number ∷ []) }
    ensures in_range { InRange result number }
{
    if number.unsigned_abs() > 2_147_483_647 {
        Ty::Longlong
    } else {
        Ty::Long
    }
}
