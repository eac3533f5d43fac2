//! Views by chosen places: `index`, `where`, `range` (PDL::Slices, PDL::Primitive).
ghost use Rattle.std.specs.Prelude.{◌≡◌, ◌≤◌, ◌+◌, IfOk, drop};
ghost use Rattle.pdl_buf.specs.declared.made.Made.{Made};
ghost use Rattle.pdl_world.specs.Sound.{IsLive};
ghost use Rattle.pdl_machine.specs.Arrays.{array_in};
ghost use Rattle.pdl_machine.specs.Views.{edge_of, look_up, index_outcome, where_outcome, range_by, range_outcome};
ghost use Rattle.pdl_scope.specs.Answers.{AnswersAs};
ghost use Rattle.pdl_engine.specs.Reading.{read_steps};
ghost use Rattle.pdl_session.specs.Costs.{read_all};
ghost use Rattle.pdl_session.specs.Arguments.{all_seen_of, AreGivenLive, outcome_of, IsOutcomeMade};
ghost use Rattle.pdl_session.specs.Calls.{windows};
ghost use Rattle.pdl_scope.specs.Scope.{engine_of, OnlyReads};

use crate::given::Given;
use crate::outcome::Outcome;
use crate::shapes::{few_arrays, second_array, two_and_more};
use pdl_affine::Numbers;
use pdl_buf::Steps;
use pdl_choice::Edge;
use pdl_engine::ArrayId;
use pdl_machine::Fault;
use pdl_scope::{Scope, ScopeFault, cost_laws};
use pdl_shape::copy_dims;
use pdl_world::Trans;
use std::sync::ledger::Ledger;

/// `index`: an array looked up by another one's values.
pub fn index<L: Ledger>(
    scope: &mut Scope,
    given: &[Given],
    steps: &mut Steps<L>,
) -> Result<Outcome, ScopeFault>
    requires { AreGivenLive scope.old.arrays.world given.now }
    ensures value { let seen = all_seen_of scope.old.arrays given.now in
        AnswersAs outcome_of (index_outcome seen) result }
    ensures made { IfOk result IsOutcomeMade }
    ensures same { OnlyReads scope.old scope.new }
    ensures counted { steps.new ≤ steps.old + read_all scope.old (drop 1 given.now) }
{
    match second_array(given) {
        Some(id) => looked_up(scope, id, steps),
        None => Err(ScopeFault::Script(Fault::WrongArguments)),
    }
}

/// An array looked up by the values of this one.
pub(crate) fn looked_up<L: Ledger>(
    scope: &mut Scope,
    id: ArrayId,
    steps: &mut Steps<L>,
) -> Result<Outcome, ScopeFault>
    requires { IsLive scope.old.arrays.world id }
    ensures value { AnswersAs outcome_of (look_up (array_in scope.old.arrays id)) result }
    ensures made { IfOk result IsOutcomeMade }
    ensures same { OnlyReads scope.old scope.new }
    ensures counted { steps.new ≤ steps.old + read_steps (engine_of scope.old) id }
{
    let numbers = scope.numbers(id, steps)?;
    Ok(Outcome::View(Trans::Index {
        dims: copy_dims(scope.dims(id)),
        ind: Numbers::new(numbers),
    }))
}

/// `where`: an array's elements at which a mask isn't 0.
pub fn masked<L: Ledger>(
    scope: &mut Scope,
    given: &[Given],
    steps: &mut Steps<L>,
) -> Result<Outcome, ScopeFault>
    requires { AreGivenLive scope.old.arrays.world given.now }
    ensures value { let seen = all_seen_of scope.old.arrays given.now in
        AnswersAs outcome_of (where_outcome seen) result }
    ensures made { IfOk result IsOutcomeMade }
    ensures same { OnlyReads scope.old scope.new }
    ensures counted { steps.new ≤ steps.old + read_all scope.old (drop 1 given.now) }
{
    match second_array(given) {
        Some(id) => {
            let places = scope.set_positions(id, steps)?;
            Ok(Outcome::View(Trans::Where {
                dims: copy_dims(scope.dims(id)),
                places,
            }))
        }
        None => Err(ScopeFault::Script(Fault::WrongArguments)),
    }
}

/// `range`: windows of an array at the corners that an index lists.
pub fn range<L: Ledger>(
    scope: &mut Scope,
    given: &[Given],
    steps: &mut Steps<L>,
) -> Result<Outcome, ScopeFault>
    requires { AreGivenLive scope.old.arrays.world given.now }
    ensures value { let seen = all_seen_of scope.old.arrays given.now in
        AnswersAs outcome_of (range_outcome seen) result }
    ensures made { IfOk result IsOutcomeMade }
    ensures same { OnlyReads scope.old scope.new }
    ensures counted { steps.new ≤ steps.old + read_all scope.old (drop 1 given.now) }
{
    match two_and_more(given) {
        Some((ind, rest)) => windows_at(scope, ind, rest, steps),
        None => Err(ScopeFault::Script(Fault::WrongArguments)),
    }
}

/// Windows at the corners that an index lists.
#[tactic(auto, using(crate::proofs::ScopeFacts::reads_trans))]
fn windows_at<L: Ledger>(
    scope: &mut Scope,
    ind: ArrayId,
    rest: &[Given],
    steps: &mut Steps<L>,
) -> Result<Outcome, ScopeFault>
    requires ind { IsLive scope.old.arrays.world ind }
    requires rest { AreGivenLive scope.old.arrays.world rest.now }
    ensures value { let corners = array_in scope.old.arrays ind in
        AnswersAs outcome_of (range_by corners (all_seen_of scope.old.arrays rest.now)) result }
    ensures made { IfOk result IsOutcomeMade }
    ensures same { OnlyReads scope.old scope.new }
    ensures counted { let e = engine_of scope.old in
        steps.new ≤ steps.old + (read_steps e ind + read_all scope.old rest.now) }
{
    cost_laws();
    scope.in_order();
    let (sizes, edge) = match window_parts(scope, rest, steps) {
        Ok(parts) => parts,
        Err(fault) => return Err(fault),
    };
    scope.in_order();
    let numbers = scope.numbers(ind, steps)?;
    Ok(Outcome::View(Trans::Range {
        dims: copy_dims(scope.dims(ind)),
        ind: Numbers::new(numbers),
        sizes: Numbers::new(sizes),
        edge,
    }))
}

/// The sizes of windows, else one 0, and what stands beyond the edges, else a refusal.
#[tactic(auto, using(crate::proofs::ScopeFacts::reads_trans))]
fn window_parts<L: Ledger>(
    scope: &mut Scope,
    rest: &[Given],
    steps: &mut Steps<L>,
) -> Result<(Vec<i64>, Edge), ScopeFault>
    requires { AreGivenLive scope.old.arrays.world rest.now }
    ensures value { (corners : Made) →
        let wanted = range_by corners (all_seen_of scope.old.arrays rest.now) in
        AnswersAs (λ parts. windows corners parts.0.items parts.1) wanted result }
    ensures same { OnlyReads scope.old scope.new }
    ensures counted { steps.new ≤ steps.old + read_all scope.old rest.now }
{
    cost_laws();
    scope.in_order();
    match few_arrays(rest) {
        Some((None, _)) => Ok((vec![in scope.alloc(); 0; 1]?, Edge::Refuse)),
        Some((Some(sizes), None)) => Ok((scope.numbers(sizes, steps)?, Edge::Refuse)),
        Some((Some(sizes), Some(edge))) => match scope.only_number(edge, steps)? {
            Some(number) => match edge_of(number) {
                Some(edge) => {
                    scope.in_order();
                    Ok((scope.numbers(sizes, steps)?, edge))
                }
                None => Err(ScopeFault::Script(Fault::WrongArguments)),
            },
            None => Err(ScopeFault::Script(Fault::WrongArguments)),
        },
        None => Err(ScopeFault::Script(Fault::WrongArguments)),
    }
}

/// What stands beyond the edges, by its number.
fn edge_of(number: i64) -> Option<Edge>
    ensures { result ≡ edge_of number }
{
    match number {
        0 => Some(Edge::Refuse),
        1 => Some(Edge::Zero),
        2 => Some(Edge::Nearest),
        3 => Some(Edge::Periodic),
        _ => None,
    }
}
