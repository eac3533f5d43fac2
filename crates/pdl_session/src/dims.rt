//! Numbers that are arguments, and the dimensions that they are.
ghost use Rattle.std.specs.Prelude.{◌≡◌, ◌≤◌, ◌+◌, IfOk};
ghost use Rattle.pdl_machine.specs.Fills.{number_in, numbers_in, dims_for};
ghost use Rattle.pdl_machine.specs.Then.{all_of, or_fault};
ghost use Rattle.pdl_machine.specs.declared.fault.Fault.TheVariants.{BadDimension};
ghost use Rattle.pdl_scope.specs.Answers.{Answers, AnswersAs};
ghost use Rattle.pdl_session.specs.Costs.{read_all, read_one};
ghost use Rattle.pdl_session.specs.Arguments.{seen_of, all_seen_of, IsGivenLive, AreGivenLive};
ghost use Rattle.pdl_session.specs.Sizes.{clamped_size};
ghost use Rattle.pdl_scope.specs.Scope.{OnlyReads};

use crate::given::Given;
use pdl_buf::Steps;
use pdl_machine::Fault;
use pdl_scope::{Scope, ScopeFault, cost_laws};
use pdl_shape::{Dims, ShapeFault, dims_of, shape_laws};
use std::alloc::{AllocError, Global};
use std::sync::ledger::Ledger;

/// The number that an argument is: an array of exactly one element.
pub fn number_in<L: Ledger>(
    scope: &mut Scope,
    given: &Given,
    steps: &mut Steps<L>,
) -> Result<Option<i64>, AllocError>
    requires { IsGivenLive scope.old.arrays.world given.now }
    ensures number { IfOk result (λ n. n ≡ number_in (seen_of scope.old.arrays given.now)) }
    ensures same { OnlyReads scope.old scope.new }
    ensures counted { steps.new ≤ steps.old + read_one scope.old given.now }
{
    match given {
        Given::Array(id) => scope.only_number(*id, steps),
        Given::Text(_) | Given::OfType(_) => Ok(None),
    }
}

/// The numbers that arguments are.
#[tactic(auto, using(crate::proofs::ScopeFacts::reads_trans))]
pub fn numbers_in<L: Ledger>(
    scope: &mut Scope,
    given: &[Given],
    steps: &mut Steps<L>,
) -> Result<Vec<i64>, ScopeFault>
    requires { AreGivenLive scope.old.arrays.world given.now }
    ensures value { let wanted = numbers_in (all_seen_of scope.old.arrays given.now) in
        AnswersAs (λ ns. ns.items) wanted result }
    ensures same { OnlyReads scope.old scope.new }
    ensures counted { steps.new ≤ steps.old + read_all scope.old given.now }
{
    cost_laws();
    scope.in_order();
    let mut found = Vec::new(scope.alloc());
    for one in given {
        scope.in_order();
        match number_in(scope, one, steps)? {
            Some(number) => found.push(number)?,
            None => return Err(ScopeFault::Script(Fault::WrongArguments)),
        }
    }
    Ok(found)
}

/// Dimensions of these sizes: `BadDimension` for one below 0, then `TooManyDims`, then `TooLarge`.
pub fn dims_for(alloc: Global, numbers: &[i64]) -> Result<Dims, ScopeFault>
    ensures { Answers (dims_for numbers.now) result }
{
    shape_laws();
    let sizes = match clamped(alloc, numbers) {
        Ok(sizes) => sizes,
        Err(fault) => return Err(fault),
    };
    match dims_of(alloc, &sizes) {
        Ok(dims) => Ok(dims),
        Err(ShapeFault::Mismatch) => Err(ScopeFault::Script(Fault::Mismatch)),
        Err(ShapeFault::TooManyDims) => Err(ScopeFault::Script(Fault::TooManyDims)),
        Err(ShapeFault::TooLarge) => Err(ScopeFault::Script(Fault::TooLarge)),
    }
}

/// The sizes, where one that is too large for any array stays too large.
fn clamped(alloc: Global, numbers: &[i64]) -> Result<Vec<u32>, ScopeFault>
    ensures { let wanted = or_fault BadDimension (all_of clamped_size numbers.now) in
        AnswersAs (λ ds. ds.items) wanted result }
{
    let mut sizes = Vec::new(alloc);
    for &number in numbers {
        match clamp(number) {
            Some(size) => sizes.push(size)?,
            None => return Err(ScopeFault::Script(Fault::BadDimension)),
        }
    }
    Ok(sizes)
}

/// A size, or the largest `u32` for a larger one; nothing for one below 0.
fn clamp(number: i64) -> Option<u32>
    ensures { result ≡ clamped_size number }
{
    if number < 0 {
        None
    } else if number > 4_294_967_295 {
        Some(u32::MAX)
    } else {
        Some(number as u32)
    }
}
