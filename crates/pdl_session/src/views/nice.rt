//! `nice`: what nice slices, as `$x(1:3)`, are written for (PDL::NiceSlice).
ghost use Rattle.std.specs.Prelude.{◌≡◌, ◌≤◌, ◌+◌, ◌++◌, bytes_eq, codes, IfOk, IfSome, OnOk, option_map, drop, Some};
ghost use Rattle.std.specs.Fmt.{signed_decimal};
ghost use Rattle.pdl_world.specs.Sound.{IsLive};
ghost use Rattle.pdl_machine.specs.Arrays.{array_in};
ghost use Rattle.pdl_machine.specs.NiceCalls.{filled_in, slice_by_numbers, slice_in, looking_up, nice_by, nice_outcome};
ghost use Rattle.pdl_scope.specs.Answers.{AnswersAs};
ghost use Rattle.pdl_scope.specs.Scope.{OnlyReads};
ghost use Rattle.pdl_session.specs.Costs.{read_all};
ghost use Rattle.pdl_session.specs.Arguments.{all_seen_of, one_array, AreGivenLive, outcome_of, IsOutcomeMade};

use crate::dims::numbers_in;
use crate::given::Given;
use crate::outcome::Outcome;
use crate::shapes::{one_array, text_and_more};
use crate::views::choices::looked_up;
use crate::views::slice::sliced;
use pdl_buf::Steps;
use pdl_engine::ArrayId;
use pdl_machine::Fault;
use pdl_scope::{Scope, ScopeFault};
use std::alloc::{AllocError, Global};
use std::sync::ledger::Ledger;

/// `nice`: an array, a pattern, and the numbers in place of its `#`; or an array that looks the
/// first one up.
pub fn nice<L: Ledger>(
    scope: &mut Scope,
    given: &[Given],
    steps: &mut Steps<L>,
) -> Result<Outcome, ScopeFault>
    requires { AreGivenLive scope.old.arrays.world given.now }
    ensures value { let seen = all_seen_of scope.old.arrays given.now in
        AnswersAs outcome_of (nice_outcome seen) result }
    ensures made { IfOk result IsOutcomeMade }
    ensures same { OnlyReads scope.old scope.new }
    ensures counted { steps.new ≤ steps.old + read_all scope.old (drop 1 given.now) }
{
    match text_and_more(given) {
        Some((pattern, rest)) => nice_by(scope, pattern, rest, steps),
        None => Err(ScopeFault::Script(Fault::WrongArguments)),
    }
}

/// A pattern and values: they look the array up, or are the numbers of a slice.
#[tactic(auto, using(crate::proofs::ScopeFacts::reads_trans))]
fn nice_by<L: Ledger>(
    scope: &mut Scope,
    pattern: &[u8],
    rest: &[Given],
    steps: &mut Steps<L>,
) -> Result<Outcome, ScopeFault>
    requires { AreGivenLive scope.old.arrays.world rest.now }
    ensures value { let seen = all_seen_of scope.old.arrays rest.now in
        AnswersAs outcome_of (nice_by pattern.now seen) result }
    ensures made { IfOk result IsOutcomeMade }
    ensures same { OnlyReads scope.old scope.new }
    ensures counted { steps.new ≤ steps.old + read_all scope.old rest.now }
{
    match looking_up(scope, pattern, rest) {
        Some(id) => looked_up(scope, id, steps),
        None => slice_in(scope, pattern, rest, steps),
    }
}

/// The array that looks the first one up: the only value, of another count than one, for the
/// pattern `#` alone.
fn looking_up(scope: &Scope, pattern: &[u8], rest: &[Given]) -> Option<ArrayId>
    requires { AreGivenLive scope.now.arrays.world rest.now }
    ensures value { let seen = all_seen_of scope.now.arrays rest.now in
        option_map (array_in scope.now.arrays) result ≡ looking_up pattern.now seen }
    ensures found { IfSome result (λ v. one_array rest.now ≡ Some v) }
    ensures live { IfSome result (IsLive scope.now.arrays.world) }
{
    if !is_mark(pattern) {
        return None;
    }
    match one_array(rest) {
        Some(id) => { if scope.is_single(id) { None } else { Some(id) } }
        None => None,
    }
}

/// Whether a pattern is `#` alone.
fn is_mark(pattern: &[u8]) -> bool
    ensures { result ≡ bytes_eq pattern.now (codes "#") }
{
    pattern == b"#".as_slice()
}

/// A slice by a pattern and the numbers that values are.
fn slice_in<L: Ledger>(
    scope: &mut Scope,
    pattern: &[u8],
    rest: &[Given],
    steps: &mut Steps<L>,
) -> Result<Outcome, ScopeFault>
    requires { AreGivenLive scope.old.arrays.world rest.now }
    ensures value { let seen = all_seen_of scope.old.arrays rest.now in
        AnswersAs outcome_of (slice_in pattern.now seen) result }
    ensures made { IfOk result IsOutcomeMade }
    ensures same { OnlyReads scope.old scope.new }
    ensures counted { steps.new ≤ steps.old + read_all scope.old rest.now }
{
    match numbers_in(scope, rest, steps) {
        Ok(numbers) => slice_by_numbers(scope.alloc(), pattern, &numbers),
        Err(fault) => Err(fault),
    }
}

/// The slice by the text that the pattern is with these numbers, or `WrongArguments` where its `#`
/// aren't as many.
fn slice_by_numbers(alloc: Global, pattern: &[u8], numbers: &[i64]) -> Result<Outcome, ScopeFault>
    ensures value { AnswersAs outcome_of (slice_by_numbers pattern.now numbers.now) result }
    ensures made { IfOk result IsOutcomeMade }
{
    match filled_in(alloc, pattern, numbers)? {
        Some(text) => sliced(alloc, &text),
        None => Err(ScopeFault::Script(Fault::WrongArguments)),
    }
}

/// A pattern with these numbers in place of its `#`, in order, if they are as many.
fn filled_in(alloc: Global, pattern: &[u8], numbers: &[i64]) -> Result<Option<Vec<u8>>, AllocError>
    ensures { IfOk result (λ text.
        option_map (λ t. t.items) text ≡ filled_in pattern.now numbers.now) }
{
    let mut text = Vec::new(alloc);
    let mut used = 0;
    for &byte in pattern {
        if byte == b'#' {
            if used == numbers.len() {
                return Ok(None);
            }
            push_number(alloc, &mut text, numbers[used])?;
            used += 1;
        } else {
            text.push(byte)?;
        }
    }
    if used < numbers.len() {
        return Ok(None);
    }
    Ok(Some(text))
}

/// Appends a number in decimal.
fn push_number(alloc: Global, into: &mut Vec<u8>, number: i64) -> Result<(), AllocError>
    ensures { OnOk result (into.new.items ≡ into.old.items ++ signed_decimal number) }
{
    let shown = format!(in alloc; "{number}")?;
    into.extend_from_slice(shown.as_bytes())
}
