//! Views by numbers: exchanged, moved, reordered, new, joined and squeezed
//! dimensions (PDL::Slices).
ghost use Rattle.std.specs.Prelude.{◌≡◌, ◌≤◌, ◌+◌, IfOk, IfSome, IsTrue, drop};
ghost use Rattle.pdl_affine.specs.Views.{is_well_formed};
ghost use Rattle.pdl_machine.specs.Views.{arranged, arrangement_outcome};
ghost use Rattle.pdl_machine.specs.declared.builtin.Arrangement.TheVariants.{Dummy};
ghost use Rattle.pdl_scope.specs.Answers.{AnswersAs};
ghost use Rattle.pdl_session.specs.Costs.{read_all};
ghost use Rattle.pdl_session.specs.Arguments.{all_seen_of, AreGivenLive, outcome_of, IsOutcomeMade};
ghost use Rattle.pdl_scope.specs.Scope.{OnlyReads};

use crate::dims::numbers_in;
use crate::given::Given;
use crate::outcome::Outcome;
use pdl_affine::{Affine, Numbers};
use pdl_buf::Steps;
use pdl_machine::{Arrangement, Fault};
use pdl_scope::{Scope, ScopeFault};
use pdl_world::Trans;
use std::sync::ledger::Ledger;

/// A view word that takes an array and numbers.
pub fn arrangement<L: Ledger>(
    scope: &mut Scope,
    word: Arrangement,
    given: &[Given],
    steps: &mut Steps<L>,
) -> Result<Outcome, ScopeFault>
    requires { AreGivenLive scope.old.arrays.world given.now }
    ensures value { let seen = all_seen_of scope.old.arrays given.now in
        AnswersAs outcome_of (arrangement_outcome word seen) result }
    ensures made { IfOk result IsOutcomeMade }
    ensures same { OnlyReads scope.old scope.new }
    ensures counted { steps.new ≤ steps.old + read_all scope.old (drop 1 given.now) }
{
    match given.split_first() {
        Some((Given::Array(_), rest)) => match numbers_in(scope, rest, steps) {
            Ok(numbers) => match arranged(word, numbers) {
                Some(affine) => Ok(Outcome::View(Trans::Affine(affine))),
                None => Err(ScopeFault::Script(Fault::WrongArguments)),
            },
            Err(fault) => Err(fault),
        },
        _ => Err(ScopeFault::Script(Fault::WrongArguments)),
    }
}

/// The arrangement that a word names with these numbers, if they are as many as it takes.
fn arranged(word: Arrangement, numbers: Vec<i64>) -> Option<Affine>
    ensures value { result ≡ arranged word numbers.items }
    ensures well_formed { IfSome result (λ t. IsTrue (is_well_formed t)) }
{
    match word {
        Arrangement::Reorder => Some(Affine::Reorder(Numbers::new(numbers))),
        Arrangement::Diagonal => {
            if numbers.is_empty() {
                None
            } else {
                Some(Affine::Diagonal(Numbers::new(numbers)))
            }
        }
        Arrangement::Xchg => match numbers.as_slice() {
            [a, b] => Some(Affine::Xchg(*a, *b)),
            _ => None,
        },
        Arrangement::Mv => match numbers.as_slice() {
            [a, b] => Some(Affine::Mv(*a, *b)),
            _ => None,
        },
        Arrangement::Dummy => dummy(numbers.as_slice()),
        Arrangement::Clump => match numbers.as_slice() {
            [count] => Some(Affine::Clump(*count)),
            _ => None,
        },
        Arrangement::Flat => match numbers.as_slice() {
            [] => Some(Affine::Clump(-1)),
            _ => None,
        },
        Arrangement::Squeeze => match numbers.as_slice() {
            [] => Some(Affine::Squeeze),
            _ => None,
        },
    }
}

/// A new dimension at a place, of size 1 unless a size is given.
fn dummy(numbers: &[i64]) -> Option<Affine>
    ensures value { result ≡ arranged Dummy numbers.now }
    ensures well_formed { IfSome result (λ t. IsTrue (is_well_formed t)) }
{
    match numbers {
        [place] => Some(Affine::Dummy {
            place: *place,
            size: 1,
        }),
        [place, size] => Some(Affine::Dummy {
            place: *place,
            size: *size,
        }),
        _ => None,
    }
}
