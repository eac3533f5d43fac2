//! `slice`: a view by a text (PDL::Slices).
ghost use Rattle.std.specs.Prelude.{◌≡◌, IfOk};
ghost use Rattle.pdl_machine.specs.Arrays.{Arrays};
ghost use Rattle.pdl_machine.specs.Views.{slice_by, slice_outcome};
ghost use Rattle.pdl_scope.specs.Answers.{AnswersAs};
ghost use Rattle.pdl_session.specs.Arguments.{all_seen_of, outcome_of, IsOutcomeMade};

use crate::given::Given;
use crate::outcome::Outcome;
use crate::shapes::array_and_text;
use pdl_affine::Affine;
use pdl_machine::Fault;
use pdl_scope::ScopeFault;
use pdl_slices::{read_slice, slice_meaning};
use pdl_world::Trans;
use std::alloc::Global;

/// `slice`: an array and a text.
pub fn slice(alloc: Global, given: &[Given]) -> Result<Outcome, ScopeFault>
    ensures value { (a : Arrays) →
        AnswersAs outcome_of (slice_outcome (all_seen_of a given.now)) result }
    ensures made { IfOk result IsOutcomeMade }
{
    match array_and_text(given) {
        Some(text) => sliced(alloc, text),
        None => Err(ScopeFault::Script(Fault::WrongArguments)),
    }
}

/// A view by a text. Texts of statements, with numbers in place of each `#` too, are far shorter
/// than 4 GiB, which is more than a slice's may have.
pub(crate) fn sliced(alloc: Global, text: &[u8]) -> Result<Outcome, ScopeFault>
    ensures value { AnswersAs outcome_of (slice_by text.now) result }
    ensures made { IfOk result IsOutcomeMade }
{
    slice_meaning();
    if text.len() > u32::MAX as usize {
        return Err(ScopeFault::NoMemory);
    }
    let args = read_slice(alloc, text)?;
    Ok(Outcome::View(Trans::Affine(Affine::Slice(args))))
}
