//! New arrays of one array.
ghost use Rattle.std.specs.Prelude.{◌≡◌, ◌+◌, ◌≤◌, length, map, pos, All, IfOk, Ok, drop, if◌then◌else◌};
ghost use Rattle.pdl_shape.specs.Shape.{extent_limit};
ghost use Rattle.pdl_buf.specs.Made.{IsMade};
ghost use Rattle.pdl_world.specs.Sound.{IsLive};
ghost use Rattle.pdl_machine.specs.Arrays.{array_in};
ghost use Rattle.pdl_machine.specs.Inquiries.{long_number, long_numbers, told, inquiry_outcome, dim_outcome, size_at};
ghost use Rattle.pdl_machine.specs.Outcome.{made};
ghost use Rattle.pdl_machine.specs.Then.{and_then};
ghost use Rattle.pdl_scope.specs.Answers.{AnswersAs};
ghost use Rattle.pdl_engine.specs.Reading.{read_steps};
ghost use Rattle.pdl_machine.specs.declared.builtin.Builtin.TheVariants.{Told};
ghost use Rattle.pdl_session.specs.Costs.{read_all, read_by, reads_elements};
ghost use Rattle.pdl_session.specs.Arguments.{all_seen_of, AreGivenLive, outcome_of, IsOutcomeMade};
ghost use Rattle.pdl_scope.specs.Scope.{engine_of, OnlyReads};

use crate::dims::number_in;
use crate::given::Given;
use crate::outcome::Outcome;
use crate::shapes::{array_and_one, one_array};
use pdl_buf::{Elements, Made, Steps};
use pdl_elem::Ty;
use pdl_engine::ArrayId;
use pdl_machine::{Fault, Inquiry};
use pdl_scope::{Scope, ScopeFault};
use pdl_shape::{dims_list, dims_of, elements_of, from_end, shape_laws};
use std::alloc::{AllocError, Global};
use std::sync::ledger::Ledger;

/// A call that takes one array.
pub fn inquiry<L: Ledger>(
    scope: &mut Scope,
    inquiry: Inquiry,
    given: &[Given],
    steps: &mut Steps<L>,
) -> Result<Outcome, ScopeFault>
    requires { AreGivenLive scope.old.arrays.world given.now }
    ensures value { let seen = all_seen_of scope.old.arrays given.now in
        AnswersAs outcome_of (inquiry_outcome inquiry seen) result }
    ensures made { IfOk result IsOutcomeMade }
    ensures same { OnlyReads scope.old scope.new }
    ensures counted { steps.new ≤ steps.old + read_by scope.old (Told inquiry) given.now }
{
    match one_array(given) {
        Some(id) => match told(scope, inquiry, id, steps) {
            Ok(made) => Ok(Outcome::New(made)),
            Err(_) => Err(ScopeFault::NoMemory),
        },
        None => Err(ScopeFault::Script(Fault::WrongArguments)),
    }
}

/// The new array of an array.
fn told<L: Ledger>(
    scope: &mut Scope,
    inquiry: Inquiry,
    id: ArrayId,
    steps: &mut Steps<L>,
) -> Result<Made, AllocError>
    requires { IsLive scope.old.arrays.world id }
    ensures value { IfOk result (λ m. m ≡ told inquiry (array_in scope.old.arrays id)) }
    ensures made { IfOk result (λ m. IsMade m.ty m.dims m.elems) }
    ensures same { OnlyReads scope.old scope.new }
    ensures counted { let e = engine_of scope.old in
        steps.new ≤ steps.old + (if reads_elements inquiry then read_steps e id else 0) }
{
    shape_laws();
    let count = elements_of(scope.dims(id));
    match inquiry {
        Inquiry::Copy => scope.copied(id, steps),
        Inquiry::Convert(ty) => scope.converted(ty, id, steps),
        Inquiry::Nelem => long_number(scope.alloc(), count),
        Inquiry::Ndims => { long_number(scope.alloc(), dims_list(scope.dims(id)).len() as u32) }
        Inquiry::Shape => long_numbers(scope.alloc(), dims_list(scope.dims(id))),
        Inquiry::Which => {
            let places = scope.set_positions(id, steps)?;
            long_numbers(scope.alloc(), places.as_slice())
        }
    }
}

/// The size of one dimension of an array.
pub fn dim<L: Ledger>(
    scope: &mut Scope,
    given: &[Given],
    steps: &mut Steps<L>,
) -> Result<Outcome, ScopeFault>
    requires { AreGivenLive scope.old.arrays.world given.now }
    ensures value { let seen = all_seen_of scope.old.arrays given.now in
        AnswersAs outcome_of (dim_outcome seen) result }
    ensures made { IfOk result IsOutcomeMade }
    ensures same { OnlyReads scope.old scope.new }
    ensures counted { steps.new ≤ steps.old + read_all scope.old (drop 1 given.now) }
{
    match array_and_one(given) {
        Some((id, place)) => match number_in(scope, &place, steps)? {
            Some(number) => size_at(scope, id, number),
            None => Err(ScopeFault::Script(Fault::WrongArguments)),
        },
        None => Err(ScopeFault::Script(Fault::WrongArguments)),
    }
}

/// The size of the dimension of this number, which counts from the end where it is below 0.
fn size_at(scope: &Scope, id: ArrayId, number: i64) -> Result<Outcome, ScopeFault>
    requires { IsLive scope.now.arrays.world id }
    ensures value { let dims = (array_in scope.now.arrays id).dims in
        let wanted = and_then (size_at dims number) (λ n. Ok (made (long_number n))) in
        AnswersAs outcome_of wanted result }
    ensures made { IfOk result IsOutcomeMade }
{
    shape_laws();
    let sizes = dims_list(scope.dims(id));
    match from_end(number, sizes.len()) {
        Some(place) => match long_number(scope.alloc(), sizes[place]) {
            Ok(made) => Ok(Outcome::New(made)),
            Err(_) => Err(ScopeFault::NoMemory),
        },
        None => Err(ScopeFault::Script(Fault::BadDimension)),
    }
}

/// A long number as an array without dimensions.
fn long_number(alloc: Global, number: u32) -> Result<Made, AllocError>
    requires { number ≤ extent_limit }
    ensures value { IfOk result (λ m. m ≡ long_number number) }
    ensures made { IfOk result (λ m. IsMade m.ty m.dims m.elems) }
{
    let mut elems = Vec::with_capacity(alloc, 1)?;
    elems.push(i64::from(number))?;
    match dims_of(alloc, &[]) {
        Ok(dims) => Ok(Made {
            ty: Ty::Long,
            dims,
            elems: Elements::new(elems),
        }),
        Err(_) => unreachable!(),
    }
}

/// Long numbers as an array of one dimension.
fn long_numbers(alloc: Global, numbers: &[u32]) -> Result<Made, AllocError>
    requires few { length numbers.now ≤ extent_limit }
    requires small { All (λ n. n ≤ extent_limit) numbers.now }
    ensures value { IfOk result (λ m. m ≡ long_numbers numbers.now) }
    ensures made { IfOk result (λ m. IsMade m.ty m.dims m.elems) }
{
    let elems = widened(alloc, numbers)?;
    match dims_of(alloc, &[numbers.len() as u32]) {
        Ok(dims) => Ok(Made {
            ty: Ty::Long,
            dims,
            elems: Elements::new(elems),
        }),
        Err(_) => unreachable!(),
    }
}

/// The same numbers, each in 64 bits.
fn widened(alloc: Global, numbers: &[u32]) -> Result<Vec<i64>, AllocError>
    ensures { IfOk result (λ wide. wide.items ≡ map pos numbers.now) }
{
    numbers
        .iter()
        .map(|number| i64::from(*number))
        .collect(alloc)
}
