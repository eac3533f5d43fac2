//! What code reads and changes.
ghost use Rattle.std.specs.Prelude.{◌≡◌, ◌<◌, length, get_or, slice_set, pos, Ok};
ghost use Rattle.pdl_sig.specs.Resolution.{size_in};
ghost use Rattle.pdl_kernel.specs.Answers.{Becomes};
ghost use Rattle.pdl_kernel.specs.Meaning.{and_then, changed, kept};
ghost use Rattle.pdl_kernel.specs.Places.{blank, put_in};
ghost use Rattle.pdl_kernel.specs.Scenes.{kinds_of, rests_of, store_of};

use crate::argument::Argument;
use crate::axes::{element_in, set_in};
use crate::faults::Fault;
use crate::operations::wrap_to;
use pdl_elem::{BinaryOp, Ty};
use pdl_sig::{MOST_DIM_NAMES, Resolved};

/// The arguments, in the order of the signature, and the locals.
#[derive(Drop)]
pub struct Scene {
    pub(crate) arguments: Vec<Argument>,
    pub(crate) locals: Vec<i64>,
}

/// An argument by its number.
#[inline(always)]
pub fn argument_at(scene: &Scene, number: usize) -> &Argument
    requires { number < length (kinds_of scene.now) }
    ensures { result.now ≡ get_or scene.now.arguments.items number blank }
{
    &scene.arguments[number]
}

/// An assignment of a number to the element of an argument at a place.
#[inline(always)]
pub fn assign_in(
    arguments: &mut Vec<Argument>,
    number: usize,
    op: Option<BinaryOp>,
    x: i64,
    place: usize,
) -> Result<(), Fault>
    requires { number < length arguments.old.items }
    ensures { let w = get_or arguments.old.items number blank in
        Becomes result arguments.new.items (and_then
        (changed op (get_or w.elems place (pos 0)) x)
        (λ y. Ok (slice_set arguments.old.items number (put_in w place y)))) }
{
    let argument = &mut arguments[number];
    argument.assign_at(op, x, place)
}

/// The size that the call gives one of the signature's dimensions, and 1 past the last.
pub fn size_in(resolved: &Resolved, dimension: usize) -> u32
    ensures { result ≡ size_in resolved.now.sizes dimension }
{
    match resolved.sizes.as_slice().get(dimension) {
        Some(size) => *size,
        None => 1,
    }
}

/// The index of the loop over a dimension.
#[inline(always)]
pub fn loop_index(loops: &[u32; MOST_DIM_NAMES], dimension: usize) -> u32
    ensures { result ≡ get_or loops.now dimension 0 }
{
    if dimension < MOST_DIM_NAMES {
        loops[dimension]
    } else {
        0
    }
}

/// Sets the index of the loop over a dimension.
#[inline(always)]
pub fn set_index(loops: &mut [u32; MOST_DIM_NAMES], dimension: usize, index: u32)
    ensures { loops.new ≡ slice_set loops.old dimension index }
{
    if dimension < MOST_DIM_NAMES {
        loops[dimension] = index;
    }
}

/// The number in the slot of a local, and 0 past the last.
#[inline(always)]
pub fn local(scene: &Scene, slot: usize) -> i64
    ensures { result ≡ get_or (store_of scene.now).locals slot (pos 0) }
{
    element_in(&scene.locals, slot)
}

/// Stores to a local of the type.
#[inline(always)]
pub fn keep_local(scene: &mut Scene, ty: Ty, slot: usize, x: i64)
    ensures store { store_of scene.new ≡ kept ty slot (store_of scene.old) x }
    ensures rests { rests_of scene.new ≡ rests_of scene.old }
{
    set_in(&mut scene.locals, slot, wrap_to(ty, x));
}
