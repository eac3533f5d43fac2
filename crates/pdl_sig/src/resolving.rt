//! What the arguments of a call resolve to.
ghost use Rattle.std.specs.Prelude.{◌≡◌, ◌≤◌, Some, length, map, IfOk};
ghost use Rattle.std.specs.List.{list_any};
ghost use Rattle.pdl_shape.specs.Shape.{dims_limit};
ghost use Rattle.pdl_sig.specs.Solutions.{Solves};
ghost use Rattle.pdl_sig.specs.Resolution.{inputs, is_unfit, type_in, resolved_by, resolution, Answers};

use crate::cores::{Core, cores, is_unfit, named_sizes};
use crate::inputs::{count_inputs, generic_type, type_in};
use crate::joins::broadcast;
use crate::shapes::{any_stretched, any_too_large, any_too_many, is_too_much, shapes};
use crate::{ArgShape, ResolveFault, Resolved, SigArg, Signature};
use pdl_elem::{Items, Ty};
use pdl_shape::{dims_within, size};
use std::alloc::{AllocError, Global};

/// Whether some core size is neither 1 nor its dimension's size.
fn any_unfit(sizes: &[u32], cores: &[Core]) -> bool
    ensures { result ≡ list_any (is_unfit sizes.now) cores.now }
{
    cores.iter().any(|core| is_unfit(sizes, *core))
}

/// What a call resolves to, by the named sizes and the broadcast dimensions.
fn resolved_by(
    alloc: Global,
    args: &[SigArg],
    given: &[ArgShape],
    sizes: &[u32],
    broadcast: &[u32],
) -> Result<Resolved, ResolveFault>
    requires count { length given.now ≡ length (inputs args.now) }
    requires few { length broadcast.now ≤ dims_limit }
    ensures { Answers (resolved_by args.now given.now sizes.now (Some broadcast.now)) result }
{
    if any_stretched(alloc, sizes, broadcast, args, given)? {
        return Err(ResolveFault::StretchedInOut);
    }
    if any_too_many(alloc, sizes, broadcast, args)? {
        return Err(ResolveFault::TooManyDims);
    }
    let Some(count) = size(broadcast) else {
        return Err(ResolveFault::TooLarge);
    };
    if any_too_large(alloc, sizes, broadcast, args)? {
        return Err(ResolveFault::TooLarge);
    }
    if is_too_much(count, sizes) {
        return Err(ResolveFault::TooMuchWork);
    }
    let generic = generic_type(args, given);
    Ok(Resolved {
        generic,
        types: Items::new(types(alloc, generic, args)?),
        sizes: Items::new(Vec::from_slice(alloc, sizes)?),
        broadcast: dims_within(alloc, broadcast),
        shapes: Items::new(shapes(alloc, sizes, broadcast, args, given)?),
    })
}

/// The types of all arguments.
fn types(alloc: Global, generic: Ty, args: &[SigArg]) -> Result<Vec<Ty>, AllocError>
    ensures { IfOk result (λ types. types.items ≡ map (λ a. type_in generic a.ty) args.now) }
{
    args.iter()
        .map(|arg| type_in(generic, arg.ty))
        .collect(alloc)
}

/// What the given arguments resolve to in a call of an operation of this signature (PDL::PP,
/// Signatures): the inputs and `[io]` arguments are given, in the order of the signature.
///
/// An argument's first dimensions are its core ones, and missing ones count as 1. A dimension's
/// size is the one that the signature fixes, or the one size that isn't 1 among its arguments, or
/// 1. The dimensions after the core ones are broadcast.
pub fn resolve(
    alloc: Global,
    signature: &Signature,
    given: &[ArgShape],
) -> Result<Resolved, ResolveFault>
    ensures resolved { Answers (resolution signature.now given.now) result }
    ensures solved { IfOk result (Solves signature.now given.now) }
{
    let args = signature.args.as_slice();
    if given.len() != count_inputs(args) {
        return Err(ResolveFault::ArgCount);
    }
    let cores = cores(alloc, args, given)?;
    let sizes = named_sizes(alloc, cores.as_slice(), signature.fixed.as_slice())?;
    if any_unfit(sizes.as_slice(), cores.as_slice()) {
        return Err(ResolveFault::CoreMismatch);
    }
    match broadcast(alloc, args, given) {
        None => Err(ResolveFault::BroadcastMismatch),
        Some(broadcast) => resolved_by(alloc, args, given, sizes.as_slice(), broadcast.as_slice()),
    }
}
