//! The shapes that a call makes, and the limits on them.
ghost use Rattle.std.specs.Prelude.{◌≡◌, ◌*◌, ◌++◌, ◌≤◌, false, drop, length, nat_lt, IfOk};
ghost use Rattle.std.specs.List.{list_any};
ghost use Rattle.pdl_shape.specs.Shape.{IsDims, dims_limit, extent};
ghost use Rattle.pdl_sig.specs.Resolution.{inputs, handed, work_limit, is_both, is_stretched, made, made_for, has_too_many, is_too_large, argument_dims, given_after, shapes};

use crate::cores::{core_sizes, padded};
use crate::inputs::{input, is_given};
use crate::{ArgShape, Role, SigArg};
use pdl_shape::{Dims, MOST_DIMS, copy_dims, dims_list, dims_within, size, sizes_after};
use std::alloc::{AllocError, Global};

/// The most work that a call does.
const MOST_WORK: u64 = 16_777_216;

fn is_both(role: Role) -> bool
    ensures { result ≡ is_both role }
{
    matches!(role, Role::Both)
}

/// Sizes and more sizes after them.
fn followed(mut sizes: Vec<u32>, more: &[u32]) -> Result<Vec<u32>, AllocError>
    ensures { IfOk result (λ all. all.items ≡ sizes.items ++ more.now) }
{
    sizes.extend_from_slice(more)?;
    Ok(sizes)
}

/// Whether something else than its core sizes and then the broadcast dimensions is given for an
/// `[io]` argument.
fn is_stretched(
    alloc: Global,
    sizes: &[u32],
    broadcast: &[u32],
    arg: &SigArg,
    shape: &ArgShape,
) -> Result<bool, AllocError>
    ensures { let wanted = is_stretched sizes.now broadcast.now (arg.now, shape.now) in
        IfOk result (λ found. found ≡ wanted) }
{
    if !is_both(arg.role) {
        return Ok(false);
    }
    let dims = arg.dims.as_slice();
    let given = dims_list(&shape.dims);
    let given = followed(padded(alloc, dims, given)?, sizes_after(given, dims.len()))?;
    let wanted = followed(core_sizes(alloc, sizes, arg)?, broadcast)?;
    Ok(given.as_slice() != wanted.as_slice())
}

/// Whether an `[io]` argument is stretched.
pub fn any_stretched(
    alloc: Global,
    sizes: &[u32],
    broadcast: &[u32],
    args: &[SigArg],
    given: &[ArgShape],
) -> Result<bool, AllocError>
    requires { length given.now ≡ length (inputs args.now) }
    ensures { let is_one = is_stretched sizes.now broadcast.now in
        IfOk result (λ found. found ≡ list_any is_one (handed args.now given.now)) }
{
    for (place, shape) in given.iter().enumerate() {
        if is_stretched(alloc, sizes, broadcast, input(args, place), shape)? {
            return Ok(true);
        }
    }
    Ok(false)
}

/// The shape that the call makes for an argument; none for an input.
fn made_for(
    alloc: Global,
    sizes: &[u32],
    broadcast: &[u32],
    arg: &SigArg,
) -> Result<Vec<u32>, AllocError>
    ensures { IfOk result (λ shape. shape.items ≡ made_for sizes.now broadcast.now arg.now) }
{
    match arg.role {
        Role::Input => Ok(Vec::new(alloc)),
        Role::Temp => core_sizes(alloc, sizes, arg),
        Role::Output | Role::Both => followed(core_sizes(alloc, sizes, arg)?, broadcast),
    }
}

/// Whether a shape that the call makes has too many dimensions.
pub fn any_too_many(
    alloc: Global,
    sizes: &[u32],
    broadcast: &[u32],
    args: &[SigArg],
) -> Result<bool, AllocError>
    ensures { let is_one = has_too_many sizes.now broadcast.now in
        IfOk result (λ found. found ≡ list_any is_one args.now) }
{
    for arg in args {
        if made_for(alloc, sizes, broadcast, arg)?.len() > MOST_DIMS {
            return Ok(true);
        }
    }
    Ok(false)
}

/// Whether a shape that the call makes is too large.
pub fn any_too_large(
    alloc: Global,
    sizes: &[u32],
    broadcast: &[u32],
    args: &[SigArg],
) -> Result<bool, AllocError>
    ensures { let is_one = is_too_large sizes.now broadcast.now in
        IfOk result (λ found. found ≡ list_any is_one args.now) }
{
    for arg in args {
        if size(made_for(alloc, sizes, broadcast, arg)?.as_slice()).is_none() {
            return Ok(true);
        }
    }
    Ok(false)
}

/// Whether so many places of the broadcast are too much work, each with all named sizes.
pub fn is_too_much(count: u32, sizes: &[u32]) -> bool
    ensures { result ≡ nat_lt work_limit (count * extent sizes.now) }
{
    let mut work = u64::from(count);
    for size in sizes {
        work = (work * u64::from((*size).max(1))).min(MOST_WORK + 1);
    }
    work > MOST_WORK
}

/// The shape of an argument: the given one of an input, else the one that the call makes.
fn argument_dims(
    alloc: Global,
    sizes: &[u32],
    broadcast: &[u32],
    arg: &SigArg,
    given: &[ArgShape],
) -> Result<Dims, AllocError>
    requires { IsDims (made_for sizes.now broadcast.now arg.now) }
    ensures { let made = made_for sizes.now broadcast.now arg.now in
        IfOk result (λ shape. shape ≡ argument_dims arg.now.role given.now made) }
{
    if matches!(arg.role, Role::Input) && !given.is_empty() {
        return Ok(copy_dims(&given[0].dims));
    }
    let made = made_for(alloc, sizes, broadcast, arg)?;
    Ok(dims_within(alloc, made.as_slice()))
}

/// What is left of the given shapes after an argument of this role.
fn given_after(role: Role, given: &[ArgShape]) -> &[ArgShape]
    ensures { result.now ≡ given_after role given.now }
{
    if is_given(role) && !given.is_empty() {
        &given[1..]
    } else {
        given
    }
}

/// The shapes of all arguments.
pub fn shapes(
    alloc: Global,
    sizes: &[u32],
    broadcast: &[u32],
    args: &[SigArg],
    given: &[ArgShape],
) -> Result<Vec<Dims>, AllocError>
    requires few { list_any (has_too_many sizes.now broadcast.now) args.now ≡ false }
    requires small { list_any (is_too_large sizes.now broadcast.now) args.now ≡ false }
    ensures { let wanted = shapes sizes.now broadcast.now args.now given.now in
        IfOk result (λ found. found.items ≡ wanted) }
{
    let mut found = Vec::new(alloc);
    let mut left = given;
    for arg in args {
        found.push(argument_dims(alloc, sizes, broadcast, arg, left)?)?;
        left = given_after(arg.role, left);
    }
    Ok(found)
}
