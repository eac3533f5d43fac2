//! Products of two arrays (PDL::Primitive).
ghost use Rattle.std.specs.Prelude.{◌≡◌, ◌<◌, [], ◌∷◌, length, IfOk, IfErr, IsOk, Ok, Some, None, get_or, map, option_map, codes};
ghost use Rattle.std.specs.List.{range_with_len};
ghost use Rattle.pdl_buf.specs.Made.{IsMade, array_of};
ghost use Rattle.pdl_sig.specs.Known.{generic_arg};
ghost use Rattle.pdl_sig.specs.declared.Role.TheVariants.{Input, Output};
ghost use Rattle.pdl_sig.specs.Resolution.{reason_named, resolution};
ghost use Rattle.pdl_shape.specs.Broadcast.{BroadcastsTo};
ghost use Rattle.pdl_shape.specs.Joined.{joined_dims};
ghost use Rattle.pdl_shape.specs.Shape.{size_of};
ghost use Rattle.pdl_reduce.specs.declared.Pairing.TheVariants.{Inner, Outer, Matmult};
ghost use Rattle.pdl_reduce.specs.Blocks.{ReadyFor, block_products, core_count, sizes_of};
ghost use Rattle.pdl_reduce.specs.Answers.{Answers, IsRefused, refusal_named};
ghost use Rattle.pdl_reduce.specs.Refusals.{refusal_of};
ghost use Rattle.pdl_reduce.specs.Pairings.{paired, paired_dims, paired_element, signature_of};
ghost use Rattle.pdl_sig.specs.Given.{shape_of};

use crate::matrices::{Sizes, size_at};
use crate::meeting::products;
use crate::reducing::dims_after;
use crate::{Pairing, ReduceFault};
use pdl_buf::{Elements, Made, Packing, Strided, strided_dims, strided_type};
use pdl_elem::{Items, Name, Ty, wrapping_laws};
use pdl_shape::{Dims, copy_dims, dims_list, elements_of, join_dims, shape_laws};
use pdl_sig::{ArgShape, ArgType, ResolveFault, Resolved, Role, SigArg, Signature, resolve};
use std::alloc::{AllocError, Global};

/// An argument without a type word.
fn generic_arg(alloc: Global, name: &[u8], role: Role, dims: &[u8]) -> Result<SigArg, AllocError>
    ensures { IfOk result (λ arg. arg ≡ generic_arg name.now role dims.now) }
{
    Ok(SigArg {
        name: Name::new(name.to_vec(alloc)?),
        role,
        ty: ArgType::Generic,
        dims: Items::new(dims.to_vec(alloc)?),
    })
}

/// Two inputs and an output, by the numbers of their core dimensions.
fn arguments(alloc: Global, a: &[u8], b: &[u8], c: &[u8]) -> Result<Items<SigArg>, AllocError>
    ensures { let first = generic_arg (codes "a") Input a.now in
        let second = generic_arg (codes "b") Input b.now in
        let output = generic_arg (codes "c") Output c.now in
        IfOk result (λ args. args ≡ first ∷ second ∷ output ∷ []) }
{
    let mut args = Vec::new(alloc);
    args.push(generic_arg(alloc, b"a", Role::Input, a)?)?;
    args.push(generic_arg(alloc, b"b", Role::Input, b)?)?;
    args.push(generic_arg(alloc, b"c", Role::Output, c)?)?;
    Ok(Items::new(args))
}

/// Names of one letter each.
fn names(alloc: Global, letters: &[u8]) -> Result<Items<Name>, AllocError>
    ensures { IfOk result (λ names. names ≡ map (λ b. b ∷ []) letters.now) }
{
    let mut names = Vec::new(alloc);
    for letter in letters {
        names.push(Name::new(vec![in alloc; *letter; 1]?))?;
    }
    Ok(Items::new(names))
}

/// No size is fixed, for as many names as letters.
fn nothing_fixed(alloc: Global, letters: &[u8]) -> Result<Items<Option<u32>>, AllocError>
    ensures { IfOk result (λ fixed. fixed ≡ map (λ b. None) letters.now) }
{
    let mut fixed = Vec::new(alloc);
    for _letter in letters {
        fixed.push(None)?;
    }
    Ok(Items::new(fixed))
}

/// The signature by which the dimensions of a pairing resolve.
fn signature_of(alloc: Global, kind: Pairing) -> Result<Signature, AllocError>
    ensures { IfOk result (λ signature. signature ≡ signature_of kind) }
{
    let (args, letters) = match kind {
        Pairing::Inner => (arguments(alloc, &[0], &[0], &[])?, b"n".as_slice()),
        Pairing::Outer => (arguments(alloc, &[0], &[1], &[0, 1])?, b"nm".as_slice()),
        Pairing::Matmult => (
            arguments(alloc, &[0, 1], &[2, 0], &[2, 1])?,
            b"thw".as_slice(),
        ),
    };
    Ok(Signature {
        args,
        names: names(alloc, letters)?,
        fixed: nothing_fixed(alloc, letters)?,
    })
}

/// The fault that names what refuses a call.
fn fault_of(fault: ResolveFault) -> ReduceFault
    ensures { refusal_named result ≡ option_map refusal_of (reason_named fault) }
{
    match fault {
        ResolveFault::TooManyDims => ReduceFault::TooManyDims,
        ResolveFault::TooLarge => ReduceFault::TooLarge,
        ResolveFault::TooMuchWork => ReduceFault::TooMuchWork,
        ResolveFault::NoMemory => ReduceFault::NoMemory,
        ResolveFault::ArgCount
        | ResolveFault::CoreMismatch
        | ResolveFault::BroadcastMismatch
        | ResolveFault::StretchedInOut => ReduceFault::Mismatch,
    }
}

/// The type and the dimensions of a window.
fn shape_of(from: &Strided<'_>) -> ArgShape
    ensures { result ≡ shape_of (array_of from.now) }
{
    ArgShape {
        ty: strided_type(from),
        dims: copy_dims(strided_dims(from)),
    }
}

/// What a pairing of two windows resolves to.
fn resolved(
    alloc: Global,
    kind: Pairing,
    a: &Strided<'_>,
    b: &Strided<'_>,
) -> Result<Resolved, ReduceFault>
    ensures resolved { let given = shape_of (array_of a.now) ∷ shape_of (array_of b.now) ∷ [] in
        IfOk result (λ r. resolution (signature_of kind) given ≡ Ok r) }
    ensures refused { let wanted = paired kind (array_of a.now) (array_of b.now) in
        IfErr result (λ fault. IsRefused wanted (refusal_named fault)) }
{
    let signature = signature_of(alloc, kind)?;
    match resolve(alloc, &signature, &[shape_of(a), shape_of(b)]) {
        Ok(resolved) => Ok(resolved),
        Err(fault) => Err(fault_of(fault)),
    }
}

/// The sizes of the blocks that a pairing works on.
fn sizes_of(kind: Pairing, depth: usize, a: &[u32], b: &[u32]) -> Sizes
    ensures { result ≡ sizes_of kind depth a.now b.now }
{
    match kind {
        Pairing::Inner => Sizes {
            depth,
            height: 1,
            width: 1,
            left_depth: size_at(a, 0),
            right_depth: size_at(b, 0),
        },
        Pairing::Outer => Sizes {
            depth: 1,
            height: size_at(b, 0),
            width: size_at(a, 0),
            left_depth: 1,
            right_depth: 1,
        },
        Pairing::Matmult => Sizes {
            depth,
            height: size_at(a, 1),
            width: size_at(b, 0),
            left_depth: size_at(a, 0),
            right_depth: size_at(b, 1),
        },
    }
}

/// The dimensions that two lists of them join to, as they do.
fn broadcast_dims(alloc: Global, a: &Dims, b: &Dims) -> Dims
    requires { IsOk (joined_dims a.now b.now) }
    ensures joined { joined_dims a.now b.now ≡ Ok result }
    ensures stretched { BroadcastsTo a.now result × BroadcastsTo b.now result }
{
    match join_dims(alloc, a, b) {
        Ok(dims) => dims,
        Err(_) => unreachable!(),
    }
}

/// The dimensions of the output, which a pairing's signature has third.
fn output_dims(resolved: &Resolved) -> Dims
    requires { 2 < length resolved.now.shapes }
    ensures { result ≡ paired_dims resolved.now }
{
    copy_dims(&resolved.shapes.as_slice()[2])
}

/// How many elements the output has: 1 where there is none.
fn output_count(resolved: &Resolved) -> usize {
    match resolved.shapes.as_slice() {
        [_, _, output] => elements_of(output) as usize,
        _ => 1,
    }
}

/// How many core dimensions a pairing's arrays have.
fn core_count(kind: Pairing) -> usize
    ensures { result ≡ core_count kind }
{
    match kind {
        Pairing::Inner | Pairing::Outer => 1,
        Pairing::Matmult => 2,
    }
}

/// The products of a pairing's blocks, which are ready for it, with room for so many numbers.
fn block_products(
    alloc: Global,
    kind: Pairing,
    ty: Ty,
    sizes: Sizes,
    a: &Strided<'_>,
    b: &Strided<'_>,
    a_sizes: &Dims,
    b_sizes: &Dims,
    joined: &Dims,
    count: usize,
) -> Result<Packing, AllocError>
    requires { ReadyFor kind sizes a.now.elems b.now.elems a_sizes.now b_sizes.now joined.now }
    ensures { let elems = block_products kind ty sizes a.now.elems b.now.elems
        a_sizes.now b_sizes.now joined.now in
        IfOk result (λ made. made ≡ record { ty = ty; elems = elems }) }
{
    match kind {
        Pairing::Outer => products(alloc, ty, sizes, b, a, b_sizes, a_sizes, joined, count),
        Pairing::Inner | Pairing::Matmult => {
            products(alloc, ty, sizes, a, b, a_sizes, b_sizes, joined, count)
        }
    }
}

/// The elements of a pairing, which resolves so.
fn elements(
    alloc: Global,
    kind: Pairing,
    resolved: &Resolved,
    a: &Strided<'_>,
    b: &Strided<'_>,
) -> Result<Packing, AllocError>
    requires { let given = shape_of (array_of a.now) ∷ shape_of (array_of b.now) ∷ [] in
        resolution (signature_of kind) given ≡ Ok resolved.now }
    ensures { let at = paired_element kind resolved.now (array_of a.now) (array_of b.now) in
        let elems = map at (range_with_len 0 (size_of (paired_dims resolved.now))) in
        IfOk result (λ made. made ≡ record { ty = resolved.now.generic; elems = elems }) }
{
    shape_laws();
    let (first, second) = (strided_dims(a), strided_dims(b));
    let xs = dims_after(alloc, first, core_count(kind));
    let ys = dims_after(alloc, second, core_count(kind));
    let joined = broadcast_dims(alloc, &xs, &ys);
    let depth = size_at(resolved.sizes.as_slice(), 0);
    let sizes = sizes_of(kind, depth, dims_list(first), dims_list(second));
    let ty = resolved.generic;
    let count = output_count(resolved);
    block_products(alloc, kind, ty, sizes, a, b, &xs, &ys, &joined, count)
}

/// A product of two arrays at the higher of their types (PDL::Primitive), by the signature of its
/// kind: missing core dimensions count as 1, a core size of 1 is stretched, and the dimensions
/// after the core ones are broadcast behind the result's own. `Mismatch` where a core size is
/// neither 1 nor its dimension's or the further dimensions don't join; then `TooManyDims`,
/// `TooLarge` and `TooMuchWork`. It never answers `EmptyReduce`.
pub fn pair(
    alloc: Global,
    kind: Pairing,
    a: &Strided<'_>,
    b: &Strided<'_>,
) -> Result<Made, ReduceFault>
    ensures value { Answers (paired kind (array_of a.now) (array_of b.now)) result }
    ensures made { IfOk result (λ made. IsMade made.ty made.dims made.elems) }
{
    wrapping_laws();
    let resolved = resolved(alloc, kind, a, b)?;
    let made = elements(alloc, kind, &resolved, a, b)?;
    made.are_in_range();
    Ok(Made {
        ty: resolved.generic,
        dims: output_dims(&resolved),
        elems: Elements::packed(made),
    })
}
