//! What a call sets up before its code runs, and what it hands out.
ghost use Rattle.std.specs.Prelude.{◌≡◌, ◌==◌, ◌≤◌, get_or, length, map, drop, pos, replicate, if◌then◌else◌, All, IfOk};
ghost use Rattle.std.specs.List.{AllZip, range_with_len};
ghost use Rattle.pdl_buf.specs.Made.{broadcast_element};
ghost use Rattle.pdl_shape.specs.Shape.{coordinates_of, dims_limit, extent_limit, size_of};
ghost use Rattle.pdl_sig.specs.Resolution.{core_sizes, is_given, size_in, type_in};
ghost use Rattle.pdl_kernel.specs.Call.{first_given, with_given};
ghost use Rattle.pdl_kernel.specs.Places.{IsSmall, axes_of, strides_from};
ghost use Rattle.pdl_kernel.specs.Setup.{IsShapeOf, elems_with, given_elems, given_strides, outputs_in, start_elems, strides_with, window_of, window_with};

use crate::argument::Argument;
use crate::axes::{Axis, element_in, offset};
use crate::given::Given;
use crate::operations::wrap_to;
use crate::scene::size_in;
use pdl_broadcast::BroadcastWalk;
use pdl_buf::{Elements, Made};
use pdl_elem::{Ty, wrap_all};
use pdl_shape::{Dims, copy_dims, dims_list, elements_of, shape_laws};
use pdl_sig::{Resolved, Role, SigArg, is_output};
use std::alloc::{AllocError, Global};

/// The stride along a dimension: nowhere along a size of 1.
fn stride_along(size: u32, stride: u32) -> u32
    ensures { result ≡ (if size == 1 then 0 else stride) }
{
    if size == 1 { 0 } else { stride }
}

/// The strides of an array: nowhere along a size of 1.
fn strides(alloc: Global, dims: &Dims) -> Result<Vec<u32>, AllocError>
    ensures value { IfOk result (λ strides. strides.items ≡ strides_from 1 dims.now) }
    ensures small { IfOk result (λ strides. All (λ s. s ≤ extent_limit) strides.items) }
    ensures few { IfOk result (λ strides. length strides.items ≤ dims_limit) }
{
    shape_laws();
    let sizes = dims_list(dims);
    let mut strides = Vec::with_capacity(alloc, sizes.len())?;
    let mut stride = 1;
    for size in sizes {
        strides.push(stride_along(*size, stride))?;
        stride *= *size;
    }
    Ok(strides)
}

/// The stride along a dimension, and 0 where it is missing.
fn stride_at(strides: &[u32], dimension: usize) -> u32
    ensures { result ≡ get_or strides.now dimension 0 }
{
    match strides.get(dimension) {
        Some(stride) => *stride,
        None => 0,
    }
}

/// The core dimensions of an argument, with these strides.
fn axes(
    alloc: Global,
    resolved: &Resolved,
    numbers: &[u8],
    strides: &[u32],
) -> Result<Vec<Axis>, AllocError>
    requires { All (λ s. s ≤ extent_limit) strides.now }
    ensures value { IfOk result (λ axes. axes.items ≡ axes_of
        (map (size_in resolved.now.sizes) numbers.now) strides.now) }
    ensures small { IfOk result (λ axes. All IsSmall axes.items) }
{
    let mut axes = Vec::with_capacity(alloc, numbers.len())?;
    for (k, number) in numbers.iter().enumerate() {
        let size = size_in(resolved, usize::from(*number));
        axes.push(Axis {
            size,
            stride: stride_at(strides, k),
        })?;
    }
    Ok(axes)
}

/// The numbers from a place on.
fn rest_of(alloc: Global, numbers: &[u32], start: usize) -> Result<Vec<u32>, AllocError>
    ensures { IfOk result (λ rest. rest.items ≡ drop start numbers.now) }
{
    let start = start.min(numbers.len());
    numbers[start..].to_vec(alloc)
}

/// The next of the given arrays for an argument of this role, where it takes one.
fn take_given(role: Role, given: &mut Vec<Given>) -> Option<Given>
    ensures first { result ≡ first_given (is_given role) given.old.items }
    ensures rest { given.new.items ≡ (if is_given role then drop 1 given.old.items else
        given.old.items) }
{
    if matches!(role, Role::Input | Role::Both) && !given.is_empty() {
        Some(given.remove(0))
    } else {
        None
    }
}

/// The strides and the elements of what is given, the elements wrapped to a type.
fn taken(alloc: Global, ty: Ty, given: Option<Given>) -> Result<(Vec<u32>, Vec<i64>), AllocError>
    ensures strides { IfOk result (λ taken. taken.0.items ≡ given_strides given) }
    ensures small { IfOk result (λ taken. All (λ s. s ≤ extent_limit) taken.0.items) }
    ensures few { IfOk result (λ taken. length taken.0.items ≤ dims_limit) }
    ensures elems { IfOk result (λ taken. taken.1.items ≡ given_elems ty given) }
{
    match given {
        None => Ok((Vec::new(alloc), Vec::new(alloc))),
        Some(given) => {
            let Given {
                dims,
                mut elems,
                ..
            } = given;
            wrap_all(ty, &mut elems);
            Ok((strides(alloc, &dims)?, elems))
        }
    }
}

/// The element that an array of these strides gives at coordinates, wrapped to a type.
fn given_element(ty: Ty, given: &Given, strides: &[u32], coordinates: &[u32]) -> i64
    requires few { length strides.now ≤ dims_limit }
    requires small { All (λ s. s ≤ extent_limit) strides.now }
    requires strides { strides.now ≡ strides_from 1 given.now.dims }
    ensures { result ≡ broadcast_element ty given.now coordinates.now }
{
    wrap_to(ty, element_in(&given.elems, offset(strides, coordinates)))
}

/// The elements that an array gives at the coordinates of a shape, wrapped to a type.
fn spread(alloc: Global, ty: Ty, shape: &Dims, given: &Given) -> Result<Vec<i64>, AllocError>
    ensures { IfOk result (λ elems. elems.items ≡ map
        (λ q. broadcast_element ty given.now (coordinates_of shape.now q))
        (range_with_len 0 (size_of shape.now))) }
{
    let strides = strides(alloc, &given.dims)?;
    let mut elems = Vec::with_capacity(alloc, elements_of(shape) as usize)?;
    let mut walk = BroadcastWalk::new(alloc, shape)?;
    for _place in 0..elements_of(shape) {
        elems.push(given_element(ty, given, &strides, walk.coordinates()))?;
        walk.next();
    }
    Ok(elems)
}

/// So many zeros.
fn zeros(alloc: Global, count: u32) -> Result<Vec<i64>, AllocError>
    ensures { IfOk result (λ zeros. zeros.items ≡ replicate count (pos 0)) }
{
    Ok(vec![in alloc; 0; count as usize]?)
}

/// The elements of an array of a shape with which an argument starts: what is given, or zeros.
fn start_elems(
    alloc: Global,
    ty: Ty,
    shape: &Dims,
    given: Option<Given>,
) -> Result<Vec<i64>, AllocError>
    ensures { IfOk result (λ elems. elems.items ≡ start_elems ty shape.now given) }
{
    match given {
        None => Ok(zeros(alloc, elements_of(shape))?),
        Some(given) => spread(alloc, ty, shape, &given),
    }
}

/// The strides and the elements of an argument: an input is where it is given, and each other one
/// is an array of its shape.
fn laid(
    alloc: Global,
    role: Role,
    ty: Ty,
    shape: &Dims,
    given: Option<Given>,
) -> Result<(Vec<u32>, Vec<i64>), AllocError>
    ensures strides { IfOk result (λ laid. laid.0.items ≡ strides_with role shape.now given) }
    ensures small { IfOk result (λ laid. All (λ s. s ≤ extent_limit) laid.0.items) }
    ensures few { IfOk result (λ laid. length laid.0.items ≤ dims_limit) }
    ensures elems { IfOk result (λ laid. laid.1.items ≡ elems_with role ty shape.now given) }
{
    match role {
        Role::Input => taken(alloc, ty, given),
        Role::Output | Role::Both | Role::Temp => {
            let elems = start_elems(alloc, ty, shape, given)?;
            Ok((strides(alloc, shape)?, elems))
        }
    }
}

/// An argument of a type and of a shape.
fn argument(
    alloc: Global,
    resolved: &Resolved,
    ty: Ty,
    shape: &Dims,
    arg: &SigArg,
    given: Option<Given>,
) -> Result<Argument, AllocError>
    requires { IsShapeOf resolved.now arg.now shape.now }
    ensures { IfOk result (λ argument. argument ≡ window_with ty
        (core_sizes resolved.now.sizes arg.now) shape.now arg.now given) }
{
    let (strides, elems) = laid(alloc, arg.role, ty, shape, given)?;
    let numbers = arg.dims.as_slice();
    Ok(Argument {
        role: arg.role,
        ty,
        axes: axes(alloc, resolved, numbers, &strides)?,
        outer: rest_of(alloc, &strides, numbers.len())?,
        elems,
        start: 0,
    })
}

/// The arguments. It takes the given arrays in order.
pub fn arguments(
    alloc: Global,
    resolved: &Resolved,
    args: &[SigArg],
    given: &mut Vec<Given>,
) -> Result<Vec<Argument>, AllocError>
    requires types { resolved.now.types ≡ map (λ a. type_in resolved.now.generic a.ty) args.now }
    requires shapes { AllZip (IsShapeOf resolved.now) args.now resolved.now.shapes }
    ensures { IfOk result (λ arguments. arguments.items ≡ map (window_of resolved.now)
        (with_given args.now given.old.items)) }
{
    let mut arguments = Vec::with_capacity(alloc, args.len())?;
    for (k, arg) in args.iter().enumerate() {
        let shape = &resolved.shapes.as_slice()[k];
        let ty = resolved.types.as_slice()[k];
        let one = take_given(arg.role, given);
        arguments.push(argument(alloc, resolved, ty, shape, arg, one)?)?;
    }
    Ok(arguments)
}

/// An argument's elements, as an array of its shape.
fn made_of(argument: Argument, shape: &Dims) -> Made
    ensures { result ≡ record { ty = argument.ty; dims = shape.now; elems = argument.elems } }
{
    let Argument { ty, elems, .. } = argument;
    Made {
        ty,
        dims: copy_dims(shape),
        elems: Elements::new(elems),
    }
}

/// The outputs among the arguments, of these shapes.
pub fn outputs(
    alloc: Global,
    shapes: &[Dims],
    mut arguments: Vec<Argument>,
) -> Result<Vec<Made>, AllocError>
    requires { length arguments.items ≡ length shapes.now }
    ensures { IfOk result (λ outputs. outputs.items ≡ outputs_in shapes.now arguments.items) }
{
    let mut outputs = Vec::with_capacity(alloc, shapes.len())?;
    for shape in shapes {
        let argument = arguments.remove(0);
        if is_output(argument.role) {
            outputs.push(made_of(argument, shape))?;
        }
    }
    Ok(outputs)
}
