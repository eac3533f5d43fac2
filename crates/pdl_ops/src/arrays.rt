//! Operators and conversions of whole arrays (PDL::Ops, PDL::Core).
ghost use Rattle.std.specs.Prelude.{◌≡◌, IfOk};
ghost use Rattle.pdl_buf.specs.Made.{IsMade, array_of};
ghost use Rattle.pdl_shape.specs.Broadcast.{BroadcastsTo};
ghost use Rattle.pdl_shape.specs.Joined.{joined_dims};
ghost use Rattle.pdl_ops.specs.Answers.{Answers, or_refused};
ghost use Rattle.pdl_ops.specs.Elementwise.{converted, elementwise, of_alike, unary_each};

use crate::OpFault;
use crate::blocks::values;
use crate::changes::{Change, changed_elements, converted_elements};
use pdl_buf::{
    Elements, Made, Packing, Strided, stretched, strided_dims, strided_is_in_range, strided_type,
};
use pdl_elem::{BinaryOp, Ty, UnaryOp, binary_type, promote, unary_type, wrapping_laws};
use pdl_shape::{Dims, ShapeFault, copy_dims, dims_list, elements_of, join_dims, shape_laws};
use std::alloc::{AllocError, Global};

/// The dimensions that two arrays join to. It answers `Mismatch` and `TooLarge` alone.
fn broadcast_dims(alloc: Global, a: &Dims, b: &Dims) -> Result<Dims, OpFault>
    ensures value { Answers (λ dims. dims) (or_refused (joined_dims a.now b.now)) result }
    ensures stretched { IfOk result (λ dims. BroadcastsTo a.now dims × BroadcastsTo b.now dims) }
{
    match join_dims(alloc, a, b) {
        Ok(dims) => Ok(dims),
        Err(ShapeFault::Mismatch) => Err(OpFault::Mismatch),
        Err(ShapeFault::TooLarge) => Err(OpFault::TooLarge),
        Err(ShapeFault::TooManyDims) => unreachable!(),
    }
}

/// An operator of two operands of the same dimensions at each position, at the type of higher rank.
/// It answers `DivideByZero` and `NoMemory` alone.
fn of_alike(alloc: Global, op: BinaryOp, a: &Strided<'_>, b: &Strided<'_>) -> Result<Made, OpFault>
    requires { a.now.dims ≡ b.now.dims }
    ensures value { let wanted = of_alike op (array_of a.now) (array_of b.now) in
        Answers (λ made. made) wanted result }
    ensures made { IfOk result (λ made. IsMade made.ty made.dims made.elems) }
{
    let both = promote(strided_type(a), strided_type(b));
    let ty = binary_type(op, both, both);
    // that `a` has as many elements comes with its dimensions
    let _same = strided_dims(a);
    let count = elements_of(strided_dims(b)) as usize;
    let empty = Packing::new(alloc, ty, count)?;
    let elems = values(alloc, op, both, a, b, count, empty)?;
    Ok(Made {
        ty,
        dims: copy_dims(strided_dims(b)),
        elems: Elements::packed(elems),
    })
}

/// An operator of two operands at each position of the joined dimensions, at the type of higher
/// rank (PDL::Ops, PDL::Broadcasting). `Mismatch` where the dimensions don't join, then `TooLarge`,
/// then `DivideByZero` with the position of the first divisor 0. Operands of the same dimensions
/// are taken as they are.
pub fn elementwise(
    alloc: Global,
    op: BinaryOp,
    a: &Strided<'_>,
    b: &Strided<'_>,
) -> Result<Made, OpFault>
    ensures value { let wanted = elementwise op (array_of a.now) (array_of b.now) in
        Answers (λ made. made) wanted result }
    ensures made { IfOk result (λ made. IsMade made.ty made.dims made.elems) }
{
    shape_laws();
    let (left, right) = (strided_dims(a), strided_dims(b));
    if dims_list(left) == dims_list(right) {
        return of_alike(alloc, op, a, b);
    }
    let dims = broadcast_dims(alloc, left, right)?;
    of_alike(alloc, op, &stretched(a, &dims), &stretched(b, &dims))
}

/// An operator of one operand at each element (PDL::Ops).
pub fn unary_each(alloc: Global, op: UnaryOp, a: &Strided<'_>) -> Result<Made, AllocError>
    ensures value { IfOk result (λ made. made ≡ unary_each op (array_of a.now)) }
    ensures made { IfOk result (λ made. IsMade made.ty made.dims made.elems) }
{
    let ty = unary_type(op, strided_type(a));
    let empty = Packing::new(alloc, ty, elements_of(strided_dims(a)) as usize)?;
    let elems = changed_elements(alloc, Change::Operator(op), a, empty, 0)?;
    Ok(Made {
        ty,
        dims: copy_dims(strided_dims(a)),
        elems: Elements::packed(elems),
    })
}

/// Each element wrapped to a type (PDL::Core on conversions).
pub fn convert(alloc: Global, ty: Ty, a: &Strided<'_>) -> Result<Made, AllocError>
    ensures value { IfOk result (λ made. made ≡ converted ty (array_of a.now)) }
    ensures made { IfOk result (λ made. IsMade made.ty made.dims made.elems) }
{
    let empty = Packing::new(alloc, ty, elements_of(strided_dims(a)) as usize)?;
    let elems = converted_elements(alloc, ty, a, empty)?;
    Ok(Made {
        ty,
        dims: copy_dims(strided_dims(a)),
        elems: Elements::packed(elems),
    })
}

/// A new array of what a window shows: a conversion to the type that it has.
pub fn copied(alloc: Global, window: &Strided<'_>) -> Result<Made, AllocError>
    ensures value { IfOk result (λ made. made ≡ array_of window.now) }
    ensures made { IfOk result (λ made. IsMade made.ty made.dims made.elems) }
{
    wrapping_laws();
    strided_is_in_range(window);
    convert(alloc, strided_type(window), window)
}
