//! A change of each element of a window, in blocks. Those that have the type already are copied run
//! by run.
ghost use Rattle.std.specs.Prelude.{◌≡◌, ◌≤◌, [], length, take, map, All, IfOk};
ghost use Rattle.pdl_elem.specs.Numbers.{wrapped};
ghost use Rattle.pdl_elem.specs.Types.{InRange};
ghost use Rattle.pdl_ops.specs.Changes.{changed, changed_type};

use crate::operands::{block_of, rewrap};
use crate::runs::copy_runs;
use pdl_buf::{Packing, Strided, strided_dims, strided_is_in_range, strided_read, strided_type};
use pdl_elem::{Ty, UnaryOp, unary_all, wrapping_laws};
use pdl_shape::elements_of;
use std::alloc::{AllocError, Global};

/// What is done to each element.
#[derive(Clone, Copy)]
pub(crate) enum Change {
    /// An operator at the elements' type.
    Operator(UnaryOp),
    /// Wrapping to a type.
    Convert(Ty),
}

/// Changes each number of a type.
fn change_block(change: Change, ty: Ty, numbers: &mut [i64])
    requires { All (InRange ty) numbers.old }
    ensures value { numbers.new ≡ map (changed change ty) numbers.old }
    ensures in_range { All (InRange (changed_type change ty)) numbers.new }
{
    match change {
        Change::Operator(op) => unary_all(op, ty, numbers),
        Change::Convert(to) => rewrap(ty, to, numbers),
    }
}

/// The window's elements, each changed. They are put into a packing of the type that they have
/// then, in which the first so many are already.
pub(crate) fn changed_elements(
    alloc: Global,
    change: Change,
    a: &Strided<'_>,
    mut made: Packing,
    begun: usize,
) -> Result<Packing, AllocError>
    requires within { begun ≤ length a.now.elems }
    requires begun { let elems = map (changed change a.now.ty) (take begun a.now.elems) in
        made ≡ record { ty = changed_type change a.now.ty; elems = elems } }
    ensures value { IfOk result (λ made. made.elems ≡ map (changed change a.now.ty) a.now.elems) }
    ensures in_range { let ty = changed_type change a.now.ty in
        IfOk result (λ made. All (InRange ty) made.elems) }
    ensures count { IfOk result (λ made. length made.elems ≡ length a.now.elems) }
{
    made.are_in_range();
    let count = elements_of(strided_dims(a)) as usize;
    let mut block = vec![in alloc; 0; (count - begun).min(block_of(a))]?;
    let mut done = begun;
    while done < count {
        block.truncate(count - done);
        strided_read(a, done as u32, &mut block);
        change_block(change, strided_type(a), &mut block);
        made.extend(&block)?;
        done += block.len();
    }
    Ok(made)
}

/// The window's elements, each wrapped to a type, in which those that have the type already are
/// copied run by run. They are put into a packing of the type, which is empty.
pub(crate) fn converted_elements(
    alloc: Global,
    ty: Ty,
    a: &Strided<'_>,
    mut made: Packing,
) -> Result<Packing, AllocError>
    requires { made ≡ record { ty = ty; elems = [] } }
    ensures value { IfOk result (λ made. made.elems ≡ map (wrapped ty) a.now.elems) }
    ensures in_range { IfOk result (λ made. All (InRange ty) made.elems) }
    ensures count { IfOk result (λ made. length made.elems ≡ length a.now.elems) }
{
    wrapping_laws();
    strided_is_in_range(a);
    let mut begun = 0;
    if strided_type(a) == ty {
        begun = copy_runs(a, &mut made)?;
    }
    changed_elements(alloc, Change::Convert(ty), a, made, begun)
}
