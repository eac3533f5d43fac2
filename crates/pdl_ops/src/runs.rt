//! Windows whose elements are neighbours in their buffers: an operator's values and copies, run by
//! run, from where they stand.
ghost use Rattle.std.specs.Prelude.{◌≡◌, ◌<◌, ◌≤◌, ◌+◌, ◌++◌, [], false, length, take, drop, Ok, IsTrue, IfOk, OnOk};
ghost use Rattle.pdl_elem.specs.Blocks.{pairwise};
ghost use Rattle.pdl_elem.specs.Operators.{divides, value_of};
ghost use Rattle.pdl_elem.specs.Types.{binary_result};
ghost use Rattle.pdl_ops.specs.Elementwise.{operands_from, values_of};

use crate::in_parts::divides;
use crate::operands::BLOCK;
use pdl_buf::{Packing, Strided, strided_dims, strided_is_in_range, strided_run, strided_type};
use pdl_elem::{BinaryOp, Ty, binary_type, wrapping_laws};
use pdl_shape::elements_of;
use std::alloc::AllocError;

/// Shorter runs than this take as long as blocks, which go on through several rows.
const LONG: usize = 48;

/// Whether an operator's values are worth putting run by run: it works at the type that both
/// windows and its values have, it doesn't divide, and the first run of each window is long or
/// the whole of it.
fn goes_by_runs(op: BinaryOp, ty: Ty, a: &Strided<'_>, b: &Strided<'_>) -> bool
    requires a_some { 0 < length a.now.elems }
    requires b_some { 0 < length b.now.elems }
    ensures undivided { IsTrue result → divides op ≡ false }
    ensures left_type { IsTrue result → a.now.ty ≡ ty }
    ensures right_type { IsTrue result → b.now.ty ≡ ty }
    ensures result_type { IsTrue result → binary_result op ty ty ≡ ty }
{
    let long = LONG.min(elements_of(strided_dims(b)) as usize);
    !divides(op)
        && strided_type(a) == ty
        && strided_type(b) == ty
        && binary_type(op, ty, ty) == ty
        && strided_run(a, 0).len() >= long
        && strided_run(b, 0).len() >= long
}

/// Puts an operator's values on the next elements of two windows from a position on, as many as are
/// neighbours in both buffers, but at most a block of them, so that the room for them stays in the
/// cache. The windows have the type of what is made. It answers how many it put.
fn put_run(
    op: BinaryOp,
    a: &Strided<'_>,
    b: &Strided<'_>,
    first: u32,
    made: &mut Packing,
) -> Result<usize, AllocError>
    requires left_within { first < length a.now.elems }
    requires right_within { first < length b.now.elems }
    requires left_type { a.now.ty ≡ made.old.ty }
    requires right_type { b.now.ty ≡ made.old.ty }
    requires undivided { divides op ≡ false }
    ensures within { IfOk result (λ size. first + size ≤ length b.now.elems) }
    ensures made { IfOk result (λ size.
        let xs = take size (drop first a.now.elems) in
        let ys = take size (drop first b.now.elems) in
        let values = pairwise (value_of op made.old.ty) xs ys in
        made.new ≡ record made.old { elems = made.old.elems ++ values }) }
{
    let left = strided_run(a, first);
    let right = strided_run(b, first);
    let size = left.len().min(right.len()).min(BLOCK);
    made.extend_values_of(op, &left.first(size), &right.first(size))?;
    Ok(size)
}

/// Puts an operator's values on the first elements of two windows into an empty packing of the type
/// that all have, run by run, up to where some run is empty. It answers how many it put.
fn put_runs(
    op: BinaryOp,
    a: &Strided<'_>,
    b: &Strided<'_>,
    made: &mut Packing,
) -> Result<usize, AllocError>
    requires paired { length a.now.elems ≡ length b.now.elems }
    requires left_type { a.now.ty ≡ made.old.ty }
    requires right_type { b.now.ty ≡ made.old.ty }
    requires undivided { divides op ≡ false }
    requires empty { made.old.elems ≡ [] }
    ensures within { IfOk result (λ done. done ≤ length b.now.elems) }
    ensures made { IfOk result (λ done.
        let xs = take done a.now.elems in
        let ys = take done b.now.elems in
        made.new ≡ record made.old { elems = pairwise (value_of op made.old.ty) xs ys }) }
{
    let count = elements_of(strided_dims(b)) as usize;
    let mut done = 0;
    while done < count {
        let size = put_run(op, a, b, done as u32, made)?;
        done += size;
        if size == 0 {
            return Ok(done);
        }
    }
    Ok(done)
}

/// Puts an operator's values at the type on the first elements of two windows, each wrapped to the
/// type, into an empty packing of the type that they have, where they are worth putting run by run.
/// It answers how many it put.
pub(crate) fn begin_values(
    op: BinaryOp,
    ty: Ty,
    a: &Strided<'_>,
    b: &Strided<'_>,
    made: &mut Packing,
) -> Result<usize, AllocError>
    requires some { 0 < length b.now.elems }
    requires paired { length a.now.elems ≡ length b.now.elems }
    requires empty { made.old ≡ record { ty = binary_result op ty ty; elems = [] } }
    ensures within { IfOk result (λ done. done ≤ length b.now.elems) }
    ensures typed { OnOk result (made.new.ty ≡ made.old.ty) }
    ensures values { IfOk result (λ done.
        let xs = operands_from ty 0 done a.now.elems in
        let ys = operands_from ty 0 done b.now.elems in
        values_of op ty xs ys ≡ Ok made.new.elems) }
{
    wrapping_laws();
    strided_is_in_range(a);
    strided_is_in_range(b);
    if goes_by_runs(op, ty, a, b) {
        put_runs(op, a, b, made)
    } else {
        Ok(0)
    }
}

/// Puts a window's first elements into an empty packing of their type, copied run by run in their
/// own width, up to where a run is short and not the whole window. It answers how many it put.
pub(crate) fn copy_runs(a: &Strided<'_>, made: &mut Packing) -> Result<usize, AllocError>
    requires { made.old ≡ record { ty = a.now.ty; elems = [] } }
    ensures within { IfOk result (λ done. done ≤ length a.now.elems) }
    ensures made { IfOk result (λ done.
        made.new ≡ record { ty = a.now.ty; elems = take done a.now.elems }) }
{
    let count = elements_of(strided_dims(a)) as usize;
    let mut done = 0;
    while done < count {
        let run = strided_run(a, done as u32);
        if run.len() < LONG.min(count) {
            return Ok(done);
        }
        made.extend_run(&run)?;
        done += run.len();
    }
    Ok(done)
}
