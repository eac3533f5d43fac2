//! The products of two arrays' blocks at each place of a broadcast.
ghost use Rattle.std.specs.Prelude.{◌≡◌, ◌<◌, ◌≤◌, ◌+◌, ◌*◌, ℕ, List, [], ◌∷◌, Some, slice_get, length, IfOk, OnOk};
ghost use Rattle.pdl_shape.specs.Broadcast.{BroadcastsTo};
ghost use Rattle.pdl_shape.specs.Shape.{extent_limit, size_of};
ghost use Rattle.pdl_shape.specs.Stretched.{stretched_position};
ghost use Rattle.pdl_shape.specs.Triple.{whole_triple};
ghost use Rattle.pdl_reduce.specs.Blocks.{IsHeld, Ready, all_products, nth_block};

use crate::collected::Collected;
use crate::matrices::{Sizes, add_product};
use crate::sums::{put_sums, read_wrapped, short_rows};
use pdl_broadcast::BroadcastWalk;
use pdl_buf::{Packing, Strided};
use pdl_elem::Ty;
use pdl_shape::{Dims, elements_of, shape_laws};
use std::alloc::{AllocError, Global};

/// Reads a window's block at a position, in blocks as long as this one, wrapped to a type, where it
/// isn't the one that is held: a block that is stretched over places that follow one another is read
/// once for them.
fn hold_block(ty: Ty, from: &Strided<'_>, position: u32, held: &mut Option<u32>, block: &mut [i64])
    requires within { position * length block.old + length block.old ≤ length from.now.elems }
    requires small { length from.now.elems ≤ extent_limit }
    requires held { IsHeld ty from.now.elems held.old block.old }
    ensures block { block.new ≡ nth_block ty (length block.old) from.now.elems position }
    ensures held { IsHeld ty from.now.elems held.new block.new }
{
    if *held != Some(position) {
        read_wrapped(ty, from, position * block.len() as u32, block);
        *held = Some(position);
    }
}

/// A walk over a broadcast of two arrays of these sizes, in order.
fn walk_over(
    alloc: Global,
    left: &Dims,
    right: &Dims,
    joined: &Dims,
) -> Result<BroadcastWalk, AllocError>
    requires left { BroadcastsTo left.now joined.now }
    requires right { BroadcastsTo right.now joined.now }
    ensures { let triples = whole_triple left.now ∷ whole_triple right.now ∷ [] in
        IfOk result (λ walk. walk ≡ record { dims = joined.now; triples = triples; index = 0 }) }
{
    let mut walk = BroadcastWalk::new(alloc, joined)?;
    walk.add_whole(alloc, left)?;
    walk.add_whole(alloc, right)?;
    Ok(walk)
}

/// The position that an argument of a walk uses, whose elements lie in order.
fn position_at(walk: &BroadcastWalk, argument: usize) -> u32
    requires known { argument < length walk.now.triples }
    requires inside { walk.now.index < size_of walk.now.dims }
    ensures position { (ds : List ℕ) →
        slice_get walk.now.triples argument ≡ Some (whole_triple ds) →
        result ≡ stretched_position ds walk.now.dims walk.now.index }
    ensures within { (ds : List ℕ) → slice_get walk.now.triples argument ≡ Some (whole_triple ds) →
        result < size_of ds }
{
    shape_laws();
    walk.offset(argument)
}

/// Puts the products of two windows' blocks at each place of a broadcast, one after the other,
/// where nothing is put yet. The sizes after the blocks' own ones stretch to the joined ones.
fn put_products(
    alloc: Global,
    ty: Ty,
    sizes: Sizes,
    left: &Strided<'_>,
    right: &Strided<'_>,
    left_sizes: &Dims,
    right_sizes: &Dims,
    joined: &Dims,
    made: &mut Collected,
) -> Result<(), AllocError>
    requires ready { Ready sizes left.now.elems right.now.elems
        left_sizes.now right_sizes.now joined.now }
    requires empty { made.old ≡ record { ty = ty; elems = [] } }
    ensures { let elems = all_products ty sizes left.now.elems right.now.elems
        left_sizes.now right_sizes.now joined.now in
        OnOk result (made.new ≡ record { ty = ty; elems = elems }) }
{
    shape_laws();
    let left_count = sizes.left_depth * sizes.height;
    let right_count = sizes.width * sizes.right_depth;
    let mut room = vec![in alloc; 0; left_count + right_count]?;
    let mut row_room = vec![in alloc; 0; sizes.width]?;
    let mut walk = walk_over(alloc, left_sizes, right_sizes, joined)?;
    let (left_block, right_block) = room.split_at_mut(left_count);
    let row = row_room.as_mut_slice();
    let mut left_held = None;
    let mut right_held = None;
    for _q in 0..elements_of(joined) {
        let first = position_at(&walk, 0);
        let second = position_at(&walk, 1);
        hold_block(ty, left, first, &mut left_held, left_block);
        hold_block(ty, right, second, &mut right_held, right_block);
        add_product(ty, sizes, left_block, right_block, row, made)?;
        walk.next();
    }
    Ok(())
}

/// The products of two windows' blocks at each place of a broadcast, one after the other, with room
/// for so many numbers. The sizes after the blocks' own ones stretch to the joined ones.
pub(crate) fn products(
    alloc: Global,
    ty: Ty,
    sizes: Sizes,
    left: &Strided<'_>,
    right: &Strided<'_>,
    left_sizes: &Dims,
    right_sizes: &Dims,
    joined: &Dims,
    count: usize,
) -> Result<Packing, AllocError>
    requires { Ready sizes left.now.elems right.now.elems
        left_sizes.now right_sizes.now joined.now }
    ensures { let elems = all_products ty sizes left.now.elems right.now.elems
        left_sizes.now right_sizes.now joined.now in
        IfOk result (λ made. made ≡ record { ty = ty; elems = elems }) }
{
    let mut made = Collected::new(alloc, ty, count)?;
    if let Some(turns) = short_rows(sizes, left_sizes, right_sizes, joined) {
        put_sums(
            alloc,
            ty,
            sizes,
            left,
            right,
            left_sizes,
            right_sizes,
            joined,
            turns,
            &mut made,
        )?;
    } else {
        put_products(
            alloc,
            ty,
            sizes,
            left,
            right,
            left_sizes,
            right_sizes,
            joined,
            &mut made,
        )?;
    }
    made.packed()
}
