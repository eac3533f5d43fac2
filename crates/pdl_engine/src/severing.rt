//! Cutting arrays from their parents, and giving them other dimensions (PDL::Core, sever and
//! reshape).
ghost use Rattle.std.specs.Prelude.{◌≡◌, ◌≢◌, ℕ, ◌+◌, ◌≤◌, ◌++◌, pos, true, false, length, take, drop, replicate, All, IfOk, IfErr, OnOk, OnErr, is_ok};
ghost use Rattle.pdl_elem.specs.Types.{InRange};
ghost use Rattle.pdl_shape.specs.Shape.{size_of};
ghost use Rattle.pdl_world.specs.Cut.{breaks, fitted, reshape, sever};
ghost use Rattle.pdl_world.specs.Sound.{IsSound};
ghost use Rattle.pdl_world.specs.World.{elements};
ghost use Rattle.pdl_nodes.specs.Alike.{is_fresh_in};
ghost use Rattle.pdl_nodes.specs.Families.{InOrder};
ghost use Rattle.pdl_nodes.specs.Known.{AreKnown};
ghost use Rattle.pdl_nodes.specs.Outcomes.{waiting_of, waiting_size};
ghost use Rattle.pdl_pull.specs.Outdated.{outdated};
ghost use Rattle.pdl_nodes.specs.Row.{parent_of};
ghost use Rattle.pdl_nodes.specs.Rows.{has, row_at};
ghost use Rattle.pdl_nodes.specs.Sized.{AreSized};
ghost use Rattle.pdl_nodes.specs.declared.relaid.RelayFault.TheVariants.{Breaks};
ghost use Rattle.pdl_nodes.specs.Renewed.{AreRelaid};
ghost use Rattle.pdl_nodes.specs.Worlds.{world_of};
ghost use Rattle.pdl_engine.specs.Loose.{listed_with};
ghost use Rattle.pdl_engine.specs.Severed.{BasesAreFresh, ChangesRows, RowsAreSettled, RowsStayFresh};

use crate::BLOCK;
use pdl_buf::{
    Buf, Elements, Packing, Steps, Strided, buf_of_elements, strided, strided_dims, strided_read,
    strided_type,
};
use pdl_nodes::{Holds, Relaid, RelayFault as ReshapeFault, Table, renewed_row_laws, row_laws};
use pdl_pull::refresh;
use pdl_push::settle;
use pdl_shape::{Dims, copy_dims, dims_list, elements_of, shape_laws};
use std::alloc::{AllocError, Global};
use std::sync::ledger::Ledger;

/// Packs the elements that are shown from one on, as many as the block is long.
fn pack_block(
    window: &Strided<'_>,
    first: u32,
    block: &mut [i64],
    packing: &mut Packing,
) -> Result<(), AllocError>
    requires same_type { packing.old.ty ≡ window.now.ty }
    requires within { first + length block.old ≤ length window.now.elems }
    ensures length { length block.new ≡ length block.old }
    ensures same_type { OnOk result (packing.new.ty ≡ packing.old.ty) }
    ensures ok { OnOk result (packing.new.elems
        ≡ packing.old.elems ++ take (length block.old) (drop first window.now.elems)) }
{
    strided_read(window, first, block);
    packing.extend(block)
}

/// Packs the first elements that are shown, block by block.
fn pack_shown(window: &Strided<'_>, count: u32, packing: &mut Packing) -> Result<(), AllocError>
    requires same_type { packing.old.ty ≡ window.now.ty }
    requires within { count ≤ length window.now.elems }
    ensures same_type { OnOk result (packing.new.ty ≡ packing.old.ty) }
    ensures ok { OnOk result (packing.new.elems
        ≡ packing.old.elems ++ take count window.now.elems) }
{
    let all = count as usize;
    let mut block = [0; BLOCK];
    let mut done = 0;
    while done < all {
        let size = (all - done).min(BLOCK);
        pack_block(window, done as u32, &mut block[..size], packing)?;
        done += size;
    }
    Ok(())
}

/// Packs so many zeros, block by block.
fn pack_zeros(alloc: Global, count: u32, packing: &mut Packing) -> Result<(), AllocError>
    ensures same_type { OnOk result (packing.new.ty ≡ packing.old.ty) }
    ensures ok { OnOk result (packing.new.elems
        ≡ packing.old.elems ++ replicate count (pos 0)) }
{
    let all = count as usize;
    let zeros = vec![in alloc; 0; all.min(BLOCK)]?;
    let mut done = 0;
    while done < all {
        let size = (all - done).min(BLOCK);
        packing.extend(&zeros[..size])?;
        done += size;
    }
    Ok(())
}

/// The first elements that are shown, with zeros after them where there are fewer than `count`, in
/// the width of their type.
fn first_shown(alloc: Global, window: &Strided<'_>, count: u32) -> Result<Elements, AllocError>
    ensures items { IfOk result (λ ns. ns ≡ fitted count window.now.elems) }
    ensures in_range { IfOk result (λ ns. All (InRange window.now.ty) ns) }
{
    let shown = elements_of(strided_dims(window)).min(count);
    let mut packing = Packing::new(alloc, strided_type(window), count as usize)?;
    pack_shown(window, shown, &mut packing)?;
    pack_zeros(alloc, count - shown, &mut packing)?;
    packing.are_in_range();
    Ok(Elements::packed(packing))
}

/// Lists the parent of an array, if it has one that isn't held and has no other view: it may be
/// loose once the array is cut from it.
fn list_parent(
    table: &Table,
    holds: &Holds,
    loose: &mut Vec<u64>,
    id: u64,
) -> Result<(), AllocError>
    requires live { has table.now id ≡ true }
    ensures listed { let parent = parent_of (row_at table.now id) in
        OnOk result (loose.new.items ≡ listed_with table.now holds.now loose.old.items parent) }
    ensures unlisted { OnErr result (loose.new.items ≡ loose.old.items) }
{
    match table.node(id).parent() {
        Some(parent) => {
            if holds.is_held(parent) {
                return Ok(());
            }
            if table.children(parent) > 1 {
                return Ok(());
            }
            loose.push(parent)?;
            Ok(())
        }
        None => Ok(()),
    }
}

/// A buffer of the first elements of a fresh array, with zeros after them where there are fewer
/// than `count`. It takes a step for each that isn't 0.
fn first_copied<L: Ledger>(
    table: &Table,
    alloc: Global,
    id: u64,
    count: u32,
    steps: &mut Steps<L>,
) -> Result<Buf, AllocError>
    requires order { InOrder table.now }
    requires live { has table.now id ≡ true }
    requires fresh { is_fresh_in table.now id ≡ true }
    ensures value { IfOk result (λ b. b ≡ record {
      ty = (row_at table.now id).ty;
      elems = fitted count (elements (world_of table.now) id);
    }) }
    ensures counted { steps.new ≤ steps.old + count }
{
    row_laws();
    shape_laws();
    let node = table.node(id);
    let base = table.node(node.base());
    let elements = first_shown(alloc, &strided(base.kept(), node.triple()), count)?;
    buf_of_elements(alloc, node.ty(), elements, steps)
}

/// The same buffer. The parent is listed behind it, so that it is only where the array will be cut.
fn copied_and_listed<L: Ledger>(
    table: &Table,
    holds: &Holds,
    loose: &mut Vec<u64>,
    alloc: Global,
    id: u64,
    count: u32,
    steps: &mut Steps<L>,
) -> Result<Buf, AllocError>
    requires order { InOrder table.now }
    requires live { has table.now id ≡ true }
    requires fresh { is_fresh_in table.now id ≡ true }
    ensures value { IfOk result (λ b. b ≡ record {
      ty = (row_at table.now id).ty;
      elems = fitted count (elements (world_of table.now) id);
    }) }
    ensures counted { steps.new ≤ steps.old + count }
    ensures listed { let parent = parent_of (row_at table.now id) in
        OnOk result (loose.new.items ≡ listed_with table.now holds.now loose.old.items parent) }
    ensures unlisted { OnErr result (loose.new.items ≡ loose.old.items) }
{
    let kept = first_copied(table, alloc, id, count, steps)?;
    list_parent(table, holds, loose, id)?;
    Ok(kept)
}

/// Cuts an array from its parent, which is listed: it becomes a root with its elements, and its own
/// views stay with it, of which those are fresh whose base it is. On a root it does nothing. Out of
/// memory, it leaves the world as it was, and what could be lent. It takes the steps that make the
/// array fresh, and one for each of its elements that isn't 0.
pub fn sever<L: Ledger>(
    table: &mut Table,
    holds: &Holds,
    loose: &mut Vec<u64>,
    alloc: Global,
    id: u64,
    steps: &mut Steps<L>,
) -> Result<(), AllocError>
    requires order { InOrder table.old }
    requires known { AreKnown table.old }
    requires sized { AreSized table.old }
    requires live { has table.old id ≡ true }
    ensures root { (row_at table.old id).root ≡ id → table.new ≡ table.old }
    ensures spent { (row_at table.old id).root ≡ id → steps.new ≡ steps.old }
    ensures done { (row_at table.old id).root ≡ id → is_ok result ≡ true }
    ensures severed { ChangesRows table.old id table.new }
    ensures settled { (row_at table.old id).root ≢ id → RowsAreSettled table.old id table.new }
    ensures ok { OnOk result (world_of table.new ≡ sever (world_of table.old) id) }
    ensures err { OnErr result (world_of table.new ≡ world_of table.old) }
    ensures stay { OnErr result (RowsStayFresh table.old table.new) }
    ensures fresh { OnOk result
        ((row_at table.old id).root ≢ id → is_fresh_in table.new id ≡ true) }
    ensures outdated { OnOk result
        ((row_at table.old id).root ≢ id → BasesAreFresh id table.new) }
    ensures counted { steps.new ≤ steps.old
        + (outdated table.old id + waiting_size table.old (waiting_of table.old id)
        + size_of (row_at table.old id).triple.dims) }
    ensures listed { let parent = parent_of (row_at table.old id) in
        OnOk result (loose.new.items ≡ listed_with table.old holds.now loose.old.items parent) }
    ensures unlisted { OnErr result (loose.new.items ≡ loose.old.items) }
{
    row_laws();
    renewed_row_laws();
    if table.node(id).root() == id {
        return Ok(());
    }
    settle(table, id, steps);
    refresh(table, alloc, id, steps)?;
    let below = table.below(alloc, id)?;
    let dims = copy_dims(&table.node(id).triple().dims);
    let count = elements_of(&dims);
    let kept = copied_and_listed(table, holds, loose, alloc, id, count, steps)?;
    table.renew(alloc, id, &dims, kept, Relaid::new(alloc), &below);
    Ok(())
}

/// Gives an array other dimensions, for which all layouts below it were made anew: it becomes a
/// root with its first elements, in order, and zeros after them where there are fewer. Its parent
/// is listed. Out of memory, it leaves the world as it was, and what could be lent. It takes the
/// steps that make the array fresh, and one for each of its new elements that isn't 0.
fn reshape_relaid<L: Ledger>(
    table: &mut Table,
    holds: &Holds,
    loose: &mut Vec<u64>,
    alloc: Global,
    id: u64,
    dims: &Dims,
    layouts: Relaid,
    steps: &mut Steps<L>,
) -> Result<(), AllocError>
    requires order { InOrder table.old }
    requires known { AreKnown table.old }
    requires sized { AreSized table.old }
    requires live { has table.old id ≡ true }
    requires relaid { AreRelaid layouts table.old id dims.now }
    ensures reshaped { ChangesRows table.old id table.new }
    ensures settled { RowsAreSettled table.old id table.new }
    ensures ok { OnOk result (world_of table.new ≡ reshape (world_of table.old) id dims.now) }
    ensures err { OnErr result (world_of table.new ≡ world_of table.old) }
    ensures stay { OnErr result (RowsStayFresh table.old table.new) }
    ensures fresh { OnOk result (is_fresh_in table.new id ≡ true) }
    ensures outdated { OnOk result (BasesAreFresh id table.new) }
    ensures counted { steps.new ≤ steps.old
        + (outdated table.old id + waiting_size table.old (waiting_of table.old id)
        + size_of dims.now) }
    ensures listed { let parent = parent_of (row_at table.old id) in
        OnOk result (loose.new.items ≡ listed_with table.old holds.now loose.old.items parent) }
    ensures unlisted { OnErr result (loose.new.items ≡ loose.old.items) }
{
    row_laws();
    renewed_row_laws();
    // the limits of dimensions are known where they are listed
    let _limits = dims_list(dims);
    let count = elements_of(dims);
    settle(table, id, steps);
    refresh(table, alloc, id, steps)?;
    let below = table.below(alloc, id)?;
    let kept = copied_and_listed(table, holds, loose, alloc, id, count, steps)?;
    table.renew(alloc, id, dims, kept, layouts, &below);
    Ok(())
}

/// Gives an array other dimensions. `Breaks` comes only where the formula of a view that reaches it
/// by parents refuses, and there it never succeeds. It changes nothing: all layouts are made before
/// the first change.
pub fn reshape<L: Ledger>(
    table: &mut Table,
    holds: &Holds,
    loose: &mut Vec<u64>,
    alloc: Global,
    id: u64,
    dims: &Dims,
    steps: &mut Steps<L>,
) -> Result<(), ReshapeFault>
    requires order { InOrder table.old }
    requires known { AreKnown table.old }
    requires sized { AreSized table.old }
    requires sound { IsSound (world_of table.old) }
    requires live { has table.old id ≡ true }
    ensures reshaped { ChangesRows table.old id table.new }
    ensures settled { OnOk result (RowsAreSettled table.old id table.new) }
    ensures ok { OnOk result (world_of table.new ≡ reshape (world_of table.old) id dims.now) }
    ensures allowed { OnOk result (breaks (world_of table.old) id dims.now ≡ false) }
    ensures broken { IfErr result
        (λ fault. fault ≡ Breaks → breaks (world_of table.old) id dims.now ≡ true) }
    ensures unchanged { IfErr result
        (λ fault. fault ≡ Breaks → (table.new ≡ table.old) × (steps.new ≡ steps.old)) }
    ensures err { OnErr result (world_of table.new ≡ world_of table.old) }
    ensures stay { OnErr result (RowsStayFresh table.old table.new) }
    ensures fresh { OnOk result (is_fresh_in table.new id ≡ true) }
    ensures outdated { OnOk result (BasesAreFresh id table.new) }
    ensures counted { steps.new ≤ steps.old
        + (outdated table.old id + waiting_size table.old (waiting_of table.old id)
        + size_of dims.now) }
    ensures listed { let parent = parent_of (row_at table.old id) in
        OnOk result (loose.new.items ≡ listed_with table.old holds.now loose.old.items parent) }
    ensures unlisted { OnErr result (loose.new.items ≡ loose.old.items) }
{
    row_laws();
    let layouts = table.relaid(alloc, id, dims)?;
    Ok(reshape_relaid(table, holds, loose, alloc, id, dims, layouts, steps)?)
}
