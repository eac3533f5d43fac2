//! Assigning past a base: the elements of one array are put at the positions of a view, whose own
//! elements aren't brought up to date.
ghost use Rattle.std.specs.Prelude.{◌≡◌, ◌+◌, ◌≤◌, true, None, length, take, drop, All, OnOk, OnErr};
ghost use Rattle.pdl_elem.specs.Types.{InRange};
ghost use Rattle.pdl_shape.specs.Shape.{size_of};
ghost use Rattle.pdl_world.specs.Sound.{IsSound};
ghost use Rattle.pdl_world.specs.World.{assign, elements};
ghost use Rattle.pdl_nodes.specs.Alike.{IsAlike, is_fresh_in};
ghost use Rattle.pdl_nodes.specs.Families.{InOrder};
ghost use Rattle.pdl_nodes.specs.Known.{AreKnown};
ghost use Rattle.pdl_nodes.specs.Outcomes.{IsReady, waiting_of, waiting_size};
ghost use Rattle.pdl_nodes.specs.Rows.{has, row_at};
ghost use Rattle.pdl_nodes.specs.Worlds.{places_seen, world_of};
ghost use Rattle.pdl_pull.specs.Outdated.{outdated};
ghost use Rattle.pdl_push.specs.Settled.{OthersWait};
ghost use Rattle.pdl_engine.specs.Through.{CanGoThrough, WentThrough, IsUnmarked, OthersStayMarked};

use crate::BLOCK;
use pdl_buf::{Steps, strided, strided_read};
use pdl_nodes::{Table, row_laws};
use pdl_pull::find;
use pdl_push::settle;
use pdl_shape::{elements_of, shape_laws};
use pdl_world::part_laws;
use std::alloc::{AllocError, Global};
use std::sync::ledger::Ledger;

/// Sets each element of a block to a fresh array's element at a position, from `first` on.
fn read_block(table: &Table, id: u64, first: u32, block: &mut [i64])
    requires order { InOrder table.now }
    requires live { has table.now id ≡ true }
    requires fresh { is_fresh_in table.now id ≡ true }
    requires within { first + length block.old ≤ size_of (row_at table.now id).triple.dims }
    ensures value { let shown = elements (world_of table.now) id in
        block.new ≡ take (length block.old) (drop first shown) }
    ensures in_range { All (InRange (row_at table.now id).ty) block.new }
{
    row_laws();
    shape_laws();
    let node = table.node(id);
    let base = table.node(node.base());
    strided_read(&strided(base.kept(), node.triple()), first, block)
}

/// Puts the elements of a fresh array, block by block, at the places of another, which these are and
/// in whose family nothing waits. It takes a step for each.
fn put_elements<L: Ledger>(
    table: &mut Table,
    id: u64,
    source: u64,
    places: &[Option<u32>],
    steps: &mut Steps<L>,
)
    requires can { CanGoThrough table.old id source }
    requires settled { waiting_of table.old id ≡ None }
    requires places { places.now ≡ places_seen table.old id }
    ensures through { let values = elements (world_of table.old) source in
        WentThrough table.old id values table.new }
    ensures counted { steps.new ≡ steps.old + size_of (row_at table.old id).triple.dims }
{
    row_laws();
    part_laws();
    let all = elements_of(&table.node(id).triple().dims) as usize;
    let mut block = [0; BLOCK];
    let mut done = 0;
    while done < all {
        let size = (all - done).min(BLOCK);
        let first = done as u32;
        read_block(table, source, first, &mut block[..size]);
        pdl_push::assign_through(table, id, places, first, &block[..size], steps);
        done += size;
    }
}

/// Puts the elements of a fresh array at the places of an outdated view, which are found first. What
/// waits in the view's family is written back, and its parent is made fresh. Out of memory, it
/// leaves what was fresh.
pub fn assign_through<L: Ledger>(
    table: &mut Table,
    alloc: Global,
    id: u64,
    source: u64,
    steps: &mut Steps<L>,
) -> Result<(), AllocError>
    requires can { CanGoThrough table.old id source }
    requires unmarked { IsUnmarked table.old id }
    ensures order { InOrder table.new }
    ensures known { AreKnown table.new }
    ensures alike { IsAlike table.old table.new }
    ensures world { let old = world_of table.old in
        OnOk result (world_of table.new ≡ assign old id (elements old source)) }
    ensures sound { IsSound (world_of table.new) }
    ensures ready { OnErr result (IsReady table.old table.new) }
    ensures marks { OthersStayMarked table.old id table.new }
    ensures settled { waiting_of table.new id ≡ None }
    ensures others { OthersWait table.old id table.new }
    ensures counted { steps.new ≤ steps.old
        + (outdated table.old id + waiting_size table.old (waiting_of table.old id)) }
{
    row_laws();
    part_laws();
    settle(table, id, steps);
    let places = find(table, alloc, id, steps)?;
    put_elements(table, id, source, places.as_slice(), steps);
    Ok(())
}
