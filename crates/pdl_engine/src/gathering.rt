//! Reading past a base: the elements of a view are gathered from its root, and the view's own aren't
//! brought up to date.
ghost use Rattle.std.specs.Prelude.{◌≡◌, ◌+◌, ◌≤◌, true, None, IfOk};
ghost use Rattle.pdl_shape.specs.Shape.{size_of};
ghost use Rattle.pdl_world.specs.World.{elements};
ghost use Rattle.pdl_nodes.specs.Families.{InOrder};
ghost use Rattle.pdl_nodes.specs.Known.{AreKnown};
ghost use Rattle.pdl_nodes.specs.Outcomes.{IsReady, waiting_of, waiting_size};
ghost use Rattle.pdl_nodes.specs.Rows.{has, row_at};
ghost use Rattle.pdl_nodes.specs.Worlds.{places_seen, world_of};
ghost use Rattle.pdl_pull.specs.Outdated.{outdated};
ghost use Rattle.pdl_push.specs.Settled.{OthersWait};
ghost use Rattle.pdl_engine.specs.Through.{IsUnmarked};

use pdl_buf::{Buf, Steps};
use pdl_nodes::{Table, row_laws};
use pdl_pull::find;
use pdl_push::settle;
use std::alloc::{AllocError, Global};
use std::sync::ledger::Ledger;

/// A buffer of an array's elements, read from its root at its places, which these are, where nothing
/// waits in its family. It takes a step for each.
fn read_root<L: Ledger>(
    table: &Table,
    alloc: Global,
    id: u64,
    places: &[Option<u32>],
    steps: &mut Steps<L>,
) -> Result<Buf, AllocError>
    requires order { InOrder table.now }
    requires live { has table.now id ≡ true }
    requires settled { waiting_of table.now id ≡ None }
    requires places { places.now ≡ places_seen table.now id }
    ensures value { IfOk result (λ b. b ≡ record {
      ty = (row_at table.now id).ty;
      elems = elements (world_of table.now) id;
    }) }
    ensures counted { steps.new ≤ steps.old + size_of (row_at table.now id).triple.dims }
{
    row_laws();
    let node = table.node(id);
    let root = table.node(node.root());
    pdl_buf::gathered(alloc, root.kept(), places, steps)
}

/// A buffer of the elements of a view that is its own base and isn't marked, read from its root at its
/// places, which are found first. What waits in the view's family is written back, and each array on
/// its parent's path is made fresh. The view keeps nothing of it.
pub fn gathered<L: Ledger>(
    table: &mut Table,
    alloc: Global,
    id: u64,
    steps: &mut Steps<L>,
) -> Result<Buf, AllocError>
    requires order { InOrder table.old }
    requires known { AreKnown table.old }
    requires live { has table.old id ≡ true }
    requires unmarked { IsUnmarked table.old id }
    ensures value { IfOk result (λ b. b ≡ record {
      ty = (row_at table.old id).ty;
      elems = elements (world_of table.old) id;
    }) }
    ensures ready { IsReady table.old table.new }
    ensures settled { waiting_of table.new id ≡ None }
    ensures others { OthersWait table.old id table.new }
    ensures counted { steps.new ≤ steps.old
        + (outdated table.old id + waiting_size table.old (waiting_of table.old id)) }
{
    row_laws();
    settle(table, id, steps);
    let places = find(table, alloc, id, steps)?;
    read_root(table, alloc, id, places.as_slice(), steps)
}
