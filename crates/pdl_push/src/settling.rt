//! Writing back: what waits in a base is put into the root, before an array of the family is read
//! and before the base goes (PDL::Dataflow).
ghost use Rattle.std.specs.Prelude.{◌≡◌, ◌+◌, true, Some, None, ℕ, ◌<◌, ◌∷◌};
ghost use Rattle.pdl_shape.specs.Shape.{size_of};
ghost use Rattle.pdl_world.specs.Swept.{is_listed};
ghost use Rattle.pdl_nodes.specs.Families.{InOrder};
ghost use Rattle.pdl_nodes.specs.Going.{going_at, going_size, going_sum, LeavesWaiting};
ghost use Rattle.pdl_nodes.specs.Holds.{stands};
ghost use Rattle.pdl_nodes.specs.Known.{AreKnown};
ghost use Rattle.pdl_nodes.specs.Outcomes.{IsReady, waiting_of, waiting_size};
ghost use Rattle.pdl_nodes.specs.Released.{KeepsWaiting};
ghost use Rattle.pdl_nodes.specs.Risen.{ComesFrom};
ghost use Rattle.pdl_nodes.specs.Rows.{each, has, row_at};
ghost use Rattle.pdl_nodes.specs.Sized.{AreSized};
ghost use Rattle.pdl_nodes.specs.Worlds.{IsRoot, latest};
ghost use Rattle.pdl_push.specs.Late.{settle};
ghost use Rattle.pdl_push.specs.Settled.{IsSettledAt, IsSettled};

use pdl_buf::Steps;
use pdl_nodes::{Holds, Table, row_laws};
use std::sync::ledger::Ledger;

/// Writes the elements that wait in the family of a root back into it. It takes a step for each.
pub fn write_back<L: Ledger>(table: &mut Table, root: u64, id: u64, steps: &mut Steps<L>)
    requires order { InOrder table.old }
    requires known { AreKnown table.old }
    requires root { IsRoot table.old root }
    requires waits { (row_at table.old root).waiting ≡ Some id }
    ensures settled { table.new ≡ each (settle root (latest table.old root) id true) table.old }
    ensures counted { steps.new ≡ steps.old + size_of (row_at table.old id).triple.dims }
{
    row_laws();
    table.put_back(root, id, steps);
    table.mark_root(root);
    table.set_waiting(root, None);
}

/// Writes back what waits in the family of an array. It takes a step for each element that waits.
pub fn settle<L: Ledger>(table: &mut Table, id: u64, steps: &mut Steps<L>)
    requires order { InOrder table.old }
    requires known { AreKnown table.old }
    requires live { has table.old id ≡ true }
    ensures settled { IsSettled table.old id table.new }
    ensures counted { steps.new ≡ steps.old + waiting_size table.old (waiting_of table.old id) }
{
    row_laws();
    let root = table.node(id).root();
    match table.node(root).waiting() {
        Some(waiting) => write_back(table, root, waiting, steps),
        None => {}
    }
}

/// The view that waits in the family of a root and has no holds, where the root has.
fn going(table: &Table, holds: &Holds, root: u64) -> Option<u64>
    requires live { IsRoot table.now root }
    ensures { result ≡ going_at table.now (stands holds.now) root }
{
    let view = table.node(root).waiting()?;
    if !holds.has(root) {
        return None;
    }
    if holds.has(view) { None } else { Some(view) }
}

/// Writes back what waits in the family of an array and has no holds, where the root has. It takes
/// a step for each element.
fn settle_going<L: Ledger>(table: &mut Table, holds: &Holds, id: u64, steps: &mut Steps<L>)
    requires order { InOrder table.old }
    requires known { AreKnown table.old }
    requires live { has table.old id ≡ true }
    ensures settled { IsSettledAt (stands holds.now) table.old table.new
        (row_at table.old id).root }
    ensures counted { steps.new ≡ steps.old
        + going_size table.old (stands holds.now) (row_at table.old id).root }
{
    row_laws();
    let root = table.node(id).root();
    match going(table, holds, root) {
        Some(view) => write_back(table, root, view, steps),
        None => {}
    }
}

/// Writes back all that waits in views that have no holds while their roots have. It takes a step
/// for each element.
pub fn settle_all<L: Ledger>(
    table: &mut Table,
    holds: &Holds,
    loose: &[u64],
    id: u64,
    steps: &mut Steps<L>,
)
    requires order { InOrder table.old }
    requires known { AreKnown table.old }
    requires live { (v : ℕ) → is_listed (id ∷ loose.now) v ≡ true → has table.old v ≡ true }
    requires from { ComesFrom (id ∷ loose.now) table.old holds.now }
    ensures kept { IsReady table.old table.new }
    ensures sized { AreSized table.old → AreSized table.new }
    ensures waits { KeepsWaiting (stands holds.now) table.new }
    ensures left { LeavesWaiting (stands holds.now) table.old table.new }
    ensures counted { steps.new ≡ steps.old + going_sum table.old (stands holds.now) table.old }
{
    row_laws();
    for start in loose.iter() {
        settle_going(table, holds, *start, steps);
    }
    settle_going(table, holds, id, steps);
}
