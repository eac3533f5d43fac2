//! Assigning past a base: values that are assigned to a view are put into the root at the view's
//! places, and the view's own elements aren't brought up to date.
ghost use Rattle.std.specs.Prelude.{◌≡◌, ◌+◌, ℕ, length};
ghost use Rattle.pdl_nodes.specs.Rows.{row_at};
ghost use Rattle.pdl_nodes.specs.Worlds.{places_seen};
ghost use Rattle.pdl_push.specs.Targets.{IsAssignedAt, IsWriteThrough};

use pdl_buf::Steps;
use pdl_nodes::{Table, row_laws};
use std::sync::ledger::Ledger;

/// Assigns values to the positions of an array from one on: they are put into its root at its
/// places, which these are. The array needn't be fresh, and nothing waits in its family, of which
/// the root alone is marked then. It takes a step for each value, and no memory.
pub fn assign_through<L: Ledger>(
    table: &mut Table,
    id: u64,
    places: &[Option<u32>],
    first: u32,
    values: &[i64],
    steps: &mut Steps<L>,
)
    requires write { IsWriteThrough table.old id first values.now }
    requires places { places.now ≡ places_seen table.old id }
    ensures assigned { let root = (row_at table.old id).root in
        IsAssignedAt root table.old id first values.now table.new }
    ensures waits { (v : ℕ) → (row_at table.new v).waiting ≡ (row_at table.old v).waiting }
    ensures counted { steps.new ≡ steps.old + length values.now }
{
    row_laws();
    let root = table.node(id).root();
    table.put_listed(root, places, first, values, steps);
    table.mark(root, root);
}
