//! Copying: the elements of an array are put at the positions of another one in its root.
ghost use Rattle.std.specs.Prelude.{◌≡◌, ◌+◌};
ghost use Rattle.pdl_shape.specs.Shape.{size_of};
ghost use Rattle.pdl_nodes.specs.Copies.{CanCopy, shown_at};
ghost use Rattle.pdl_nodes.specs.Put.{IsWrite};
ghost use Rattle.pdl_nodes.specs.Rows.{row_at};
ghost use Rattle.pdl_push.specs.Targets.{IsAssigned, WaitsTarget};

use pdl_buf::Steps;
use pdl_nodes::{Table, row_laws};
use std::sync::ledger::Ledger;

/// Puts the elements of a fresh array at the positions of another one, whose base is its root. Both
/// have the same type and dimensions, and different roots. It takes a step for each, and no memory.
pub fn copy<L: Ledger>(table: &mut Table, id: u64, source: u64, steps: &mut Steps<L>)
    requires copy { CanCopy table.old id source }
    requires over_root { (row_at table.old id).base ≡ (row_at table.old id).root }
    ensures write { IsWrite table.old id 0 (shown_at table.old source) }
    ensures assigned { IsAssigned table.old id 0 (shown_at table.old source) table.new }
    ensures waits { WaitsTarget table.old id table.new }
    ensures counted { steps.new ≡ steps.old + size_of (row_at table.old id).triple.dims }
{
    row_laws();
    let at = table.node(id).shown(id);
    table.copy(&at, source, steps);
    let root = at.root;
    table.mark(root, root);
}
