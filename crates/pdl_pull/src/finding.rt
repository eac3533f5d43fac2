//! The places of a view whose elements aren't asked for.
ghost use Rattle.std.specs.Prelude.{◌≡◌, ◌≢◌, ◌+◌, ◌≤◌, true, None, IfOk};
ghost use Rattle.pdl_nodes.specs.Families.{InOrder};
ghost use Rattle.pdl_nodes.specs.Known.{AreKnown};
ghost use Rattle.pdl_nodes.specs.Outcomes.{outdated_at};
ghost use Rattle.pdl_nodes.specs.Row.{parent_of};
ghost use Rattle.pdl_nodes.specs.Rows.{has, row_at};
ghost use Rattle.pdl_nodes.specs.Seen.{path_from};
ghost use Rattle.pdl_nodes.specs.Worlds.{places_seen};
ghost use Rattle.pdl_pull.specs.Filled.{FillsOnly, IsKept};
ghost use Rattle.pdl_pull.specs.Outdated.{outdated};

use crate::filling::find_places;
use crate::refreshing::refresh;
use pdl_buf::{NoMemory, Steps};
use pdl_choice::Places;
use pdl_nodes::{Table, row_laws};
use std::alloc::Global;
use std::sync::ledger::Ledger;

/// The root's places of a view that is its own base, after each array on its parent's path was made
/// fresh, where nothing waits in the family. The view isn't filled.
pub fn find<L: Ledger>(
    table: &mut Table,
    alloc: Global,
    id: u64,
    steps: &mut Steps<L>,
) -> Result<Places, NoMemory>
    requires order { InOrder table.old }
    requires known { AreKnown table.old }
    requires live { has table.old id ≡ true }
    requires own { (row_at table.old id).base ≡ id }
    requires view { (row_at table.old id).root ≢ id }
    requires settled { (row_at table.old (row_at table.old id).root).waiting ≡ None }
    ensures kept { IsKept table.old table.new }
    ensures places { IfOk result (λ places. places ≡ places_seen table.new id) }
    ensures only { let above = path_from table.old (parent_of (row_at table.old id)) in
        FillsOnly above table.old table.new }
    ensures counted { steps.new + outdated_at table.old id ≤ steps.old + outdated table.old id }
{
    row_laws();
    let Some(parent) = table.node(id).parent() else {
        unreachable!();
    };
    refresh(table, alloc, parent, steps)?;
    find_places(table, alloc, id)
}
