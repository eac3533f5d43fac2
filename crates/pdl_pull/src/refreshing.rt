//! Making arrays fresh: each outdated view on the path is filled, from the root on.
ghost use Rattle.std.specs.Prelude.{◌≡◌, ◌+◌, ◌≤◌, true, OnOk, None, [], ◌∷◌};
ghost use Rattle.pdl_world.specs.Paths.{path};
ghost use Rattle.pdl_nodes.specs.Alike.{is_fresh_in};
ghost use Rattle.pdl_nodes.specs.Families.{InOrder};
ghost use Rattle.pdl_nodes.specs.Known.{AreKnown};
ghost use Rattle.pdl_nodes.specs.Outcomes.{PathIsFresh, outdated_at};
ghost use Rattle.pdl_nodes.specs.Rows.{has, row_at};
ghost use Rattle.pdl_nodes.specs.Still.{IsStill};
ghost use Rattle.pdl_nodes.specs.Worlds.{shape};
ghost use Rattle.pdl_pull.specs.Filled.{IsKept, ParentIsFresh, FillsOnly};
ghost use Rattle.pdl_pull.specs.Outdated.{outdated};

use crate::filling::fill;
use pdl_buf::{NoMemory, Steps};
use pdl_nodes::{Table, row_laws};
use std::alloc::Global;
use std::sync::ledger::Ledger;

/// Whether an array is fresh: its base is marked, so that it can be lent as it is.
pub fn is_fresh(table: &Table, id: u64) -> bool
    requires still { IsStill table.now }
    requires live { has table.now id ≡ true }
    ensures { result ≡ is_fresh_in table.now id }
{
    row_laws();
    let node = table.node(id);
    table.base_of(id, node).mark()
}

/// Fills an array, if it is outdated, of which the parent is fresh.
fn freshen<L: Ledger>(
    table: &mut Table,
    alloc: Global,
    id: u64,
    steps: &mut Steps<L>,
) -> Result<(), NoMemory>
    requires order { InOrder table.old }
    requires known { AreKnown table.old }
    requires live { has table.old id ≡ true }
    requires settled { (row_at table.old (row_at table.old id).root).waiting ≡ None }
    requires parent { ParentIsFresh table.old id }
    ensures kept { IsKept table.old table.new }
    ensures fresh { OnOk result (is_fresh_in table.new id ≡ true) }
    ensures only { FillsOnly (id ∷ []) table.old table.new }
    ensures counted { steps.new ≤ steps.old + outdated_at table.old id }
{
    row_laws();
    if is_fresh(table, id) {
        return Ok(());
    }
    fill(table, alloc, id, steps)
}

/// Makes an array and each array on its path to the root fresh, from the root on, where nothing
/// waits in the family. Views beside the path stay as they are.
pub fn refresh<L: Ledger>(
    table: &mut Table,
    alloc: Global,
    id: u64,
    steps: &mut Steps<L>,
) -> Result<(), NoMemory>
    requires order { InOrder table.old }
    requires known { AreKnown table.old }
    requires live { has table.old id ≡ true }
    requires settled { (row_at table.old (row_at table.old id).root).waiting ≡ None }
    ensures kept { IsKept table.old table.new }
    ensures fresh { OnOk result (PathIsFresh table.new id) }
    ensures only { FillsOnly (path (shape table.old) id) table.old table.new }
    ensures counted { steps.new ≤ steps.old + outdated table.old id }
{
    row_laws();
    match table.node(id).parent() {
        Some(parent) => {
            refresh(table, alloc, parent, steps)?;
            freshen(table, alloc, id, steps)
        }
        None => freshen(table, alloc, id, steps),
    }
}
