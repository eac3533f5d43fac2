//! Making arrays fresh, after what waits in their family was written back.
ghost use Rattle.std.specs.Prelude.{◌≡◌, ◌+◌, ◌≤◌, true, None, OnOk};
ghost use Rattle.pdl_nodes.specs.Families.{InOrder};
ghost use Rattle.pdl_nodes.specs.Known.{AreKnown};
ghost use Rattle.pdl_push.specs.Settled.{OthersWait};
ghost use Rattle.pdl_nodes.specs.Outcomes.{IsReady, PathIsFresh, waiting_of, waiting_size};
ghost use Rattle.pdl_pull.specs.Outdated.{outdated};
ghost use Rattle.pdl_nodes.specs.Rows.{has};

use pdl_buf::Steps;
use pdl_nodes::{Table, row_laws};
use pdl_pull::refresh;
use pdl_push::settle;
use std::alloc::{AllocError, Global};
use std::sync::ledger::Ledger;

/// Makes an array and each array on its path to the root fresh, after what waits in the family was
/// written back. Out of memory, it leaves what was fresh.
pub fn ready<L: Ledger>(
    table: &mut Table,
    alloc: Global,
    id: u64,
    steps: &mut Steps<L>,
) -> Result<(), AllocError>
    requires order { InOrder table.old }
    requires known { AreKnown table.old }
    requires live { has table.old id ≡ true }
    ensures ready { IsReady table.old table.new }
    ensures fresh { OnOk result (PathIsFresh table.new id) }
    ensures settled { waiting_of table.new id ≡ None }
    ensures others { OthersWait table.old id table.new }
    ensures counted { steps.new ≤ steps.old
        + (outdated table.old id + waiting_size table.old (waiting_of table.old id)) }
{
    row_laws();
    settle(table, id, steps);
    refresh(table, alloc, id, steps)
}
