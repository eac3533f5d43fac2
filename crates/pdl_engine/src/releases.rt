//! Letting go: what waits in views that go is written back, where their roots stay, and then what
//! no held array reaches is removed (PDL::Dataflow). It goes over what goes alone: from the array
//! that was released, and from those that a cut may have left loose, up.
ghost use Rattle.std.specs.Prelude.{◌≡◌, ℕ, ◌+◌, ◌<◌, true, ◌∷◌, []};
ghost use Rattle.pdl_world.specs.Swept.{is_listed};
ghost use Rattle.pdl_nodes.specs.Families.{InOrder};
ghost use Rattle.pdl_nodes.specs.Going.{going_sum};
ghost use Rattle.pdl_nodes.specs.Holds.{is_held, count, Beside};
ghost use Rattle.pdl_nodes.specs.Known.{AreKnown};
ghost use Rattle.pdl_nodes.specs.Risen.{AreTight, IsForgotten, IsLetGo};
ghost use Rattle.pdl_nodes.specs.Rows.{has, reached};
ghost use Rattle.pdl_engine.specs.Loose.{IsTight};
ghost use Rattle.pdl_engine.specs.Taken.{after_release, count_after};

use pdl_buf::Steps;
use pdl_nodes::{Holds, Table, goes_with, let_all, let_parent_up, remove_all, row_laws};
use pdl_push::settle_all;
use std::sync::ledger::Ledger;

/// Lets all go that no held array reaches: from these arrays up. What waits in views that go is
/// written back where their roots stay.
fn let_go<L: Ledger>(
    table: &mut Table,
    holds: &mut Holds,
    loose: &[u64],
    id: u64,
    steps: &mut Steps<L>,
)
    requires order { InOrder table.old }
    requires known { AreKnown table.old }
    requires beside { Beside table.old holds.old }
    requires live { (v : ℕ) → is_listed (id ∷ loose.now) v ≡ true → has table.old v ≡ true }
    requires tight { AreTight (id ∷ loose.now) table.old holds.old }
    ensures gone { IsLetGo table.old (count holds.old) table.new holds.new }
    ensures counted { steps.new ≡ steps.old
        + going_sum table.old (reached table.old (is_held holds.old)) table.old }
{
    row_laws();
    let_all(table, holds, loose, id);
    settle_all(table, holds, loose, id, steps);
    remove_all(table, holds, loose, id);
}

/// Lets a view go that has no views and whose last hold was forgotten, and each array above it that
/// goes then. What waits in views that go is written back where their roots stay.
fn let_view_go<L: Ledger>(table: &mut Table, holds: &mut Holds, id: u64, steps: &mut Steps<L>)
    requires order { InOrder table.old }
    requires known { AreKnown table.old }
    requires forgotten { IsForgotten table.old holds.old id }
    ensures gone { IsLetGo table.old (count holds.old) table.new holds.new }
    ensures counted { steps.new ≡ steps.old
        + going_sum table.old (reached table.old (is_held holds.old)) table.old }
{
    row_laws();
    match goes_with(table, holds, id) {
        Some(parent) => {
            let_parent_up(table, holds, id, parent);
            settle_all(table, holds, &[], id, steps);
            remove_all(table, holds, &[], id);
        }
        None => {
            settle_all(table, holds, &[], id, steps);
            table.remove(id);
        }
    }
}

/// Takes one hold back where no array is loose: then this one can go, and what is above it, and no
/// other.
fn release_one<L: Ledger>(table: &mut Table, holds: &mut Holds, id: u64, steps: &mut Steps<L>)
    requires order { InOrder table.old }
    requires known { AreKnown table.old }
    requires beside { Beside table.old holds.old }
    requires held { 0 < count holds.old id }
    requires tight { AreTight [] table.old holds.old }
    ensures gone { IsLetGo table.old (count_after id holds.old) table.new holds.new }
    ensures counted { steps.new ≡ steps.old
        + going_sum table.old (reached table.old (after_release id holds.old)) table.old }
{
    row_laws();
    if table.has_views(id) {
        holds.take(id);
        return;
    }
    if !holds.take_out(id) {
        return;
    }
    if table.remove_root(id) {
        return;
    }
    let_view_go(table, holds, id, steps)
}

/// Takes one hold back where others may be loose.
fn release_with<L: Ledger>(
    table: &mut Table,
    holds: &mut Holds,
    loose: &[u64],
    id: u64,
    steps: &mut Steps<L>,
)
    requires order { InOrder table.old }
    requires known { AreKnown table.old }
    requires beside { Beside table.old holds.old }
    requires held { 0 < count holds.old id }
    requires tight { IsTight loose.now table.old holds.old }
    ensures gone { IsLetGo table.old (count_after id holds.old) table.new holds.new }
    ensures counted { steps.new ≡ steps.old
        + going_sum table.old (reached table.old (after_release id holds.old)) table.old }
{
    holds.take(id);
    let_go(table, holds, loose, id, steps);
}

/// Takes one hold back. What waits in views that go now is written back where their roots stay, and
/// what no held array reaches by parents is removed. It takes a step for each element that is
/// written back, and no memory. It goes over those alone that go, and those that may be loose.
pub fn release<L: Ledger>(
    table: &mut Table,
    holds: &mut Holds,
    loose: &[u64],
    id: u64,
    steps: &mut Steps<L>,
)
    requires order { InOrder table.old }
    requires known { AreKnown table.old }
    requires beside { Beside table.old holds.old }
    requires held { 0 < count holds.old id }
    requires tight { IsTight loose.now table.old holds.old }
    ensures gone { IsLetGo table.old (count_after id holds.old) table.new holds.new }
    ensures counted { steps.new ≡ steps.old
        + going_sum table.old (reached table.old (after_release id holds.old)) table.old }
{
    if loose.is_empty() {
        release_one(table, holds, id, steps)
    } else {
        release_with(table, holds, loose, id, steps)
    }
}
