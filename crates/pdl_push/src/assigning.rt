//! Assigning: values that are assigned to an array wait in its base, until they are put into the
//! root (PDL::Dataflow).
ghost use Rattle.std.specs.Prelude.{◌≡◌, ◌≢◌, ◌+◌, length};
ghost use Rattle.pdl_shape.specs.Shape.{size_of};
ghost use Rattle.pdl_nodes.specs.Put.{IsWrite};
ghost use Rattle.pdl_nodes.specs.Row.{shown_of};
ghost use Rattle.pdl_nodes.specs.Rows.{row_at};
ghost use Rattle.pdl_nodes.specs.Updates.{CanUpdate, updated_at};
ghost use Rattle.pdl_push.specs.Targets.{IsAssigned, WaitsTarget, target};

use pdl_buf::{Buf, Steps};
use pdl_nodes::{Goal, Shown, Table, row_laws};
use pdl_numbers::Update;
use std::sync::ledger::Ledger;

/// Assigns values to a fresh array at its root, of whose family nothing waits. It takes a step for
/// each value.
fn assign_at_root<L: Ledger>(
    table: &mut Table,
    at: &Shown,
    first: u32,
    values: &[i64],
    steps: &mut Steps<L>,
)
    requires write { IsWrite table.old at.now.id first values.now }
    requires shown { at.now ≡ shown_of at.now.id (row_at table.old at.now.id) }
    requires target { target table.old at.now.id ≡ at.now.root }
    ensures assigned { IsAssigned table.old at.now.id first values.now table.new }
    ensures waits { WaitsTarget table.old at.now.id table.new }
    ensures counted { steps.new ≡ steps.old + length values.now }
{
    row_laws();
    table.put(at, Goal::Root, first, values, steps);
    table.mark(at.root, at.root);
}

/// Assigns values to a fresh array in its base, a view without repeats, where they wait. It takes a
/// step for each value.
fn assign_at_base<L: Ledger>(
    table: &mut Table,
    at: &Shown,
    first: u32,
    values: &[i64],
    steps: &mut Steps<L>,
)
    requires write { IsWrite table.old at.now.id first values.now }
    requires shown { at.now ≡ shown_of at.now.id (row_at table.old at.now.id) }
    requires target { target table.old at.now.id ≡ at.now.base }
    requires view { at.now.base ≢ at.now.root }
    ensures assigned { IsAssigned table.old at.now.id first values.now table.new }
    ensures waits { WaitsTarget table.old at.now.id table.new }
    ensures counted { steps.new ≡ steps.old + length values.now }
{
    row_laws();
    table.put(at, Goal::Base, first, values, steps);
    if table.node(at.root).waiting().is_none() {
        table.mark(at.root, at.base);
        table.set_waiting(at.root, Some(at.base));
    }
}

/// Assigns values to a fresh array by where its elements stand. They wait in its base, where that
/// is a view without repeats, and are put into the root otherwise. It takes a step for each value.
fn assign_at_target<L: Ledger>(
    table: &mut Table,
    at: &Shown,
    first: u32,
    values: &[i64],
    steps: &mut Steps<L>,
)
    requires write { IsWrite table.old at.now.id first values.now }
    requires shown { at.now ≡ shown_of at.now.id (row_at table.old at.now.id) }
    ensures assigned { IsAssigned table.old at.now.id first values.now table.new }
    ensures waits { WaitsTarget table.old at.now.id table.new }
    ensures counted { steps.new ≡ steps.old + length values.now }
{
    row_laws();
    if at.base == at.root {
        assign_at_root(table, at, first, values, steps)
    } else if table.node(at.base).repeats() {
        assign_at_root(table, at, first, values, steps)
    } else {
        assign_at_base(table, at, first, values, steps)
    }
}

/// Assigns values to the positions of a fresh array from one on: to a root by one look-up, and to a
/// view at its target. It takes a step for each value, and no memory.
pub fn assign<L: Ledger>(
    table: &mut Table,
    id: u64,
    first: u32,
    values: &[i64],
    steps: &mut Steps<L>,
)
    requires { IsWrite table.old id first values.now }
    ensures assigned { IsAssigned table.old id first values.now table.new }
    ensures waits { WaitsTarget table.old id table.new }
    ensures counted { steps.new ≡ steps.old + length values.now }
{
    row_laws();
    match table.put_root(id, first, values, steps) {
        Some(at) => assign_at_target(table, &at, first, values, steps),
        None => {}
    }
}

/// Assigns to a fresh root these elements, one for each of its positions, which it keeps in the
/// place of its own. No element is moved, and it takes no memory.
pub fn replace(table: &mut Table, id: u64, kept: Buf)
    requires write { IsWrite table.old id 0 kept.elems }
    requires root { (row_at table.old id).root ≡ id }
    requires count { length kept.elems ≡ size_of (row_at table.old id).triple.dims }
    requires same_type { kept.ty ≡ (row_at table.old id).ty }
    ensures assigned { IsAssigned table.old id 0 kept.elems table.new }
    ensures waits { WaitsTarget table.old id table.new }
{
    row_laws();
    table.replace(id, kept)
}

/// Each element of a fresh array whose base is its root, and that shows no place twice, becomes an
/// operator's value on it and one number, where it stands. It takes a step for each, and no memory.
pub fn update<L: Ledger>(table: &mut Table, id: u64, change: Update, steps: &mut Steps<L>)
    requires update { CanUpdate change table.old id }
    requires over_root { (row_at table.old id).base ≡ (row_at table.old id).root }
    ensures write { IsWrite table.old id 0 (updated_at change table.old id) }
    ensures assigned { IsAssigned table.old id 0 (updated_at change table.old id) table.new }
    ensures waits { WaitsTarget table.old id table.new }
    ensures counted { steps.new ≡ steps.old + size_of (row_at table.old id).triple.dims }
{
    row_laws();
    let at = table.node(id).shown(id);
    table.update(&at, change, steps);
    let root = at.root;
    table.mark(root, root);
}
