//! Filling an outdated view with its elements of the root.
ghost use Rattle.std.specs.Prelude.{◌≡◌, ◌≢◌, ◌+◌, ◌≤◌, true, is_some, IfOk, OnOk, OnErr, [], ◌∷◌};
ghost use Rattle.pdl_shape.specs.Shape.{size_of};
ghost use Rattle.pdl_nodes.specs.Families.{InOrder};
ghost use Rattle.pdl_nodes.specs.Known.{AreKnown};
ghost use Rattle.pdl_nodes.specs.Rows.{has, row_at};
ghost use Rattle.pdl_nodes.specs.Worlds.{places_seen};
ghost use Rattle.pdl_pull.specs.Filled.{IsOutdated, IsFilled, ParentIsFresh, FillsOnly};

use crate::gathering::{has_twice, places_through};
use pdl_buf::{NoMemory, Steps, gathered};
use pdl_choice::Places;
use pdl_nodes::{Origin, Table, row_laws};
use pdl_shape::elements_of;
use std::alloc::Global;
use std::sync::ledger::Ledger;

/// The root's places of a view that is its own base and has a fresh parent.
#[inline(always)]
pub(crate) fn find_places(table: &Table, alloc: Global, id: u64) -> Result<Places, NoMemory>
    requires order { InOrder table.now }
    requires known { AreKnown table.now }
    requires live { has table.now id ≡ true }
    requires own { (row_at table.now id).base ≡ id }
    requires view { (row_at table.now id).root ≢ id }
    requires parent { ParentIsFresh table.now id }
    ensures { IfOk result (λ places. places ≡ places_seen table.now id) }
{
    row_laws();
    let node = table.node(id);
    match node.origin() {
        Origin::Root => unreachable!(),
        Origin::View { parent, layout, .. } => {
            let count = elements_of(&node.triple().dims);
            let above = table.node(*parent);
            let size = elements_of(&above.triple().dims);
            let base = table.node(above.base());
            places_through(
                alloc,
                layout.get(),
                count,
                base.places(),
                above.triple(),
                size,
            )
        }
    }
}

/// Fills an outdated view whose places are known.
fn fill_again<L: Ledger>(
    table: &mut Table,
    alloc: Global,
    id: u64,
    steps: &mut Steps<L>,
) -> Result<(), NoMemory>
    requires outdated { IsOutdated table.old (row_at table.old id).root id }
    requires known { AreKnown table.old }
    requires found { is_some (row_at table.old id).places ≡ true }
    ensures ok { OnOk result (IsFilled table.old id table.new) }
    ensures err { OnErr result (table.new ≡ table.old) }
    ensures only { FillsOnly (id ∷ []) table.old table.new }
    ensures counted { steps.new ≤ steps.old + size_of (row_at table.old id).triple.dims }
{
    row_laws();
    let node = table.node(id);
    let root = table.node(node.root());
    let repeats = node.repeats();
    match node.places() {
        Some(places) => {
            let kept = gathered(alloc, root.kept(), places.as_slice(), steps)?;
            table.fill(alloc, id, kept, repeats, None)
        }
        None => unreachable!(),
    }
}

/// Fills an outdated view over its fresh parent, after its places were found.
fn fill_first<L: Ledger>(
    table: &mut Table,
    alloc: Global,
    id: u64,
    steps: &mut Steps<L>,
) -> Result<(), NoMemory>
    requires outdated { IsOutdated table.old (row_at table.old id).root id }
    requires known { AreKnown table.old }
    requires parent { ParentIsFresh table.old id }
    ensures ok { OnOk result (IsFilled table.old id table.new) }
    ensures err { OnErr result (table.new ≡ table.old) }
    ensures only { FillsOnly (id ∷ []) table.old table.new }
    ensures counted { steps.new ≤ steps.old + size_of (row_at table.old id).triple.dims }
{
    row_laws();
    let places = find_places(table, alloc, id)?;
    let node = table.node(id);
    let root = table.node(node.root());
    let count = elements_of(&root.triple().dims);
    let listed = places.as_slice();
    let repeats = has_twice(alloc, listed, count)?;
    let kept = gathered(alloc, root.kept(), listed, steps)?;
    table.fill(alloc, id, kept, repeats, Some(places))
}

/// Fills an outdated view over its fresh parent.
pub fn fill<L: Ledger>(
    table: &mut Table,
    alloc: Global,
    id: u64,
    steps: &mut Steps<L>,
) -> Result<(), NoMemory>
    requires outdated { IsOutdated table.old (row_at table.old id).root id }
    requires known { AreKnown table.old }
    requires parent { ParentIsFresh table.old id }
    ensures ok { OnOk result (IsFilled table.old id table.new) }
    ensures err { OnErr result (table.new ≡ table.old) }
    ensures only { FillsOnly (id ∷ []) table.old table.new }
    ensures counted { steps.new ≤ steps.old + size_of (row_at table.old id).triple.dims }
{
    if table.node(id).places().is_some() {
        fill_again(table, alloc, id, steps)
    } else {
        fill_first(table, alloc, id, steps)
    }
}
