//! What goes from one array up: taking its holds, which is the mark that it goes, and, once what
//! waits was written back, its removal.
ghost use Rattle.std.specs.Prelude.{◌≡◌, ◌≢◌, ℕ, ◌+◌, ◌-◌, ◌<◌, true, IfNone, IfSome, Some, [], ◌∷◌};
ghost use Rattle.pdl_nodes.specs.Children.{children};
ghost use Rattle.pdl_nodes.specs.Holds.{going, is_held, stands, count, Beside};
ghost use Rattle.pdl_nodes.specs.Risen.{AreMarked, AreNoted, GoesAlone, IsFallen, IsFewer, IsForgotten, GoesWith, IsLoose, IsNoted, IsRisen, ParentsAreOlder, AreTight, ComesFrom};
ghost use Rattle.pdl_nodes.specs.Row.{parent_of};
ghost use Rattle.pdl_nodes.specs.Rows.{Falls, has, row_at};
ghost use Rattle.pdl_nodes.specs.Still.{IsStill};
ghost use Rattle.pdl_world.specs.Swept.{is_listed};
ghost use Rattle.pdl_nodes.specs.Staying.{staying};

use crate::holds::Holds;
use crate::table::Table;

/// Notes that one view more of a parent goes, if there is one.
fn note_parent(table: &Table, holds: &mut Holds, parent: Option<u64>)
    requires { (p : ℕ) → parent ≡ Some p → going holds.old p < children table.now p }
    ensures { IsNoted (λ n. n + 1) holds.old holds.new parent }
{
    match parent {
        Some(id) => holds.note(id, table.children(id)),
        None => {}
    }
}

/// Takes the note of one view of a parent back, if there is one.
fn take_parent_note(holds: &mut Holds, parent: Option<u64>)
    ensures { IsNoted (λ n. n - 1) holds.old holds.new parent }
{
    match parent {
        Some(id) => holds.take_note(id),
        None => {}
    }
}

/// Takes the holds from an array that goes, and from each above it that goes then.
fn let_up(table: &Table, holds: &mut Holds, id: u64)
    requires still { IsStill table.now }
    requires live { has table.now id ≡ true }
    requires marked { AreMarked table.now holds.old }
    ensures marked { AreMarked table.now holds.new }
    ensures fewer { IsFewer holds.old holds.new }
    ensures loose { (v : ℕ) → IsLoose table.now holds.new v
        → IsLoose table.now holds.old v × (v ≢ id) }
{
    let mut next = Some(id);
    while let Some(at) = next {
        next = None;
        if holds.goes(at, table.children(at)) {
            next = table.node(at).parent();
            note_parent(table, holds, next);
            holds.remove(at);
        }
    }
}

/// The array above this one that goes with it, once this one does: it isn't held, and has no other
/// view.
pub fn goes_with(table: &Table, holds: &Holds, id: u64) -> Option<u64>
    requires { has table.now id ≡ true }
    ensures alone { IfNone result (GoesAlone table.now holds.now id) }
    ensures parent { IfSome result (λ p. GoesWith table.now holds.now p id) }
{
    let parent = table.node(id).parent()?;
    if holds.is_held(parent) {
        return None;
    }
    if table.children(parent) > 1 {
        None
    } else {
        Some(parent)
    }
}

/// Takes the holds from each array above this one, its parent first, that goes once it does. It has
/// no views, and its own holds were forgotten.
pub fn let_parent_up(table: &Table, holds: &mut Holds, id: u64, parent: u64)
    requires forgotten { IsForgotten table.now holds.old id }
    requires parent { parent_of (row_at table.now id) ≡ Some parent }
    ensures { IsRisen (id ∷ []) table.now holds.old holds.new }
{
    holds.note(parent, table.children(parent));
    let_up(table, holds, parent)
}

/// Removes an array that has no holds, and each above it that has none.
fn remove_up(table: &mut Table, holds: &mut Holds, id: u64)
    requires falls { Falls table.old }
    requires older { ParentsAreOlder table.old }
    requires noted { AreNoted table.old holds.old }
    ensures { IsFallen id table.old holds.old table.new holds.new }
{
    let mut next = Some(id);
    while let Some(at) = next {
        next = None;
        if !holds.has(at) {
            next = table.remove(at);
            take_parent_note(holds, next);
        }
    }
}

/// Takes the holds from all that no held array reaches: from these arrays up.
pub fn let_all(table: &Table, holds: &mut Holds, loose: &[u64], id: u64)
    requires still { IsStill table.now }
    requires beside { Beside table.now holds.old }
    requires live { (v : ℕ) → is_listed (id ∷ loose.now) v ≡ true → has table.now v ≡ true }
    requires tight { AreTight (id ∷ loose.now) table.now holds.old }
    ensures { IsRisen (id ∷ loose.now) table.now holds.old holds.new }
{
    for start in loose.iter() {
        let_up(table, holds, *start);
    }
    let_up(table, holds, id);
}

/// Removes the rows without holds: from these arrays up, one start after another.
pub fn remove_all(table: &mut Table, holds: &mut Holds, loose: &[u64], id: u64)
    requires still { IsStill table.old }
    requires numbers { (v : ℕ) → stands holds.old v ≡ true → has table.old v ≡ true }
    requires noted { AreNoted table.old holds.old }
    requires from { ComesFrom (id ∷ loose.now) table.old holds.old }
    ensures rows { table.new ≡ staying (stands holds.old) table.old }
    ensures beside { Beside table.new holds.new }
    ensures counts { (v : ℕ) → count holds.new v ≡ count holds.old v }
{
    for start in loose.iter() {
        remove_up(table, holds, *start);
    }
    remove_up(table, holds, id);
}
