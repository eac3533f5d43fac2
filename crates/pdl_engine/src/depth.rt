//! How many views are above an array.
ghost use Rattle.std.specs.Prelude.{◌≡◌, nat_lt, true, length};
ghost use Rattle.pdl_world.specs.Paths.{path};
ghost use Rattle.pdl_nodes.specs.Rows.{has};
ghost use Rattle.pdl_nodes.specs.Still.{IsStill};
ghost use Rattle.pdl_nodes.specs.Worlds.{shape};

use pdl_nodes::{Table, row_laws};

/// Whether more arrays than these are on the path of an array to its root.
pub fn is_deeper(table: &Table, id: u64, count: u32) -> bool
    requires still { IsStill table.now }
    requires live { has table.now id ≡ true }
    ensures { result ≡ nat_lt count (length (path (shape table.now) id)) }
{
    row_laws();
    if count == 0 {
        return true;
    }
    match table.node(id).parent() {
        Some(parent) => is_deeper(table, parent, count - 1),
        None => false,
    }
}
