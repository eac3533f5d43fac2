//! Which arrays are on the path of another.
ghost use Rattle.std.specs.Prelude.{◌≡◌, true};
ghost use Rattle.pdl_world.specs.Paths.{path};
ghost use Rattle.pdl_world.specs.Swept.{is_listed};
ghost use Rattle.pdl_nodes.specs.Rows.{has};
ghost use Rattle.pdl_nodes.specs.Still.{IsStill};
ghost use Rattle.pdl_nodes.specs.Worlds.{shape};

use pdl_nodes::{Table, row_laws};

/// Whether an array is on the path of another to its root, itself counted.
pub fn reaches(table: &Table, below: u64, above: u64) -> bool
    requires still { IsStill table.now }
    requires live { has table.now below ≡ true }
    ensures { result ≡ is_listed (path (shape table.now) below) above }
{
    row_laws();
    if below == above {
        return true;
    }
    match table.node(below).parent() {
        Some(parent) => reaches(table, parent, above),
        None => false,
    }
}
