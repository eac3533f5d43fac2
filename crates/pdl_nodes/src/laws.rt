//! Laws of the definitions, for the proofs of the crates above.
ghost use Rattle.pdl_nodes.specs.RenewLaws.{RenewingRoots, RenewingReshapes, RenewingSevers, RelaidCanRenew, RelaidStay, RenewedAreOutdated, RenewingLeavesFamilies, RenewingLeavesOthers};
ghost use Rattle.pdl_nodes.specs.RenewLaws.{RenewedAreSettled, RenewedAreKnown, RenewedAreSized, RenewingKeepsNumbers, RenewingMakesRoots};
ghost use Rattle.pdl_nodes.specs.RowLaws.{RowLaws};

use pdl_affine::{view_laws, window_laws};
use pdl_shape::{shape_laws, triple_laws};

/// What holds of all rows: by their numbers, of what their arrays are, of what changes leave, of a
/// change within one family, of a row that joins, and of arrays that go. It does nothing: who calls
/// it has them.
pub fn row_laws()
    ensures { RowLaws }
{
    shape_laws()
}

/// What becomes of rows in order, and of their world, where an array becomes a root, by a cut or by
/// other dimensions (PDL::Core, sever and reshape). They mean the world in which it is this root.
/// Of its family exactly those are fresh whose base it is; the rows of all others stay, of its old
/// family too, and nothing waits in the families of those that were of it. It does nothing: who
/// calls it has them.
pub fn renewed_row_laws()
    ensures roots { RenewingRoots }
    ensures reshapes { RenewingReshapes }
    ensures severs { RenewingSevers }
    ensures relaid { RelaidCanRenew }
    ensures stay { RelaidStay }
    ensures outdated { RenewedAreOutdated }
    ensures others { RenewingLeavesOthers }
    ensures families { RenewingLeavesFamilies }
    ensures settled { RenewedAreSettled }
    ensures known { RenewedAreKnown }
    ensures sized { RenewedAreSized }
    ensures numbers { RenewingKeepsNumbers }
    ensures makes { RenewingMakesRoots }
{
    shape_laws();
    triple_laws();
    view_laws();
    window_laws()
}
