//! Assignments that copy elements from one buffer to another.
ghost use Rattle.std.specs.Prelude.{◌≡◌, true, IsTrue, Ok};
ghost use Rattle.pdl_world.specs.Sound.{IsLive};
ghost use Rattle.pdl_world.specs.World.{elements};
ghost use Rattle.pdl_engine.specs.State.{is_fresh};
ghost use Rattle.pdl_assign.specs.Blocks.{written_in};
ghost use Rattle.pdl_assign.specs.Copies.{IsCopy};

use crate::alike::{sets_alike, values_are_elements};
use pdl_buf::{Strided, strided_dims, strided_is_turned};
use pdl_engine::{ArrayId, Engine};
use pdl_lexemes::AssignOp;
use pdl_shape::{Dims, dims_list};

/// Rows of fewer elements are read together with others, in blocks.
const LONG_ROW: u32 = 16;

/// Whether rows of these dimensions are long enough to be copied one by one.
fn has_long_rows(dims: &Dims) -> bool {
    match dims_list(dims).first() {
        Some(size) => LONG_ROW <= *size,
        None => false,
    }
}

/// Whether rows of one window are copied one by one to those of another. Of turned planes some rows
/// are read side by side in blocks.
fn are_rows(into: &Strided<'_>, from: &Strided<'_>) -> bool {
    has_long_rows(strided_dims(into)) && !strided_is_turned(into) && !strided_is_turned(from)
}

/// Whether an assignment copies elements, so that they need not be widened on their way.
pub(crate) fn is_copied(engine: &Engine, sign: AssignOp, target: ArrayId, source: ArrayId) -> bool
    requires target { IsLive engine.now.world target }
    requires source { IsLive engine.now.world source }
    requires target_fresh { is_fresh engine.now target ≡ true }
    requires source_fresh { is_fresh engine.now source ≡ true }
    ensures copied { IsTrue result → IsCopy sign engine.now.world target source }
    ensures value { let w = engine.now.world in
        IsTrue result → written_in sign w target source ≡ Ok (elements w source) }
{
    if !engine.stands_in_root(target) || !sets_alike(engine, sign, target, source) {
        return false;
    }
    values_are_elements(engine, sign, target, source);
    are_rows(&engine.lend(target), &engine.lend(source))
}
