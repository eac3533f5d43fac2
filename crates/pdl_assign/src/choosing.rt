//! When an assignment can be made block by block.
ghost use Rattle.std.specs.Prelude.{◌≡◌, ◌↔◌, IsTrue, true};
ghost use Rattle.pdl_lexemes.specs.declared.AssignOp.TheVariants.{Set};
ghost use Rattle.pdl_world.specs.Sound.{IsLive};
ghost use Rattle.pdl_engine.specs.State.{is_fresh};
ghost use Rattle.pdl_assign.specs.Blocks.{CanBlock};

use pdl_engine::{ArrayId, Engine};
use pdl_lexemes::AssignOp;
use pdl_shape::dims_list;

/// Whether a sign reads no element of the target.
pub(crate) fn is_set(sign: AssignOp) -> bool
    ensures { IsTrue result ↔ (sign ≡ Set) }
{
    matches!(sign, AssignOp::Set)
}

/// Whether it is plain that an assignment is the same block by block as all at once. Both arrays
/// can be lent.
pub fn can_block(engine: &Engine, sign: AssignOp, target: ArrayId, source: ArrayId) -> bool
    requires target { IsLive engine.now.world target }
    requires source { IsLive engine.now.world source }
    requires target_fresh { is_fresh engine.now target ≡ true }
    requires source_fresh { is_fresh engine.now source ≡ true }
    ensures { result ≡ true → CanBlock sign engine.now.world target source }
{
    if dims_list(engine.dims(source)).len() > dims_list(engine.dims(target)).len() {
        return false;
    }
    if engine.base_repeats(target) {
        return false;
    }
    if engine.root(source) != engine.root(target) {
        return is_set(sign) || engine.shows_once(target);
    }
    source == target && engine.shows_once(target)
}
