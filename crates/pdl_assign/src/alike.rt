//! Assignments that set elements as they are.
ghost use Rattle.std.specs.Prelude.{◌≡◌, true, Ok};
ghost use Rattle.pdl_world.specs.Sound.{IsLive};
ghost use Rattle.pdl_world.specs.World.{elements};
ghost use Rattle.pdl_engine.specs.State.{is_fresh};
ghost use Rattle.pdl_assign.specs.Alike.{SetsAlike};
ghost use Rattle.pdl_assign.specs.Blocks.{values_in, written_in};

use crate::choosing::is_set;
use pdl_buf::{strided_dims, strided_is_in_range};
use pdl_elem::wrapping_laws;
use pdl_engine::{ArrayId, Engine};
use pdl_lexemes::AssignOp;
use pdl_ops::value_laws;
use pdl_shape::dims_list;

/// Whether an assignment sets the source's elements as they are.
pub(crate) fn sets_alike(engine: &Engine, sign: AssignOp, target: ArrayId, source: ArrayId) -> bool
    requires target { IsLive engine.now.world target }
    requires source { IsLive engine.now.world source }
    ensures { result ≡ true → SetsAlike sign engine.now.world target source }
{
    is_set(sign)
        && engine.root(source) != engine.root(target)
        && engine.ty(source) == engine.ty(target)
        && dims_list(engine.dims(source)) == dims_list(engine.dims(target))
}

/// A law: what such an assignment writes are the source's elements. It changes nothing.
pub(crate) fn values_are_elements(engine: &Engine, sign: AssignOp, target: ArrayId, source: ArrayId)
    requires target { IsLive engine.now.world target }
    requires source { IsLive engine.now.world source }
    requires source_fresh { is_fresh engine.now source ≡ true }
    requires alike { SetsAlike sign engine.now.world target source }
    ensures found { values_in sign engine.now target source ≡ Ok (elements engine.now.world source) }
    ensures written { let w = engine.now.world in
        written_in sign w target source ≡ Ok (elements w source) }
{
    value_laws();
    wrapping_laws();
    let from = engine.lend(source);
    let _count = strided_dims(&from);
    strided_is_in_range(&from);
}
