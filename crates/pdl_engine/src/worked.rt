//! The calls as the scripts have them that are worked by hand (`specs/Worked.antt`): what each leaves
//! is what the scripts' state has, and it takes no more steps.
//!
//! Each of these makes the call of `Engine` and knows of it what the call's clauses say, and no more:
//! a clause that changes, or says less, is refused here where the scripts rest on it.
ghost use Rattle.std.specs.Prelude.{◌≡◌, ◌<◌, true, All, IsTrue, OnOk, length};
ghost use Rattle.pdl_buf.specs.Made.{IsMade};
ghost use Rattle.pdl_elem.specs.Types.{InRange};
ghost use Rattle.pdl_elem.specs.declared.Ty.TheVariants.{Long};
ghost use Rattle.pdl_shape.specs.Shape.{size_of};
ghost use Rattle.pdl_world.specs.Formula.{is_well_formed};
ghost use Rattle.pdl_world.specs.Sound.{IsLive};
ghost use Rattle.pdl_world.specs.World.{dims_in, ty_in};
ghost use Rattle.pdl_engine.specs.Held.{count_at};
ghost use Rattle.pdl_engine.specs.State.{is_fresh};
ghost use Rattle.pdl_engine.specs.Worked.{IsWorked, assign, make, ready, release, reshape, sever, view};

use crate::engine::{ArrayId, Engine};
use pdl_buf::{Elements, NoMemory, Steps};
use pdl_elem::Ty;
use pdl_nodes::{RelayFault as ReshapeFault, ViewFault};
use pdl_shape::Dims;
use pdl_world::{Trans, assignment_laws, base_laws, growth_laws, sweep_laws};
use std::sync::ledger::Ledger;

/// A new root of numbers of the type long.
pub fn make<L: Ledger>(
    engine: &mut Engine,
    dims: &Dims,
    elems: Elements,
    steps: &mut Steps<L>,
) -> Result<ArrayId, NoMemory>
    requires { IsMade Long dims.now elems }
    ensures { OnOk result
        (IsWorked engine.old (make dims.now elems) engine.new steps.old steps.new) }
{
    growth_laws();
    engine.resting_law();
    let id = engine.make(Ty::Long, dims, elems, steps)?;
    engine.resting_law();
    Ok(id)
}

/// A new view, which takes no step.
pub fn view(engine: &mut Engine, parent: ArrayId, trans: Trans) -> Result<ArrayId, ViewFault>
    requires live { IsLive engine.old.world parent }
    requires well_formed { IsTrue (is_well_formed trans) }
    ensures { OnOk result (IsWorked engine.old (view parent trans) engine.new 0 0) }
{
    growth_laws();
    engine.resting_law();
    let id = engine.view(parent, trans)?;
    engine.resting_law();
    Ok(id)
}

/// An array that is made ready.
pub fn ready<L: Ledger>(
    engine: &mut Engine,
    id: ArrayId,
    steps: &mut Steps<L>,
) -> Result<(), NoMemory>
    requires { IsLive engine.old.world id }
    ensures { OnOk result (IsWorked engine.old (ready id) engine.new steps.old steps.new) }
{
    growth_laws();
    engine.resting_law();
    engine.ready(id, steps)?;
    engine.resting_law();
    Ok(())
}

/// Values that are assigned to an array that can be lent.
pub fn assign<L: Ledger>(engine: &mut Engine, id: ArrayId, values: &[i64], steps: &mut Steps<L>)
    requires live { IsLive engine.old.world id }
    requires fresh { is_fresh engine.old id ≡ true }
    requires count { length values.now ≡ size_of (dims_in engine.old.world id) }
    requires in_range { All (InRange (ty_in engine.old.world id)) values.now }
    ensures { IsWorked engine.old (assign id values.now) engine.new steps.old steps.new }
{
    growth_laws();
    assignment_laws();
    base_laws();
    engine.resting_law();
    engine.assign(id, values, steps);
    engine.resting_law();
}

/// An array that is cut from its parent.
pub fn sever<L: Ledger>(
    engine: &mut Engine,
    id: ArrayId,
    steps: &mut Steps<L>,
) -> Result<(), NoMemory>
    requires { IsLive engine.old.world id }
    ensures { OnOk result (IsWorked engine.old (sever id) engine.new steps.old steps.new) }
{
    growth_laws();
    engine.resting_law();
    engine.sever(id, steps)?;
    engine.resting_law();
    Ok(())
}

/// An array that gets other dimensions.
pub fn reshape<L: Ledger>(
    engine: &mut Engine,
    id: ArrayId,
    dims: &Dims,
    steps: &mut Steps<L>,
) -> Result<(), ReshapeFault>
    requires { IsLive engine.old.world id }
    ensures { OnOk result (IsWorked engine.old (reshape id dims.now) engine.new steps.old steps.new) }
{
    growth_laws();
    engine.resting_law();
    engine.reshape(id, dims, steps)?;
    engine.resting_law();
    Ok(())
}

/// An array of which one hold is taken back.
pub fn release<L: Ledger>(engine: &mut Engine, id: ArrayId, steps: &mut Steps<L>)
    requires { 0 < count_at engine.old.holds id }
    ensures { IsWorked engine.old (release id) engine.new steps.old steps.new }
{
    growth_laws();
    sweep_laws();
    engine.resting_law();
    engine.release(id, steps);
    engine.resting_law();
}
