//! An assignment through the places of a view, past its own elements.
ghost use Rattle.std.specs.Prelude.{◌≡◌, ◌+◌, ◌≤◌, true, OnOk, OnErr};
ghost use Rattle.pdl_lexemes.specs.declared.AssignOp.TheVariants.{Set};
ghost use Rattle.pdl_world.specs.Sound.{IsLive};
ghost use Rattle.pdl_engine.specs.State.{SameArrays, StayFresh, is_fresh, ready_steps};
ghost use Rattle.pdl_assign.specs.Blocks.{IsAssigned};
ghost use Rattle.pdl_assign.specs.Through.{GoesThrough};

use crate::alike::{sets_alike, values_are_elements};
use pdl_buf::{NoMemory, Steps};
use pdl_engine::{ArrayId, Engine};
use pdl_lexemes::AssignOp;
use std::sync::ledger::Ledger;

/// Whether an assignment can go through the target's places: it sets the source's elements as they
/// are, and the target is a view that wasn't read.
pub fn goes_through(engine: &Engine, sign: AssignOp, target: ArrayId, source: ArrayId) -> bool
    requires target { IsLive engine.now.world target }
    requires source { IsLive engine.now.world source }
    ensures { result ≡ true → GoesThrough sign engine.now target source }
{
    engine.is_unread(target) && sets_alike(engine, sign, target, source)
}

/// Assigns an array that can be lent to a view, through whose places its elements go into the root,
/// in rising order. The view's own elements aren't brought up to date. It takes at most the steps that
/// make the view one that can be lent. Out of memory, the arrays are as they were, and what could be
/// lent can be lent.
pub fn assign_through<L: Ledger>(
    engine: &mut Engine,
    target: ArrayId,
    source: ArrayId,
    steps: &mut Steps<L>,
) -> Result<(), NoMemory>
    requires target { IsLive engine.old.world target }
    requires source { IsLive engine.old.world source }
    requires source_fresh { is_fresh engine.old source ≡ true }
    requires through { GoesThrough Set engine.old target source }
    ensures assigned { OnOk result (IsAssigned Set engine.old target source engine.new) }
    ensures same { OnErr result (SameArrays engine.old engine.new) }
    ensures stay { OnErr result (StayFresh engine.old engine.new) }
    ensures counted { steps.new ≤ steps.old + ready_steps engine.old target }
{
    values_are_elements(engine, AssignOp::Set, target, source);
    engine.assign_through(target, source, steps)
}
