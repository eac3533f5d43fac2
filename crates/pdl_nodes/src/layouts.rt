//! The layout of a view on its parent, or why there is none.
ghost use Rattle.std.specs.Prelude.{◌≡◌, [], length, IfOk, IfErr, IsTrue, IsOk, OnOk};
ghost use Rattle.pdl_choice.specs.Range.{range_dims, range_source};
ghost use Rattle.pdl_shape.specs.Places.{AllBelow, places_of};
ghost use Rattle.pdl_shape.specs.Shape.{size_of};
ghost use Rattle.pdl_world.specs.Formula.{child_dims, is_well_formed};
ghost use Rattle.pdl_world.specs.Refused.{refusal_at};
ghost use Rattle.pdl_nodes.specs.Sized.{IsLayout};
ghost use Rattle.pdl_nodes.specs.Faults.{Names};

use crate::faults::ViewFault;
use crate::origin::Layout;
use pdl_affine::plan;
use pdl_choice::{Choice, Edge, index, listed_places, range};
use pdl_shape::Dims;
use pdl_world::Trans;
use std::alloc::Global;

/// The dimensions of a view of windows, and its positions in the parent.
fn windows(
    alloc: Global,
    parent: &Dims,
    dims: &Dims,
    ind: &[i64],
    sizes: &[i64],
    edge: Edge,
) -> Result<Choice, ViewFault>
    requires { length ind.now ≡ size_of dims.now }
    ensures dims { IfOk result
        (λ c. range_dims parent.now dims.now ind.now sizes.now edge ≡ Ok c.dims) }
    ensures places { IfOk result (λ c. c.places
        ≡ places_of c.dims parent.now
        (range_source parent.now dims.now ind.now sizes.now edge)) }
    ensures inside { IfOk result (λ c. AllBelow (size_of parent.now) c.places) }
    ensures refused { IfErr result
        (λ f. Names f (refusal_at [] (range_dims parent.now dims.now ind.now sizes.now edge))) }
{
    Ok(range(alloc, parent, dims, ind, sizes, edge)?)
}

/// The layout of a view on a parent of these dimensions.
pub fn layout(alloc: Global, trans: &Trans, parent: &Dims) -> Result<Layout, ViewFault>
    requires { IsTrue (is_well_formed trans.now) }
    ensures layout { IfOk result (IsLayout trans.now parent.now) }
    ensures dims { OnOk result (IsOk (child_dims trans.now parent.now)) }
    ensures refused { IfErr result
        (λ f. Names f (refusal_at [] (child_dims trans.now parent.now))) }
{
    match trans {
        Trans::Affine(trans) => Ok(Layout::Plan(plan(alloc, trans, parent)?)),
        Trans::Index { dims, ind } => {
            Ok(Layout::Choice(index(alloc, parent, dims, ind.as_slice())?))
        }
        Trans::Where { dims, places } => {
            Ok(Layout::Choice(listed_places(alloc, parent, dims, places.as_slice())?))
        }
        Trans::Range {
            dims,
            ind,
            sizes,
            edge,
        } => Ok(Layout::Choice(windows(
            alloc,
            parent,
            dims,
            ind.as_slice(),
            sizes.as_slice(),
            *edge,
        )?)),
    }
}
