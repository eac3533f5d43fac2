//! Plans of views.
ghost use Rattle.std.specs.Prelude.{◌≡◌, ◌≢◌, IfOk, IfErr, OnOk, IsOk, IsTrue, Ok, Err, length, IfSome, IsSome};
ghost use Rattle.pdl_affine.specs.Views.{dims, is_well_formed, refusal_of, sizes};
ghost use Rattle.pdl_shape.specs.Triple.{whole_triple};
ghost use Rattle.pdl_affine.specs.Windows.{composed, base_place, Shows, LiesIn};
ghost use Rattle.pdl_affine.specs.Courses.{seen_form, Stands, Limits};
ghost use Rattle.pdl_shape.specs.Shape.{IsDims};
ghost use Rattle.pdl_shape.specs.Limits.{checked_dims};
ghost use Rattle.pdl_shape.specs.Refusals.{Refuses};

use crate::composing::window;
use crate::forms::Form;
use crate::resolving::resolve;
use crate::sizing::{limited, sizes_of, slice};
use crate::{Affine, Numbers, PlanFault};
use pdl_shape::{Dims, Triple, copy_dims, dims_list};
use pdl_slices::SliceArgs;
use std::alloc::{AllocError, Global};
use std::marker::Model;

/// A view that a transformation makes on a parent of some dimensions. Contracts see the two.
#[derive(Debug, Drop)]
pub struct AffinePlan {
    trans: Affine,
    parent: Dims,
    dims: Dims,
    form: Form,
}

impl Model for AffinePlan {
    ghost use Rattle.pdl_affine.specs.Plan.{Plan};
    ghost use Rattle.pdl_affine.specs.Courses.{IsPlanned};

    ghost Value = { Plan };

    ghost view = { λ plan. record { trans = plan.trans; parent = plan.parent } };

    ghost invariant = { λ plan. IsPlanned plan.trans plan.parent plan.dims plan.form };
}

/// The dimensions of the view.
pub fn plan_dims(plan: &AffinePlan) -> &Dims
    ensures { dims plan.now.trans plan.now.parent ≡ Ok result.now }
{
    &plan.dims
}

fn copy_args(alloc: Global, args: &SliceArgs) -> Result<SliceArgs, AllocError>
    ensures { IfOk result (λ copy. copy ≡ args.now) }
{
    let list = args.as_slice();
    let mut copy = SliceArgs::new(alloc);
    for arg in list {
        copy.push(*arg)?;
    }
    Ok(copy)
}

/// The same transformation again.
pub fn copy_affine(alloc: Global, trans: &Affine) -> Result<Affine, AllocError>
    ensures { IfOk result (λ copy. copy ≡ trans.now) }
{
    match trans {
        Affine::Slice(args) => Ok(Affine::Slice(copy_args(alloc, args)?)),
        Affine::Xchg(a, b) => Ok(Affine::Xchg(*a, *b)),
        Affine::Mv(a, b) => Ok(Affine::Mv(*a, *b)),
        Affine::Reorder(order) => {
            let copy = Numbers::new(Vec::from_slice(alloc, order.as_slice())?);
            Ok(Affine::Reorder(copy))
        }
        Affine::Dummy { place, size } => Ok(Affine::Dummy {
            place: *place,
            size: *size,
        }),
        Affine::Diagonal(listed) => {
            let copy = Numbers::new(Vec::from_slice(alloc, listed.as_slice())?);
            Ok(Affine::Diagonal(copy))
        }
        Affine::Squeeze => Ok(Affine::Squeeze),
        Affine::Clump(count) => Ok(Affine::Clump(*count)),
    }
}

/// Plans the view that a transformation makes on a parent of these dimensions. No span of the
/// transformation has the step 0, and a diagonal lists a dimension.
pub fn plan(alloc: Global, trans: &Affine, parent: &Dims) -> Result<AffinePlan, PlanFault>
    requires { IsTrue (is_well_formed trans.now) }

    ensures planned { IfOk result (λ plan. plan
        ≡ record { trans = trans.now; parent = parent.now }) }
    ensures fits { OnOk result (IsOk (dims trans.now parent.now)) }
    ensures refused { IfErr result (λ fault. Refuses (dims trans.now parent.now)
        (refusal_of fault)) }
{
    let sizes = dims_list(parent);
    let form = resolve(alloc, trans, sizes)?;
    let dims = sized(alloc, &form, sizes)?;
    let trans = copy_affine(alloc, trans)?;
    Ok(AffinePlan {
        trans,
        parent: copy_dims(parent),
        dims,
        form,
    })
}

/// The dimensions of a form over a parent of these sizes, if they are within the limits.
fn sized(alloc: Global, form: &Form, parent: &[u32]) -> Result<Dims, PlanFault>
    requires stands { Stands form.now (length parent.now) }
    requires limits { IsDims parent.now }
    ensures { Limits (checked_dims (sizes (seen_form form.now) parent.now)) result }
{
    // most views are slices: their sizes take no memory of their own
    if let Form::Sliced(taken) = form {
        let sizes = slice(alloc, taken)?;
        return limited(alloc, sizes.as_slice());
    }
    let sizes = sizes_of(alloc, form, parent)?;
    limited(alloc, &sizes)
}

/// The triple that shows a view over the base that its parent is shown over (PDL::API, affine
/// transformations). `over` shows the parent, and has its dimensions. `None` exactly where the view
/// is a clump of dimensions whose increments don't join. It takes no memory.
pub fn compose(alloc: Global, plan: &AffinePlan, over: &Triple) -> Option<Triple>
    requires { over.now.dims ≡ plan.now.parent }
    ensures composed { result ≡ composed plan.now.trans over.now }
    ensures shows { IfSome result (λ triple. Shows triple (base_place plan.now.trans over.now)) }
    ensures inside { IfSome result (λ triple. LiesIn triple over.now) }
    ensures fits { IfSome result (λ triple. dims plan.now.trans plan.now.parent ≡ Ok triple.dims) }
    ensures in_order { over.now ≡ whole_triple plan.now.parent → IsSome result }
{
    window(alloc, &plan.form, &plan.dims, over)
}
