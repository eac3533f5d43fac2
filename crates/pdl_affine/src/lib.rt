//! Affine views (PDL::Slices): what dimensions a view has, which elements of its
//! parent it shows, and the triple that shows it over the same base.
#![tactic(auto)]

mod clumping;
mod composing;
mod counting;
mod courses;
mod forms;
mod laws;
mod planning;
mod putting;
mod resolving;
mod sizing;
mod slicing;

ghost use Rattle.std.specs.Prelude.{◌≡◌};

pub use laws::{view_laws, window_laws};
use pdl_elem::Items;
use pdl_slices::SliceArgs;
pub use planning::{AffinePlan, compose, copy_affine, plan, plan_dims};
use std::alloc::AllocError;

/// Numbers of a transformation, in order: dimensions, of which a negative one
/// counts from the end, or index values and sizes. Contracts see the list.
pub type Numbers = Items<i64>;

/// How a view shows its parent. A number of a dimension that is negative counts from the end.
#[derive(Debug, Drop)]
pub enum Affine {
    /// The elements that slice arguments take of each dimension. No span has the step 0.
    Slice(SliceArgs),
    /// Two dimensions in each other's place.
    Xchg(i64, i64),
    /// The first dimension put where the second number says.
    Mv(i64, i64),
    /// All dimensions in this order.
    Reorder(Numbers),
    /// A new dimension of this size.
    Dummy { place: i64, size: i64 },
    /// The diagonal of the listed dimensions, at least one.
    Diagonal(Numbers),
    /// Without the dimensions of size 1.
    Squeeze,
    /// So many first dimensions joined to one, or all by -1.
    Clump(i64),
}

/// Why a transformation makes no view, in the order in which a call answers these.
#[derive(Clone, Copy, PartialEq, Eq, Debug)]
pub enum PlanFault {
    /// There is no such dimension, or the numbers aren't as the transformation needs them.
    BadDimension,
    /// A slice takes an element that isn't there.
    OutOfRange,
    /// The view would have more than 16 dimensions.
    TooManyDims,
    /// The product of the view's sizes that aren't 0 would be above 1,048,576.
    TooLarge,
    /// Memory has run out.
    NoMemory,
}

impl From<AllocError> for PlanFault {
    ghost use Rattle.pdl_affine.specs.declared.PlanFault.{PlanFault};

    ghost from_gives = { λ _ e. e ≡ PlanFault.NoMemory };

    fn from(_e: AllocError) -> PlanFault {
        PlanFault::NoMemory
    }
}
