//! What the calls of this crate answer.
ghost use Rattle.std.specs.Prelude.{◌≡◌, ◌≤◌, IfErr, None};
ghost use Rattle.pdl_shape.specs.Shape.{extent, extent_limit, size_of};
ghost use Rattle.pdl_shape.specs.Limits.{checked_dims};
ghost use Rattle.pdl_choice.specs.Choice.{Makes, position_in};

use crate::Places;
use pdl_shape::{Dims, ShapeFault, dims_of, size};
use std::alloc::{AllocError, Global};

/// Out of memory.
pub use std::alloc::AllocError as NoMemory;

/// A view that picks places of its parent.
#[derive(Drop, Debug)]
pub struct Choice {
    /// The dimensions of the view.
    pub dims: Dims,
    /// For each position of the view, in order, the position in the parent.
    pub places: Places,
}

/// Why there is no such view, in the order in which a call answers these.
#[derive(Clone, Copy, PartialEq, Eq, Debug)]
pub enum ChoiceFault {
    /// There is no such dimension, or a size is below 0.
    BadDimension,
    /// Dimensions that must fit don't.
    Mismatch,
    /// An index value lies outside its dimension.
    OutOfRange {
        /// The first refused position in the list of index values.
        at: u32,
    },
    /// The view would have more than 16 dimensions.
    TooManyDims,
    /// The view's sizes that aren't 0 would have a product above 1,048,576.
    TooLarge,
    /// Out of memory.
    NoMemory,
}

impl From<AllocError> for ChoiceFault {
    ghost use Rattle.std.specs.Prelude.{◌≡◌};
    ghost use Rattle.pdl_choice.specs.declared.answers.ChoiceFault.TheVariants.{NoMemory as no_memory};

    ghost from_gives = { λ _ fault. fault ≡ no_memory };

    fn from(_: AllocError) -> ChoiceFault {
        ChoiceFault::NoMemory
    }
}

/// Sizes as dimensions, or which limit refuses them.
pub(crate) fn limited(alloc: Global, sizes: &[u32]) -> Result<Dims, ChoiceFault>
    ensures dims { Makes (checked_dims sizes.now) result }
    ensures nowhere { IfErr result (λ f. position_in f ≡ None) }
{
    match dims_of(alloc, sizes) {
        Ok(dims) => Ok(dims),
        Err(ShapeFault::TooManyDims) => Err(ChoiceFault::TooManyDims),
        Err(ShapeFault::TooLarge) => Err(ChoiceFault::TooLarge),
        Err(ShapeFault::Mismatch) => unreachable!(),
    }
}

/// The number of elements of sizes within the limits.
pub(crate) fn count_of(sizes: &[u32]) -> u32
    requires { extent sizes.now ≤ extent_limit }
    ensures { result ≡ size_of sizes.now }
{
    match size(sizes) {
        Some(count) => count,
        None => unreachable!(),
    }
}
