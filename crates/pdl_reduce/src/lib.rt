//! Sums, products, extremes and prefixes along dimension 0 and of whole arrays (PDL::Ufunc), and
//! the inner, outer and matrix product of two arrays (PDL::Primitive).
//!
//! Arrays come as windows that are only read: reductions in blocks of 512 elements, products a core
//! block of each array at a time.
#![tactic(auto)]

mod collected;
mod columns;
mod folds;
mod matrices;
mod meeting;
mod products;
mod reducing;
mod rows;
mod sums;
mod windows;

pub use products::pair;
pub use reducing::{reduce, reduce_whole};
use std::alloc::AllocError;

/// What a reduction makes of each list of elements along dimension 0. Sums and products have the
/// higher of the array's type and long, and wrap.
#[derive(Clone, Copy, PartialEq, Eq, Debug)]
pub enum Reduction {
    /// Their sum, 0 for none.
    Sumover,
    /// Their product, 1 for none.
    Prodover,
    /// The greatest of them, at the array's type.
    Maximum,
    /// The least of them, at the array's type.
    Minimum,
    /// The first place of the greatest, a long.
    MaximumInd,
    /// The first place of the least, a long.
    MinimumInd,
    /// At each place the sum of those up to it, which keeps dimension 0.
    Cumusumover,
    /// At each place the product of those up to it, which keeps dimension 0.
    Cumuprodover,
}

/// What a reduction makes of all elements of an array, in their order.
#[derive(Clone, Copy, PartialEq, Eq, Debug)]
pub enum Whole {
    /// Their sum, as `Sumover`.
    Sum,
    /// Their product, as `Prodover`.
    Prod,
    /// The greatest of them.
    Max,
    /// The least of them.
    Min,
    /// A byte 1 where none is 0, else 0.
    All,
    /// A byte 1 where some isn't 0, else 0.
    Any,
}

/// A product of two arrays, by its signature.
#[derive(Clone, Copy, PartialEq, Eq, Debug)]
pub enum Pairing {
    /// `a(n); b(n); [o]c()`: the sum over n of a(n) * b(n).
    Inner,
    /// `a(n); b(m); [o]c(n,m)`: the products a(n) * b(m).
    Outer,
    /// `a(t,h); b(w,t); [o]c(w,h)`: the sum over t of a(t,h) * b(w,t).
    Matmult,
}

/// Why there is no result, in the order in which a call answers these; only `NoMemory` may be
/// answered at any call.
#[derive(Clone, Copy, PartialEq, Eq, Debug)]
pub enum ReduceFault {
    /// The sizes of two arrays don't fit together.
    Mismatch,
    /// The result would have more than 16 dimensions.
    TooManyDims,
    /// The product of the result's sizes that aren't 0 would be above 1,048,576.
    TooLarge,
    /// The broadcast size times all named sizes, where a named size of 0 counts as 1, is above
    /// 16,777,216.
    TooMuchWork,
    /// An extreme is asked of no elements.
    EmptyReduce,
    /// Memory has run out.
    NoMemory,
}

impl From<AllocError> for ReduceFault {
    ghost use Rattle.std.specs.Prelude.{◌≡◌};
    ghost use Rattle.pdl_reduce.specs.declared.ReduceFault.TheVariants.{NoMemory};

    ghost from_gives = { λ _ fault. fault ≡ NoMemory };

    fn from(_error: AllocError) -> ReduceFault {
        ReduceFault::NoMemory
    }
}
