//! Operators over whole arrays, conversions, new arrays by their dimensions, and the values that an
//! assignment writes (PDL::Ops, PDL::Core, PDL::Basic, PDL::Broadcasting).
//!
//! Arrays come as windows that are only read, in blocks, and a result is written once.
#![tactic(auto)]

mod arrays;
mod blocks;
mod changes;
mod filling;
mod fills;
mod in_parts;
mod laws;
mod operands;
mod runs;
mod values;

pub use arrays::{convert, copied, elementwise, unary_each};
pub use filling::fill;
pub use fills::Fill;
pub use in_parts::{first_divisor, stretches, value_laws, values_part};
pub use laws::array_laws;
use std::alloc::AllocError;
pub use values::{Keeping, values_for};

/// Why there are no values, in the order in which a call answers these.
#[derive(Clone, Copy, PartialEq, Eq, Debug)]
pub enum OpFault {
    /// Along some dimension two sizes are different, and neither is 1.
    Mismatch,
    /// The product of the joined sizes that aren't 0 would be above 1,048,576.
    TooLarge,
    /// A divisor is 0, in broadcast order first at this position of the joined dimensions.
    DivideByZero { place: u32 },
    /// Memory has run out.
    NoMemory,
}

impl From<AllocError> for OpFault {
    ghost use Rattle.std.specs.Prelude.{◌≡◌};
    ghost use Rattle.pdl_ops.specs.declared.OpFault.TheVariants.{NoMemory};

    ghost from_gives = { λ _ fault. fault ≡ NoMemory };

    fn from(_error: AllocError) -> OpFault {
        OpFault::NoMemory
    }
}
