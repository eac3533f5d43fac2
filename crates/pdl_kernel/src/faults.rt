//! Why a call has no outputs.
use std::alloc::AllocError;

/// A fault of code at one broadcast place.
#[derive(Clone, Copy, PartialEq, Eq, Debug)]
pub enum Fault {
    /// `/` or `%` by 0.
    DivideByZero,
    /// An index isn't from 0 to the size less 1.
    IndexOutOfRange,
}

/// Why a call has no outputs. The place is the first one in broadcast order that has a fault; only
/// `NoMemory` may be answered at any call.
#[derive(Clone, Copy, PartialEq, Eq, Debug)]
pub enum RunFault {
    /// `/` or `%` by 0.
    DivideByZero { place: u32 },
    /// An index isn't from 0 to the size less 1.
    IndexOutOfRange { place: u32 },
    /// Memory has run out.
    NoMemory,
}

impl From<AllocError> for RunFault {
    ghost use Rattle.std.specs.Prelude.{◌≡◌};
    ghost use Rattle.pdl_kernel.specs.declared.faults.RunFault.TheVariants.{NoMemory};

    ghost from_gives = { λ _ fault. fault ≡ NoMemory };

    fn from(_error: AllocError) -> RunFault {
        RunFault::NoMemory
    }
}
