//! Nice slices, as `$x(1:3)`: rewrites the text of a statement so that each is a call of `nice`.
#![tactic(auto)]

mod brackets;
mod laws;
mod looks;
mod pattern;
mod rewriting;
mod writing;

pub use laws::{plain_meaning, texts_stay};
pub use looks::has_nice;
pub use rewriting::{Rooms, plain, write_plain};
use std::alloc::AllocError;

/// Why a text has no plain text. Where several hold, the first one of this list is answered; only
/// `NoMemory` may be answered at any text.
#[derive(Clone, Copy, Debug, PartialEq, Eq)]
pub enum NiceFault {
    /// More than 64 brackets are open at some token.
    TooDeep,
    /// A nice part isn't closed, or has an argument that is of no form.
    Syntax,
    /// The plain text has more than 65,536 bytes.
    TooLong,
    /// Memory is short. No clause ties this answer to a cause.
    NoMemory,
}

impl From<AllocError> for NiceFault {
    ghost use Rattle.std.specs.Prelude.{◌≡◌};
    ghost use Rattle.pdl_nice.specs.declared.NiceFault.TheVariants.{NoMemory};

    ghost from_gives = { λ _ fault. fault ≡ NoMemory };

    fn from(_error: AllocError) -> NiceFault {
        NiceFault::NoMemory
    }
}
