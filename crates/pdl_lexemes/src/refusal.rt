//! Why nothing is read.

use std::alloc::AllocError;

/// The lexemes don't follow the grammar, or there is no memory.
#[derive(Clone, Copy, Debug)]
pub enum Refusal {
    Refused,
    NoMemory,
}

impl From<AllocError> for Refusal {
    ghost use Rattle.std.specs.Prelude.{◌≡◌};
    ghost use Rattle.pdl_lexemes.specs.declared.refusal.Refusal.TheVariants.{NoMemory};

    ghost from_gives = { λ _ r. r ≡ NoMemory };

    fn from(_error: AllocError) -> Refusal {
        Refusal::NoMemory
    }
}
