//! Why a text gives no code.

use std::alloc::AllocError;

/// Why a text gives no code. The first two are looked for first, in this order; of the others,
/// which are about names, the one that stands first in the text is answered, with the place of the
/// first byte of the name, the word or the closing bracket that is refused. Only `NoMemory` may be
/// answered at any text.
#[derive(Clone, Copy, PartialEq, Eq, Debug)]
pub enum KernelFault {
    /// Before the first byte that begins no token, more than 64 of `(` and `%{` are open at once,
    /// or more than 256 operators stand without a `;`, `%{` or `%}` between them.
    TooDeep,
    /// The text isn't of the form of kernel code, or a number is above 9223372036854775807, or a
    /// declared word is reserved, a dimension or a visible local.
    BadText,
    /// There is no such argument, or no local or dimension of this word.
    UnknownArgument { at: u32 },
    /// An input, or a dimension's word, is assigned to.
    WriteToInput { at: u32 },
    /// The argument or the signature has no such dimension, or it is given twice, or it is neither
    /// given nor looped, or its word stands outside a loop over it.
    UnknownDim { at: u32 },
    /// A loop stands inside a loop over the same word.
    NestedSame { at: u32 },
    /// Memory has run out.
    NoMemory,
}

impl From<AllocError> for KernelFault {
    ghost use Rattle.std.specs.Prelude.{◌≡◌};
    ghost use Rattle.pdl_code.specs.declared.fault.KernelFault.TheVariants.{NoMemory};

    ghost from_gives = { λ _ fault. fault ≡ NoMemory };

    fn from(_error: AllocError) -> KernelFault {
        KernelFault::NoMemory
    }
}
