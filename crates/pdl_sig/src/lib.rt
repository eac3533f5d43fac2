//! Signatures of operations on broadcast arrays, and what the arguments of a call resolve to
//! (PDL::PP, Signatures).
#![tactic(auto)]

mod cores;
mod inputs;
mod joins;
pub mod laws;
mod lexing;
mod naming;
mod reading;
mod refusing;
mod resolving;
mod shapes;
mod signing;
pub mod written;

pub use inputs::is_output;
pub use lexing::reserved_word;
use pdl_elem::{Items, Name, Ty};
use pdl_shape::Dims;
pub use refusing::{MOST_ARGS, MOST_DIM_NAMES};
pub use resolving::resolve;
pub use signing::read_signature;
use std::alloc::AllocError;

/// What an argument is to a call.
#[derive(Clone, Copy, PartialEq, Eq, Debug)]
pub enum Role {
    /// The caller hands it in.
    Input,
    /// `[o]`: the call makes it.
    Output,
    /// `[io]`: the caller hands in how it starts, and the call makes it.
    Both,
    /// `[t]`: the call makes it for itself, at each place of the broadcast.
    Temp,
}

/// Of which type an argument is.
#[derive(Clone, Copy, PartialEq, Eq, Debug)]
pub enum ArgType {
    /// No type word: the call's generic type.
    Generic,
    /// A type word: that type.
    Fixed(Ty),
    /// A type word and `+`: the higher one of that type and the generic type.
    AtLeast(Ty),
}

/// What a word is that is reserved in kernel code.
#[derive(Clone, Copy)]
pub enum Reserved {
    /// `loop`
    Loop,
    /// `if`
    If,
    /// `else`
    Else,
    /// `int` or `long`: a local of this type is declared.
    LongLocal,
    /// `longlong`: a local of this type is declared.
    LonglongLocal,
}

/// One argument of a signature.
#[derive(Debug, Drop)]
pub struct SigArg {
    pub name: Name,
    pub role: Role,
    pub ty: ArgType,
    /// The core dimensions, dimension 0 first, by their numbers among the signature's names.
    pub dims: Items<u8>,
}

/// A signature, as `a(n); b(n); [o]c()`.
#[derive(Debug, Drop)]
pub struct Signature {
    /// The arguments in the order of the text.
    pub args: Items<SigArg>,
    /// The names of the dimensions, in the order in which they first stand in the text.
    pub names: Items<Name>,
    /// For each name the size that the text fixes it to, if any.
    pub fixed: Items<Option<u32>>,
}

/// Why a text gives no signature. Where several hold, the first one of this list is answered; only
/// `NoMemory` may be answered at any text.
#[derive(Clone, Copy, PartialEq, Eq, Debug)]
pub enum SigFault {
    /// The text isn't of the form of a signature, or has a word or a number that isn't allowed
    /// there.
    BadText,
    /// More than 16 arguments, or more than 8 names of dimensions.
    TooManyNames,
    /// An argument's name stands twice, or within one argument a dimension, or a dimension is fixed
    /// to two numbers.
    TwiceNamed,
    /// No argument is `[o]` or `[io]`.
    NoOutput,
    /// A dimension stands in no input or `[io]` argument, and isn't fixed.
    OpenSize,
    /// Memory has run out.
    NoMemory,
}

impl From<AllocError> for SigFault {
    ghost use Rattle.std.specs.Prelude.{◌≡◌};
    ghost use Rattle.pdl_sig.specs.declared.SigFault.{SigFault};

    ghost from_gives = { λ _ e. e ≡ SigFault.NoMemory };

    fn from(_e: AllocError) -> SigFault {
        SigFault::NoMemory
    }
}

/// The type and the dimensions of an array that is given to a call.
#[derive(Debug, Drop)]
pub struct ArgShape {
    pub ty: Ty,
    pub dims: Dims,
}

/// What the arguments of a call resolve to.
#[derive(Debug, Drop)]
pub struct Resolved {
    /// The generic type.
    pub generic: Ty,
    /// The type of each argument of the signature, temporaries too.
    pub types: Items<Ty>,
    /// The size of each named dimension.
    pub sizes: Items<u32>,
    /// The dimensions over which the call is broadcast.
    pub broadcast: Dims,
    /// The shape of each argument of the signature: of an output the whole shape, core sizes and
    /// then the broadcast dimensions; of a temporary the core sizes; of an input the given shape.
    pub shapes: Items<Dims>,
}

/// Why the arguments of a call don't resolve. Where several hold, the first one of this list is
/// answered; only `NoMemory` may be answered at any call.
#[derive(Clone, Copy, PartialEq, Eq, Debug)]
pub enum ResolveFault {
    /// The number of given arguments isn't that of the inputs and `[io]` arguments.
    ArgCount,
    /// A core size is neither 1 nor the size of its dimension.
    CoreMismatch,
    /// The dimensions after the core ones don't join.
    BroadcastMismatch,
    /// An `[io]` argument isn't of its core sizes and then the broadcast dimensions.
    StretchedInOut,
    /// An output would have more than 16 dimensions.
    TooManyDims,
    /// The extent of the broadcast dimensions, of an output or of a temporary is above 1,048,576.
    TooLarge,
    /// The broadcast size times all named sizes, where a named size of 0 counts as 1, is above
    /// 16,777,216.
    TooMuchWork,
    /// Memory has run out.
    NoMemory,
}

impl From<AllocError> for ResolveFault {
    ghost use Rattle.std.specs.Prelude.{◌≡◌};
    ghost use Rattle.pdl_sig.specs.declared.ResolveFault.{ResolveFault};

    ghost from_gives = { λ _ e. e ≡ ResolveFault.NoMemory };

    fn from(_e: AllocError) -> ResolveFault {
        ResolveFault::NoMemory
    }
}
