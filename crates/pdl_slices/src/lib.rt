//! Reads slice texts, as `0:4,(2),*3`, into lists of slice arguments.
#![tactic(auto)]

ghost use Rattle.std.specs.Prelude.{◌≡◌, ◌≢◌, ◌<◌, ◌^◌, ◌++◌, ◌∷◌, [], length, IfOk, IfErr, OnOk, OnErr, MatchResult};
ghost use Rattle.pdl_slices.specs.Refusals.{IsRead, IsFaultOf, LimitsAre};
ghost use Rattle.pdl_slices.specs.Meaning.{TextsHaveOneMeaning};
ghost use Rattle.pdl_slices.specs.Written.{WrittenTextsAreRead};
ghost use Rattle.pdl_slices.specs.declared.SliceFault.{SliceFault};

mod reader;
mod reading;

pub use reader::MOST_ARGS;
use reader::Reader;
pub use reading::LARGEST_SIZE;
use std::alloc::{AllocError, Global};
use std::marker::Model;

/// One argument of a slice (PDL::Slices). It says what is taken of one dimension of the parent,
/// but `Dummy`, which takes no dimension and makes a new one.
#[derive(Clone, Copy, Debug, PartialEq, Eq)]
pub enum SliceArg {
    /// The whole dimension.
    Whole,
    /// One element, in a dimension of size 1.
    One(i32),
    /// One element, without a dimension.
    Dropped(i32),
    /// A new dimension of this size.
    Dummy(u32),
    /// From one element to another, both included, by a step. What is left out is `None`.
    Span {
        from: Option<i32>,
        to: Option<i32>,
        step: Option<i32>,
    },
}

/// Why a text gives no arguments. Where several hold, the first one of this list is answered;
/// only `NoMemory` may be answered at any text.
#[derive(Clone, Copy, Debug, PartialEq, Eq)]
pub enum SliceFault {
    /// The text isn't a slice text. The longest prefix that some slice text
    /// begins with has `at` bytes.
    BadText { at: u32 },
    /// More than `MOST_ARGS` arguments.
    TooManyArgs,
    /// A number's size is above `LARGEST_SIZE`.
    NumberTooLarge,
    /// A span has the step 0.
    ZeroStep,
    /// Memory has run out.
    NoMemory,
}

impl From<AllocError> for SliceFault {
    ghost use Rattle.pdl_slices.specs.declared.SliceFault.{SliceFault};

    ghost from_gives = { λ _ e. e ≡ SliceFault.NoMemory };

    fn from(_e: AllocError) -> SliceFault {
        SliceFault::NoMemory
    }
}

/// A list of slice arguments, in the order of their text.
#[derive(Clone, Debug, Drop)]
pub struct SliceArgs {
    args: Vec<SliceArg>,
}

impl Model for SliceArgs {
    ghost use Rattle.std.specs.Prelude.{List};
    ghost use Rattle.pdl_slices.specs.declared.SliceArg.{SliceArg};

    ghost Value = { List SliceArg };

    ghost view = { λ a. a.args.items };
}

impl SliceArgs {
    /// No arguments.
    pub fn new(alloc: Global) -> Self
        ensures { result ≡ [] }
    {
        SliceArgs {
            args: Vec::new(alloc),
        }
    }

    /// Puts an argument at the end.
    pub fn push(&mut self, arg: SliceArg) -> Result<(), AllocError>
        ensures ok { OnOk result (self.new ≡ self.old ++ arg ∷ []) }
        ensures err { OnErr result (self.new ≡ self.old) }
    {
        self.args.push(arg)?;
        Ok(())
    }

    /// The arguments in order.
    pub fn as_slice(&self) -> &[SliceArg]
        ensures { result.now ≡ self.now }
    {
        self.args.as_slice()
    }
}

/// Reads a slice text (PDL::Slices). Its blanks are spaces and tabs.
pub fn read_slice(alloc: Global, text: &[u8]) -> Result<SliceArgs, SliceFault>
    requires { length text.now < 2 ^ 32 }

    ensures read { IfOk result (IsRead text.now) }
    ensures refused { IfErr result (λ fault. fault ≢ SliceFault.NoMemory →
        IsFaultOf text.now fault) }
{
    let mut reader = Reader::new(alloc);
    for (at, byte) in text.iter().enumerate() {
        if !reader.take(*byte)? {
            return Err(SliceFault::BadText { at: at as u32 });
        }
    }
    if !reader.end()? {
        let at = text.len() as u32;
        return Err(SliceFault::BadText { at });
    }
    reader.verdict()
}

/// A text has one meaning: its arguments where it spells some and none of them is refused, else
/// the first refusal, with the place of a bad text. `slice_of` is that meaning as a function.
pub fn slice_meaning()
    ensures { TextsHaveOneMeaning }
{}

/// What is read of some text is read of the text that is written for it: `slice_text` in
/// `specs/Written.antt`.
pub fn written_slices()
    ensures { WrittenTextsAreRead }
{
    slice_meaning();
}

/// A text has at most 32 arguments, and the size of a number is at most 2147483647.
pub fn limits_law()
    ensures { LimitsAre }
{}
