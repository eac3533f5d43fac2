//! The reader of slice texts: the arguments so far, and the place in the next one.

ghost use Rattle.std.specs.Prelude.{◌≡◌, [], ◌∷◌, ◌++◌, List, IfOk, OnOk};
ghost use Rattle.pdl_slices.specs.Collected.{Holds, Collects, Takes, Ends};
ghost use Rattle.pdl_slices.specs.Meaning.{verdict_on};
ghost use Rattle.pdl_slices.specs.SliceReading.{Stage, stage_after, kind_of, finished, fitted, is_first, first_stage};
ghost use Rattle.pdl_slices.specs.Refusals.{has_zero_step};
ghost use Rattle.pdl_slices.specs.declared.SliceArg.{SliceArg};

use crate::reading::{
    Kind, NumberSoFar, Place, Slot, TooLarge, ending_argument, is_first, kind_of, moved,
};
use crate::{SliceArg, SliceArgs, SliceFault};
use std::alloc::{AllocError, Global};

/// The most arguments that a text may have.
pub const MOST_ARGS: u32 = 32;

/// An argument begins.
const FIRST_PLACE: Place = Place {
    slot: Slot::Single,
    part: NumberSoFar::Before,
};

#[derive(Drop)]
pub struct Reader {
    place: Place,
    args: SliceArgs,
    /// How many arguments have ended, counted no further than one above the most.
    count: u32,
    too_large: bool,
    zero_step: bool,
}

fn has_zero_step(arg: &SliceArg) -> bool
    ensures { result ≡ has_zero_step arg.now }
{
    matches!(arg, SliceArg::Span { step: Some(0), .. })
}

impl Reader {
    pub fn new(alloc: Global) -> Self
        ensures { Holds first_stage result }
    {
        Reader {
            place: FIRST_PLACE,
            args: SliceArgs::new(alloc),
            count: 0,
            too_large: false,
            zero_step: false,
        }
    }

    /// Takes a byte, if it may stand there.
    pub fn take(&mut self, byte: u8) -> Result<bool, AllocError>
        ensures { IfOk result (λ fits. (s : Stage) → Holds s self.old →
            Takes fits (stage_after s (kind_of byte)) self.new) }
    {
        match kind_of(byte) {
            Kind::Comma => self.end_arg(),
            kind => match moved(self.place, kind) {
                None => Ok(false),
                Some(place) => {
                    self.place = place;
                    Ok(true)
                }
            },
        }
    }

    /// Ends the text, if it may end there.
    pub fn end(&mut self) -> Result<bool, AllocError>
        ensures { IfOk result (λ fits. (s : Stage) → Holds s self.old →
            Ends fits (finished s) self.new) }
    {
        if self.count == 0 && is_first(self.place) {
            Ok(true)
        } else {
            self.end_arg()
        }
    }

    /// Ends an argument, if it may end there.
    fn end_arg(&mut self) -> Result<bool, AllocError>
        ensures { IfOk result (λ fits. (s : Stage) → Holds s self.old →
            Takes fits (stage_after s Kind.Comma) self.new) }
    {
        match ending_argument(self.place) {
            None => Ok(false),
            Some(arg) => {
                self.add(arg)?;
                self.place = FIRST_PLACE;
                Ok(true)
            }
        }
    }

    fn add(&mut self, arg: Result<SliceArg, TooLarge>) -> Result<(), AllocError>
        ensures { OnOk result ((done : List SliceArg) (a : SliceArg) → arg ≡ fitted a →
            Collects done self.old → Collects (done ++ a ∷ []) self.new) }
    {
        if self.count <= MOST_ARGS {
            self.count += 1;
        }
        match arg {
            Err(TooLarge) => self.too_large = true,
            Ok(arg) => {
                if has_zero_step(&arg) {
                    self.zero_step = true;
                }
                if self.count <= MOST_ARGS {
                    self.args.push(arg)?;
                }
            }
        }
        Ok(())
    }

    /// The arguments, or the first refusal of them.
    pub fn verdict(self) -> Result<SliceArgs, SliceFault>
        ensures { (done : List SliceArg) → Collects done self → result ≡ verdict_on done }
    {
        if self.count > MOST_ARGS {
            Err(SliceFault::TooManyArgs)
        } else if self.too_large {
            Err(SliceFault::NumberTooLarge)
        } else if self.zero_step {
            Err(SliceFault::ZeroStep)
        } else {
            Ok(self.args)
        }
    }
}
