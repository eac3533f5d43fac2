//! Formulas, and what stands in the place of their arrays.
ghost use Rattle.std.specs.Prelude.{◌≡◌, ◌+◌, IfOk, OnOk, OnErr, is_some, option_map};
ghost use Rattle.pdl_numbers.specs.Typed.{count_moved};
ghost use Rattle.pdl_buf.specs.Made.{IsMade, array_of};
ghost use Rattle.pdl_flow.specs.Inputs.{input_of};

use crate::kept::Kept;
use pdl_buf::{Steps, Strided};
use pdl_elem::{BinaryOp, Ty, UnaryOp};
use pdl_shape::Dims;
use std::alloc::{AllocError, Global};
use std::marker::Model;
use std::sync::ledger::Ledger;

/// A formula over arrays, which are known by their numbers.
#[derive(Drop)]
pub enum Formula {
    /// A number of a type.
    Number(Ty, i64),
    /// The array of this number.
    Array(u64),
    Unary(UnaryOp, Box<Formula>),
    Binary(BinaryOp, Box<Formula>, Box<Formula>),
    /// Each element wrapped to a type.
    Convert(Ty, Box<Formula>),
}

/// An array that is kept, by itself or elsewhere.
#[derive(Drop)]
pub enum Value<'a> {
    Own(Kept),
    Lent(&'a Kept),
}

/// The value of the array of this number, in a buffer that operators are lent.
#[derive(Drop)]
pub struct Input<'a> {
    array: u64,
    value: Value<'a>,
}

impl<'a> Model for Input<'a> {
    ghost use Rattle.pdl_flow.specs.Inputs.{Given, held};

    ghost Value = { Given };

    ghost view = { λ i. record { array = i.array; value = held i.value } };
}

impl<'a> Input<'a> {
    /// The input of an array that has these elements. It takes a step for each of them that isn't
    /// 0, and none where it is out of memory.
    pub fn new<L: Ledger>(
        alloc: Global,
        array: u64,
        ty: Ty,
        dims: &Dims,
        elems: &[i64],
        steps: &mut Steps<L>,
    ) -> Result<Input<'a>, AllocError>
        requires { IsMade ty dims.now elems.now }
        ensures input { IfOk result (λ i. i ≡ record {
          array = array;
          value = record { ty = ty; dims = dims.now; elems = elems.now };
        }) }
        ensures counted { OnOk result (steps.new ≡ steps.old + count_moved elems.now) }
        ensures err { OnErr result (steps.new ≡ steps.old) }
    {
        Ok(Input {
            array,
            value: Value::Own(Kept::of_list(alloc, ty, dims, elems, steps)?),
        })
    }

    /// The input of an array that shows this window, from which it is copied. It takes the same
    /// steps.
    pub fn shown<L: Ledger>(
        alloc: Global,
        array: u64,
        window: &Strided<'_>,
        steps: &mut Steps<L>,
    ) -> Result<Input<'a>, AllocError>
        ensures input { IfOk result
            (λ i. i ≡ record { array = array; value = array_of window.now }) }
        ensures counted { OnOk result (steps.new ≡ steps.old + count_moved window.now.elems) }
        ensures err { OnErr result (steps.new ≡ steps.old) }
    {
        Ok(Input {
            array,
            value: Value::Own(Kept::copied(alloc, window, steps)?),
        })
    }

    /// The input of an array that is kept so elsewhere, of which nothing is copied.
    pub fn lent(array: u64, kept: &'a Kept) -> Input<'a>
        ensures { result ≡ record { array = array; value = kept.now } }
    {
        Input {
            array,
            value: Value::Lent(kept),
        }
    }

    /// The number of the array.
    fn array(&self) -> u64
        ensures { result ≡ self.now.array }
    {
        self.array
    }

    /// The array that is kept.
    fn kept(&self) -> &Kept
        ensures { result.now ≡ self.now.value }
    {
        match &self.value {
            Value::Own(kept) => kept,
            Value::Lent(kept) => *kept,
        }
    }
}

/// The value of an array by its first input.
pub(crate) fn find_input<'a>(inputs: &'a [Input<'_>], array: u64) -> Option<&'a Kept>
    ensures { option_map (λ k. k.now) result ≡ input_of inputs.now array }
{
    for input in inputs {
        if input.array() == array {
            return Some(input.kept());
        }
    }
    None
}

/// Whether one of the inputs is that of this array.
pub fn has_input(inputs: &[Input<'_>], array: u64) -> bool
    ensures { result ≡ is_some (input_of inputs.now array) }
{
    find_input(inputs, array).is_some()
}
