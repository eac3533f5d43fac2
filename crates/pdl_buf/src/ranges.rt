//! Numbers that are kept are in their type's range.
ghost use Rattle.std.specs.Prelude.{All};
ghost use Rattle.pdl_elem.specs.Types.{InRange};
ghost use Rattle.pdl_shape.specs.Triple.{IsTriple};

use crate::packing::{Form, Packing};
use crate::window::Strided;
use pdl_numbers::{Placement, shown_laws};

impl Packing {
    /// All of them are in the type's range. It does nothing: who calls it knows that.
    pub fn are_in_range(&self)
        ensures { All (InRange self.now.ty) self.now.elems }
    {
        match &self.form {
            Form::Wide(_) => {}
            Form::Packed(numbers) => numbers.are_in_range(),
        }
    }
}

/// A placement keeps a triple. It does nothing: who calls it knows that.
fn keeps_triple(placement: &Placement)
    ensures { IsTriple placement.now }
{
    let _dims = &placement.triple().dims;
}

/// The window's elements are in its type's range. It does nothing: who calls it knows that.
pub fn strided_is_in_range(from: &Strided<'_>)
    ensures { All (InRange from.now.ty) from.now.elems }
{
    shown_laws();
    keeps_triple(&from.placement);
    let buf = from.buf;
    buf.numbers.are_in_range();
}
