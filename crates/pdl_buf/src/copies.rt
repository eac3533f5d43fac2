//! Copying elements from one buffer to another one of the same type, in their own width.
ghost use Rattle.std.specs.Prelude.{◌≡◌, ◌+◌, [], length};
ghost use Rattle.pdl_shape.specs.Places.{write};
ghost use Rattle.pdl_shape.specs.Shape.{size_of};
ghost use Rattle.pdl_shape.specs.Triple.{Reaches};
ghost use Rattle.pdl_numbers.specs.Writes.{placed_from};

use crate::buffer::Buf;
use crate::steps::{Steps, tick_each};
use crate::window::Strided;
use pdl_numbers::Placement;
use pdl_shape::{elements_of, shape_laws};
use std::sync::ledger::Ledger;

/// Takes the elements out of a buffer, and leaves none, of the same type. It moves no element, so it
/// takes no step, and no memory.
pub fn buf_take(buf: &mut Buf) -> Buf
    ensures taken { result ≡ buf.old }
    ensures left { buf.new ≡ record buf.old { elems = [] } }
{
    Buf {
        numbers: buf.numbers.take(),
    }
}

/// Sets the elements that a placement shows of a buffer to those of a window of the same type and
/// dimensions, in order of position. They are copied in their own width. It takes one step for each.
pub fn copy_shown<L: Ledger>(
    into: &mut Buf,
    to: &Placement,
    from: &Strided<'_>,
    steps: &mut Steps<L>,
)
    requires same_type { from.now.ty ≡ into.old.ty }
    requires same_dims { from.now.dims ≡ to.now.dims }
    requires reaches { Reaches to.now (length into.old.elems) }
    ensures value { let places = placed_from to.now 0 (size_of to.now.dims) in
        into.new ≡ record into.old { elems = write places from.now.elems into.old.elems } }
    ensures kept_length { length into.new.elems ≡ length into.old.elems }
    ensures counted { steps.new ≡ steps.old + size_of to.now.dims }
{
    shape_laws();
    let buf = from.buf;
    into.numbers.copy_shown(to, &buf.numbers, &from.placement);
    tick_each(elements_of(&to.triple().dims) as usize, steps);
}
