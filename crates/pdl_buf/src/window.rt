//! Windows on a buffer: the elements that a triple shows.
ghost use Rattle.std.specs.Prelude.{◌≡◌, ◌<◌, pos, length, get_or};
ghost use Rattle.pdl_elem.specs.Types.{InRange};
ghost use Rattle.pdl_shape.specs.Shape.{size_of};

use crate::buffer::{Buf, buf_get};
use pdl_elem::Ty;
use pdl_numbers::{Placement, shown_laws};
use pdl_shape::Dims;
use std::marker::Model;

/// A borrowed buffer as a triple shows it: the element at coordinates is the buffer's at the
/// triple's offset plus its increments times the coordinates. Contracts see the type, the
/// dimensions and the elements in order of position.
#[derive(Drop)]
pub struct Strided<'a> {
    pub(crate) buf: &'a Buf,
    pub(crate) placement: Placement,
}

impl<'a> Model for Strided<'a> {
    ghost use Rattle.std.specs.Prelude.{length};
    ghost use Rattle.pdl_shape.specs.Triple.{Reaches};
    ghost use Rattle.pdl_buf.specs.Window.{Window};
    ghost use Rattle.pdl_numbers.specs.Shown.{shown_through};

    ghost Value = { Window };

    ghost view = { λ s. record {
      ty = s.buf.now.ty;
      dims = s.placement.dims;
      elems = shown_through s.placement s.buf.now.elems;
    } };

    ghost invariant = { λ s. Reaches s.placement (length s.buf.now.elems) };
}

/// The window's dimensions.
pub fn strided_dims<'b>(from: &'b Strided<'_>) -> &'b Dims
    ensures dims { result.now ≡ from.now.dims }
    ensures count { length from.now.elems ≡ size_of from.now.dims }
{
    &from.placement.triple().dims
}

/// The type of the window's elements.
pub fn strided_type(from: &Strided<'_>) -> Ty
    ensures { result ≡ from.now.ty }
{
    let buf = from.buf;
    buf.numbers.ty()
}

/// The window's element at a position, which is below the number of elements.
pub fn strided_get(from: &Strided<'_>, position: u32) -> i64
    requires { position < length from.now.elems }
    ensures value { result ≡ get_or from.now.elems position (pos 0) }
    ensures in_range { InRange from.now.ty result }
{
    shown_laws();
    buf_get(from.buf, from.placement.place(position))
}
