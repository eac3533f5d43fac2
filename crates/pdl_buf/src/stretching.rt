//! Windows that are stretched over broadcast dimensions (PDL::Broadcasting).
ghost use Rattle.std.specs.Prelude.{◌≡◌};
ghost use Rattle.pdl_shape.specs.Broadcast.{BroadcastsTo};
ghost use Rattle.pdl_shape.specs.Stretched.{stretched};

use crate::lending::strided;
use crate::window::Strided;
use pdl_shape::{Dims, shape_laws, stretched_triple};

/// The window stretched over dimensions that it broadcasts to: at each position it shows the
/// element at the position's coordinates, cut to the window's dimensions, with 0 along a size of 1.
/// It takes no memory and copies no element.
pub fn stretched<'a>(from: &Strided<'a>, dims: &Dims) -> Strided<'a>
    requires { BroadcastsTo from.now.dims dims.now }
    ensures { result ≡ record {
      ty = from.now.ty;
      dims = dims.now;
      elems =
          stretched from.now.dims dims.now from.now.elems;
    } }
{
    shape_laws();
    strided(from.buf, &stretched_triple(from.placement.triple(), dims))
}
