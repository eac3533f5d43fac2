//! Blocks of a window's elements at the type that an operator works at.
ghost use Rattle.std.specs.Prelude.{◌≡◌, ◌+◌, ◌<◌, ◌≤◌, length, map, All};
ghost use Rattle.pdl_elem.specs.Numbers.{wrapped};
ghost use Rattle.pdl_elem.specs.Types.{InRange};
ghost use Rattle.pdl_ops.specs.Elementwise.{operands_from};

use pdl_buf::{Strided, strided_is_turned, strided_read, strided_type};
use pdl_elem::{Ty, wrap_all, wrapping_laws};

/// At most so many elements are worked on at once: three blocks of them stay in the cache.
pub(crate) const BLOCK: usize = 512;

/// So many where a window is turned: four rows of 1,024, which are read side by side.
const ROWS: usize = 4096;

/// At most so many of a window's elements are worked on at once.
pub(crate) fn block_of(from: &Strided<'_>) -> usize
    ensures { 0 < result }
{
    if strided_is_turned(from) { ROWS } else { BLOCK }
}

/// Wraps numbers of one type to another: those of the same type stay.
pub(crate) fn rewrap(from: Ty, to: Ty, numbers: &mut [i64])
    requires { All (InRange from) numbers.old }
    ensures value { numbers.new ≡ map (wrapped to) numbers.old }
    ensures in_range { All (InRange to) numbers.new }
{
    wrapping_laws();
    if from != to {
        wrap_all(to, numbers);
    }
}

/// Sets `into` to the window's elements from a position on, of which there are enough, wrapped to
/// the type.
pub(crate) fn read_operand(from: &Strided<'_>, ty: Ty, first: u32, into: &mut [i64])
    requires { first + length into.old ≤ length from.now.elems }
    ensures value { into.new ≡ operands_from ty first (length into.old) from.now.elems }
    ensures in_range { All (InRange ty) into.new }
{
    strided_read(from, first, into);
    rewrap(strided_type(from), ty, into);
}
