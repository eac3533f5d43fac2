//! The elements of new arrays (PDL::Core, PDL::Basic).
ghost use Rattle.std.specs.Prelude.{◌≡◌, ◌<◌, ◌+◌, ◌/◌, ◌%◌, ℕ, List, get_or};
ghost use Rattle.pdl_shape.specs.Shape.{coordinates_of};
ghost use Rattle.pdl_ops.specs.Fills.{fill_element};

/// What the elements of a new array are, before they are wrapped to its type.
#[derive(Clone, Copy, PartialEq, Eq, Debug)]
pub enum Fill {
    /// 0 everywhere.
    Zeroes,
    /// 1 everywhere.
    Ones,
    /// The position, counted from 0.
    Sequence,
    /// The coordinate along dimension 0, and 0 where there is none.
    Xvals,
    /// The coordinate along dimension 1, and 0 where there is none.
    Yvals,
}

/// The coordinates along dimensions 0 and 1, of these sizes, of the position that comes next. It
/// takes no division.
pub(crate) fn next_coordinates(width: u32, height: u32, x: u32, y: u32) -> (u32, u32)
    requires x { x < width }
    requires y { y < height }
    ensures x { (p : ℕ) → x ≡ p % width → result.0 ≡ (p + 1) % width }
    ensures y { (p : ℕ) → x ≡ p % width → y ≡ p / width % height →
        result.1 ≡ (p + 1) / width % height }
{
    if x + 1 < width {
        (x + 1, y)
    } else if y + 1 < height {
        (0, y + 1)
    } else {
        (0, 0)
    }
}

/// The element at a position of these coordinates along dimensions 0 and 1, before it is wrapped.
pub(crate) fn element(kind: Fill, position: u32, x: u32, y: u32) -> u32
    ensures { (ds : List ℕ) → x ≡ get_or (coordinates_of ds position) 0 0 →
        y ≡ get_or (coordinates_of ds position) 1 0 → result ≡ fill_element kind ds position }
{
    match kind {
        Fill::Zeroes => 0,
        Fill::Ones => 1,
        Fill::Sequence => position,
        Fill::Xvals => x,
        Fill::Yvals => y,
    }
}
