//! Numbers at the edges of a dimension.
ghost use Rattle.std.specs.Prelude.{◌≡◌, ◌<◌, ◌+ℤ◌, pos, IfSome};
ghost use Rattle.std.specs.Int.{int_rem_euclid};
ghost use Rattle.pdl_choice.specs.Edges.{CanPlace, edge_coordinate, edge_refuses};

use crate::Edge;

/// Whether an edge refuses a window of size `window` that begins at `value` in a dimension of size
/// `size`.
pub(crate) fn refuses(edge: Edge, size: u32, window: u64, value: i64) -> bool
    ensures { result ≡ edge_refuses edge size window value }
{
    match edge {
        Edge::Refuse => match u64::try_from(value) {
            Ok(value) => {
                let size = u64::from(size);
                value > size || size - value < window.max(1)
            }
            Err(_) => true,
        },
        Edge::Zero => false,
        Edge::Nearest | Edge::Periodic => size == 0,
    }
}

/// The coordinate in a dimension of size `size` that lies `offset` past `value`, or `None` beyond
/// an edge that reads 0.
pub(crate) fn coordinate(edge: Edge, size: u32, value: i64, offset: u32) -> Option<u32>
    requires { CanPlace edge size (value +ℤ pos offset) }
    ensures bound { IfSome result (λ coordinate. coordinate < size) }
    ensures value { result ≡ edge_coordinate edge size (value +ℤ pos offset) }
{
    // A sum that stands still at the largest number lies beyond any dimension,
    // as the whole sum does.
    let number = value.saturating_add(i64::from(offset));
    if number >= 0 && number < i64::from(size) {
        return Some(number as u32);
    }
    match edge {
        Edge::Refuse => unreachable!(),
        Edge::Zero => None,
        Edge::Nearest => Some(if number < 0 { 0 } else { size - 1 }),
        Edge::Periodic => Some(remainder(size, value, offset)),
    }
}

/// The remainder from 0 to `size` - 1 of the number that lies `offset` past `value`.
fn remainder(size: u32, value: i64, offset: u32) -> u32
    requires { 0 < size }
    ensures bound { result < size }
    ensures value { pos result ≡ int_rem_euclid (value +ℤ pos offset) (pos size) }
{
    let size = i64::from(size);
    match value.checked_add(i64::from(offset)) {
        Some(number) => number.rem_euclid(size) as u32,
        // A value that is reduced first leaves the same remainder, and a sum that fits.
        None => (value.rem_euclid(size) + i64::from(offset)).rem_euclid(size) as u32,
    }
}
