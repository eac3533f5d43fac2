//! Places in flat buffers.
ghost use Rattle.std.specs.Prelude.{◌≡◌, ◌≤◌, ◌<◌, ◌+◌, ℕ, get_or, slice_set, length, pos, All, IfNone, IfSome};
ghost use Rattle.pdl_shape.specs.Shape.{dims_limit, extent_limit};
ghost use Rattle.pdl_kernel.specs.Places.{IsSmall, dot, moved};

/// A core dimension of an argument: its size, and how far one step along it goes in the buffer.
#[derive(Clone, Copy, Debug)]
pub struct Axis {
    pub size: u32,
    pub stride: u32,
}

/// An index, where it is from 0 to a size less 1.
#[inline(always)]
fn index_within(index: i64, size: u32) -> Option<u32>
    ensures some { IfSome result (λ i. (i < size) × (index ≡ pos i)) }
    ensures none { IfNone result ((i : ℕ) → index ≡ pos i → size ≤ i) }
{
    if index < 0 || index >= i64::from(size) {
        None
    } else {
        Some(index as u32)
    }
}

/// A place behind another one: an index along a dimension further, where that is in range.
#[inline(always)]
pub fn moved(axes: &[Axis], place: Option<usize>, dimension: usize, index: i64) -> Option<usize>
    requires small { All IsSmall axes.now }
    requires near { IfSome place (λ q. q ≤ 2305843009213693952) }
    ensures value { result ≡ moved axes.now dimension index place }
    ensures bound { (limit : ℕ) → IfSome place (λ p. p ≤ limit) →
        IfSome result (λ q. q ≤ limit + 4503599627370496) }
{
    match place {
        None => None,
        Some(place) => match axes.get(dimension) {
            None => None,
            Some(axis) => match index_within(index, axis.size) {
                None => None,
                Some(index) => Some(place + axis.stride as usize * index as usize),
            },
        },
    }
}

/// The strides times the coordinates.
pub fn offset(strides: &[u32], coordinates: &[u32]) -> usize
    requires few { length strides.now ≤ dims_limit }
    requires small { All (λ s. s ≤ extent_limit) strides.now }
    ensures value { result ≡ dot strides.now coordinates.now }
    ensures bound { result ≤ 1152921504606846976 }
{
    let mut sum = 0;
    for (k, stride) in strides.iter().enumerate() {
        if k >= coordinates.len() {
            return sum;
        }
        sum += *stride as usize * coordinates[k] as usize;
    }
    sum
}

/// The element of a buffer at a place, and 0 past its end.
#[inline(always)]
pub fn element_in(elems: &[i64], place: usize) -> i64
    ensures { result ≡ get_or elems.now place (pos 0) }
{
    match elems.get(place) {
        Some(x) => *x,
        None => 0,
    }
}

/// Puts a number at a place of a buffer.
#[inline(always)]
pub fn set_in(elems: &mut Vec<i64>, place: usize, x: i64)
    ensures { elems.new.items ≡ slice_set elems.old.items place x }
{
    if place < elems.len() {
        elems[place] = x;
    }
}
