//! Sums of the numbers that are shown, straight from the bytes that are kept.
ghost use Rattle.std.specs.Prelude.{◌≡◌, ◌≤◌, ◌+◌, ◌+ℤ◌, pos, length, fold, take, drop, IfSome};
ghost use Rattle.std.specs.Int.{int_wrap, w64};
ghost use Rattle.pdl_shape.specs.Shape.{size_of};
ghost use Rattle.pdl_shape.specs.Triple.{Reaches};
ghost use Rattle.pdl_numbers.specs.Numbers.{elements_in};
ghost use Rattle.pdl_numbers.specs.Shown.{IsInOrder, shown_through};

use crate::numbers::Numbers;
use crate::packed::Packed;
use crate::placement::Placement;
use crate::types::PackedType;
use pdl_shape::shape_laws;

/// A sum and one number more, in words that wrap.
fn add(sum: i64, number: i64) -> i64
    ensures { result ≡ int_wrap w64 (sum +ℤ number) }
{
    sum.wrapping_add(number)
}

/// The sum of so many numbers from a place on, in words that wrap.
fn sum_from<T: PackedType<N>, const N: usize>(
    numbers: &Packed<T, N>,
    start: usize,
    count: usize,
) -> i64
    requires { start + count ≤ length numbers.now }
    ensures { let xs = take count (drop start numbers.now) in
        result ≡ int_wrap w64 (fold (λ sum x. sum +ℤ x) (pos 0) xs) }
{
    let _count = numbers.len();
    let mut sum = 0;
    for j in 0..count {
        let number = numbers.get(start + j);
        sum = add(sum, number);
    }
    sum
}

/// The sum of so many elements that a placement in order shows of these numbers from a position on.
fn sum_in_order<T: PackedType<N>, const N: usize>(
    numbers: &Packed<T, N>,
    placement: &Placement,
    first: u32,
    count: u32,
) -> i64
    requires within { first + count ≤ size_of placement.now.dims }
    requires reaches { Reaches placement.now (length numbers.now) }
    requires ordered { IsInOrder 1 placement.now.incs placement.now.dims }
    ensures { let xs = take count (drop first (shown_through placement.now numbers.now)) in
        result ≡ int_wrap w64 (fold (λ sum x. sum +ℤ x) (pos 0) xs) }
{
    shape_laws();
    if count == 0 {
        return 0;
    }
    let start = placement.place(first);
    sum_from(numbers, start as usize, count as usize)
}

/// The sum of so many elements that a placement shows of these numbers from a position on, where
/// they are neighbours, in order.
fn sum_where_in_order<T: PackedType<N>, const N: usize>(
    numbers: &Packed<T, N>,
    placement: &Placement,
    first: u32,
    count: u32,
) -> Option<i64>
    requires within { first + count ≤ size_of placement.now.dims }
    requires reaches { Reaches placement.now (length numbers.now) }
    ensures { let xs = take count (drop first (shown_through placement.now numbers.now)) in
        IfSome result (λ sum. sum ≡ int_wrap w64 (fold (λ sum x. sum +ℤ x) (pos 0) xs)) }
{
    if placement.is_in_order {
        Some(sum_in_order(numbers, placement, first, count))
    } else {
        None
    }
}

impl Numbers {
    /// The sum of so many numbers that a placement shows from a position on, where they are
    /// neighbours, in order.
    pub fn sum(&self, placement: &Placement, first: u32, count: u32) -> Option<i64>
        requires within { first + count ≤ size_of placement.now.dims }
        requires reaches { Reaches placement.now (length (elements_in self.now).elems) }
        ensures { let shown = shown_through placement.now (elements_in self.now).elems in
            let xs = take count (drop first shown) in
            IfSome result (λ sum. sum ≡ int_wrap w64 (fold (λ sum x. sum +ℤ x) (pos 0) xs)) }
    {
        match self {
            Numbers::Sbytes(packed) => sum_where_in_order(packed, placement, first, count),
            Numbers::Bytes(packed) => sum_where_in_order(packed, placement, first, count),
            Numbers::Shorts(packed) => sum_where_in_order(packed, placement, first, count),
            Numbers::Ushorts(packed) => sum_where_in_order(packed, placement, first, count),
            Numbers::Longs(packed) => sum_where_in_order(packed, placement, first, count),
            Numbers::Ulongs(packed) => sum_where_in_order(packed, placement, first, count),
            Numbers::Longlongs(packed) => sum_where_in_order(packed, placement, first, count),
        }
    }
}
