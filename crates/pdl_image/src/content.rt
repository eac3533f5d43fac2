//! The numbers that a root is filled with, wherever they are kept, and parts of them.
ghost use Rattle.std.specs.Prelude.{◌≡◌, ◌≤◌, ◌<◌, ◌^◌, ◌+◌, ◌*◌, false, pos, All, length, take, drop, get_or};
ghost use Rattle.std.specs.List.Sorted.{IsNonDecreasing};
ghost use Rattle.pdl_image.specs.declared.TheConstants.{PART};
ghost use Rattle.pdl_image.specs.Adding.{IsSound, kept_numbers, part_count};
ghost use Rattle.pdl_image.specs.Dump.{is_least, mask_of};

use crate::PART;
use crate::masks::read_mask;
use pdl_buf::{Strided, strided_dims, strided_is_in_range, strided_read, strided_type};
use pdl_elem::Ty;
use pdl_shape::elements_of;
use std::marker::Model;

/// Where numbers are kept: in a window, in a list, or as the places of the ones among so many
/// numbers that are 0 or 1.
#[derive(Clone, Copy)]
pub enum Kept<'a> {
    Shown(&'a Strided<'a>),
    Listed(&'a [i64]),
    Marked { count: usize, places: &'a [u32] },
}

impl Kept<'_> {
    /// Sets each of `into` to the numbers from a position on, of which there are enough.
    fn read(&self, first: usize, into: &mut [i64])
        requires sound { IsSound self.now }
        requires within { first + length into.old ≤ length (kept_numbers self.now) }
        requires small { first + length into.old < 2 ^ 31 }
        ensures { into.new ≡ take (length into.old) (drop first (kept_numbers self.now)) }
    {
        match self {
            Kept::Shown(elems) => strided_read(elems, first as u32, into),
            Kept::Listed(numbers) => into.copy_from_slice(&numbers[first..first + into.len()]),
            Kept::Marked { places, .. } => read_mask(places, first, into),
        }
    }

    /// Whether one of the numbers could be the least longlong.
    fn can_be_least(&self) -> bool
        ensures { result ≡ false → All (λ n. is_least n ≡ false) (kept_numbers self.now) }
    {
        match self {
            Kept::Shown(elems) => {
                strided_is_in_range(elems);
                strided_type(elems) == Ty::Longlong
            }
            Kept::Listed(_) => true,
            Kept::Marked { .. } => false,
        }
    }
}

/// Numbers in their order: some of those that are kept, from one on. It is seen as the list of
/// them. They are read part by part, into an array that takes no memory of the heap.
#[derive(Drop)]
pub struct Content<'a> {
    kept: Kept<'a>,
    first: usize,
    count: usize,
}

impl<'a> Model for Content<'a> {
    ghost use Rattle.std.specs.Prelude.{◌≤◌, ◌<◌, ◌^◌, ◌+◌, List, ℤ, length, take, drop};
    ghost use Rattle.pdl_image.specs.Adding.{IsSound, kept_numbers};

    ghost Value = { List ℤ };

    ghost view = { λ c. take c.count (drop c.first (kept_numbers c.kept)) };

    ghost invariant = { λ c. (c.first + c.count ≤ length (kept_numbers c.kept))
        × ((c.first + c.count < 2 ^ 31) × IsSound c.kept) };
}

/// How many parts so many numbers have.
pub fn part_count(count: usize) -> usize
    requires { count < 2 ^ 31 }
    ensures { result ≡ part_count count }
{
    (count + (PART - 1)) / PART
}

impl<'a> Content<'a> {
    /// The elements of a window.
    pub fn shown(elems: &'a Strided<'a>) -> Content<'a>
        ensures { result ≡ elems.now.elems }
    {
        let count = elements_of(strided_dims(elems)) as usize;
        Content {
            kept: Kept::Shown(elems),
            first: 0,
            count,
        }
    }

    /// The numbers of a list, which is no longer than an array.
    pub fn listed(numbers: &'a [i64]) -> Content<'a>
        requires { length numbers.now < 2 ^ 31 }
        ensures { result ≡ numbers.now }
    {
        Content {
            kept: Kept::Listed(numbers),
            first: 0,
            count: numbers.len(),
        }
    }

    /// So many numbers of a mask, which is 1 at the listed places. These rise.
    pub fn marked(count: usize, places: &'a [u32]) -> Content<'a>
        requires rises { IsNonDecreasing places.now }
        requires small { count < 2 ^ 31 }
        ensures { result ≡ mask_of count places.now }
    {
        Content {
            kept: Kept::Marked { count, places },
            first: 0,
            count,
        }
    }

    /// How many numbers there are.
    pub fn len(&self) -> usize
        ensures count { result ≡ length self.now }
        ensures small { result < 2 ^ 31 }
    {
        self.count
    }

    /// The numbers from a position on, so many at most.
    pub fn cut(&self, first: usize, most: usize) -> Content<'a>
        ensures { result ≡ take most (drop first self.now) }
    {
        let before = first.min(self.count);
        Content {
            kept: self.kept,
            first: self.first + before,
            count: (self.count - before).min(most),
        }
    }

    /// The numbers of a part, counted from 0.
    pub fn part(&self, p: usize) -> Content<'a>
        requires { PART * p < 2 ^ 32 }
        ensures { result ≡ take PART (drop (PART * p) self.now) }
    {
        self.cut(PART * p, PART)
    }

    /// Sets `into`, which is as long, to the numbers.
    pub fn read(&self, into: &mut [i64])
        requires { length into.old ≡ length self.now }
        ensures { into.new ≡ self.now }
    {
        self.kept.read(self.first, into);
    }

    /// The first number, of at least one.
    pub fn head(&self) -> i64
        requires { 0 < length self.now }
        ensures { result ≡ get_or self.now 0 (pos 0) }
    {
        let mut one = [0; 1];
        self.cut(0, 1).read(&mut one);
        one[0]
    }

    /// Whether one of the numbers could be the least longlong.
    pub fn can_be_least(&self) -> bool
        ensures { result ≡ false → All (λ n. is_least n ≡ false) self.now }
    {
        self.kept.can_be_least()
    }
}
