//! Folds of numbers in machine words: a sum or product may wrap at 64 bits on the way, since it is
//! wrapped to its type in the end.
ghost use Rattle.std.specs.Prelude.{◌≡◌, ◌+ℤ◌, ◌*ℤ◌, fold};
ghost use Rattle.std.specs.Int.{int_max, int_min, int_wrap, w64};

use pdl_elem::{congruence_laws, wrapping_laws};
use pdl_numbers::Folding;

/// Sums.
pub(crate) struct Adding;

impl Folding for Adding {
    ghost taken = { λ so_far number. int_wrap w64 (so_far +ℤ number) };

    fn take(so_far: i64, number: i64) -> i64 {
        so_far.wrapping_add(number)
    }

    fn wraps_late() -> bool {
        wrapping_laws();
        congruence_laws();
        true
    }
}

/// Products.
pub(crate) struct Multiplying;

impl Folding for Multiplying {
    ghost taken = { λ so_far number. int_wrap w64 (so_far *ℤ number) };

    fn take(so_far: i64, number: i64) -> i64 {
        so_far.wrapping_mul(number)
    }

    fn wraps_late() -> bool {
        wrapping_laws();
        congruence_laws();
        true
    }
}

/// The greatest.
pub(crate) struct Rising;

impl Folding for Rising {
    ghost taken = { int_max };

    fn take(so_far: i64, number: i64) -> i64 {
        so_far.max(number)
    }

    fn wraps_late() -> bool {
        false
    }
}

/// The least.
pub(crate) struct Falling;

impl Folding for Falling {
    ghost taken = { int_min };

    fn take(so_far: i64, number: i64) -> i64 {
        so_far.min(number)
    }

    fn wraps_late() -> bool {
        false
    }
}

/// What numbers after those before them come to.
pub(crate) fn fold_block<F: Folding>(start: i64, numbers: &[i64]) -> i64
    ensures { result ≡ fold F.taken start numbers.now }
{
    let mut so_far = start;
    for number in numbers {
        so_far = F::take(so_far, *number);
    }
    so_far
}
