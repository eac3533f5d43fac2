//! What numbers come to up to each of them, wrapped to a type and packed as it is found.
ghost use Rattle.std.specs.Prelude.{◌≡◌, ℤ, IsTrue, length, map, fold};
ghost use Rattle.pdl_elem.specs.Numbers.{wrapped};
ghost use Rattle.pdl_numbers.specs.Bytes.{bytes_of, number_of};
ghost use Rattle.pdl_numbers.specs.Folds.{WrapsLate};
ghost use Rattle.pdl_numbers.specs.Prefixes.{wrapped_prefixes};

use crate::types::PackedType;
use pdl_elem::{wrap, wrapping_laws};

/// So many cells are changed without a test between them.
pub(crate) const AT_ONCE: usize = 16;

/// How a number is taken into what those before it come to.
pub trait Folding {
    ghost taken: { ℤ → ℤ → ℤ };

    fn take(so_far: i64, number: i64) -> i64
        ensures { result ≡ taken so_far number };

    /// Whether what others come to may as well be wrapped to its type before each number that is
    /// taken in. Where it may, it can be kept in the width of the type. A folding for which it may
    /// and that answers false is only slower.
    fn wraps_late() -> bool
        ensures { IsTrue result → WrapsLate taken };
}

/// The bytes of a number that is wrapped to the type.
pub(crate) fn packed_wrapped<T: PackedType<N>, const N: usize>(number: i64) -> [u8; N]
    ensures { result ≡ bytes_of T.ty (wrapped T.ty number) }
{
    wrapping_laws();
    T::pack(wrap(T::known(), i128::from(number)))
}

/// Sets each cell to the bytes of what the numbers up to the one that stands for it come to, from a
/// start on, wrapped to the type. It answers what all come to.
pub(crate) fn pack_prefixes<F: Folding, T: PackedType<N>, const N: usize>(
    start: i64,
    numbers: &[i64],
    cells: &mut [[u8; N]],
) -> i64
    requires paired { length cells.old ≡ length numbers.now }
    ensures value { result ≡ fold F.taken start numbers.now }
    ensures packed { cells.new
        ≡ map (bytes_of T.ty) (wrapped_prefixes T.ty F.taken start numbers.now) }
{
    let mut so_far = start;
    for (i, number) in numbers.iter().enumerate() {
        so_far = F::take(so_far, *number);
        cells[i] = packed_wrapped::<T, N>(so_far);
    }
    so_far
}

/// The number in each cell becomes what the numbers up to it come to, from a start on, wrapped to the
/// type. It answers what all come to. In line a known number of cells needs no test between them.
#[inline(always)]
fn update_part<F: Folding, T: PackedType<N>, const N: usize>(
    start: i64,
    cells: &mut [[u8; N]],
) -> i64
    ensures value { result ≡ fold F.taken start (map (number_of T.ty) cells.old) }
    ensures packed { let numbers = map (number_of T.ty) cells.old in
        cells.new ≡ map (bytes_of T.ty) (wrapped_prefixes T.ty F.taken start numbers) }
{
    let mut so_far = start;
    for place in 0..cells.len() {
        so_far = F::take(so_far, T::unpack(&cells[place]));
        cells[place] = packed_wrapped::<T, N>(so_far);
    }
    so_far
}

/// The number in each cell becomes what the numbers up to it come to, from a start on, wrapped to the
/// type. It answers what all come to.
pub(crate) fn update_prefixes<F: Folding, T: PackedType<N>, const N: usize>(
    start: i64,
    cells: &mut [[u8; N]],
) -> i64
    ensures value { result ≡ fold F.taken start (map (number_of T.ty) cells.old) }
    ensures packed { let numbers = map (number_of T.ty) cells.old in
        cells.new ≡ map (bytes_of T.ty) (wrapped_prefixes T.ty F.taken start numbers) }
{
    let mut so_far = start;
    let mut done = 0;
    while AT_ONCE <= cells.len() - done {
        so_far = update_part::<F, T, N>(so_far, &mut cells[done..done + AT_ONCE]);
        done += AT_ONCE;
    }
    update_part::<F, T, N>(so_far, &mut cells[done..])
}
