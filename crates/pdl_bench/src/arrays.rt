//! Numbers and buffers to work on.
ghost use Rattle.std.specs.Prelude.{◌≡◌, ◌<◌, length, All, IfOk};
ghost use Rattle.pdl_elem.specs.Types.{InRange};

use pdl_buf::{Buf, buf_of, new_steps};
use pdl_elem::{Ty, wrap};
use std::alloc::{AllocError, Global};
use std::marker::Brand;
use std::sync::ledger::{Blank, Ledger};

/// So many numbers of the type, each so far after the one before. None is 0 where the step is even.
pub fn numbers(alloc: Global, ty: Ty, count: u32, step: u32) -> Result<Vec<i64>, AllocError>
    ensures count { IfOk result (λ numbers. length numbers.items ≡ count) }
    ensures in_range { IfOk result (λ numbers. All (InRange ty) numbers.items) }
{
    let mut numbers = Vec::with_capacity(alloc, count as usize)?;
    for i in 0..count {
        numbers.push(wrap(ty, i128::from(i) * i128::from(step) + 1))?;
    }
    Ok(numbers)
}

// A buffer of these numbers, whose elements are counted in a new ledger.
fn counted<L: Ledger>(
    alloc: Global,
    blank: Blank,
    ty: Ty,
    numbers: &[i64],
) -> Result<Buf, AllocError>
    requires name { blank.name ≡ L.name }
    requires parts { blank.parts ≡ L.parts }
    requires some { 0 < blank.parts }
    requires in_range { All (InRange ty) numbers.now }
    ensures { IfOk result (λ buf. length buf.elems ≡ length numbers.now) }
{
    buf_of(alloc, ty, numbers, &mut new_steps::<L>(blank))
}

/// A buffer of so many numbers of the type.
pub fn filled(alloc: Global, ty: Ty, count: u32) -> Result<Buf, AllocError>
    ensures { IfOk result (λ buf. length buf.elems ≡ count) }
{
    let numbers = numbers(alloc, ty, count, 7_919)?;
    counted::<Brand>(alloc, Blank::new(1), ty, &numbers)
}
