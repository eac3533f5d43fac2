//! Operators on blocks of numbers.
ghost use Rattle.std.specs.Prelude.{◌≡◌, length, All};
ghost use Rattle.pdl_elem.specs.Types.{InRange};

use crate::arrays::numbers;
use crate::stopwatch::{RUNS, Timing, UNKNOWN, now, since};
use pdl_elem::{BinaryOp, Ty, binary_all};
use std::alloc::{AllocError, Global};
use std::rt::Clock;

/// How many numbers a block has.
const BLOCK: u32 = 512;

/// How many blocks a run works on.
const BLOCKS: u32 = 2_000;

/// Times `binary_all` on the same two blocks again and again.
pub fn time(clock: &impl Clock, alloc: Global, op: BinaryOp, ty: Ty) -> Result<Timing, AllocError> {
    // Made first: behind the others it would lie so that a read came upon the same place within
    // 4,096 bytes as a write just before, for which the machine waits.
    let mut into = numbers(alloc, ty, BLOCK, 0)?;
    time_into(clock, alloc, op, ty, &mut into)
}

// Times it where it writes this block.
fn time_into(
    clock: &impl Clock,
    alloc: Global,
    op: BinaryOp,
    ty: Ty,
    into: &mut [i64],
) -> Result<Timing, AllocError>
    requires { length into.old ≡ 512 }
{
    let a = numbers(alloc, ty, BLOCK, 7_919)?;
    time_left(clock, alloc, op, ty, &a, into)
}

// The same, where this block is on the left.
fn time_left(
    clock: &impl Clock,
    alloc: Global,
    op: BinaryOp,
    ty: Ty,
    a: &[i64],
    into: &mut [i64],
) -> Result<Timing, AllocError>
    requires block { length into.old ≡ 512 }
    requires left { length a.now ≡ 512 }
    requires left_in_range { All (InRange ty) a.now }
{
    let b = numbers(alloc, ty, BLOCK, 2)?;
    Ok(Timing {
        count: BLOCK * BLOCKS,
        least: least_time(clock, op, ty, a, &b, into),
        sum: sum_of(into),
    })
}

// Does the work in each run.
fn least_time(
    clock: &impl Clock,
    op: BinaryOp,
    ty: Ty,
    a: &[i64],
    b: &[i64],
    into: &mut [i64],
) -> u64
    requires left { length a.now ≡ length into.old }
    requires right { length b.now ≡ length into.old }
    requires left_in_range { All (InRange ty) a.now }
    requires right_in_range { All (InRange ty) b.now }
{
    let mut least = UNKNOWN;
    for _run in 0..RUNS {
        let start = now(clock);
        work(op, ty, a, b, into);
        least = least.min(since(clock, start));
    }
    least
}

// The operator on the pairs of two blocks, so many times over.
fn work(op: BinaryOp, ty: Ty, a: &[i64], b: &[i64], into: &mut [i64])
    requires left { length a.now ≡ length into.old }
    requires right { length b.now ≡ length into.old }
    requires left_in_range { All (InRange ty) a.now }
    requires right_in_range { All (InRange ty) b.now }
{
    for _block in 0..BLOCKS {
        let _done = binary_all(op, ty, a, b, into);
    }
}

fn sum_of(numbers: &[i64]) -> u64 {
    let mut sum: u64 = 0;
    for number in numbers {
        sum = sum.wrapping_add(number.cast_unsigned());
    }
    sum
}
