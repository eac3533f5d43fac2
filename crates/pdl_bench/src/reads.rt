//! Windows that are read in blocks.
ghost use Rattle.std.specs.Prelude.{◌≡◌, length, IfOk};
ghost use Rattle.pdl_shape.specs.Triple.{IsTriple, Reaches};

use crate::arrays::filled;
use crate::stopwatch::{RUNS, Timing, UNKNOWN, now, since};
use pdl_buf::{Buf, Strided, strided, strided_dims, strided_read};
use pdl_elem::Ty;
use pdl_shape::{Triple, dims_of, elements_of, triple_of};
use std::alloc::{AllocError, Global};
use std::rt::Clock;

/// How many elements the buffer has.
const COUNT: u32 = 1_048_576;

/// How many elements a block has.
const BLOCK: u32 = 512;

/// What a window shows of a buffer of 1,048,576 elements.
#[derive(Clone, Copy)]
pub enum Form {
    /// All of it, in order.
    InOrder,
    /// Every second element.
    Stepped,
    /// A plane of 1,024 by 1,024 with its rows as columns.
    Turned,
    /// 1,024 elements as a column that is stretched to such a plane: one element again and again in
    /// each row.
    Stretched,
    /// Three elements of each four, a row each.
    Rows,
}

// A window from the first element on.
fn window(alloc: Global, incs: &[i32], sizes: &[u32]) -> Result<Triple, AllocError>
    requires triple { IsTriple (record { offset = 0; incs = incs.now; dims = sizes.now }) }
    requires inside { Reaches (record { offset = 0; incs = incs.now; dims = sizes.now }) 1048576 }
    ensures { IfOk result (λ triple. Reaches triple 1048576) }
{
    match dims_of(alloc, sizes) {
        Ok(dims) => Ok(triple_of(alloc, 0, incs, &dims)),
        Err(_) => Err(AllocError),
    }
}

fn window_as(alloc: Global, form: Form) -> Result<Triple, AllocError>
    ensures { IfOk result (λ triple. Reaches triple 1048576) }
{
    match form {
        Form::InOrder => window(alloc, &[1], &[COUNT]),
        Form::Stepped => window(alloc, &[2], &[524_288]),
        Form::Turned => window(alloc, &[1_024, 1], &[1_024, 1_024]),
        Form::Stretched => window(alloc, &[0, 1], &[1_024, 1_024]),
        Form::Rows => window(alloc, &[1, 4], &[3, 262_144]),
    }
}

/// Times `strided_read` of a whole window, block by block.
pub fn time(clock: &impl Clock, alloc: Global, form: Form, ty: Ty) -> Result<Timing, AllocError> {
    let triple = window_as(alloc, form)?;
    time_triple(clock, alloc, ty, &triple)
}

// Times the window of a triple.
fn time_triple(
    clock: &impl Clock,
    alloc: Global,
    ty: Ty,
    triple: &Triple,
) -> Result<Timing, AllocError>
    requires { Reaches triple.now 1048576 }
{
    let buf = filled(alloc, ty, COUNT)?;
    time_buffer(clock, alloc, &buf, triple)
}

// The same on this buffer.
fn time_buffer(
    clock: &impl Clock,
    alloc: Global,
    buf: &Buf,
    triple: &Triple,
) -> Result<Timing, AllocError>
    requires { Reaches triple.now (length buf.now.elems) }
{
    time_window(clock, alloc, &strided(buf, triple))
}

fn time_window(
    clock: &impl Clock,
    alloc: Global,
    window: &Strided<'_>,
) -> Result<Timing, AllocError> {
    let mut block = vec![in alloc; 0; BLOCK as usize]?;
    Ok(time_reads(clock, window, &mut block))
}

// Reads the window in each run.
fn time_reads(clock: &impl Clock, window: &Strided<'_>, block: &mut [i64]) -> Timing
    requires { length block.old ≡ 512 }
{
    let mut timing = Timing {
        count: elements_of(strided_dims(window)),
        least: UNKNOWN,
        sum: 0,
    };
    for _run in 0..RUNS {
        let start = now(clock);
        timing.sum = read_all(window, block);
        timing.least = timing.least.min(since(clock, start));
    }
    timing
}

// Reads the window block by block, and sums the last numbers of the blocks.
fn read_all(window: &Strided<'_>, block: &mut [i64]) -> u64
    requires { length block.old ≡ 512 }
{
    let blocks = elements_of(strided_dims(window)) / BLOCK;
    let mut sum: u64 = 0;
    for i in 0..blocks {
        strided_read(window, i * BLOCK, block);
        sum = sum.wrapping_add(block[511].cast_unsigned());
    }
    sum
}
