//! The core dimensions of the given arguments, and the sizes of the named dimensions.
ghost use Rattle.std.specs.Prelude.{◌≡◌, ◌++◌, length, OnOk, IfOk};
ghost use Rattle.pdl_sig.specs.Resolution.{inputs, core, cores, handed, found_size, sizes_from, is_unfit, core_sizes, padded};

use crate::inputs::input;
use crate::{ArgShape, SigArg};
use pdl_shape::{dims_list, size_along};
use std::alloc::{AllocError, Global};

/// A core dimension by its number, with the size that a given shape has there.
pub type Core = (u8, u32);

fn add_core(found: &mut Vec<Core>, dims: &[u8], sizes: &[u32]) -> Result<(), AllocError>
    ensures { OnOk result (found.new.items ≡ found.old.items ++ core dims.now sizes.now) }
{
    for (place, dimension) in dims.iter().enumerate() {
        found.push((*dimension, size_along(sizes, place)))?;
    }
    Ok(())
}

/// The core dimensions of all given arguments.
pub fn cores(alloc: Global, args: &[SigArg], given: &[ArgShape]) -> Result<Vec<Core>, AllocError>
    requires { length given.now ≡ length (inputs args.now) }
    ensures { IfOk result (λ found. found.items ≡ cores (handed args.now given.now)) }
{
    let mut found = Vec::new(alloc);
    for (place, shape) in given.iter().enumerate() {
        add_core(
            &mut found,
            input(args, place).dims.as_slice(),
            dims_list(&shape.dims),
        )?;
    }
    Ok(found)
}

/// The first size that isn't 1 of a dimension, or 1.
fn found_size(cores: &[Core], number: usize) -> u32
    ensures { result ≡ found_size cores.now number }
{
    for (dimension, size) in cores {
        if usize::from(*dimension) == number && *size != 1 {
            return *size;
        }
    }
    1
}

/// The sizes of the named dimensions.
pub fn named_sizes(
    alloc: Global,
    cores: &[Core],
    fixed: &[Option<u32>],
) -> Result<Vec<u32>, AllocError>
    ensures { IfOk result (λ sizes. sizes.items ≡ sizes_from cores.now 0 fixed.now) }
{
    let mut sizes = Vec::new(alloc);
    for (number, fixed) in fixed.iter().enumerate() {
        let found = found_size(cores, number);
        sizes.push(fixed.unwrap_or(found))?;
    }
    Ok(sizes)
}

/// Whether a core size is neither 1 nor its dimension's size.
pub fn is_unfit(sizes: &[u32], core: Core) -> bool
    ensures { result ≡ is_unfit sizes.now core }
{
    core.1 != 1 && core.1 != size_along(sizes, usize::from(core.0))
}

/// The core sizes of an argument.
pub fn core_sizes(alloc: Global, sizes: &[u32], arg: &SigArg) -> Result<Vec<u32>, AllocError>
    ensures { IfOk result (λ found. found.items ≡ core_sizes sizes.now arg.now) }
{
    arg.dims
        .as_slice()
        .iter()
        .map(|number| size_along(sizes, usize::from(*number)))
        .collect(alloc)
}

/// The sizes of a given shape at the core dimensions of its argument: 1 where one is missing.
pub fn padded(alloc: Global, dims: &[u8], sizes: &[u32]) -> Result<Vec<u32>, AllocError>
    ensures { IfOk result (λ found. found.items ≡ padded dims.now sizes.now) }
{
    let mut found = Vec::new(alloc);
    for (place, _) in dims.iter().enumerate() {
        found.push(size_along(sizes, place))?;
    }
    Ok(found)
}
