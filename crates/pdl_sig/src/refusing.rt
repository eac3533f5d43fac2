//! The refusals of signatures.
ghost use Rattle.std.specs.Prelude.{◌≡◌, ◌||◌, nat_eq, nat_lt};
ghost use Rattle.std.specs.List.{list_any};
ghost use Rattle.pdl_sig.specs.Refusals.{args_limit, dim_names_limit, has_twice, has_one_name, is_twice_named, are_different, fixed_in, is_fixed_again, is_sized, has_open, refusal};
ghost use Rattle.pdl_sig.specs.Resolution.{is_output};

use crate::inputs::{is_given, is_output};
use crate::naming::fixed_in;
use crate::written::{WrittenArg, WrittenDim};
use crate::{SigArg, SigFault, Signature};

/// The most arguments of a signature.
pub const MOST_ARGS: usize = 16;

/// The most names of dimensions in a signature.
pub const MOST_DIM_NAMES: usize = 8;

fn has_arg(args: &[SigArg], arg: &SigArg) -> bool
    ensures { result ≡ list_any (has_one_name arg.now) args.now }
{
    args.iter().any(|other| arg.name == other.name)
}

fn has_arg_twice(args: &[SigArg]) -> bool
    ensures { result ≡ has_twice has_one_name args.now }
{
    for (place, arg) in args.iter().enumerate() {
        if has_arg(&args[place + 1..], arg) {
            return true;
        }
    }
    false
}

fn has_dim(dims: &[u8], number: usize) -> bool
    ensures { result ≡ list_any (nat_eq number) dims.now }
{
    dims.iter().any(|dim| number == usize::from(*dim))
}

fn has_dim_twice(dims: &[u8]) -> bool
    ensures { result ≡ has_twice nat_eq dims.now }
{
    for (place, dim) in dims.iter().enumerate() {
        if has_dim(&dims[place + 1..], usize::from(*dim)) {
            return true;
        }
    }
    false
}

fn any_dim_twice(args: &[SigArg]) -> bool
    ensures { result ≡ list_any (λ a. has_twice nat_eq a.dims) args.now }
{
    args.iter().any(|arg| has_dim_twice(arg.dims.as_slice()))
}

fn is_twice_named(args: &[SigArg]) -> bool
    ensures { result ≡ is_twice_named args.now }
{
    has_arg_twice(args) || any_dim_twice(args)
}

fn are_different(a: Option<u32>, b: Option<u32>) -> bool
    ensures { result ≡ are_different a b }
{
    match (a, b) {
        (Some(a), Some(b)) => a != b,
        _ => false,
    }
}

fn any_fixed_again(args: &[WrittenArg], dims: &[WrittenDim]) -> bool
    ensures { result ≡ list_any (λ d. are_different d.size (fixed_in args.now d.name)) dims.now }
{
    dims.iter()
        .any(|dim| are_different(dim.size, fixed_in(args, &dim.name)))
}

/// Whether a dimension is fixed to another number than the first one for its word.
fn is_fixed_again(args: &[WrittenArg]) -> bool
    ensures { result ≡ is_fixed_again args.now }
{
    args.iter()
        .any(|arg| any_fixed_again(args, arg.dims.as_slice()))
}

fn is_sized(args: &[SigArg], number: usize) -> bool
    ensures { result ≡ is_sized args.now number }
{
    args.iter().any(|arg| is_given(arg.role) && has_dim(arg.dims.as_slice(), number))
}

fn has_open(args: &[SigArg], fixed: &[Option<u32>]) -> bool
    ensures { result ≡ has_open args.now 0 fixed.now }
{
    for (number, fixed) in fixed.iter().enumerate() {
        if fixed.is_none() && !is_sized(args, number) {
            return true;
        }
    }
    false
}

fn has_output(args: &[SigArg]) -> bool
    ensures { result ≡ list_any (λ a. is_output a.role) args.now }
{
    args.iter().any(|arg| is_output(arg.role))
}

/// Whether there are more arguments or names than a signature may have.
pub fn are_too_many(args: usize, names: usize) -> bool
    ensures { result ≡ (nat_lt args_limit args || nat_lt dim_names_limit names) }
{
    args > MOST_ARGS || names > MOST_DIM_NAMES
}

/// The first refusal of the signature of arguments as they are written.
pub fn refusal(signature: &Signature, written: &[WrittenArg]) -> Option<SigFault>
    ensures { result ≡ refusal signature.now (is_fixed_again written.now) }
{
    let args = signature.args.as_slice();
    if are_too_many(args.len(), signature.names.as_slice().len()) {
        Some(SigFault::TooManyNames)
    } else if is_twice_named(args) || is_fixed_again(written) {
        // (asked last, and so of few: by then no argument names a dimension twice)
        Some(SigFault::TwiceNamed)
    } else if !has_output(args) {
        Some(SigFault::NoOutput)
    } else if has_open(args, signature.fixed.as_slice()) {
        Some(SigFault::OpenSize)
    } else {
        None
    }
}
