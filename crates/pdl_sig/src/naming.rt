//! From the arguments as they are written to the signature, with its names and numbers.
ghost use Rattle.std.specs.Prelude.{◌≡◌, ◌<◌, ◌≤◌, [], length, map, None, false, IfOk, IfSome, IsTrue};
ghost use Rattle.pdl_sig.specs.Refusals.{has_name, names_after, dim_names_limit, all_names, number_of, numbered, size_for, fixed_among, fixed_in, signature_of};

use crate::refusing::MOST_DIM_NAMES;
use crate::written::{WrittenArg, WrittenDim};
use crate::{SigArg, Signature};
use pdl_elem::{Items, Name};
use std::alloc::{AllocError, Global};

fn has_name(names: &[Name], word: &Name) -> bool
    ensures { result ≡ has_name names.now word.now }
{
    names.iter().any(|name| word == name)
}

// Adds the words of dimensions, and answers whether there was room for all of them: it stops at the
// first one that is too many.
fn add_names(names: &mut Vec<Name>, dims: &[WrittenDim]) -> Result<bool, AllocError>
    ensures few { IfOk result (λ room. IsTrue room →
        names.new.items ≡ names_after names.old.items dims.now) }
    ensures many { IfOk result (λ room. room ≡ false →
        dim_names_limit < length (names_after names.old.items dims.now)) }
    ensures bound { length names.old.items ≤ dim_names_limit →
        IfOk result (λ _. length names.new.items ≤ dim_names_limit) }
{
    for dim in dims {
        if !has_name(names.as_slice(), &dim.name) {
            if names.len() >= MOST_DIM_NAMES {
                return Ok(false);
            }
            names.push(dim.name.clone()?)?;
        }
    }
    Ok(true)
}

/// The words of all dimensions, each once, in the order in which they first stand. `None` where
/// there are more than 8: it compares each word with at most so many.
pub fn all_names(alloc: Global, args: &[WrittenArg]) -> Result<Option<Vec<Name>>, AllocError>
    ensures few { IfOk result (λ found. IfSome found (λ names.
        names.items ≡ all_names [] args.now)) }
    ensures many { IfOk result (λ found. found ≡ None →
        dim_names_limit < length (all_names [] args.now)) }
    ensures bound { IfOk result (λ found. IfSome found (λ names.
        length names.items ≤ dim_names_limit)) }
{
    let mut names = Vec::new(alloc);
    for arg in args {
        if !add_names(&mut names, arg.dims.as_slice())? {
            return Ok(None);
        }
    }
    Ok(Some(names))
}

fn number_of(names: &[Name], word: &Name) -> usize
    ensures number { result ≡ number_of names.now word.now }
    ensures within { result ≤ length names.now }
{
    for (number, name) in names.iter().enumerate() {
        if word == name {
            return number;
        }
    }
    names.len()
}

fn numbers(alloc: Global, names: &[Name], dims: &[WrittenDim]) -> Result<Vec<u8>, AllocError>
    requires { length names.now ≤ dim_names_limit }
    ensures { IfOk result (λ found. found.items ≡ map (λ d. number_of names.now d.name) dims.now) }
{
    let mut found = Vec::new(alloc);
    for dim in dims {
        found.push(number_of(names, &dim.name) as u8)?;
    }
    Ok(found)
}

fn numbered(alloc: Global, names: &[Name], arg: &WrittenArg) -> Result<SigArg, AllocError>
    requires { length names.now ≤ dim_names_limit }
    ensures { IfOk result (λ found. found ≡ numbered names.now arg.now) }
{
    Ok(SigArg {
        name: arg.name.clone()?,
        role: arg.role,
        ty: arg.ty,
        dims: Items::new(numbers(alloc, names, arg.dims.as_slice())?),
    })
}

fn all_numbered(
    alloc: Global,
    names: &[Name],
    args: &[WrittenArg],
) -> Result<Vec<SigArg>, AllocError>
    requires { length names.now ≤ dim_names_limit }
    ensures { IfOk result (λ found. found.items ≡ map (numbered names.now) args.now) }
{
    let mut found = Vec::new(alloc);
    for arg in args {
        found.push(numbered(alloc, names, arg)?)?;
    }
    Ok(found)
}

fn size_for(word: &Name, dim: &WrittenDim) -> Option<u32>
    ensures { result ≡ size_for word.now dim.now }
{
    if *word == dim.name { dim.size } else { None }
}

fn fixed_among(word: &Name, dims: &[WrittenDim]) -> Option<u32>
    ensures { result ≡ fixed_among word.now dims.now }
{
    for dim in dims {
        let size = size_for(word, dim);
        if size.is_some() {
            return size;
        }
    }
    None
}

/// The first number to which the arguments fix a word, if any.
pub fn fixed_in(args: &[WrittenArg], word: &Name) -> Option<u32>
    ensures { result ≡ fixed_in args.now word.now }
{
    for arg in args {
        let size = fixed_among(word, arg.dims.as_slice());
        if size.is_some() {
            return size;
        }
    }
    None
}

fn all_fixed(
    alloc: Global,
    args: &[WrittenArg],
    names: &[Name],
) -> Result<Vec<Option<u32>>, AllocError>
    ensures { IfOk result (λ found. found.items ≡ map (fixed_in args.now) names.now) }
{
    let mut found = Vec::new(alloc);
    for name in names {
        found.push(fixed_in(args, name))?;
    }
    Ok(found)
}

/// The signature of arguments as they are written, by the names of their dimensions.
pub fn signature_of(
    alloc: Global,
    args: &[WrittenArg],
    names: Vec<Name>,
) -> Result<Signature, AllocError>
    requires names { names.items ≡ all_names [] args.now }
    requires few { length names.items ≤ dim_names_limit }
    ensures { IfOk result (λ signature. signature ≡ signature_of args.now) }
{
    Ok(Signature {
        args: Items::new(all_numbered(alloc, names.as_slice(), args)?),
        fixed: Items::new(all_fixed(alloc, args, names.as_slice())?),
        names: Items::new(names),
    })
}
