//! The reader of signatures: a function for each rule of the grammar. Each takes a text, and
//! answers what stands at its front with the text after it, or `None` where the rule doesn't fit.
ghost use Rattle.std.specs.Prelude.{◌≡◌, length, IfOk, option_map};
ghost use Rattle.pdl_sig.specs.SignatureReading.{typed_at, marked_at, sized_at, dim_at, dims_at, bracket_at, arg_at, read_args};

use crate::lexing::{is_arg_word, is_dim_word, is_end, number, role_of, sign, type_of, word};
use crate::written::{WrittenArg, WrittenDim};
use crate::{ArgType, Role};
use pdl_elem::{Items, Name};
use std::alloc::{AllocError, Global};

#[tactic(auto, unfolding(crate::specs::SignatureReading::typed_at))]
fn typed(text: &[u8]) -> (ArgType, &[u8])
    ensures { (result.0, result.1.now) ≡ typed_at text.now }
{
    let Some((word, rest)) = word(text) else {
        return (ArgType::Generic, text);
    };
    let Some(ty) = type_of(word) else {
        return (ArgType::Generic, text);
    };
    match sign(b'+', rest) {
        Some(rest) => (ArgType::AtLeast(ty), rest),
        None => (ArgType::Fixed(ty), rest),
    }
}

#[tactic(auto, unfolding(crate::specs::SignatureReading::marked_at))]
fn marked(text: &[u8]) -> Option<(Role, &[u8])>
    ensures { option_map (λ x. (x.0, x.1.now)) result ≡ marked_at text.now }
{
    let Some(rest) = sign(b'[', text) else {
        return Some((Role::Input, text));
    };
    let (word, rest) = word(rest)?;
    let role = role_of(word)?;
    let rest = sign(b']', rest)?;
    Some((role, rest))
}

fn name_of(alloc: Global, word: &[u8]) -> Result<Name, AllocError>
    ensures { IfOk result (λ name. name ≡ word.now) }
{
    Ok(Name::new(Vec::from_slice(alloc, word)?))
}

#[tactic(auto, unfolding(crate::specs::SignatureReading::sized_at))]
fn sized(text: &[u8]) -> Option<(Option<u32>, &[u8])>
    ensures { option_map (λ x. (x.0, x.1.now)) result ≡ sized_at text.now }
{
    match sign(b'=', text) {
        None => Some((None, text)),
        Some(rest) => {
            let (size, rest) = number(rest)?;
            Some((Some(size), rest))
        }
    }
}

#[tactic(auto, unfolding(crate::specs::SignatureReading::dim_at))]
fn dim(alloc: Global, text: &[u8]) -> Result<Option<(WrittenDim, &[u8])>, AllocError>
    ensures { IfOk result (λ found. option_map (λ x. (x.0, x.1.now)) found ≡ dim_at text.now) }
{
    let Some((word, rest)) = word(text) else {
        return Ok(None);
    };
    if !is_dim_word(word) {
        return Ok(None);
    }
    let Some((size, rest)) = sized(rest) else {
        return Ok(None);
    };
    let name = name_of(alloc, word)?;
    Ok(Some((WrittenDim { name, size }, rest)))
}

fn dims(alloc: Global, text: &[u8]) -> Result<Option<(Vec<WrittenDim>, &[u8])>, AllocError>
    ensures { let wanted = dims_at (length text.now) text.now in
        IfOk result (λ found. option_map (λ x. (x.0.items, x.1.now)) found ≡ wanted) }
{
    let mut dims = Vec::new(alloc);
    let mut rest = text;
    for turn in 0..text.len() {
        let Some((dim, after)) = dim(alloc, rest)? else {
            return Ok(None);
        };
        dims.push(dim)?;
        if let Some(after) = sign(b',', after) {
            rest = after;
        } else if let Some(after) = sign(b')', after) {
            return Ok(Some((dims, after)));
        } else {
            return Ok(None);
        }
    }
    Ok(None)
}

#[tactic(auto, unfolding(crate::specs::SignatureReading::bracket_at))]
fn bracket(alloc: Global, text: &[u8]) -> Result<Option<(Vec<WrittenDim>, &[u8])>, AllocError>
    ensures { let wanted = bracket_at text.now in
        IfOk result (λ found. option_map (λ x. (x.0.items, x.1.now)) found ≡ wanted) }
{
    let Some(text) = sign(b'(', text) else {
        return Ok(None);
    };
    match sign(b')', text) {
        Some(rest) => Ok(Some((Vec::new(alloc), rest))),
        None => dims(alloc, text),
    }
}

#[tactic(auto, unfolding(crate::specs::SignatureReading::arg_at))]
fn arg(alloc: Global, text: &[u8]) -> Result<Option<(WrittenArg, &[u8])>, AllocError>
    ensures { IfOk result (λ found. option_map (λ x. (x.0, x.1.now)) found ≡ arg_at text.now) }
{
    let (ty, rest) = typed(text);
    let Some((role, rest)) = marked(rest) else {
        return Ok(None);
    };
    let Some((word, rest)) = word(rest) else {
        return Ok(None);
    };
    if !is_arg_word(word) {
        return Ok(None);
    }
    let Some((dims, rest)) = bracket(alloc, rest)? else {
        return Ok(None);
    };
    let name = name_of(alloc, word)?;
    let dims = Items::new(dims);
    Ok(Some((
        WrittenArg {
            name,
            role,
            ty,
            dims,
        },
        rest,
    )))
}

/// The arguments that the text spells, if it does.
pub fn args(alloc: Global, text: &[u8]) -> Result<Option<Vec<WrittenArg>>, AllocError>
    ensures { IfOk result (λ found. option_map (λ x. x.items) found ≡ read_args text.now) }
{
    let mut args = Vec::new(alloc);
    let mut rest = text;
    for turn in 0..text.len() {
        let Some((arg, after)) = arg(alloc, rest)? else {
            return Ok(None);
        };
        args.push(arg)?;
        let Some(after_sign) = sign(b';', after) else {
            if is_end(after) {
                return Ok(Some(args));
            }
            return Ok(None);
        };
        if is_end(after_sign) {
            return Ok(Some(args));
        }
        rest = after_sign;
    }
    Ok(None)
}
