//! What names stand for at a place of the text.
ghost use Rattle.std.specs.Prelude.{◌≡◌, ◌-◌, ◌+◌, ◌++◌, ◌∷◌, [], take, nat_eq, OnOk, IfErr};
ghost use Rattle.pdl_code.specs.Fit.{argument_of};
ghost use Rattle.pdl_code.specs.Refused.{is_input};
ghost use Rattle.pdl_code.specs.Scope.{argument_place, axis_of, bare, bytes_of, dim_place, meant, place_by, slot_in};

use crate::fault::KernelFault;
use crate::lexeme::Span;
use crate::names::LocalType;
use pdl_sig::{Role, Signature};

/// A visible local: the word that declares it, and its type.
#[derive(Clone, Copy)]
pub struct Local {
    pub word: Span,
    pub ty: LocalType,
}

/// What a word stands for.
#[derive(Clone, Copy)]
pub enum Meant {
    /// A local, by its slot.
    InSlot(usize),
    /// A dimension, by its number among the signature's names.
    Dim(usize),
    Unknown,
}

/// Makes a word visible.
pub fn declare(locals: &mut Vec<Local>, word: Span, ty: LocalType) -> Result<(), KernelFault>
    ensures ok { OnOk result (locals.new.items ≡ locals.old.items
        ++ record { word = word; ty = ty } ∷ []) }
    ensures err { IfErr result (λ r. r ≡ KernelFault.NoMemory) }
{
    match locals.push(Local { word, ty }) {
        Ok(()) => Ok(()),
        Err(_) => Err(KernelFault::NoMemory),
    }
}

/// Lets go what was declared behind the first ones.
pub fn cut(locals: &mut Vec<Local>, count: usize)
    ensures { locals.new.items ≡ take count locals.old.items }
{
    locals.truncate(count);
}

/// The bytes that a span names; of a span that goes past the text, those there are.
pub fn bytes(source: &[u8], span: Span) -> &[u8]
    ensures { result.now ≡ bytes_of source.now span }
{
    let from = (span.from as usize).min(source.len());
    let to = (span.to as usize).min(source.len()).max(from);
    &source[from..to]
}

// The bytes of a name without its `$`.
fn bare(source: &[u8], span: Span) -> &[u8]
    ensures { result.now ≡ bare source.now span }
{
    let from = (span.from as usize + 1).min(source.len());
    let to = (span.to as usize).min(source.len()).max(from);
    &source[from..to]
}

/// The number of a name's argument.
pub fn argument(source: &[u8], signature: &Signature, name: Span) -> Option<usize>
    ensures { result ≡ argument_place signature.now (bare source.now name) }
{
    let text = bare(source, name);
    for (k, arg) in signature.args.as_slice().iter().enumerate() {
        if arg.name.bytes() == text {
            return Some(k);
        }
    }
    None
}

/// The number of a word's dimension among the signature's names.
pub fn dim(source: &[u8], signature: &Signature, word: Span) -> Option<usize>
    ensures { result ≡ dim_place signature.now (bytes_of source.now word) }
{
    let text = bytes(source, word);
    for (k, name) in signature.names.as_slice().iter().enumerate() {
        if name.bytes() == text {
            return Some(k);
        }
    }
    None
}

fn place_of_number(numbers: &[u8], number: usize) -> Option<usize>
    ensures { result ≡ place_by (λ other. nat_eq other number) numbers.now }
{
    for (k, other) in numbers.iter().enumerate() {
        if *other as usize == number {
            return Some(k);
        }
    }
    None
}

/// The place of a word's dimension in an argument of these dimensions.
pub fn axis(source: &[u8], signature: &Signature, dims: &[u8], word: Span) -> Option<usize>
    ensures { result ≡ axis_of signature.now dims.now (bytes_of source.now word) }
{
    match dim(source, signature, word) {
        Some(d) => place_of_number(dims, d),
        None => None,
    }
}

/// The slot of the local that a word names, if one is visible.
pub fn slot(source: &[u8], locals: &[Local], word: Span) -> Option<usize>
    ensures { result ≡ slot_in source.now locals.now (bytes_of source.now word) }
{
    let text = bytes(source, word);
    for (k, local) in locals.iter().enumerate() {
        if bytes(source, local.word) == text {
            return Some(k);
        }
    }
    None
}

/// What a word stands for: a local, or else a dimension.
pub fn meaning(source: &[u8], signature: &Signature, locals: &[Local], word: Span) -> Meant
    ensures { result ≡ meant source.now signature.now locals.now word }
{
    match slot(source, locals, word) {
        Some(k) => Meant::InSlot(k),
        None => match dim(source, signature, word) {
            Some(d) => Meant::Dim(d),
            None => Meant::Unknown,
        },
    }
}

/// The core dimensions of an argument.
pub fn dims_of(signature: &Signature, number: usize) -> &[u8]
    ensures { result.now ≡ (argument_of signature.now number).dims }
{
    match signature.args.as_slice().get(number) {
        Some(arg) => arg.dims.as_slice(),
        None => &[],
    }
}

/// Whether an argument is an input.
pub fn is_input(signature: &Signature, number: usize) -> bool
    ensures { result ≡ is_input (argument_of signature.now number).role }
{
    match signature.args.as_slice().get(number) {
        Some(arg) => arg.role == Role::Input,
        None => true,
    }
}
