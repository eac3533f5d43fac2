//! The signature that a text spells.
ghost use Rattle.std.specs.Prelude.{IfOk, IfErr};
ghost use Rattle.pdl_sig.specs.Refusals.{Signs, IsWellFormed, IsFaultOf};

use crate::naming::{all_names, signature_of};
use crate::reading::args;
use crate::refusing::{are_too_many, refusal};
use crate::{SigFault, Signature};
use std::alloc::Global;

/// Reads a signature, as `a(n); int+ b(n, m=3); [o]c(m)` (PDL::PP, Signatures): arguments with
/// semicolons between them and maybe one at the end. An argument has a type word, maybe with `+`;
/// its role in square brackets, `[o]`, `[t]` or `[io]`, and none for an input; its word; and in
/// brackets the words of its core dimensions, each maybe with `=` and the number that it is fixed
/// to. Blanks may stand around each of these. The fault is the first of `SigFault`'s that holds of
/// the text.
pub fn read_signature(alloc: Global, text: &[u8]) -> Result<Signature, SigFault>
    ensures read { IfOk result (λ signature. Signs signature text.now) }
    ensures well_formed { IfOk result IsWellFormed }
    ensures refused { IfErr result (IsFaultOf text.now) }
{
    let Some(args) = args(alloc, text)? else {
        return Err(SigFault::BadText);
    };
    let Some(names) = all_names(alloc, args.as_slice())? else {
        return Err(SigFault::TooManyNames);
    };
    if are_too_many(args.len(), names.len()) {
        return Err(SigFault::TooManyNames);
    }
    let signature = signature_of(alloc, args.as_slice(), names)?;
    match refusal(&signature, args.as_slice()) {
        Some(fault) => Err(fault),
        None => Ok(signature),
    }
}
