//! Reading kernel code.
ghost use Rattle.std.specs.Prelude.{◌≡◌, ◌<◌, ◌^◌, length, IfOk, IfErr, Ok};
ghost use Rattle.pdl_sig.specs.Refusals.{IsWellFormed};
ghost use Rattle.pdl_code.specs.Fit.{IsFit, code_locals};
ghost use Rattle.pdl_code.specs.Meaning.{code_in, judged, IsFault};
ghost use Rattle.pdl_code.specs.TreeOf.{code_of};
ghost use Rattle.pdl_code.specs.CodeReading.{read_code};
ghost use Rattle.pdl_code.specs.Resolving.{Agrees, or_bad};

use crate::block::resolved;
use crate::depth::is_too_deep;
use crate::fault::KernelFault;
use crate::left::Lexemes;
use crate::lexeme::Lexeme;
use crate::lexing::read_lexemes;
use crate::locals::declared;
use crate::names::{KernelCode, RawStmt};
use crate::stmts::parse;
use pdl_elem::Items;
use pdl_lexemes::Refusal;
use pdl_sig::Signature;
use std::alloc::Global;

// What tokens spell.
fn parsed(alloc: Global, tokens: &[Lexeme]) -> Result<Vec<RawStmt>, KernelFault>
    requires small { length tokens.now < 2 ^ 32 }
    ensures { Agrees (λ v. code_of v.items) result (or_bad (read_code tokens.now)) }
{
    match parse(alloc, &Lexemes::of(tokens)) {
        Ok(raw) => Ok(raw),
        Err(Refusal::Refused) => Err(KernelFault::BadText),
        Err(Refusal::NoMemory) => Err(KernelFault::NoMemory),
    }
}

// The code of statements whose names stand as they are.
fn judged(
    alloc: Global,
    text: &[u8],
    signature: &Signature,
    raw: &[RawStmt],
) -> Result<KernelCode, KernelFault>
    requires well_formed { IsWellFormed signature.now }
    ensures read { Agrees (λ c. code_of c.stmts) result
        (judged signature.now text.now (code_of raw.now)) }
    ensures fit { IfOk result (λ c. IsFit signature.now (code_of c.stmts)) }
    ensures locals { IfOk result (λ c. c.locals ≡ code_locals 0 (code_of c.stmts)) }
{
    match declared(alloc, text, signature, raw) {
        Ok(locals) => match resolved(alloc, text, signature, raw) {
            Ok(stmts) => Ok(KernelCode {
                stmts: Items::new(stmts),
                locals,
            }),
            Err(fault) => Err(fault),
        },
        Err(fault) => Err(fault),
    }
}

/// The code of a text for a signature, its names resolved; or the first refusal, in the order in
/// which `KernelFault` has them.
pub fn read_code(
    alloc: Global,
    signature: &Signature,
    text: &[u8],
) -> Result<KernelCode, KernelFault>
    requires well_formed { IsWellFormed signature.now }
    requires small { length text.now < 2 ^ 32 }
    ensures read { IfOk result (λ c. code_in signature.now text.now ≡ Ok (code_of c.stmts)) }
    ensures refused { IfErr result (IsFault (code_in signature.now text.now)) }
    ensures fit { IfOk result (λ c. IsFit signature.now (code_of c.stmts)) }
    ensures locals { IfOk result (λ c. c.locals ≡ code_locals 0 (code_of c.stmts)) }
{
    match read_lexemes(alloc, text) {
        Ok(found) => {
            if is_too_deep(found.lexemes.as_slice()) {
                return Err(KernelFault::TooDeep);
            }
            if !found.whole {
                return Err(KernelFault::BadText);
            }
            match parsed(alloc, found.lexemes.as_slice()) {
                Ok(raw) => judged(alloc, text, signature, raw.as_slice()),
                Err(fault) => Err(fault),
            }
        }
        Err(fault) => Err(fault),
    }
}
