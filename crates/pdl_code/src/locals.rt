//! What code declares: no word that is a dimension or a visible local, and so many locals.
ghost use Rattle.std.specs.Prelude.{◌≡◌, OnOk};
ghost use Rattle.pdl_code.specs.Declaring.{counted, declared_code, declared_step, is_taken, raw_locals};
ghost use Rattle.pdl_code.specs.TreeOf.{code_of, step_of};
ghost use Rattle.pdl_code.specs.Refused.{code_declares, scope_after};
ghost use Rattle.pdl_code.specs.Resolving.{Agrees};
ghost use Rattle.pdl_code.specs.Scope.{no_flags, top};

use crate::fault::KernelFault;
use crate::lexeme::Span;
use crate::names::{RawStmt, Target};
use crate::scope::{Local, cut, declare, dim, slot};
use pdl_sig::Signature;
use std::alloc::Global;

fn is_taken(source: &[u8], signature: &Signature, locals: &[Local], word: Span) -> bool
    ensures { result ≡ is_taken source.now signature.now locals.now word }
{
    slot(source, locals, word).is_some() || dim(source, signature, word).is_some()
}

/// How many locals are visible at once, at most, in a statement or behind it.
#[cycle(declaring)]
fn stmt_locals(
    source: &[u8],
    signature: &Signature,
    locals: &mut Vec<Local>,
    raw: &RawStmt,
) -> Result<usize, KernelFault>
    ensures gives { Agrees (λ n. n) result (declared_step source.now signature.now
        (record { locals = locals.old.items; loops = no_flags }) (step_of raw.now)) }
    ensures after { OnOk result (record { locals = locals.new.items; loops = no_flags }
        ≡ scope_after (record { locals = locals.old.items; loops = no_flags }) (step_of raw.now)) }
{
    match raw {
        RawStmt::Loop(_, body) => code_locals(source, signature, locals, body),
        RawStmt::If(_, whole, other) => match code_locals(source, signature, locals, whole) {
            Ok(first) => match code_locals(source, signature, locals, other) {
                Ok(second) => Ok(first.max(second)),
                Err(fault) => Err(fault),
            },
            Err(fault) => Err(fault),
        },
        RawStmt::Keep(Target::New(ty, word), _, _) => {
            if is_taken(source, signature, locals.as_slice(), *word) {
                Err(KernelFault::BadText)
            } else {
                match declare(locals, *word, *ty) {
                    Ok(()) => Ok(locals.len()),
                    Err(fault) => Err(fault),
                }
            }
        }
        RawStmt::Keep(Target::Named(_), _, _) => Ok(locals.len()),
        RawStmt::Put(_, _, _, _) => Ok(locals.len()),
    }
}

/// How many locals are visible at once, at most, in the statements of a block.
#[cycle(declaring)]
fn code_locals(
    source: &[u8],
    signature: &Signature,
    locals: &mut Vec<Local>,
    raw: &[RawStmt],
) -> Result<usize, KernelFault>
    ensures gives { Agrees (λ n. n) result (declared_code source.now signature.now
        (record { locals = locals.old.items; loops = no_flags }) (code_of raw.now)) }
    ensures same { OnOk result (locals.new.items ≡ locals.old.items) }
{
    let count = locals.len();
    let mut most = 0;
    for one in raw {
        match stmt_locals(source, signature, locals, one) {
            Ok(n) => most = most.max(n),
            Err(fault) => return Err(fault),
        }
    }
    let most = most.max(locals.len());
    cut(locals, count);
    Ok(most)
}

/// How many locals are visible at once, at most, where no declared word is refused.
#[tactic(auto, using(crate::proofs::DeclaringLemmas::code_law))]
pub fn declared(
    alloc: Global,
    source: &[u8],
    signature: &Signature,
    raw: &[RawStmt],
) -> Result<usize, KernelFault>
    ensures { Agrees (λ n. n) result (counted (code_declares source.now signature.now top
        (code_of raw.now)) (raw_locals 0 (code_of raw.now))) }
{
    let mut locals = Vec::new(alloc);
    code_locals(source, signature, &mut locals, raw)
}
