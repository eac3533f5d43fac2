//! `pp_def`: definitions of kernels (PDL::PP).
ghost use Rattle.std.specs.Prelude.{◌≡◌, []};
ghost use Rattle.pdl_syntax.specs.StatementTree.{pp_def};
ghost use Rattle.pdl_machine.specs.Kernels.{can_name, defined, kernel_of, texts_of};
ghost use Rattle.pdl_machine.specs.Step.{effect};
ghost use Rattle.pdl_scope.specs.Answers.{AnswersAs, Runs};
ghost use Rattle.pdl_scope.specs.Scope.{machine};

use pdl_elem::{Name, Text};
use pdl_kernel::{Kernel, read_kernel};
use pdl_lex::is_word;
use pdl_lexemes::keyword_named;
use pdl_machine::{Fault, builtin_named};
use pdl_scope::{DefinedKernel, Scope, ScopeFault};
use pdl_sig::laws::signature_meaning;
use pdl_sig::read_signature;
use std::alloc::Global;

/// Defines a kernel by its signature and its code.
pub fn define_kernel(
    scope: &mut Scope,
    name: &Text,
    signature: &Text,
    code: &Text,
) -> Result<(), ScopeFault>
    ensures { let wanted = effect [] (machine scope.old) (pp_def name.now signature.now code.now) in
        Runs wanted scope.old scope.new [] [] result }
{
    let kernel = kernel_defined(scope.alloc(), name.bytes(), signature, code)?;
    let name = Name::new(Vec::from_slice(scope.alloc(), name.bytes())?);
    scope.define(name, kernel)
}

/// The kernel of a definition, with its texts.
fn kernel_defined(
    alloc: Global,
    name: &[u8],
    signature: &Text,
    code: &Text,
) -> Result<DefinedKernel, ScopeFault>
    ensures { AnswersAs (λ k. k) (defined name.now signature.now code.now) result }
{
    if !can_name(name) {
        return Err(ScopeFault::Script(Fault::WrongArguments));
    }
    let kernel = kernel_read(alloc, signature.bytes(), code.bytes())?;
    let signature = signature.clone()?;
    let code = code.clone()?;
    Ok(DefinedKernel::new(signature, code, kernel))
}

/// The kernel that two texts are read as. Texts of statements are far shorter than 4 GiB.
fn kernel_read(alloc: Global, signature: &[u8], code: &[u8]) -> Result<Kernel, ScopeFault>
    ensures { AnswersAs (λ k. k) (kernel_of (texts_of signature.now code.now)) result }
{
    signature_meaning();
    let signature = read_signature(alloc, signature)?;
    if code.len() > u32::MAX as usize {
        return Err(ScopeFault::NoMemory);
    }
    Ok(read_kernel(alloc, signature, code)?)
}

/// Whether a kernel may have this name: a word that names nothing of the language.
fn can_name(name: &[u8]) -> bool
    ensures { result ≡ can_name name.now }
{
    is_word(name) && keyword_named(name).is_none() && builtin_named(name).is_none()
}
