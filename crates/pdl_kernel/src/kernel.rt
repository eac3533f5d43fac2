//! Kernels.
ghost use Rattle.std.specs.Prelude.{◌≡◌, ◌<◌, ◌^◌, length, IfOk, IfErr, Ok};
ghost use Rattle.pdl_sig.specs.Refusals.{IsWellFormed};
ghost use Rattle.pdl_code.specs.Fit.{IsFit, code_locals};
ghost use Rattle.pdl_code.specs.Meaning.{code_in, IsFault};
ghost use Rattle.pdl_code.specs.TreeOf.{code_of};
ghost use Rattle.pdl_kernel.specs.Kernels.{IsKernel, kernel_in};

use pdl_code::{KernelCode, KernelFault, Stmt, read_code};
use pdl_sig::Signature;
use std::alloc::Global;
use std::marker::Model;

/// An operation whose inner loop a user wrote: a signature and the code that runs at each broadcast
/// place. Contracts see the signature and the code.
#[derive(Drop)]
pub struct Kernel {
    signature: Signature,
    code: KernelCode,
}

impl Model for Kernel {
    ghost use Rattle.std.specs.Coded.{codes};
    ghost use Rattle.pdl_code.specs.TreeOf.{code_of};
    ghost use Rattle.pdl_kernel.specs.Coding.{coded_code};
    ghost use Rattle.pdl_kernel.specs.Kernels.{Kernel, IsKernel};

    ghost Value = { Kernel };

    ghost coded = { Prim.hlevel (codes, coded_code) };

    ghost view = { λ k. record { signature = k.signature; code = code_of k.code.stmts } };

    ghost invariant = { λ k. IsKernel k.signature (code_of k.code.stmts) k.code.locals };
}

impl Kernel {
    /// The kernel of a signature and code that speaks of it.
    pub fn new(signature: Signature, code: KernelCode) -> Kernel
        requires { IsKernel signature (code_of code.stmts) code.locals }
        ensures { result ≡ record { signature = signature; code = code_of code.stmts } }
    {
        Kernel { signature, code }
    }

    /// How many locals are visible at once, at most.
    pub(crate) fn locals(&self) -> usize
        ensures { result ≡ code_locals 0 self.now.code }
    {
        self.code.locals
    }

    /// The statements.
    pub(crate) fn stmts(&self) -> &[Stmt]
        ensures code { code_of result.now ≡ self.now.code }
        ensures fit { IsFit self.now.signature self.now.code }
    {
        self.code.stmts.as_slice()
    }
}

/// The signature, as it was read.
pub fn kernel_signature(kernel: &Kernel) -> &Signature
    ensures { result.now ≡ kernel.now.signature }
{
    &kernel.signature
}

/// Reads the text of a kernel's code, whose names are those of the signature and its locals, or
/// says the first fault with its place in the text.
pub fn read_kernel(alloc: Global, signature: Signature, text: &[u8]) -> Result<Kernel, KernelFault>
    requires well_formed { IsWellFormed signature }
    requires small { length text.now < 2 ^ 32 }
    ensures read { IfOk result (λ k. kernel_in signature text.now ≡ Ok k) }
    ensures refused { IfErr result (IsFault (code_in signature text.now)) }
{
    let code = read_code(alloc, &signature, text)?;
    Ok(Kernel::new(signature, code))
}
