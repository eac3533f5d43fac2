//! A call of a kernel.
ghost use Rattle.std.specs.Prelude.{◌≡◌, [], length, All, IfOk, OnErr, OnOk};
ghost use Rattle.pdl_buf.specs.Made.{IsMade};
ghost use Rattle.pdl_sig.specs.Resolution.{inputs};
ghost use Rattle.pdl_kernel.specs.Answers.{Answers};
ghost use Rattle.pdl_kernel.specs.Call.{called};
ghost use Rattle.pdl_kernel.specs.Runs.{IsNext, IsResolved, with_next};

use crate::call::call;
use crate::faults::RunFault;
use crate::given::Given;
use crate::kernel::Kernel;
use pdl_buf::{Made, Strided, strided_dims, strided_read, strided_type};
use pdl_shape::{copy_dims, elements_of};
use pdl_sig::Resolved;
use std::alloc::{AllocError, Global};
use std::marker::Model;

/// A call of a kernel that is being handed its arguments. Contracts see the kernel, what its
/// arguments resolve to, and the arguments given so far.
#[derive(Drop)]
pub struct KernelRun<'k> {
    kernel: &'k Kernel,
    resolved: Resolved,
    given: Vec<Given>,
}

impl<'k> Model for KernelRun<'k> {
    ghost use Rattle.std.specs.Coded.{codes};
    ghost use Rattle.pdl_kernel.specs.Coding.{coded_code};
    ghost use Rattle.pdl_kernel.specs.Runs.{IsResolved, Run};

    ghost Value = { Run };

    ghost coded = { Prim.hlevel (codes, coded_code) };

    ghost view = { λ r. record {
      kernel = r.kernel.now;
      resolved = r.resolved;
      given = r.given.items;
    } };

    ghost invariant = { λ r. IsResolved r.kernel.now.signature r.resolved };
}

impl<'k> KernelRun<'k> {
    /// Begins a call. What was resolved is the answer of `resolve` for the
    /// kernel's signature and the shapes of the arguments.
    pub fn begin(
        alloc: Global,
        kernel: &'k Kernel,
        resolved: Resolved,
    ) -> Result<KernelRun<'k>, AllocError>
        requires { IsResolved kernel.now.signature resolved }
        ensures { IfOk result (λ run. run ≡ record
            { kernel = kernel.now; resolved = resolved; given = [] }) }
    {
        Ok(KernelRun {
            kernel,
            resolved,
            given: Vec::new(alloc),
        })
    }

    /// Gives the next of the inputs and `[io]` arguments, which are taken in the order of the
    /// signature. Out of memory, its one refusal, it leaves the run as it was.
    pub fn give(&mut self, elems: &Strided<'_>) -> Result<(), AllocError>
        requires { IsNext self.old elems.now }
        ensures ok { OnOk result (self.new ≡ with_next self.old elems.now) }
        ensures err { OnErr result (self.new ≡ self.old) }
    {
        let ty = strided_type(elems);
        let dims = copy_dims(strided_dims(elems));
        let alloc = *self.given.allocator();
        let mut numbers = vec![in alloc; 0; elements_of(&dims) as usize]?;
        strided_read(elems, 0, &mut numbers);
        self.given.push(Given {
            ty,
            dims,
            elems: numbers,
        })?;
        Ok(())
    }

    /// Runs the code at each broadcast place, in broadcast order, when all inputs and `[io]`
    /// arguments were given. It answers the outputs in the order of the signature: core dimensions
    /// and then the broadcast dimensions. `DivideByZero` and `IndexOutOfRange` come with the first
    /// broadcast place whose code has a fault.
    pub fn finish(self) -> Result<Vec<Made>, RunFault>
        requires { length self.given ≡ length (inputs self.kernel.signature.args) }
        ensures outputs { Answers (called self.entry.kernel self.entry.resolved self.entry.given)
            result }
        ensures made { IfOk result (λ outputs. All (λ made. IsMade made.ty made.dims made.elems)
            outputs.items) }
    {
        let KernelRun {
            kernel,
            resolved,
            mut given,
        } = self;
        let alloc = *given.allocator();
        call(alloc, kernel, &resolved, &mut given)
    }
}
