//! The kernels that are defined.
ghost use Rattle.std.specs.Prelude.{◌≡◌, ◌<◌, [], length, slice_get, Some, Ok, IfErr, OnOk, OnErr, option_map};
ghost use Rattle.pdl_machine.specs.declared.fault.Fault.TheVariants.{TooManyKernels};
ghost use Rattle.pdl_machine.specs.Kernels.{kernel_of, texts_of};
ghost use Rattle.pdl_machine.specs.Names.{found, entered, is_full_for, kernels_limit};
ghost use Rattle.pdl_scope.specs.Answers.{IsFault};
ghost use Rattle.pdl_scope.specs.Dumping.{HasRoom, WritesLines, kernel_lines};

use crate::fault::ScopeFault;
use crate::laws::lines_law;
use indexmap::IndexMap;
use pdl_elem::{Name, Text};
use pdl_image::ImageWriter;
use pdl_kernel::Kernel;
use pdl_machine::{Fault, MOST_KERNELS};
use std::alloc::Global;
use std::marker::Model;

/// A kernel with the two texts by which it was defined. Contracts see the texts, which are read as
/// that kernel.
#[derive(Drop)]
pub struct DefinedKernel {
    signature: Text,
    code: Text,
    kernel: Kernel,
}

impl Model for DefinedKernel {
    ghost use Rattle.std.specs.Prelude.{◌≡◌, Ok};
    ghost use Rattle.pdl_machine.specs.Kernels.{kernel_of, texts_of};
    ghost use Rattle.pdl_machine.specs.Names.{KernelTexts};

    ghost Value = { KernelTexts };

    ghost view = { λ k. texts_of k.signature k.code };

    ghost invariant = { λ k. kernel_of (texts_of k.signature k.code) ≡ Ok k.kernel };
}

impl DefinedKernel {
    /// The kernel that these two texts are read as.
    pub fn new(signature: Text, code: Text, kernel: Kernel) -> DefinedKernel
        requires { kernel_of (texts_of signature code) ≡ Ok kernel }
        ensures { result ≡ texts_of signature code }
    {
        DefinedKernel {
            signature,
            code,
            kernel,
        }
    }

    /// The kernel that its texts are read as.
    pub(crate) fn kernel(&self) -> &Kernel
        ensures { kernel_of self.now ≡ Ok result.now }
    {
        &self.kernel
    }
}

/// The kernels by their names, in the order of their first definitions.
#[derive(Drop)]
pub struct Kernels {
    kernels: IndexMap<Name, DefinedKernel>,
}

impl Model for Kernels {
    ghost use Rattle.pdl_machine.specs.Names.{KernelTexts, Named};

    ghost Value = { Named KernelTexts };

    ghost view = { λ k. k.kernels.entries };
}

impl Kernels {
    /// No kernels. It takes no memory.
    pub fn new(alloc: Global) -> Kernels
        ensures { result ≡ [] }
    {
        Kernels {
            kernels: IndexMap::new(alloc),
        }
    }

    /// The kernel that a name is defined as, if it is.
    pub fn get(&self, name: &Name) -> Option<&DefinedKernel>
        ensures { option_map (λ k. k.now) result ≡ found self.now name.now }
    {
        self.kernels.get(name)
    }

    /// Defines a kernel of a name, with `TooManyKernels` where it is new and 256 are there. A known
    /// kernel is defined anew.
    pub fn define(&mut self, name: Name, kernel: DefinedKernel) -> Result<(), ScopeFault>
        ensures ok { let wanted = entered kernels_limit TooManyKernels self.old name kernel in
            OnOk result (wanted ≡ Ok self.new) }
        ensures fault { let wanted = entered kernels_limit TooManyKernels self.old name kernel in
            IfErr result (IsFault wanted) }
        ensures err { OnErr result (self.new ≡ self.old) }
    {
        if self.is_full_for(&name) {
            return Err(ScopeFault::Script(Fault::TooManyKernels));
        }
        match self.kernels.insert(name, kernel) {
            Ok(_) => Ok(()),
            Err(_) => Err(ScopeFault::NoMemory),
        }
    }

    /// Writes the definitions of all kernels.
    pub fn write(&self, image: &mut ImageWriter) -> Result<(), ScopeFault>
        requires { HasRoom image.old }
        ensures { WritesLines image.old image.new 0 (kernel_lines self.now) result }
    {
        lines_law();
        for index in 0..self.kernels.len() {
            let (name, defined) = self.entry(index);
            image.kernel(name, &defined.signature, &defined.code)?;
        }
        Ok(())
    }

    /// The name at a place in the order of the first definitions, with its kernel.
    fn entry(&self, index: usize) -> (&Name, &DefinedKernel)
        requires { index < length self.now }
        ensures { slice_get self.now index ≡ Some (result.0.now, result.1.now) }
    {
        match self.kernels.get_index(index) {
            Some(entry) => entry,
            None => unreachable!(),
        }
    }

    /// Whether there is no room for the name: it names no kernel, and 256 are there.
    fn is_full_for(&self, name: &Name) -> bool
        ensures { result ≡ is_full_for kernels_limit self.now name.now }
    {
        self.kernels.len() >= MOST_KERNELS && self.kernels.get(name).is_none()
    }
}
