//! Kernels: operations whose inner loop a user writes in a few lines
//! (PDL::PP). What the code means, and calls over broadcast arguments.
#![tactic(auto)]

mod argument;
mod axes;
mod call;
mod eval;
mod faults;
mod given;
mod kernel;
mod operations;
mod run;
mod scene;
mod setup;
mod steps;
mod walk;

pub use faults::{Fault, RunFault};
pub use kernel::{Kernel, kernel_signature, read_kernel};
pub use pdl_code::KernelFault;
pub use run::KernelRun;
