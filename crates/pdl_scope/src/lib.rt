//! A scope: what a session keeps. It has names, kernels, arrays, the slots of watchers and flows,
//! is seen as a state of the eager machine (`pdl_machine`), and each change of it is one call, whose
//! contract is the machine's definition. It knows arrays by their numbers alone, and watchers by
//! their slots.
#![tactic(auto)]

mod assigning;
mod calling;
mod cutting;
mod dumping;
mod fault;
mod flowing;
mod flows;
mod following;
mod holding;
mod kernels;
mod laws;
mod limits;
mod names;
mod operating;
mod print;
mod reading;
mod reducing;
mod scope;
mod watching;

pub use fault::ScopeFault;
pub use kernels::DefinedKernel;
pub use laws::cost_laws;
pub use limits::{MOST_SLOTS, limits_law};
pub use scope::Scope;
