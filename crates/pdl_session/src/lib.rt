//! A session: runs a script's statements, one at a time, over a scope of names, kernels and arrays,
//! and tells watchers what each changed.
//!
//! A session is seen as the state of the eager machine (`pdl_machine`), and one step of it is the
//! machine's step: the same state afterwards, the same text, the same notices, the same fault.
#![tactic(auto)]

mod call;
mod defining;
mod dims;
mod dumping;
mod eval;
mod fault;
mod fill;
mod flowing;
mod given;
mod inquiry;
mod laws;
mod news;
mod outcome;
mod reducing;
mod resizing;
mod session;
mod shapes;
mod statement;
mod target;
mod views;
mod watching;

pub use fault::{StepFault, WatcherFailed};
pub use laws::{moves_laws, worked_bounds};
pub use session::Session;
