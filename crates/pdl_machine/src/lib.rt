//! The eager machine: what a script means.
//!
//! The machine keeps a world of arrays and the names that are bound to them. `specs/` says what the
//! value of an expression is, what one step by a statement does and prints, and what a whole run
//! gives. The crates above run scripts with this meaning. Here are only the faults that a statement
//! can have, the names of the built-in calls, and calls that state laws of the machine.
#![tactic(auto)]

mod builtin;
mod dumpable;
mod dumping;
mod fault;
mod laws;
mod limits;
mod reading;

pub use builtin::{Arrangement, Builtin, Inquiry, builtin_named};
pub use dumpable::dumpable_laws;
pub use dumping::{dump_law, worked_dumps};
pub use fault::{Fault, fault_text};
pub use laws::{
    flow_laws, limits_law, numbering_laws, reaching_laws, view_words, watching_laws, worked_cuts,
    worked_flows, worked_nice, worked_scripts, worked_watches,
};
pub use limits::{MOST_KERNELS, MOST_NAMES, MOST_REFUSED};
pub use reading::{reads_law, run_laws, so_far_laws};
