//! Runs a script: the words of the command line, the reading of the source, the
//! statements in order, and the status at the end.
#![tactic(auto)]

mod generated;
mod laws;
mod limits;
mod line;
mod mark;
mod output;
mod parsing;
mod reading;
mod refused;
mod run;
mod runner;
mod statement;
mod status;
mod stop;
mod summary;
mod words;

pub use laws::{headline_laws, worked_statuses};
pub use limits::{MOST_READ, MOST_ROUNDS, limits_law};
pub use pdl_scope::MOST_SLOTS;
pub use refused::Refused;
pub use run::run_shell;
pub use status::Status;
