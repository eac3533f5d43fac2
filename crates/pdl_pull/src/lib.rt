//! Making arrays fresh: each view on an array's path that is outdated is filled with its
//! elements of the root, from the root on (PDL::Dataflow).
#![tactic(auto)]

mod bit_set;
mod filling;
mod finding;
mod gathering;
mod refreshing;

pub use finding::find;
pub use refreshing::{is_fresh, refresh};
