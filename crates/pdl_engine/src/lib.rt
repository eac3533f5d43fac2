//! The engine: arrays that are kept, and the views of them.
//!
//! An engine is seen as a world of arrays (`pdl_world`): each call says what the world is after it.
//! Affine views keep no elements: they are shown over the elements of their base. Views that pick
//! places keep a buffer, which is filled when it is read or written (`pdl_pull`). What is assigned
//! through such a view waits there, until an array of its family is made ready (`pdl_push`). How
//! arrays are kept is the node table's (`pdl_nodes`).
#![tactic(auto)]

mod assigning;
mod by_place;
mod depth;
mod engine;
mod foreseeing;
mod gathering;
mod laws;
mod reaching;
mod readying;
mod releases;
mod severing;
mod spread;
mod through;
pub mod worked;

pub use engine::{ArrayId, Engine};
pub use foreseeing::{Foreseen, Foresight, all_shown};
pub use laws::{followed_scripts, hold_laws, worked_scripts};
pub use pdl_nodes::{RelayFault as ReshapeFault, ViewFault};

/// How many elements are read at once.
const BLOCK: usize = 512;
