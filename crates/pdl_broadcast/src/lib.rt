//! One walk through the coordinates of a broadcast, with the place of each argument's element
//! (PDL::Broadcasting).
//!
//! A walk goes through the coordinates of its dimensions in broadcast order, dimension 0 fastest.
//! Each argument is a triple whose dimensions stretch to the walk's. At each coordinates the walk
//! has the argument's place there: along a dimension of size 1, or one that the argument lacks, it
//! stays.
#![tactic(auto)]

mod cursors;
mod walk;

pub use walk::BroadcastWalk;
