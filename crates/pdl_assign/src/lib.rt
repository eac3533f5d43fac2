//! Assignments block by block (PDL::Ops, PDL::Broadcasting): a block of values is found and
//! written, and then the next one, where this is the same as to find all values first. So no list
//! of them is kept.
#![tactic(auto)]

mod alike;
mod blocks;
mod choosing;
mod copies;
mod laws;
mod through;

pub use blocks::{BLOCK, assign_blocks, assign_shown};
pub use choosing::can_block;
pub use laws::worked_blocks;
pub use through::{assign_through, goes_through};
