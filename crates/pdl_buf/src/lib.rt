//! Kept buffers of numbers, windows on them, and the count of the elements that were moved.
//!
//! A buffer comes into being by `buf_of`, `buf_of_elements` or `gathered` alone and is changed by
//! `buf_set`, `gather`, the five calls `scatter` to `scatter_onward`, `update` and `copy_shown`
//! alone, and each of these counts the elements that it moves or changes in a `Steps` of the caller.
//! `buf_take` alone leaves a buffer without elements, which are in another one then. So each element
//! that isn't 0 came in by a counted step.
#![tactic(auto)]

mod buffer;
mod copies;
mod lending;
mod made;
mod moves;
mod packing;
mod ranges;
mod reading;
mod steps;
mod stretching;
mod window;

pub use buffer::{Buf, buf_bytes, buf_get, buf_of, buf_of_elements, buf_set};
pub use copies::{buf_take, copy_shown};
pub use lending::strided;
pub use made::{Elements, Made};
pub use moves::{
    gather, gathered, scatter, scatter_along, scatter_by, scatter_from, scatter_onward, update,
};
pub use packing::Packing;
pub use pdl_numbers::Run;
pub use ranges::strided_is_in_range;
pub use reading::{
    strided_fold_across, strided_is_turned, strided_read, strided_run, strided_sum,
    strided_take_across,
};
pub use std::alloc::AllocError as NoMemory;
pub use steps::{Steps, new_steps, tick};
pub use stretching::stretched;
pub use window::{Strided, strided_dims, strided_get, strided_type};
