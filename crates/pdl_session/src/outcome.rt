//! What a call gives.
use pdl_buf::Made;
use pdl_world::Trans;

/// What a call gives: a new array, or a view of its first argument.
#[derive(Drop)]
pub enum Outcome {
    New(Made),
    View(Trans),
}
