//! The view words: the transformation that each gives for its arguments.
pub mod arrangement;
pub mod choices;
pub mod nice;
pub mod slice;
