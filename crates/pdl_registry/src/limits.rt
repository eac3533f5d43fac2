//! How many numbers stand where.

/// How many numbers stand before the map at most.
pub(crate) const MOST_NEWEST: usize = 8;
