//! How much a state may have, and how many statements of a run may be refused.

/// At most so many arrays' names are bound at once.
pub const MOST_NAMES: usize = 512;

/// At most so many kernels are there at once.
pub const MOST_KERNELS: usize = 256;

/// Memory may refuse so many statements of a run; the last of them ends it.
pub const MOST_REFUSED: usize = 64;
