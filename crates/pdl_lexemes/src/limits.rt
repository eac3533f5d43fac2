//! How large the numbers of a text are.

/// The greatest number of a text.
pub const LARGEST_NUMBER: u64 = 9_223_372_036_854_775_807;

/// The greatest size of the numbers of a list of long: one with a larger number is of longlong.
pub const LARGEST_LONG: u64 = 2_147_483_647;
