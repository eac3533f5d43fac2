//! How long scripts and statements may be, and how deep their brackets.

/// The most bytes of a statement's text.
pub const STATEMENT_LIMIT: usize = 65_536;

/// The most bytes of a script.
pub const SCRIPT_LIMIT: usize = 16_777_216;

/// At most so many brackets are open at once.
pub const MOST_OPEN: u32 = 64;
