//! How many rounds a generated script has, and how many bytes are read at once.
ghost use Rattle.pdl_shell.specs.Limits.{LimitsAre};

/// The most rounds of a generated script.
pub const MOST_ROUNDS: u16 = 2000;

/// The most bytes that a source is asked for at once.
pub const MOST_READ: usize = 4096;

/// A generated script has at most 2,000 rounds, and a source is asked for at most 4,096 bytes at
/// once. The call does nothing when it runs.
pub fn limits_law()
    ensures { LimitsAre }
{}
