//! How much a scope may have.
ghost use Rattle.pdl_scope.specs.Limits.{LimitIs};

/// At most so many slots are there.
pub const MOST_SLOTS: usize = 1024;

/// The formulas of all flows name arrays at most so often. The lists of these names would take more
/// memory than can be.
pub(crate) const MOST_READS: usize = 1152921504606846976;

/// At most 1,024 slots are there. The call does nothing when it runs.
pub fn limits_law()
    ensures { LimitIs }
{}
