//! Laws of dumps.
ghost use Rattle.pdl_machine.specs.DumpLaws.{DumpsAreWorked, DumpsNameByNumbers};

/// The dump of a tidied state, as a state is between two statements, names its arrays by their own
/// numbers. The call does nothing when it runs.
pub fn dump_law()
    ensures { DumpsNameByNumbers }
{}

/// Dumps of scripts, and a refusal, worked by hand. The call does nothing when it runs.
pub fn worked_dumps()
    ensures { DumpsAreWorked }
{}
