//! Laws of assignments in blocks, for who reads them.
ghost use Rattle.pdl_assign.specs.Worked.{RepeatsAddUp, SiblingsMix};

/// Where blocks aren't the whole assignment, worked by hand: the target repeats a place and the
/// sign reads it, or the right side is another array of the same root.
pub fn worked_blocks()
    ensures repeats { RepeatsAddUp }
    ensures siblings { SiblingsMix }
{}
