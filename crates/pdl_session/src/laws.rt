//! Laws of sessions.
ghost use Rattle.pdl_session.specs.MovesLaws.{KeptViewsCostNothing, ReadyPrintsMoveNothing};
ghost use Rattle.pdl_session.specs.WorkedBounds.{ChainedFlowsMoveLittle, LateWritesMoveLittle, RefusedSumsMoveWhatCame};

/// Bounds worked by hand. Of a script of six statements, what the last three move at most, by the
/// clauses of `Session::step` alone: an assignment to a choice view waits, and is moved once, when
/// the root is printed (`late`). Of a sum with a refused operand, what comes until then: eleven
/// elements behind a sequence of ten, and one before it (`refused`). And of two flows, of which one
/// reads the other, what they move at most that follow an assignment (`flows`). The call does
/// nothing when it runs.
pub fn worked_bounds()
    ensures late { LateWritesMoveLittle }
    ensures refused { RefusedSumsMoveWhatCame }
    ensures flows { ChainedFlowsMoveLittle }
{}

/// A statement that ran, after which no view goes, moves at most what its form says; so a print of a
/// bare name whose array is ready moves nothing. The call does nothing when it runs.
pub fn moves_laws()
    ensures kept { KeptViewsCostNothing }
    ensures prints { ReadyPrintsMoveNothing }
{}
