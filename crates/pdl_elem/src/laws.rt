//! Laws of the definitions, for the proofs of the crates above.
ghost use Rattle.pdl_elem.specs.Laws.{BlockLaws, CongruenceLaws, OperatorLaws, WrappingLaws};

/// The laws of wrapping. It does nothing: who calls it has them.
pub fn wrapping_laws()
    ensures { WrappingLaws }
{}

/// That a number may be wrapped before it is added to another one, or multiplied by it. It does
/// nothing: who calls it has the laws.
pub fn congruence_laws()
    ensures { CongruenceLaws }
{}

/// The laws of the operators' results. It does nothing: who calls it has them.
pub fn operator_laws()
    ensures { OperatorLaws }
{}

/// The laws of operators on blocks. It does nothing: who calls it has them.
pub fn block_laws()
    ensures { BlockLaws }
{}
