//! Laws of what a formula is, for the proofs of the crates above.
ghost use Rattle.pdl_flow.specs.Laws.{MeaningLaws};

use pdl_ops::array_laws;

/// A formula goes by the arrays that it reads, is never refused for a divisor 0, and is an array.
/// It does nothing: who calls it has these.
pub fn meaning_laws()
    ensures { MeaningLaws }
{
    array_laws();
}
