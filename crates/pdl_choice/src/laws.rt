//! Laws of the view formulas, for the proofs of the crates above.
ghost use Rattle.pdl_choice.specs.Laws.{IndexSourcesLieWithin, RangeSourcesLieWithin, WhereSourcesLieWithin};

use pdl_shape::shape_laws;

/// The coordinates that a view's own come from lie within its parent. It does nothing: who calls it
/// has the laws.
pub fn choice_laws()
    ensures index { IndexSourcesLieWithin }
    ensures listed { WhereSourcesLieWithin }
    ensures range { RangeSourcesLieWithin }
{
    shape_laws()
}
