//! Laws of what a triple shows and of what numbers come to, for the proofs of the crates above.
ghost use Rattle.pdl_numbers.specs.Laws.{PrefixLaws, ShownLaws};

use pdl_shape::shape_laws;

/// What a triple shows of numbers. It does nothing: who calls it has the laws.
pub fn shown_laws()
    ensures { ShownLaws }
{
    shape_laws();
}

/// What numbers come to up to each of them. It does nothing: who calls it has the laws.
pub fn prefix_laws()
    ensures { PrefixLaws }
{}
