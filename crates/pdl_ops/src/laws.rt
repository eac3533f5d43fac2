//! Laws of the operators over whole arrays, for the proofs of the crates above.
ghost use Rattle.pdl_ops.specs.Laws.{ArrayLaws, FormLaws};

use pdl_elem::{operator_laws, wrapping_laws};

/// An operator that doesn't divide goes by the form of its operands, and what is made of arrays is
/// an array. It does nothing: who calls it has these.
pub fn array_laws()
    ensures form { FormLaws }
    ensures arrays { ArrayLaws }
{
    operator_laws();
    wrapping_laws();
}
