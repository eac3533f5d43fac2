//! Laws of the view formulas, for the proofs of the crates above.
ghost use Rattle.pdl_affine.specs.Laws.{ComposedShowViews, SourcesLieWithin, UncomposedAreInOrder};

use pdl_shape::shape_laws;

/// The coordinates that a view's own come from lie within its parent. It does nothing: who calls it
/// has the law.
pub fn view_laws()
    ensures sources { SourcesLieWithin }
{
    shape_laws()
}

/// The triple by which an affine view is shown over the base of its parent shows what the view's
/// coordinates stand for; a view that has none, a clump whose increments don't join, has the
/// parent's elements in their order. It does nothing: who calls it has the laws.
pub fn window_laws()
    ensures composed { ComposedShowViews }
    ensures uncomposed { UncomposedAreInOrder }
{
    shape_laws()
}
