//! Laws of the definitions, for the proofs of the crates above.
ghost use Rattle.pdl_shape.specs.Laws.{CutsWithin, JoinsStretch, LimitsAre, PlacesLieInParent, PositionLaws, SizeLaws, WholesAreInOrder, WholesAreTriples, WriteLaws};

/// The laws of sizes, positions and places. It does nothing: who calls it has them.
pub fn shape_laws()
    ensures positions { PositionLaws }
    ensures sizes { SizeLaws }
    ensures wholes { WholesAreInOrder }
    ensures cuts { CutsWithin }
    ensures joins { JoinsStretch }
    ensures places { PlacesLieInParent }
    ensures writes { WriteLaws }
{}

/// The triple of a whole array is a triple. It does nothing: who calls it has the law.
pub fn triple_laws()
    ensures wholes { WholesAreTriples }
{}

/// An array has at most 16 dimensions, and an extent of at most 1,048,576. It does nothing: who calls
/// it has the law.
pub fn limits_law()
    ensures { LimitsAre }
{}
