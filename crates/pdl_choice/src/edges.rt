//! What stands beyond the edges of a dimension.
/// What a range reads where its window reaches beyond its parent (PDL::Slices, range).
#[derive(Clone, Copy, PartialEq, Eq, Debug)]
pub enum Edge {
    /// A window beyond an edge is refused.
    Refuse,
    /// Beyond an edge a window has no place: it reads 0 and drops writes.
    Zero,
    /// Beyond an edge stands the nearest coordinate.
    Nearest,
    /// The parent repeats without end.
    Periodic,
}
