//! Transformations whose numbers are resolved against the parent's dimensions.

/// What a slice argument takes of one dimension of the parent.
#[derive(Clone, Copy, Debug)]
pub enum Taken {
    /// The first element and so many steps, in a dimension of this size.
    Kept { first: u32, step: i32, size: u32 },
    /// One element, without a dimension.
    Lost { first: u32 },
    /// Nothing: a new dimension of this size.
    Added { size: u32 },
}

/// A transformation that fits its parent's dimensions: dimensions by their places, none negative.
#[derive(Debug, Drop)]
pub enum Form {
    Sliced(Vec<Taken>),
    Exchanged(usize, usize),
    Shifted(usize, usize),
    Arranged(Vec<usize>),
    Inserted { place: usize, size: u64 },
    Diagonal(Vec<usize>),
    Squeezed,
    Clumped(usize),
}

/// The parent's coordinate along one dimension, for coordinates of a view: the first one, and so
/// many steps as the view's coordinate along one of its dimensions says. A step of 0 has none.
#[derive(Clone, Copy, Debug, Default)]
pub struct Course {
    pub first: u32,
    pub step: i32,
    pub along: usize,
}
