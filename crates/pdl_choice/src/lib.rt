//! Choices: views that pick places of their parent one by one.
//!
//! `index`, `where`, `range` and the list of a clump that is no window each answer the dimensions
//! of the view and, for each of its positions in order (dimension 0 fastest), the position in the
//! parent, or nothing where a range reaches beyond an edge that reads 0. Refusals that hang on
//! sizes alone come before any list of places of the view is made.
#![tactic(auto)]

mod answers;
mod clumps;
mod corners;
mod edges;
mod indices;
mod laws;
mod masks;
mod places;
mod reach;
mod rounds;
mod windows;

pub use answers::{Choice, ChoiceFault, NoMemory};
pub use clumps::clump_list;
pub use edges::Edge;
pub use indices::index;
pub use laws::choice_laws;
pub use masks::{Positions, listed_places, where_places, which_places};
pub use places::Places;
pub use windows::range;
