//! Numbers of one type, packed in its width, and which of them a triple shows at each position.
//!
//! A list of numbers is kept as bytes: each number as two's complement, lowest byte first. They are
//! read and written one by one, in blocks, through places, and as a triple shows them.
#![tactic(auto)]

mod across;
mod copies;
mod folds;
mod laws;
mod numbers;
mod packed;
mod placement;
mod prefixes;
mod ranges;
mod reads;
mod routes;
mod runs;
mod sums;
mod types;
mod updates;
mod values;
mod writes;

pub use laws::{prefix_laws, shown_laws};
pub use numbers::{Numbers, numbers_of};
pub use placement::{Placement, shows_identity};
pub use prefixes::Folding;
pub use routes::Route;
pub use runs::Run;
pub use updates::Update;
