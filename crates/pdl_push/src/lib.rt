//! Late write-back: values that are assigned to an array wait in its base. They are put into the
//! root once an array of the family is read, or the base goes (PDL::Dataflow).
#![tactic(auto)]

mod assigning;
mod copying;
mod settling;
mod through;

pub use assigning::{assign, replace, update};
pub use copying::copy;
pub use settling::{settle, settle_all, write_back};
pub use through::assign_through;
