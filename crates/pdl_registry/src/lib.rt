//! Values by numbers that rise: each new number is above all before it, and the newest are asked for
//! most and go soonest.
#![tactic(auto)]

mod descending;
mod limits;
mod numbered;

pub use numbered::Numbered;
