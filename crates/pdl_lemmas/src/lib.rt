//! Lemmas about the standard library's types alone that several crates cite. It has no function.
#![tactic(auto)]
