//! Formulas over arrays, and their evaluation: whole arrays by operators that don't divide, numbers
//! and conversions (PDL::Ops, PDL::Core, PDL::Dataflow).
#![tactic(auto)]

mod evaluation;
mod formula;
mod kept;
mod laws;
mod operand;

pub use evaluation::evaluate;
pub use formula::{Formula, Input, has_input};
pub use kept::Kept;
pub use laws::meaning_laws;
