//! Kernel code: a few lines that a user writes for an operation's inner loop (PDL::PP, Code).
#![tactic(auto)]

mod block;
mod build;
mod depth;
mod expr;
mod fault;
mod laws;
mod left;
mod lexeme;
mod lexing;
mod locals;
mod names;
mod peek;
mod reading;
mod resolve;
mod scope;
mod stmts;
mod tree;

pub use fault::KernelFault;
pub use laws::{code_meaning, one_reading, rows_are_trees};
pub use names::{Entry, Expr, Kept, KernelCode, LocalType, Stmt, Variable};
pub use reading::read_code;
