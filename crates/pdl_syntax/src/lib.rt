//! The grammar of the script language: a statement's tokens are read as the one tree that spells
//! them, or refused for the first reason.
#![tactic(auto)]

mod build;
mod expr;
mod formula;
mod laws;
mod levels;
mod literal;
mod parser;
mod parts;
mod ragged;
mod reader;
mod statement;
mod tree;

pub use laws::{
    calls_are_trees, one_statement, parsing_is_the_grammar, reading_is_the_grammar,
    spelled_are_well_made,
};
pub use parser::{ParseFault, parse, parse_within};
pub use pdl_lexemes::AssignOp;
pub use tree::{Arg, Expr, Statement, Target, ViewCall};
