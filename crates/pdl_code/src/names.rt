//! How names stand in code: as the text has them, and resolved.

use crate::lexeme::Span;
use crate::tree;
use pdl_elem::Items;

/// The declared type of a local.
#[derive(Clone, Copy, PartialEq, Eq, Debug)]
pub enum LocalType {
    /// `int` or `long`
    Long,
    /// `longlong`
    Longlong,
    /// `$GENERIC()`: the call's generic type.
    Generic,
}

/// An argument's name in the text, and the place of the closing bracket behind it.
#[derive(Clone, Copy)]
pub struct Called {
    pub name: Span,
    pub close: u32,
}

/// A word of the text that is stored to.
#[derive(Clone, Copy)]
pub enum Target {
    /// It is declared here, with this type.
    New(LocalType, Span),
    Named(Span),
}

/// An index of an access as the text has it. The word is its dimension.
pub type RawEntry = tree::Entry<Span, Called, Span>;

/// An expression as the text has it.
pub type RawExpr = tree::Expr<Span, Called, Span>;

/// A statement as the text has it.
pub type RawStmt = tree::Stmt<Span, Called, Span, Target>;

/// What a word of an expression is.
#[derive(Clone, Copy)]
pub enum Variable {
    /// A local, by its slot.
    Slot(usize),
    /// The index of the loop over a dimension, by the dimension's number among the signature's
    /// names.
    Index(usize),
}

/// A local that is stored to. A declaration stores to the next slot.
#[derive(Clone, Copy)]
pub struct Kept {
    pub slot: usize,
    pub ty: LocalType,
}

/// An index of an access. The number is the place of its dimension in the argument.
pub type Entry = tree::Entry<Variable, usize, usize>;

/// An expression. An argument is its number in the signature, a dimension its number among the
/// signature's names.
pub type Expr = tree::Expr<Variable, usize, usize>;

/// A statement.
pub type Stmt = tree::Stmt<Variable, usize, usize, Kept>;

/// The code of a kernel, with its names found.
#[derive(Drop)]
pub struct KernelCode {
    pub stmts: Items<Stmt>,
    /// How many locals are visible at once, at most. Every slot is below it.
    pub locals: usize,
}
