//! The tree of kernel code, over how names stand in it: a word of an expression `W`, an argument
//! `A`, a dimension `D`, and a word that is stored to `S`. `names` has the two ways.

use pdl_elem::{BinaryOp, UnaryOp};

/// An index of an access, behind its dimension.
#[cycle(expr)]
#[derive(Drop)]
pub enum Entry<W, A, D> {
    /// An index that the text gives.
    Given(D, Expr<W, A, D>),
    /// The index of the loop over the dimension, which no text gives.
    Looped(D, W),
}

/// An expression. Every number of it is a longlong.
#[cycle(expr)]
#[derive(Drop)]
pub enum Expr<W, A, D> {
    /// From 0 to 9223372036854775807.
    Number(i64),
    /// The size of a dimension, `$SIZE(n)`.
    Size(D),
    /// A local, or the index of a loop.
    Named(W),
    /// An element of an argument. The given indices come first, in the order of the text.
    Access(A, Vec<Entry<W, A, D>>),
    Unary(UnaryOp, Box<Expr<W, A, D>>),
    Binary(BinaryOp, Box<Expr<W, A, D>>, Box<Expr<W, A, D>>),
}

/// A statement.
#[derive(Drop)]
pub enum Stmt<W, A, D, S> {
    /// The code at each index of a dimension, `loop(n) %{ .. %}`.
    Loop(D, Vec<Stmt<W, A, D, S>>),
    /// `if (e) %{ .. %} else %{ .. %}`
    If(Expr<W, A, D>, Vec<Stmt<W, A, D, S>>, Vec<Stmt<W, A, D, S>>),
    /// A store to a local. A declaration is one, of 0 where it has no value.
    Keep(S, Option<BinaryOp>, Expr<W, A, D>),
    /// A store to an element of an argument.
    Put(A, Vec<Entry<W, A, D>>, Option<BinaryOp>, Expr<W, A, D>),
}
