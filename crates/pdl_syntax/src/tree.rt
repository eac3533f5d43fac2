//! Statements and expressions.

use pdl_buf::Made;
use pdl_elem::{BinaryOp, Name, Text, Ty, UnaryOp};
use pdl_lexemes::AssignOp;

/// An argument of a call.
#[cycle(expr)]
#[derive(Drop)]
pub enum Arg {
    Value(Expr),
    /// A string, without its quotes.
    Str(Text),
    /// A type word that calls nothing, as in `zeroes(byte, 2)`.
    OfType(Ty),
}

/// A value's expression. A method call `e->f(a)` is `Call(f, [e, a])`.
#[cycle(expr)]
#[derive(Drop)]
pub enum Expr {
    /// From 0 to 9223372036854775807.
    Number(i64),
    /// A name, with its `$`.
    Named(Name),
    /// A list literal. The dimensions of a list of lists are those of its members, then its length.
    /// In a box, since expressions are moved while they are read, and all others are small.
    List(Box<Made>),
    Unary(UnaryOp, Box<Expr>),
    Binary(BinaryOp, Box<Expr>, Box<Expr>),
    Call(Name, Vec<Arg>),
}

/// A view word of a target, with its arguments.
#[derive(Drop)]
pub struct ViewCall {
    pub method: Name,
    pub args: Vec<Arg>,
}

/// What an assignment writes to: a name, and the views on it in order.
#[derive(Drop)]
pub struct Target {
    pub name: Name,
    pub views: Vec<ViewCall>,
}

/// A statement. Names have their `$`.
#[derive(Drop)]
pub enum Statement {
    /// `$x = e`, or `$x = e->sever`.
    Bind {
        name: Name,
        value: Expr,
        sever: bool,
    },
    /// `($a, $b) = f(..)`. The value is a call.
    BindList {
        names: Vec<Name>,
        value: Expr,
    },
    /// `$x->slice("..") .= e`
    Assign {
        target: Target,
        op: AssignOp,
        value: Expr,
    },
    /// `p e`, or `p e->info`.
    Show {
        value: Expr,
        info: bool,
    },
    /// `p "text"`
    ShowText {
        text: Text,
    },
    /// `$x->sever`
    Sever {
        name: Name,
    },
    /// `$x->reshape(..)`
    Reshape {
        name: Name,
        sizes: Vec<Arg>,
    },
    /// `undef $x`
    Undef {
        name: Name,
    },
    /// `vars`
    Vars,
    /// `dump`
    Dump,
    /// `flow $y = e`. The value is a formula.
    Flow {
        name: Name,
        value: Expr,
    },
    /// `pp_def("name", Pars => "signature", Code => "code")`
    PpDef {
        name: Text,
        signature: Text,
        code: Text,
    },
    /// `watch $x, 3`
    Watch {
        name: Name,
        slot: u64,
    },
    /// `unwatch 3`
    Unwatch {
        slot: u64,
    },
}
