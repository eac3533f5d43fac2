//! The lexemes of a statement: its tokens with their words, signs and numbers told apart once, so
//! that the grammar is read over a small `Copy` enum.
#![tactic(auto)]

ghost use Rattle.std.specs.Prelude.{◌≡◌, ◌≤ℤ◌, pos, IfSome};
ghost use Rattle.pdl_lexemes.specs.Lists.{signed};

mod checks;
mod laws;
mod left;
mod levels;
mod lexing;
mod limits;
pub mod list;
mod peek;
mod refusal;
pub mod sizes;
mod tables;

pub use checks::{MOST_OPERATORS, has_large};
pub use laws::{
    brackets_are_counted, every_sign_is_known, lexemes_hold_texts, limits_law, lists_are_arrays,
    lists_are_their_grammar, ragged_is_scanned, type_words_are_words,
};
pub use left::Lexemes;
pub use levels::level_of;
pub use lexing::{
    assignment_named, bytes, keyword_named, lexemes, number_of, operator_named, read_lexemes,
};
pub use limits::{LARGEST_LONG, LARGEST_NUMBER};
use pdl_elem::{BinaryOp, Ty, UnaryOp};
pub use refusal::Refusal;

/// The sign of an assignment: `.=`, or an operator followed by `=`.
#[derive(Clone, Copy, PartialEq, Eq, Debug)]
pub enum AssignOp {
    Set,
    With(BinaryOp),
}

/// The bytes of a statement's text from `from` on and before `to`.
#[derive(Clone, Copy, PartialEq, Eq, Debug)]
pub struct Span {
    pub from: usize,
    pub to: usize,
}

/// A word that begins or ends a form of statement, and is no name of a call.
#[derive(Clone, Copy, PartialEq, Eq, Debug)]
pub enum Keyword {
    My,
    Print,
    Undef,
    Vars,
    Dump,
    Flow,
    PpDef,
    Watch,
    Unwatch,
    Pdl,
    Info,
    Sever,
    Reshape,
}

/// What a word that may name a call is besides.
#[derive(Clone, Copy, PartialEq, Eq, Debug)]
pub enum WordKind {
    /// `byte`, `short`, `ushort`, `long` or `longlong`.
    OfType(Ty),
    /// A word that makes a view: `slice`, `xchg`, `mv` and so on.
    View,
    Pars,
    Code,
    Plain,
}

/// A token as the grammar reads it.
#[derive(Clone, Copy, PartialEq, Eq, Debug)]
pub enum Lexeme {
    /// `$` and a word, the `$` among the bytes.
    Name(Span),
    Keyword(Keyword),
    Word(WordKind, Span),
    /// The number, or one more than `LARGEST_NUMBER` where it is above that.
    Number(u64),
    /// A string without its quotes.
    Quoted(Span),
    Open,
    Close,
    OpenSquare,
    CloseSquare,
    Comma,
    Equals,
    Arrow,
    FatArrow,
    Assign(AssignOp),
    /// An operator on two values; `-` is `Sub`.
    Operator(BinaryOp),
    /// `!` or `~`.
    Prefix(UnaryOp),
    /// A sign that no rule of the grammar has, as `:`.
    Unknown,
}

/// The number, where it is at most `LARGEST_NUMBER`.
pub fn signed(n: u64) -> Option<i64>
    ensures value { result ≡ signed n }
    ensures positive { IfSome result (λ z. pos 0 ≤ℤ z) }
{
    if n <= LARGEST_NUMBER {
        Some(n as i64)
    } else {
        None
    }
}
