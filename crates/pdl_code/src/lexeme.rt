//! The tokens of kernel code, with their words, signs and numbers told apart once.

use crate::names::LocalType;
use pdl_elem::{BinaryOp, UnaryOp};

/// The bytes of a kernel's text from `from` on and before `to`.
#[derive(Clone, Copy, PartialEq, Eq)]
pub struct Span {
    pub from: u32,
    pub to: u32,
}

/// What a word is besides a name. All but the plain ones are reserved.
#[derive(Clone, Copy, PartialEq, Eq)]
pub enum WordKind {
    Loop,
    If,
    Else,
    /// `int`, `long` or `longlong`
    OfType(LocalType),
    Plain,
}

/// What `$` and a word are besides an argument.
#[derive(Clone, Copy, PartialEq, Eq)]
pub enum NameKind {
    /// `$SIZE`
    Size,
    /// `$GENERIC`
    Generic,
    Plain,
}

/// A token as the grammar reads it.
#[derive(Clone, Copy, PartialEq, Eq)]
pub enum Lexeme {
    /// `$` and a word, the `$` among the bytes.
    Name(NameKind, Span),
    Word(WordKind, Span),
    /// The number, or 2 ^ 63 where it is above 9223372036854775807.
    Number(u64),
    Open,
    /// `)`, and its place.
    Close(u32),
    /// `%{`
    BlockOpen,
    /// `%}`
    BlockClose,
    Semicolon,
    Comma,
    Equals,
    FatArrow,
    /// An operator followed by `=`, as `+=`.
    Assign(BinaryOp),
    /// An operator on two values; `-` is `Sub`.
    Operator(BinaryOp),
    /// `!` or `~`
    Prefix(UnaryOp),
    /// `->`, an operator of statements that kernel code doesn't have.
    Arrow,
    /// Another sign that kernel code doesn't have.
    Unused,
}
