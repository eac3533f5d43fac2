//! Cuts the bytes of a script into statements, and the text of a statement into tokens.
#![tactic(auto)]

pub mod bytes;
mod cutter;
mod laws;
mod lexer;
mod limits;
mod parts;

pub use cutter::{Mode, StatementCutter};
pub use laws::{
    joining_laws, limits_law, settled_laws, token_meaning, tokens_are_spans, written_laws,
};
pub use lexer::{is_word, read_tokens, tokens};
pub use limits::{MOST_OPEN, SCRIPT_LIMIT, STATEMENT_LIMIT};
pub use parts::cut_parts;
use std::alloc::{AllocError, AllocFailed};
use std::marker::Model;

/// Memory was wanting.
pub type NoMemory = AllocError;

/// The five kinds of token, with the bytes that each has.
#[derive(Clone, Copy, Debug, PartialEq, Eq)]
pub enum TokenKind {
    /// `$`, then a letter or `_`, then letters, digits and `_`.
    Name,
    /// A letter or `_`, then letters, digits and `_`.
    Word,
    /// `0`, or a digit 1 to 9 followed by digits.
    Number,
    /// The bytes from a quote to the next same one, with both.
    Str,
    /// An operator, a bracket, a comma or an arrow.
    Sign,
}

/// A token and its span: the bytes of the text from `from` up to `to`, without the one at `to`.
#[derive(Clone, Copy, Debug, PartialEq, Eq)]
pub struct Token {
    pub kind: TokenKind,
    pub from: u32,
    pub to: u32,
}

/// Why a text has no tokens.
#[derive(Clone, Copy, Debug, PartialEq, Eq)]
pub enum LexFault {
    /// The byte at this place begins no token.
    BadByte { at: u32 },
    /// The string that begins at this place has no end.
    OpenString { at: u32 },
    /// Memory was wanting.
    NoMemory,
}

impl From<AllocError> for LexFault {
    ghost use Rattle.std.specs.Prelude.{◌≡◌};
    ghost use Rattle.pdl_lex.specs.declared.LexFault.TheVariants.{NoMemory};

    ghost from_gives = { λ _ fault. fault ≡ NoMemory };

    fn from(_error: AllocError) -> LexFault {
        LexFault::NoMemory
    }
}

impl<T: Drop> From<AllocFailed<T>> for LexFault {
    ghost use Rattle.std.specs.Prelude.{◌≡◌};
    ghost use Rattle.pdl_lex.specs.declared.LexFault.TheVariants.{NoMemory};

    ghost from_gives = { λ _ fault. fault ≡ NoMemory };

    fn from(_refused: AllocFailed<T>) -> LexFault {
        LexFault::NoMemory
    }
}

/// The bytes of a statement's text, as they stand in the script: at most 65,536 of them.
#[derive(Drop)]
pub struct StatementText {
    bytes: Vec<u8>,
}

impl Model for StatementText {
    ghost use Rattle.std.specs.Prelude.{ℕ, ◌≤◌, List, length};
    ghost use Rattle.pdl_lex.specs.Limits.{statement_limit};

    ghost Value = { List ℕ };

    ghost view = { λ t. t.bytes.items };

    ghost invariant = { λ t. length t.bytes.items ≤ statement_limit };
}

impl StatementText {
    ghost use Rattle.std.specs.Prelude.{◌≡◌, ◌≤◌, length};
    ghost use Rattle.pdl_lex.specs.Limits.{statement_limit};

    /// The text of these bytes, of which there are no more than a statement may have.
    pub fn new(bytes: Vec<u8>) -> StatementText
        requires within { length bytes.items ≤ statement_limit }
        ensures same { result ≡ bytes.items }
    {
        StatementText { bytes }
    }

    /// The bytes in order, as a list.
    pub(crate) fn into_bytes(self) -> Vec<u8>
        ensures same { result.items ≡ self }
    {
        self.bytes
    }

    /// The bytes in order.
    pub fn bytes(&self) -> &[u8]
        ensures same { result.now ≡ self.now }
        ensures within { length result.now ≤ statement_limit }
    {
        &self.bytes
    }
}

/// A statement: its text, and the line of its first byte, counted from 1.
#[derive(Drop)]
pub struct Cut {
    pub text: StatementText,
    pub line: u64,
}

/// What a cutter answers.
#[derive(Drop)]
pub enum Piece {
    /// A whole statement.
    Whole(Cut),
    /// A statement that begins on this line has more than 65,536 bytes.
    TooLong { line: u64 },
}

/// What `feed` did: how many bytes it took, and the piece that the last of them completed, if any.
#[derive(Drop)]
pub struct Fed {
    pub used: usize,
    pub cut: Option<Piece>,
}
