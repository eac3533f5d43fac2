//! The tokens of kernel code that are still to be read.
ghost use Rattle.std.specs.Prelude.{◌≡◌, ◌≤◌, ◌<◌, ◌^◌, length, nat_eq, None, Some};
ghost use Rattle.pdl_lexemes.specs.Squares.{joined};

use crate::lexeme::Lexeme;
use std::marker::Model;

/// The tokens from some place of a text on, seen as their list: fewer than 2 ^ 32.
#[derive(Drop)]
pub struct Lexemes<'a> {
    list: &'a [Lexeme],
}

impl<'a> Model for Lexemes<'a> {
    ghost use Rattle.std.specs.Prelude.{List, length, ◌<◌, ◌^◌};
    ghost use Rattle.pdl_code.specs.declared.lexeme.Lexeme.{Lexeme};

    ghost Value = { List Lexeme };

    ghost view = { λ t. t.list.now };

    ghost invariant = { λ t. length t.list.now < 2 ^ 32 };
}

impl<'a> Lexemes<'a> {
    /// All tokens of a text.
    pub fn of(list: &'a [Lexeme]) -> Lexemes<'a>
        requires small { length list.now < 2 ^ 32 }
        ensures { result ≡ list.now }
    {
        Lexemes { list }
    }

    /// The first token, and what follows it.
    pub fn split_first(&self) -> Option<(Lexeme, Lexemes<'a>)>
        ensures { self.now ≡ joined result }
    {
        match self.list {
            [] => None,
            [first, rest @ ..] => Some((*first, Lexemes { list: rest })),
        }
    }

    /// The same tokens again.
    pub fn copy(&self) -> Lexemes<'a>
        ensures { result ≡ self.now }
    {
        Lexemes { list: self.list }
    }

    /// How many tokens there are.
    pub fn len(&self) -> usize
        ensures count { result ≡ length self.now }
        ensures within { result < 2 ^ 32 }
    {
        self.list.len()
    }
}
