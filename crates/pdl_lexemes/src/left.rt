//! The lexemes of a statement that are still to be read.

ghost use Rattle.std.specs.Prelude.{◌≡◌, ◌≤◌, length, nat_eq, is_ok, IfErr, None, Some, if◌then◌else◌};
ghost use Rattle.pdl_lex.specs.Limits.{statement_limit};
ghost use Rattle.pdl_lexemes.specs.Depth.{is_too_deep, has_arrow};
ghost use Rattle.pdl_lexemes.specs.Squares.{AreFew, joined};

use crate::{Lexeme, Refusal, checks};
use std::marker::Model;

/// The lexemes from some place of a statement on, seen as their list: at most 65,536, among which
/// never more than 16 square brackets are open at once.
#[derive(Drop)]
pub struct Lexemes<'a> {
    list: &'a [Lexeme],
}

impl<'a> Model for Lexemes<'a> {
    ghost use Rattle.std.specs.Prelude.{List};
    ghost use Rattle.pdl_lexemes.specs.declared.Lexeme.{Lexeme};
    ghost use Rattle.pdl_lexemes.specs.Squares.{AreFew};

    ghost Value = { List Lexeme };

    ghost view = { λ t. t.list.now };

    ghost invariant = { λ t. AreFew t.list.now };
}

impl<'a> Lexemes<'a> {
    /// All lexemes of a statement. `None` where more than 64 brackets are open at once, more than
    /// 16 square ones, or more than 256 operators stand outside square brackets.
    #[tactic(auto, using(crate::proofs::SquareLemmas::all_few))]
    pub fn of(list: &'a [Lexeme]) -> Option<Lexemes<'a>>
        requires small { length list.now ≤ statement_limit }
        ensures { result ≡ (if is_too_deep list.now then None else Some list.now) }
    {
        if checks::is_too_deep(list) {
            None
        } else {
            Some(Lexemes { list })
        }
    }

    /// The first lexeme, and what follows it.
    #[tactic(auto, using(crate::proofs::SquareLemmas::rest_few))]
    pub fn split_first(&self) -> Option<(Lexeme, Lexemes<'a>)>
        ensures { self.now ≡ joined result }
    {
        match self.list {
            [] => None,
            [first, rest @ ..] => Some((*first, Lexemes { list: rest })),
        }
    }

    /// The same lexemes again.
    pub fn copy(&self) -> Lexemes<'a>
        ensures { result ≡ self.now }
    {
        Lexemes { list: self.list }
    }

    /// How many lexemes there are.
    pub fn len(&self) -> usize
        ensures count { result ≡ length self.now }
        ensures few { AreFew self.now }
        ensures within { result ≤ statement_limit }
    {
        self.list.len()
    }

    /// Whether nothing is left.
    pub fn is_empty(&self) -> bool
        ensures { result ≡ nat_eq (length self.now) 0 }
    {
        self.list.is_empty()
    }

    /// Whether an arrow is among them.
    pub fn has_arrow(&self) -> bool
        ensures { result ≡ has_arrow self.now }
    {
        checks::has_arrow(self.list)
    }

    /// `Refused` where something is left.
    pub fn end(&self) -> Result<(), Refusal>
        ensures ok { is_ok result ≡ nat_eq (length self.now) 0 }
        ensures err { IfErr result (λ r. r ≡ Refusal.Refused) }
    {
        if self.list.is_empty() {
            Ok(())
        } else {
            Err(Refusal::Refused)
        }
    }
}
