//! Looks at the front of what is left, each with what follows.

ghost use Rattle.std.specs.Prelude.{◌≡◌, ◌≤ℤ◌, pos, IfSome};
ghost use Rattle.pdl_lexemes.specs.Peeks.{after, after_keyword, after_reshape, after_names, after_label, number_at, signed_number_at, prefix_at, word_at, method_at, type_at, quoted_at, name_at, view_word, view_at, assign_at, slot_at, is_brackets, begins_word};

use crate::{AssignOp, Keyword, Lexeme, Lexemes, Span, WordKind, signed};
use pdl_elem::{BinaryOp, Ty, UnaryOp};

impl<'a> Lexemes<'a> {
    /// What follows this lexeme.
    pub fn after(&self, sign: Lexeme) -> Option<Lexemes<'a>>
        ensures rest { result ≡ after sign self.now }
    {
        match self.split_first() {
            None => None,
            Some((first, rest)) => if sign == first { Some(rest) } else { None },
        }
    }

    /// What follows an arrow and this word.
    pub fn after_keyword(&self, word: Keyword) -> Option<Lexemes<'a>>
        ensures rest { result ≡ after_keyword word self.now }
    {
        match self.after(Lexeme::Arrow) {
            None => None,
            Some(rest) => rest.after(Lexeme::Keyword(word)),
        }
    }

    /// What follows an arrow, `reshape` and `(`.
    pub fn after_reshape(&self) -> Option<Lexemes<'a>>
        ensures rest { result ≡ after_reshape self.now }
    {
        match self.after_keyword(Keyword::Reshape) {
            None => None,
            Some(rest) => rest.after(Lexeme::Open),
        }
    }

    /// What follows `)` and `=`.
    pub fn after_names(&self) -> Option<Lexemes<'a>>
        ensures rest { result ≡ after_names self.now }
    {
        match self.after(Lexeme::Close) {
            None => None,
            Some(rest) => rest.after(Lexeme::Equals),
        }
    }

    /// What follows a word of this kind and `=>`; without them, all.
    pub fn after_label(&self, label: WordKind) -> Lexemes<'a>
        ensures rest { result ≡ after_label label self.now }
    {
        match self.split_first() {
            Some((Lexeme::Word(kind, _), rest)) => match rest.split_first() {
                Some((Lexeme::FatArrow, rest)) => if label == kind { rest } else { self.copy() },
                _ => self.copy(),
            },
            _ => self.copy(),
        }
    }

    fn number(&self) -> Option<(i64, Lexemes<'a>)>
        ensures read { result ≡ number_at self.now }
        ensures positive { IfSome result (λ x. pos 0 ≤ℤ x.0) }
    {
        match self.split_first() {
            Some((Lexeme::Number(n), rest)) => match signed(n) {
                Some(z) => Some((z, rest)),
                None => None,
            },
            _ => None,
        }
    }

    /// The number at the front, with a minus before it or none.
    pub fn signed_number(&self) -> Option<(i64, Lexemes<'a>)>
        ensures read { result ≡ signed_number_at self.now }
    {
        match self.after(Lexeme::Operator(BinaryOp::Sub)) {
            None => self.number(),
            Some(rest) => match rest.number() {
                None => None,
                Some((z, rest)) => Some((-z, rest)),
            },
        }
    }

    /// `!`, `~`, or a minus before a value.
    pub fn prefix(&self) -> Option<(UnaryOp, Lexemes<'a>)>
        ensures read { result ≡ prefix_at self.now }
    {
        match self.split_first() {
            Some((Lexeme::Prefix(op), rest)) => Some((op, rest)),
            Some((Lexeme::Operator(BinaryOp::Sub), rest)) => Some((UnaryOp::Neg, rest)),
            _ => None,
        }
    }

    fn word(&self) -> Option<(Span, Lexemes<'a>)>
        ensures read { result ≡ word_at self.now }
    {
        match self.split_first() {
            Some((Lexeme::Word(_, span), rest)) => Some((span, rest)),
            _ => None,
        }
    }

    /// A word behind an arrow.
    pub fn method(&self) -> Option<(Span, Lexemes<'a>)>
        ensures read { result ≡ method_at self.now }
    {
        match self.after(Lexeme::Arrow) {
            None => None,
            Some(rest) => rest.word(),
        }
    }

    /// A type word that calls nothing.
    pub fn type_word(&self) -> Option<(Ty, Lexemes<'a>)>
        ensures read { result ≡ type_at self.now }
    {
        match self.split_first() {
            Some((Lexeme::Word(WordKind::OfType(ty), _), rest)) => match rest.after(Lexeme::Open) {
                Some(_) => None,
                None => Some((ty, rest)),
            },
            _ => None,
        }
    }

    /// A string.
    pub fn quoted(&self) -> Option<(Span, Lexemes<'a>)>
        ensures read { result ≡ quoted_at self.now }
    {
        match self.split_first() {
            Some((Lexeme::Quoted(span), rest)) => Some((span, rest)),
            _ => None,
        }
    }

    /// The span of the name at the front, with its `$`.
    pub fn name(&self) -> Option<(Span, Lexemes<'a>)>
        ensures read { result ≡ name_at self.now }
    {
        match self.split_first() {
            Some((Lexeme::Name(span), rest)) => Some((span, rest)),
            _ => None,
        }
    }

    fn view_word(&self) -> Option<(Span, Lexemes<'a>)>
        ensures read { result ≡ view_word self.now }
    {
        match self.split_first() {
            Some((Lexeme::Word(WordKind::View, span), rest)) => Some((span, rest)),
            _ => None,
        }
    }

    /// A view word behind an arrow.
    pub fn view(&self) -> Option<(Span, Lexemes<'a>)>
        ensures read { result ≡ view_at self.now }
    {
        match self.after(Lexeme::Arrow) {
            None => None,
            Some(rest) => rest.view_word(),
        }
    }

    /// The sign of an assignment.
    pub fn assign(&self) -> Option<(AssignOp, Lexemes<'a>)>
        ensures read { result ≡ assign_at self.now }
    {
        match self.split_first() {
            Some((Lexeme::Assign(op), rest)) => Some((op, rest)),
            _ => None,
        }
    }

    /// A number, where nothing follows it.
    pub fn slot(&self) -> Option<u64>
        ensures { result ≡ slot_at self.now }
    {
        match self.split_first() {
            Some((Lexeme::Number(n), rest)) => {
                if rest.is_empty() && signed(n).is_some() {
                    Some(n)
                } else {
                    None
                }
            }
            _ => None,
        }
    }

    /// Whether what is left is `()` or nothing.
    pub fn is_brackets(&self) -> bool
        ensures { result ≡ is_brackets self.now }
    {
        match self.split_first() {
            None => true,
            Some((Lexeme::Open, rest)) => match rest.after(Lexeme::Close) {
                Some(rest) => rest.is_empty(),
                None => false,
            },
            Some((_, _)) => false,
        }
    }

    /// Whether a word that may name a call comes first.
    pub fn begins_word(&self) -> bool
        ensures { result ≡ begins_word self.now }
    {
        match self.split_first() {
            Some((Lexeme::Word(_, _), _)) => true,
            _ => false,
        }
    }
}
