//! Tokens as lexemes.

ghost use Rattle.std.specs.Prelude.{◌≡◌, ◌≤◌, ◌+◌, IfOk, OnOk};
ghost use Rattle.pdl_elem.specs.Tables.{found_in};
ghost use Rattle.pdl_lexemes.specs.Bytes.{bytes_at};
ghost use Rattle.pdl_lexemes.specs.Limits.{number_limit};
ghost use Rattle.pdl_lexemes.specs.Lexing.{keywords, operators, assignments, kind_of_word, word_of, sign_of, number_of, with_digit, lexeme_of, lexemes_of};

use crate::limits::LARGEST_NUMBER;
use crate::tables::{ASSIGNMENTS, KEYWORDS, OPERATORS, SIGNS, WORD_KINDS};
use crate::{AssignOp, Keyword, Lexeme, Span, WordKind};
use pdl_elem::{BinaryOp, found_in, type_named};
use pdl_lex::{Token, TokenKind};
use std::alloc::{AllocError, Global};

/// The bytes that a span names; of a span that goes past the text, those there are.
pub fn bytes(source: &[u8], span: Span) -> &[u8]
    ensures { result.now ≡ bytes_at source.now span }
{
    let from = span.from.min(source.len());
    let to = span.to.min(source.len()).max(from);
    &source[from..to]
}

/// The keyword that a text is, if any: a word of the language that names no call.
pub fn keyword_named(text: &[u8]) -> Option<Keyword>
    ensures { result ≡ found_in keywords text.now }
{
    found_in(KEYWORDS, text)
}

fn kind_of_word(text: &[u8]) -> WordKind
    ensures { result ≡ kind_of_word text.now }
{
    match type_named(text) {
        Some(ty) => WordKind::OfType(ty),
        None => match found_in(WORD_KINDS, text) {
            Some(kind) => kind,
            None => WordKind::Plain,
        },
    }
}

fn word(text: &[u8], span: Span) -> Lexeme
    ensures { result ≡ word_of text.now span }
{
    match keyword_named(text) {
        Some(keyword) => Lexeme::Keyword(keyword),
        None => Lexeme::Word(kind_of_word(text), span),
    }
}

/// The operator on two values that a text is the sign of, if any.
pub fn operator_named(text: &[u8]) -> Option<BinaryOp>
    ensures { result ≡ found_in operators text.now }
{
    found_in(OPERATORS, text)
}

/// The assignment that a text is the sign of, if any.
pub fn assignment_named(text: &[u8]) -> Option<AssignOp>
    ensures { result ≡ found_in assignments text.now }
{
    found_in(ASSIGNMENTS, text)
}

fn sign(text: &[u8]) -> Lexeme
    ensures { result ≡ sign_of text.now }
{
    if let Some(sign) = found_in(SIGNS, text) {
        return sign;
    }
    if let Some(op) = operator_named(text) {
        return Lexeme::Operator(op);
    }
    match assignment_named(text) {
        Some(op) => Lexeme::Assign(op),
        None => Lexeme::Unknown,
    }
}

fn with_digit(n: u64, digit: u8) -> u64
    requires { n ≤ number_limit + 1 }
    ensures value { result ≡ with_digit n digit }
    ensures most { result ≤ number_limit + 1 }
{
    let value = n as u128 * 10 + digit.saturating_sub(48) as u128;
    value.min(LARGEST_NUMBER as u128 + 1) as u64
}

/// The value of decimal digits, or one more than `LARGEST_NUMBER` where it is above that.
pub fn number_of(digits: &[u8]) -> u64
    ensures { result ≡ number_of digits.now }
{
    let mut n = 0;
    for digit in digits {
        n = with_digit(n, *digit);
    }
    n
}

fn lexeme(source: &[u8], token: Token) -> Lexeme
    ensures { result ≡ lexeme_of source.now token }
{
    let span = Span {
        from: token.from as usize,
        to: token.to as usize,
    };
    match token.kind {
        TokenKind::Name => Lexeme::Name(span),
        TokenKind::Word => word(bytes(source, span), span),
        TokenKind::Number => Lexeme::Number(number_of(bytes(source, span))),
        TokenKind::Str => Lexeme::Quoted(Span {
            from: span.from + 1,
            to: span.to.saturating_sub(1),
        }),
        TokenKind::Sign => sign(bytes(source, span)),
    }
}

/// The lexemes of the tokens of a text.
pub fn lexemes(alloc: Global, source: &[u8], tokens: &[Token]) -> Result<Vec<Lexeme>, AllocError>
    ensures { IfOk result (λ all. all.items ≡ lexemes_of source.now tokens.now) }
{
    let mut all = Vec::new(alloc);
    read_lexemes(source, tokens, &mut all)?;
    Ok(all)
}

/// The lexemes of the tokens of a text, in a list whose room is kept. What stood in it goes.
pub fn read_lexemes(
    source: &[u8],
    tokens: &[Token],
    all: &mut Vec<Lexeme>,
) -> Result<(), AllocError>
    ensures { OnOk result (all.new.items ≡ lexemes_of source.now tokens.now) }
{
    all.clear();
    all.reserve(tokens.len())?;
    for token in tokens {
        all.push(lexeme(source, *token)).map_err(AllocError::from)?;
    }
    Ok(())
}
