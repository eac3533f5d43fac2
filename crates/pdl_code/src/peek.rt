//! Looks at the front of what is left, each with what follows.
ghost use Rattle.std.specs.Prelude.{◌≡◌, option_map};
ghost use Rattle.pdl_code.specs.CodeReading.{after, after_word, after_name, access_name, after_close, after_condition, after_else, after_if, bracketed_word, close_at, declared_at, ends, generic_at, index_word, loop_at, name_at, operator_at, plain_at, prefix_at, assign_sign_at, size_at, type_at, type_word_at, word_at};

use crate::left::Lexemes;
use crate::lexeme::{Lexeme, NameKind, Span, WordKind};
use crate::names::LocalType;
use pdl_elem::{BinaryOp, UnaryOp};
use pdl_lexemes::level_of;

/// What follows this sign.
pub fn after<'a>(sign: Lexeme, tokens: &Lexemes<'a>) -> Option<Lexemes<'a>>
    ensures rest { result ≡ after sign tokens.now }
{
    match tokens.split_first() {
        None => None,
        Some((first, rest)) => if sign == first { Some(rest) } else { None },
    }
}

// What follows a word of this kind.
fn after_word<'a>(kind: WordKind, tokens: &Lexemes<'a>) -> Option<Lexemes<'a>>
    ensures rest { result ≡ after_word kind tokens.now }
{
    match tokens.split_first() {
        Some((Lexeme::Word(first, _), rest)) => if kind == first { Some(rest) } else { None },
        _ => None,
    }
}

// What follows a name of this kind.
fn after_name<'a>(kind: NameKind, tokens: &Lexemes<'a>) -> Option<Lexemes<'a>>
    ensures rest { result ≡ after_name kind tokens.now }
{
    match tokens.split_first() {
        Some((Lexeme::Name(first, _), rest)) => if kind == first { Some(rest) } else { None },
        _ => None,
    }
}

pub fn close<'a>(tokens: &Lexemes<'a>) -> Option<(u32, Lexemes<'a>)>
    ensures read { result ≡ close_at tokens.now }
{
    match tokens.split_first() {
        Some((Lexeme::Close(at), rest)) => Some((at, rest)),
        _ => None,
    }
}

pub fn after_close<'a>(tokens: &Lexemes<'a>) -> Option<Lexemes<'a>>
    ensures rest { result ≡ after_close tokens.now }
{
    match close(tokens) {
        Some((_, rest)) => Some(rest),
        None => None,
    }
}

pub fn word<'a>(tokens: &Lexemes<'a>) -> Option<(Span, Lexemes<'a>)>
    ensures read { result ≡ word_at tokens.now }
{
    match tokens.split_first() {
        Some((Lexeme::Word(_, span), rest)) => Some((span, rest)),
        _ => None,
    }
}

pub fn plain_word<'a>(tokens: &Lexemes<'a>) -> Option<(Span, Lexemes<'a>)>
    ensures read { result ≡ plain_at tokens.now }
{
    match tokens.split_first() {
        Some((Lexeme::Word(WordKind::Plain, span), rest)) => Some((span, rest)),
        _ => None,
    }
}

pub fn name<'a>(tokens: &Lexemes<'a>) -> Option<(Span, Lexemes<'a>)>
    ensures read { result ≡ name_at tokens.now }
{
    match tokens.split_first() {
        Some((Lexeme::Name(_, span), rest)) => Some((span, rest)),
        _ => None,
    }
}

pub fn type_word<'a>(tokens: &Lexemes<'a>) -> Option<(LocalType, Lexemes<'a>)>
    ensures read { result ≡ type_word_at tokens.now }
{
    match tokens.split_first() {
        Some((Lexeme::Word(WordKind::OfType(ty), _), rest)) => Some((ty, rest)),
        _ => None,
    }
}

pub fn prefix<'a>(tokens: &Lexemes<'a>) -> Option<(UnaryOp, Lexemes<'a>)>
    ensures read { result ≡ prefix_at tokens.now }
{
    match tokens.split_first() {
        Some((Lexeme::Prefix(op), rest)) => Some((op, rest)),
        Some((Lexeme::Operator(BinaryOp::Sub), rest)) => Some((UnaryOp::Neg, rest)),
        _ => None,
    }
}

/// The operator at the front, if it is of this level.
pub fn operator<'a>(level: u8, tokens: &Lexemes<'a>) -> Option<(BinaryOp, Lexemes<'a>)>
    ensures read { result ≡ operator_at level tokens.now }
{
    match tokens.split_first() {
        Some((Lexeme::Operator(op), rest)) => {
            if level_of(op) == level {
                Some((op, rest))
            } else {
                None
            }
        }
        _ => None,
    }
}

/// The sign of an assignment: the operator before its `=`, if any.
pub fn sign<'a>(tokens: &Lexemes<'a>) -> Option<(Option<BinaryOp>, Lexemes<'a>)>
    ensures read { result ≡ assign_sign_at tokens.now }
{
    match tokens.split_first() {
        Some((Lexeme::Equals, rest)) => Some((None, rest)),
        Some((Lexeme::Assign(op), rest)) => Some((Some(op), rest)),
        _ => None,
    }
}

// A word in brackets.
fn bracketed_word<'a>(tokens: &Lexemes<'a>) -> Option<(Span, Lexemes<'a>)>
    ensures read { result ≡ bracketed_word tokens.now }
{
    let rest = after(Lexeme::Open, tokens)?;
    let (span, rest) = word(&rest)?;
    let rest = after_close(&rest)?;
    Some((span, rest))
}

/// `$SIZE(word)`
pub fn size<'a>(tokens: &Lexemes<'a>) -> Option<(Span, Lexemes<'a>)>
    ensures read { result ≡ size_at tokens.now }
{
    let rest = after_name(NameKind::Size, tokens)?;
    bracketed_word(&rest)
}

/// The word of an index, before its `=>`.
pub fn index_word<'a>(tokens: &Lexemes<'a>) -> Option<(Span, Lexemes<'a>)>
    ensures read { result ≡ index_word tokens.now }
{
    let (span, rest) = word(tokens)?;
    let rest = after(Lexeme::FatArrow, &rest)?;
    Some((span, rest))
}

/// An argument's name, before what its brackets hold.
pub fn access_name<'a>(tokens: &Lexemes<'a>) -> Option<(Span, Lexemes<'a>)>
    ensures read { result ≡ access_name tokens.now }
{
    let (span, rest) = name(tokens)?;
    let rest = after(Lexeme::Open, &rest)?;
    Some((span, rest))
}

// `$GENERIC()` as a type.
fn generic<'a>(tokens: &Lexemes<'a>) -> Option<(LocalType, Lexemes<'a>)>
    ensures read { result ≡ generic_at tokens.now }
{
    let rest = after_name(NameKind::Generic, tokens)?;
    let rest = after(Lexeme::Open, &rest)?;
    let rest = after_close(&rest)?;
    Some((LocalType::Generic, rest))
}

fn type_head<'a>(tokens: &Lexemes<'a>) -> Option<(LocalType, Lexemes<'a>)>
    ensures read { result ≡ type_at tokens.now }
{
    match type_word(tokens) {
        Some((ty, rest)) => Some((ty, rest)),
        None => generic(tokens),
    }
}

/// The type and the word of a declaration.
pub fn declared<'a>(tokens: &Lexemes<'a>) -> Option<(LocalType, Span, Lexemes<'a>)>
    ensures read { option_map (λ x. record { ty = x.0; word = x.1; rest = x.2 }) result
        ≡ declared_at tokens.now }
{
    let (ty, rest) = type_head(tokens)?;
    let (span, rest) = plain_word(&rest)?;
    Some((ty, span, rest))
}

/// The word of a loop, before its code.
pub fn loop_head<'a>(tokens: &Lexemes<'a>) -> Option<(Span, Lexemes<'a>)>
    ensures read { result ≡ loop_at tokens.now }
{
    let rest = after_word(WordKind::Loop, tokens)?;
    let (span, rest) = bracketed_word(&rest)?;
    let rest = after(Lexeme::BlockOpen, &rest)?;
    Some((span, rest))
}

/// What follows `if (`.
pub fn after_if<'a>(tokens: &Lexemes<'a>) -> Option<Lexemes<'a>>
    ensures rest { result ≡ after_if tokens.now }
{
    let rest = after_word(WordKind::If, tokens)?;
    after(Lexeme::Open, &rest)
}

/// What follows `else %{`.
pub fn after_else<'a>(tokens: &Lexemes<'a>) -> Option<Lexemes<'a>>
    ensures rest { result ≡ after_else tokens.now }
{
    let rest = after_word(WordKind::Else, tokens)?;
    after(Lexeme::BlockOpen, &rest)
}

/// What follows `) %{`.
pub fn after_condition<'a>(tokens: &Lexemes<'a>) -> Option<Lexemes<'a>>
    ensures rest { result ≡ after_condition tokens.now }
{
    let rest = after_close(tokens)?;
    after(Lexeme::BlockOpen, &rest)
}

/// The same tokens, where code ends: nothing is left, or `%}` comes.
pub fn ends<'a>(tokens: &Lexemes<'a>) -> Option<Lexemes<'a>>
    ensures rest { result ≡ ends tokens.now }
{
    match tokens.split_first() {
        None => Some(tokens.copy()),
        Some((Lexeme::BlockClose, _)) => Some(tokens.copy()),
        _ => None,
    }
}
