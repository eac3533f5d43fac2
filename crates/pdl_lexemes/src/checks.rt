//! The checks on the lexemes that look at no grammar.

ghost use Rattle.std.specs.Prelude.{◌≡◌, ◌≤◌, ◌+◌, ◌<◌, length};
ghost use Rattle.pdl_lex.specs.Limits.{statement_limit};
ghost use Rattle.pdl_lexemes.specs.Depth.{with_operator, counted_to, is_beyond, is_too_deep, is_large, has_large, is_arrow, has_arrow};

use crate::Lexeme;
use crate::limits::LARGEST_NUMBER;
use pdl_lex::MOST_OPEN;

/// At most so many square brackets are open at once.
pub const MOST_SQUARE: u32 = 16;

/// At most so many operators stand outside square brackets.
pub const MOST_OPERATORS: u32 = 256;

/// How many brackets of each kind are open, and how many operators stand outside square ones so
/// far.
#[derive(Clone, Copy, Debug)]
pub struct Counts {
    pub round: u32,
    pub square: u32,
    pub operators: u32,
}

fn with_operator(counts: Counts) -> Counts
    requires { counts.operators < statement_limit }
    ensures { result ≡ with_operator counts }
{
    if counts.square == 0 {
        Counts {
            operators: counts.operators + 1,
            ..counts
        }
    } else {
        counts
    }
}

fn counted_to(counts: Counts, lexeme: Lexeme) -> Counts
    requires round { counts.round < statement_limit }
    requires square { counts.square < statement_limit }
    requires operators { counts.operators < statement_limit }
    ensures exact { result ≡ counted_to counts lexeme }
    ensures round { result.round ≤ counts.round + 1 }
    ensures square { result.square ≤ counts.square + 1 }
    ensures operators { result.operators ≤ counts.operators + 1 }
{
    match lexeme {
        Lexeme::Open => Counts {
            round: counts.round + 1,
            ..counts
        },
        Lexeme::Close => Counts {
            round: counts.round.saturating_sub(1),
            ..counts
        },
        Lexeme::OpenSquare => Counts {
            square: counts.square + 1,
            ..counts
        },
        Lexeme::CloseSquare => Counts {
            square: counts.square.saturating_sub(1),
            ..counts
        },
        Lexeme::Arrow | Lexeme::Operator(_) | Lexeme::Prefix(_) => with_operator(counts),
        _ => counts,
    }
}

fn is_beyond(counts: Counts) -> bool
    requires round { counts.round ≤ statement_limit }
    requires square { counts.square ≤ statement_limit }
    ensures { result ≡ is_beyond counts }
{
    if counts.round + counts.square > MOST_OPEN {
        return true;
    }
    if counts.square > MOST_SQUARE {
        return true;
    }
    counts.operators > MOST_OPERATORS
}

/// Whether more than 64 brackets are open at once, more than 16 square ones, or more than 256
/// operators stand outside square brackets.
pub fn is_too_deep(tokens: &[Lexeme]) -> bool
    requires small { length tokens.now ≤ statement_limit }
    ensures { result ≡ is_too_deep tokens.now }
{
    let mut counts = Counts {
        round: 0,
        square: 0,
        operators: 0,
    };
    for lexeme in tokens {
        counts = counted_to(counts, *lexeme);
        if is_beyond(counts) {
            return true;
        }
    }
    false
}

fn is_large(lexeme: Lexeme) -> bool
    ensures { result ≡ is_large lexeme }
{
    match lexeme {
        Lexeme::Number(n) => n > LARGEST_NUMBER,
        _ => false,
    }
}

/// Whether a number is above `LARGEST_NUMBER`.
pub fn has_large(tokens: &[Lexeme]) -> bool
    ensures { result ≡ has_large tokens.now }
{
    for lexeme in tokens {
        if is_large(*lexeme) {
            return true;
        }
    }
    false
}

fn is_arrow(lexeme: Lexeme) -> bool
    ensures { result ≡ is_arrow lexeme }
{
    match lexeme {
        Lexeme::Arrow => true,
        _ => false,
    }
}

/// Whether an arrow is among them.
pub(crate) fn has_arrow(tokens: &[Lexeme]) -> bool
    ensures { result ≡ has_arrow tokens.now }
{
    for lexeme in tokens {
        if is_arrow(*lexeme) {
            return true;
        }
    }
    false
}
