//! How deep kernel code is, by its tokens alone.
ghost use Rattle.std.specs.Prelude.{◌≡◌, ◌≤◌, ◌+◌};
ghost use Rattle.pdl_lex.specs.Limits.{bracket_limit};
ghost use Rattle.pdl_lexemes.specs.Depth.{operator_limit};
ghost use Rattle.pdl_code.specs.Depth.{counted_to, is_beyond, is_too_deep};

use crate::lexeme::Lexeme;
use pdl_lex::MOST_OPEN;
use pdl_lexemes::MOST_OPERATORS;

/// How many `(` and `%{` are open, and how many operators stand behind the last `;`, `%{` or `%}`.
#[derive(Clone, Copy)]
pub struct Counts {
    pub round: u32,
    pub block: u32,
    pub operators: u32,
}

fn counted_to(counts: Counts, lexeme: Lexeme) -> Counts
    requires round { counts.round ≤ bracket_limit }
    requires block { counts.block ≤ bracket_limit }
    requires operators { counts.operators ≤ operator_limit }
    ensures exact { result ≡ counted_to counts lexeme }
    ensures round { result.round ≤ bracket_limit + 1 }
    ensures block { result.block ≤ bracket_limit + 1 }
    ensures operators { result.operators ≤ operator_limit + 1 }
{
    match lexeme {
        Lexeme::Open => Counts {
            round: counts.round + 1,
            ..counts
        },
        Lexeme::Close(_) => Counts {
            round: counts.round.saturating_sub(1),
            ..counts
        },
        Lexeme::BlockOpen => Counts {
            block: counts.block + 1,
            operators: 0,
            ..counts
        },
        Lexeme::BlockClose => Counts {
            block: counts.block.saturating_sub(1),
            operators: 0,
            ..counts
        },
        Lexeme::Semicolon => Counts {
            operators: 0,
            ..counts
        },
        Lexeme::Arrow | Lexeme::Operator(_) | Lexeme::Prefix(_) => Counts {
            operators: counts.operators + 1,
            ..counts
        },
        _ => counts,
    }
}

fn is_beyond(counts: Counts) -> bool
    requires round { counts.round ≤ bracket_limit + 1 }
    requires block { counts.block ≤ bracket_limit + 1 }
    ensures { result ≡ is_beyond counts }
{
    counts.round + counts.block > MOST_OPEN || counts.operators > MOST_OPERATORS
}

/// Whether more than 64 of `(` and `%{` are open at once, or more than 256 operators stand without
/// a `;`, `%{` or `%}` between them.
pub fn is_too_deep(tokens: &[Lexeme]) -> bool
    ensures { result ≡ is_too_deep tokens.now }
{
    let mut counts = Counts {
        round: 0,
        block: 0,
        operators: 0,
    };
    for lexeme in tokens {
        counts = counted_to(counts, *lexeme);
        if is_beyond(counts) {
            return true;
        }
    }
    false
}
