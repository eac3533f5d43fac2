//! Looks at an operator at the front, by its level.

ghost use Rattle.std.specs.Prelude.{◌≡◌, ◌<◌};
ghost use Rattle.pdl_lexemes.specs.Levels.{level_of};
ghost use Rattle.pdl_syntax.specs.ExpressionReading.{operator_at, level_between, limit_of};

use pdl_elem::BinaryOp;
use pdl_lexemes::{Lexeme, Lexemes, level_of};

/// An operator of this level, and what follows it.
pub fn operator<'a>(level: u8, tokens: &Lexemes<'a>) -> Option<(BinaryOp, Lexemes<'a>)>
    ensures read { result ≡ operator_at level tokens.now }
{
    match tokens.split_first() {
        Some((Lexeme::Operator(op), rest)) => {
            if level_of(op) == level {
                Some((op, rest))
            } else {
                None
            }
        }
        _ => None,
    }
}

/// The level of the operator that comes first, where it is above `below` and at most `most`.
pub fn level_between(below: u8, most: u8, tokens: &Lexemes<'_>) -> Option<u8>
    ensures { result ≡ level_between below most tokens.now }
{
    match tokens.split_first() {
        Some((Lexeme::Operator(op), _)) => {
            let level = level_of(op);
            if below < level && level <= most {
                Some(level)
            } else {
                None
            }
        }
        _ => None,
    }
}

/// How many operators of this level there may be in what is left.
pub fn limit(level: u8, tokens: &Lexemes<'_>) -> usize
    requires { level < 8 }
    ensures { result ≡ limit_of level tokens.now }
{
    if level == 4 || level == 5 {
        1
    } else {
        tokens.len()
    }
}
