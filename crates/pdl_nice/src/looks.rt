//! What a token is to nice slices.

ghost use Rattle.std.specs.Prelude.{◌≡◌, ℕ, ◌+◌, ◌≤◌, ◌<◌, false, length, map, OnOk};
ghost use Rattle.pdl_lex.specs.Limits.{statement_limit};
ghost use Rattle.pdl_lex.specs.Written.{between, written};
ghost use Rattle.pdl_nice.specs.declared.looks.Before.TheVariants.{Other};
ghost use Rattle.pdl_nice.specs.Looks.{sign_look, look_of, before_of, begins_nice};
ghost use Rattle.pdl_nice.specs.Nice.{is_open, has_nice};
ghost use Rattle.pdl_nice.specs.Ends.{token_look, looks_nice, none_open, open_behind, looks_deep};

use pdl_lex::{MOST_OPEN, Token, TokenKind};
use std::alloc::AllocError;

/// A token: a bracket, a sign that a pattern has, a token behind which a bracket begins a nice part,
/// or another one.
#[derive(Clone, Copy, Debug, PartialEq, Eq)]
pub enum Look {
    Opens,
    Shuts,
    OpensSquare,
    ShutsSquare,
    Comma,
    Colon,
    Star,
    Arrow,
    Named,
    Other,
}

/// A kind of bracket.
#[derive(Clone, Copy, Debug, PartialEq, Eq)]
pub enum Side {
    Round,
    Square,
}

/// The token directly before another one: a name, an arrow, or any other or none.
#[derive(Clone, Copy, Debug, PartialEq, Eq)]
pub enum Before {
    Name,
    Arrow,
    Other,
}

// How many brackets of each kind are open.
#[derive(Clone, Copy, Debug)]
pub struct Open {
    pub round: u32,
    pub square: u32,
}

/// The bytes from a place on and before another one; of a place past the text, those there are.
pub fn between(text: &[u8], from: usize, to: usize) -> &[u8]
    ensures { result.now ≡ between text.now from to }
{
    let start = from.min(text.len());
    let end = to.min(text.len()).max(start);
    &text[start..end]
}

fn sign_look(bytes: &[u8]) -> Look
    ensures { result ≡ sign_look bytes.now }
{
    match bytes {
        b"(" => Look::Opens,
        b")" => Look::Shuts,
        b"[" => Look::OpensSquare,
        b"]" => Look::ShutsSquare,
        b"," => Look::Comma,
        b":" => Look::Colon,
        b"*" => Look::Star,
        b"->" => Look::Arrow,
        _ => Look::Other,
    }
}

fn token_look(text: &[u8], token: Token) -> Look
    ensures { result ≡ token_look text.now token }
{
    match token.kind {
        TokenKind::Name => Look::Named,
        TokenKind::Word | TokenKind::Number | TokenKind::Str => Look::Other,
        TokenKind::Sign => sign_look(between(text, token.from as usize, token.to as usize)),
    }
}

/// The looks of the tokens of a text, in a list whose room is kept. What stood in it goes.
pub fn read_looks(text: &[u8], tokens: &[Token], into: &mut Vec<Look>) -> Result<(), AllocError>
    ensures { OnOk result (into.new.items ≡ map (token_look text.now) tokens.now) }
{
    into.clear();
    into.reserve(tokens.len())?;
    for token in tokens {
        into.push(token_look(text, *token))
            .map_err(AllocError::from)?;
    }
    Ok(())
}

/// What stands before the token behind this one.
pub fn before_of(look: Look) -> Before
    ensures { result ≡ before_of look }
{
    match look {
        Look::Named => Before::Name,
        Look::Arrow => Before::Arrow,
        _ => Before::Other,
    }
}

/// Whether a token behind such a one begins a nice part.
pub fn begins_nice(before: Before, look: Look) -> bool
    ensures { result ≡ begins_nice before look }
{
    match (before, look) {
        (Before::Name, Look::Opens) => true,
        (Before::Arrow, Look::Opens) => true,
        _ => false,
    }
}

// Whether a sign that begins at a place may be an opening round bracket. One byte is looked at.
fn may_open(text: &[u8], at: usize) -> bool
    ensures { result ≡ false → (to : ℕ) → is_open (sign_look (between text.now at to)) ≡ false }
{
    if at >= text.len() {
        return false;
    }
    text[at] == b'('
}

fn is_bracket(bytes: &[u8]) -> bool
    ensures { result ≡ is_open (sign_look bytes.now) }
{
    match bytes {
        b"(" => true,
        _ => false,
    }
}

// Whether a token is an opening round bracket.
fn opens(text: &[u8], token: &Token) -> bool
    ensures { result ≡ is_open (token_look text.now token.now) }
{
    match token.kind {
        TokenKind::Sign => {
            if !may_open(text, token.from as usize) {
                return false;
            }
            is_bracket(between(text, token.from as usize, token.to as usize))
        }
        _ => false,
    }
}

// Whether a token behind this one begins a nice part. What stands before a token is looked at where
// that is an opening round bracket alone.
fn begins_part(text: &[u8], before: &Token, token: &Token) -> bool
    ensures { result ≡ begins_nice (before_of (token_look text.now before.now))
        (token_look text.now token.now) }
{
    if !opens(text, token) {
        return false;
    }
    begins_nice(before_of(token_look(text, *before)), Look::Opens)
}

fn looks_nice(text: &[u8], tokens: &[Token]) -> bool
    ensures { result ≡ looks_nice Other (map (token_look text.now) tokens.now) }
{
    for at in 1..tokens.len() {
        if begins_part(text, &tokens[at - 1], &tokens[at]) {
            return true;
        }
    }
    false
}

/// Whether a nice part stands in a text with these tokens: a round bracket directly behind a name
/// or `->`. It looks at each token once.
pub fn has_nice(text: &[u8], tokens: &[Token]) -> bool
    ensures { result ≡ has_nice Other (written text.now 0 tokens.now) }
{
    looks_nice(text, tokens)
}

fn open_behind(counts: Open, look: Look) -> Open
    requires round { counts.round < statement_limit }
    requires square { counts.square < statement_limit }
    ensures exact { result ≡ open_behind counts look }
    ensures round { result.round ≤ counts.round + 1 }
    ensures square { result.square ≤ counts.square + 1 }
{
    match look {
        Look::Opens => Open {
            round: counts.round + 1,
            ..counts
        },
        Look::Shuts => Open {
            round: counts.round.saturating_sub(1),
            ..counts
        },
        Look::OpensSquare => Open {
            square: counts.square + 1,
            ..counts
        },
        Look::ShutsSquare => Open {
            square: counts.square.saturating_sub(1),
            ..counts
        },
        _ => counts,
    }
}

/// Whether more than 64 brackets are open at some token.
pub fn goes_deep(looks: &[Look]) -> bool
    requires few { length looks.now ≤ statement_limit }
    ensures { result ≡ looks_deep none_open looks.now }
{
    let mut counts = Open {
        round: 0,
        square: 0,
    };
    for look in looks {
        counts = open_behind(counts, *look);
        if counts.round + counts.square > MOST_OPEN {
            return true;
        }
    }
    false
}
