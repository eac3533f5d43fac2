//! The reader of expressions: a recursive descent over the tokens.
ghost use Rattle.std.specs.Prelude.{◌≡◌, ◌≤◌, ◌<◌, ℕ, suc, length, option_map, List};
ghost use Rattle.pdl_code.specs.declared.lexeme.Lexeme.{Lexeme};
ghost use Rattle.pdl_code.specs.declared.lexeme.Span.{Span};
ghost use Rattle.pdl_code.specs.Tree.{RawIndices};
ghost use Rattle.pdl_lexemes.specs.ReadAnswers.{Gives};
ghost use Rattle.pdl_lexemes.specs.Lists.{signed};
ghost use Rattle.pdl_code.specs.TreeOf.{indices_of, tree_of};
ghost use Rattle.pdl_code.specs.CodeReading.{access_at, before, chain_at, element_at, expr_at, expression, given_at, index_at, indices_at, level_at, limit_of, name_first, number_before, operand, primary_at, reader, round_at, unary_at};

use crate::left::Lexemes;
use crate::lexeme::{Lexeme, Span};
use crate::names::{Called, RawEntry, RawExpr};
use crate::tree::Entry;
use crate::{build, peek};
use pdl_lexemes::Refusal;
use std::alloc::Global;

/// What is read, and what follows it.
pub type Read<'a, T> = Result<(T, Lexemes<'a>), Refusal>;

/// A whole expression in which at most `fuel` parts are open at once.
#[cycle(parser)]
#[tactic(auto, unfolding(crate::specs::CodeReading::reader))]
pub fn expression<'a>(alloc: Global, fuel: usize, tokens: &Lexemes<'a>) -> Read<'a, RawExpr>
    ensures read { Gives (λ x. (tree_of x.0, x.1)) result (reader fuel expression tokens.now) }
{
    if fuel == 0 {
        return Err(Refusal::Refused);
    }
    level_expr(alloc, fuel - 1, 7, tokens)
}

#[cycle(parser)]
#[tactic(auto, unfolding(crate::specs::CodeReading::reader))]
fn operand<'a>(alloc: Global, fuel: usize, tokens: &Lexemes<'a>) -> Read<'a, RawExpr>
    ensures read { Gives (λ x. (tree_of x.0, x.1)) result (reader fuel operand tokens.now) }
{
    if fuel == 0 {
        return Err(Refusal::Refused);
    }
    unary(alloc, fuel - 1, tokens)
}

#[cycle(parser)]
#[tactic(auto, unfolding(crate::specs::CodeReading::level_at))]
fn level_expr<'a>(alloc: Global, fuel: usize, level: u8, tokens: &Lexemes<'a>) -> Read<'a, RawExpr>
    requires level { level ≤ 7 }
    ensures read { Gives (λ x. (tree_of x.0, x.1)) result (level_at (reader fuel) level tokens.now) }
{
    if level == 0 {
        return unary(alloc, fuel, tokens);
    }
    let (first, rest) = level_expr(alloc, fuel, level - 1, tokens)?;
    chain(alloc, fuel, level - 1, first, &rest)
}

#[cycle(parser)]
#[tactic(auto, unfolding(crate::specs::CodeReading::chain_at))]
fn chain<'a>(
    alloc: Global,
    fuel: usize,
    below: u8,
    first: RawExpr,
    tokens: &Lexemes<'a>,
) -> Read<'a, RawExpr>
    requires level { below < 7 }
    ensures read { Gives (λ x. (tree_of x.0, x.1)) result
        (chain_at (level_at (reader fuel) below) (suc below) (limit_of (suc below) tokens.now)
        (tree_of first) tokens.now) }
{
    let mut left = first;
    let mut rest = tokens.copy();
    for _ in 0..limit(below + 1, tokens) {
        match peek::operator(below + 1, &rest) {
            None => return Ok((left, rest)),
            Some((op, after)) => {
                let (right, after) = level_expr(alloc, fuel, below, &after)?;
                left = build::binary_expr(alloc, op, left, right)?;
                rest = after;
            }
        }
    }
    Ok((left, rest))
}

fn limit(level: u8, tokens: &Lexemes<'_>) -> usize
    requires { level < 8 }
    ensures { result ≡ limit_of level tokens.now }
{
    if level == 4 || level == 5 {
        1
    } else {
        tokens.len()
    }
}

#[cycle(parser)]
#[tactic(auto, unfolding(crate::specs::CodeReading::unary_at))]
fn unary<'a>(alloc: Global, fuel: usize, tokens: &Lexemes<'a>) -> Read<'a, RawExpr>
    ensures read { Gives (λ x. (tree_of x.0, x.1)) result (unary_at (reader fuel) tokens.now) }
{
    match peek::prefix(tokens) {
        None => primary(alloc, fuel, tokens),
        Some((op, rest)) => {
            let (a, rest) = operand(alloc, fuel, &rest)?;
            Ok((build::unary_expr(alloc, op, a)?, rest))
        }
    }
}

#[cycle(parser)]
#[tactic(auto, unfolding(crate::specs::CodeReading::primary_at))]
fn primary<'a>(alloc: Global, fuel: usize, tokens: &Lexemes<'a>) -> Read<'a, RawExpr>
    ensures read { Gives (λ x. (tree_of x.0, x.1)) result (primary_at (reader fuel) tokens.now) }
{
    match tokens.split_first() {
        Some((Lexeme::Number(n), rest)) => number(n, rest),
        Some((Lexeme::Word(_, span), rest)) => Ok((RawExpr::Named(span), rest)),
        Some((Lexeme::Open, rest)) => round(alloc, fuel, &rest),
        Some((Lexeme::Name(_, _), _)) => named(alloc, fuel, tokens),
        _ => Err(Refusal::Refused),
    }
}

fn number<'a>(n: u64, rest: Lexemes<'a>) -> Read<'a, RawExpr>
    ensures read { Gives (λ x. (tree_of x.0, x.1)) result
        (option_map (number_before rest.entry) (signed n)) }
{
    match pdl_lexemes::signed(n) {
        Some(z) => Ok((RawExpr::Number(z), rest)),
        None => Err(Refusal::Refused),
    }
}

#[cycle(parser)]
fn round<'a>(alloc: Global, fuel: usize, tokens: &Lexemes<'a>) -> Read<'a, RawExpr>
    ensures read { Gives (λ x. (tree_of x.0, x.1)) result (round_at (reader fuel) tokens.now) }
{
    let (inner, rest) = expression(alloc, fuel, tokens)?;
    let rest = peek::after_close(&rest).ok_or(Refusal::Refused)?;
    Ok((inner, rest))
}

// What begins with a name: `$SIZE(word)`, or an access.
#[cycle(parser)]
fn named<'a>(alloc: Global, fuel: usize, tokens: &Lexemes<'a>) -> Read<'a, RawExpr>
    ensures read { Gives (λ x. (tree_of x.0, x.1)) result (name_first (reader fuel) tokens.now) }
{
    match peek::size(tokens) {
        Some((word, rest)) => Ok((RawExpr::Size(word), rest)),
        None => {
            let ((name, given, close), rest) = access(alloc, fuel, tokens)?;
            Ok((build::access_expr(Called { name, close }, given), rest))
        }
    }
}

/// An argument's name with its indices, and the place of the closing bracket.
#[cycle(parser)]
pub fn access<'a>(
    alloc: Global,
    fuel: usize,
    tokens: &Lexemes<'a>,
) -> Read<'a, (Span, Vec<RawEntry>, u32)>
    ensures read { Gives {B = (Span × RawIndices × ℕ) × List Lexeme} (λ x.
        ((x.0.0, indices_of x.0.1.items, x.0.2), x.1)) result
        (access_at (reader fuel) tokens.now) }
{
    let (name, rest) = peek::access_name(tokens).ok_or(Refusal::Refused)?;
    let ((given, close), rest) = given(alloc, fuel, &rest)?;
    Ok(((name, given, close), rest))
}

// What an access's brackets hold.
#[cycle(parser)]
#[tactic(auto, unfolding(crate::specs::CodeReading::given_at))]
fn given<'a>(alloc: Global, fuel: usize, tokens: &Lexemes<'a>) -> Read<'a, (Vec<RawEntry>, u32)>
    ensures read { Gives {B = (RawIndices × ℕ) × List Lexeme} (λ x.
        ((indices_of x.0.0.items, x.0.1), x.1)) result (given_at (reader fuel) tokens.now) }
{
    if let Some((close, rest)) = peek::close(tokens) {
        return Ok(((Vec::new(alloc), close), rest));
    }
    let (found, rest) = indices(alloc, fuel, tokens)?;
    let (close, rest) = peek::close(&rest).ok_or(Refusal::Refused)?;
    Ok(((found, close), rest))
}

#[cycle(parser)]
#[tactic(auto, unfolding(crate::specs::CodeReading::indices_at))]
fn indices<'a>(alloc: Global, fuel: usize, tokens: &Lexemes<'a>) -> Read<'a, Vec<RawEntry>>
    ensures read { Gives (λ x. (indices_of x.0.items, x.1)) result
        (indices_at (reader fuel) (length tokens.now) tokens.now) }
{
    let mut found = Vec::new(alloc);
    let mut rest = tokens.copy();
    for _ in 0..tokens.len() {
        let (all, after) = index(alloc, fuel, found, &rest)?;
        match peek::after(Lexeme::Comma, &after) {
            None => return Ok((all, after)),
            Some(next) => {
                found = all;
                rest = next;
            }
        }
    }
    Err(Refusal::Refused)
}

// One index, behind those before it.
#[cycle(parser)]
fn index<'a>(
    alloc: Global,
    fuel: usize,
    found: Vec<RawEntry>,
    tokens: &Lexemes<'a>,
) -> Read<'a, Vec<RawEntry>>
    ensures read { Gives (λ x. (indices_of x.0.items, x.1)) result
        (before (indices_of found.items) (index_at (reader fuel) tokens.now)) }
{
    let (word, rest) = peek::index_word(tokens).ok_or(Refusal::Refused)?;
    let (e, rest) = expression(alloc, fuel, &rest)?;
    Ok((build::with_entry(found, Entry::Given(word, e))?, rest))
}

/// A whole expression.
pub fn expr<'a>(alloc: Global, tokens: &Lexemes<'a>) -> Read<'a, RawExpr>
    ensures read { Gives (λ x. (tree_of x.0, x.1)) result (expr_at tokens.now) }
{
    expression(alloc, tokens.len() + 1, tokens)
}
