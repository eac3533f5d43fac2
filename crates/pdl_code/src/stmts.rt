//! The reader of statements: a recursive descent over the tokens.
ghost use Rattle.std.specs.Prelude.{◌≡◌, length, option_map, option_and_then};
ghost use Rattle.pdl_lexemes.specs.ReadAnswers.{Gives};
ghost use Rattle.pdl_code.specs.declared.names.Target.TheVariants.{New, Named};
ghost use Rattle.pdl_code.specs.Tree.{keep};
ghost use Rattle.pdl_code.specs.TreeOf.{code_of, tree_of, step_of};
ghost use Rattle.pdl_code.specs.CodeReading.{assignment_at, before_code, block_at, body_at, choice_at, code_at, code_reader, else_at, ended_at, initial_at, put_at, read_code, set_sign, statement_at, step_at};

use crate::expr::{self, Read};
use crate::left::Lexemes;
use crate::lexeme::{Lexeme, Span};
use crate::names::{Called, RawExpr, RawStmt, Target};
use crate::{build, peek};
use pdl_lexemes::Refusal;
use std::alloc::Global;

// An expression and `;`.
#[tactic(auto, unfolding(crate::specs::CodeReading::ended_at))]
fn ended<'a>(alloc: Global, tokens: &Lexemes<'a>) -> Read<'a, RawExpr>
    ensures read { Gives (λ x. (tree_of x.0, x.1)) result (ended_at tokens.now) }
{
    let (value, rest) = expr::expr(alloc, tokens)?;
    let rest = peek::after(Lexeme::Semicolon, &rest).ok_or(Refusal::Refused)?;
    Ok((value, rest))
}

// What stands behind a declaration's word: `= expr ;`, or `;` alone for 0.
#[tactic(auto, unfolding(crate::specs::CodeReading::initial_at))]
fn initial<'a>(alloc: Global, tokens: &Lexemes<'a>) -> Read<'a, RawExpr>
    ensures read { Gives (λ x. (tree_of x.0, x.1)) result (initial_at tokens.now) }
{
    match peek::after(Lexeme::Equals, tokens) {
        Some(rest) => ended(alloc, &rest),
        None => {
            let rest = peek::after(Lexeme::Semicolon, tokens).ok_or(Refusal::Refused)?;
            Ok((RawExpr::Number(0), rest))
        }
    }
}

// What stands behind a word that is assigned to.
fn set<'a>(alloc: Global, word: Span, tokens: &Lexemes<'a>) -> Read<'a, RawStmt>
    ensures read { Gives (λ x. (step_of x.0, x.1)) result (set_sign (word, tokens.now)) }
{
    let (op, rest) = peek::sign(tokens).ok_or(Refusal::Refused)?;
    let (value, rest) = ended(alloc, &rest)?;
    Ok((RawStmt::Keep(Target::Named(word), op, value), rest))
}

// An assignment to an access.
#[tactic(auto, unfolding(crate::specs::CodeReading::put_at))]
fn put<'a>(alloc: Global, tokens: &Lexemes<'a>) -> Read<'a, RawStmt>
    ensures read { Gives (λ x. (step_of x.0, x.1)) result (put_at tokens.now) }
{
    let ((name, given, close), rest) = expr::access(alloc, tokens.len() + 1, tokens)?;
    let (op, rest) = peek::sign(&rest).ok_or(Refusal::Refused)?;
    let (value, rest) = ended(alloc, &rest)?;
    Ok((RawStmt::Put(Called { name, close }, given, op, value), rest))
}

#[tactic(auto, unfolding(crate::specs::CodeReading::assignment_at))]
fn assignment<'a>(alloc: Global, tokens: &Lexemes<'a>) -> Read<'a, RawStmt>
    ensures read { Gives (λ x. (step_of x.0, x.1)) result (assignment_at tokens.now) }
{
    match peek::word(tokens) {
        Some((word, rest)) => set(alloc, word, &rest),
        None => put(alloc, tokens),
    }
}

/// Code in which at most `fuel` blocks are open at once.
#[cycle(blocks)]
#[tactic(auto, unfolding(crate::specs::CodeReading::code_reader))]
fn code<'a>(alloc: Global, fuel: usize, tokens: &Lexemes<'a>) -> Read<'a, Vec<RawStmt>>
    ensures read { Gives (λ x. (code_of x.0.items, x.1)) result (code_reader fuel tokens.now) }
{
    if fuel == 0 {
        return Err(Refusal::Refused);
    }
    statements(alloc, fuel - 1, tokens)
}

#[cycle(blocks)]
#[tactic(auto, unfolding(crate::specs::CodeReading::code_at))]
fn statements<'a>(alloc: Global, fuel: usize, tokens: &Lexemes<'a>) -> Read<'a, Vec<RawStmt>>
    ensures read { Gives (λ x. (code_of x.0.items, x.1)) result
        (code_at (code_reader fuel) (length tokens.now) tokens.now) }
{
    let mut found = Vec::new(alloc);
    let mut rest = tokens.copy();
    for _ in 0..tokens.len() {
        match peek::ends(&rest) {
            Some(end) => return Ok((found, end)),
            None => {
                let (all, after) = statement(alloc, fuel, found, &rest)?;
                found = all;
                rest = after;
            }
        }
    }
    Ok((found, rest))
}

// One statement, behind those before it; `;` alone is none.
#[cycle(blocks)]
#[tactic(auto, unfolding(crate::specs::CodeReading::statement_at))]
fn statement<'a>(
    alloc: Global,
    fuel: usize,
    found: Vec<RawStmt>,
    tokens: &Lexemes<'a>,
) -> Read<'a, Vec<RawStmt>>
    ensures read { Gives (λ x. (code_of x.0.items, x.1)) result
        (before_code (code_of found.items) (statement_at (code_reader fuel) tokens.now)) }
{
    if let Some(rest) = peek::after(Lexeme::Semicolon, tokens) {
        return Ok((found, rest));
    }
    let (stmt, rest) = step(alloc, fuel, tokens)?;
    Ok((build::with_stmt(found, stmt)?, rest))
}

#[cycle(blocks)]
#[tactic(auto, unfolding(crate::specs::CodeReading::step_at))]
fn step<'a>(alloc: Global, fuel: usize, tokens: &Lexemes<'a>) -> Read<'a, RawStmt>
    ensures read { Gives (λ x. (step_of x.0, x.1)) result (step_at (code_reader fuel) tokens.now) }
{
    if let Some((word, rest)) = peek::loop_head(tokens) {
        let (body, rest) = block(alloc, fuel, &rest)?;
        return Ok((build::loop_stmt(word, body), rest));
    }
    if let Some(rest) = peek::after_if(tokens) {
        return choice(alloc, fuel, &rest);
    }
    if let Some((ty, word, rest)) = peek::declared(tokens) {
        let (value, rest) = initial(alloc, &rest)?;
        return Ok((RawStmt::Keep(Target::New(ty, word), None, value), rest));
    }
    assignment(alloc, tokens)
}

// What stands behind `if (`.
#[cycle(blocks)]
#[tactic(auto, unfolding(crate::specs::CodeReading::choice_at))]
fn choice<'a>(alloc: Global, fuel: usize, tokens: &Lexemes<'a>) -> Read<'a, RawStmt>
    ensures read { Gives (λ x. (step_of x.0, x.1)) result
        (choice_at (code_reader fuel) tokens.now) }
{
    let (condition, rest) = expr::expr(alloc, tokens)?;
    let rest = peek::after_condition(&rest).ok_or(Refusal::Refused)?;
    let (yes, rest) = block(alloc, fuel, &rest)?;
    let (no, rest) = otherwise(alloc, fuel, &rest)?;
    Ok((build::if_stmt(condition, yes, no), rest))
}

// What stands behind the block of an `if`.
#[cycle(blocks)]
fn otherwise<'a>(alloc: Global, fuel: usize, tokens: &Lexemes<'a>) -> Read<'a, Vec<RawStmt>>
    ensures read { Gives (λ x. (code_of x.0.items, x.1)) result
        (else_at (code_reader fuel) tokens.now) }
{
    match peek::after_else(tokens) {
        Some(rest) => block(alloc, fuel, &rest),
        None => Ok((Vec::new(alloc), tokens.copy())),
    }
}

// Code and `%}`.
#[cycle(blocks)]
#[tactic(auto, unfolding(crate::specs::CodeReading::block_at))]
fn block<'a>(alloc: Global, fuel: usize, tokens: &Lexemes<'a>) -> Read<'a, Vec<RawStmt>>
    ensures read { Gives (λ x. (code_of x.0.items, x.1)) result
        (block_at (code_reader fuel) tokens.now) }
{
    let (body, rest) = code(alloc, fuel, tokens)?;
    let rest = peek::after(Lexeme::BlockClose, &rest).ok_or(Refusal::Refused)?;
    Ok((body, rest))
}

/// The code that all tokens of a text spell.
#[tactic(auto, unfolding(crate::specs::CodeReading::read_code))]
pub fn parse(alloc: Global, tokens: &Lexemes<'_>) -> Result<Vec<RawStmt>, Refusal>
    ensures read { Gives (λ v. code_of v.items) result (read_code tokens.now) }
{
    let (found, rest) = code(alloc, tokens.len() + 1, tokens)?;
    if rest.len() == 0 {
        Ok(found)
    } else {
        Err(Refusal::Refused)
    }
}
