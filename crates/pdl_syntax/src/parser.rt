//! The checks on a statement's tokens in their order, and its tree.

ghost use Rattle.std.specs.Prelude.{◌≡◌, ◌≤◌, length, IfOk, Ok, Some};
ghost use Rattle.pdl_lex.specs.Limits.{statement_limit};
ghost use Rattle.pdl_lex.specs.Tokens.{toks};
ghost use Rattle.pdl_lexemes.specs.Lexing.{lexemes_of};
ghost use Rattle.pdl_syntax.specs.Parsed.{unless_ragged, checked_lexemes, IsParsed};
ghost use Rattle.pdl_syntax.specs.Refusals.{Answers};
ghost use Rattle.pdl_syntax.specs.StatementTree.{statement_of};
ghost use Rattle.pdl_syntax.specs.WellMade.{IsWellMade};

use crate::laws::{parsing_is_the_grammar, spelled_are_well_made};
use crate::ragged;
use crate::reader::Reader;
use crate::tree::Statement;
use pdl_lex::{Token, tokens_are_spans};
use pdl_lexemes::{Lexeme, Lexemes, Refusal, has_large, lexemes_hold_texts, read_lexemes};
use std::alloc::{AllocError, Global};

/// Why the tokens of a text are no statement. Where several hold, the first one is answered.
#[derive(Clone, Copy, PartialEq, Eq, Debug)]
pub enum ParseFault {
    /// More than 64 brackets are open at once, more than 16 square ones, or more than 256 operators
    /// stand outside square brackets.
    TooDeep,
    /// A number is above 9223372036854775807.
    NumberTooLarge,
    /// The tokens don't follow the grammar.
    Syntax,
    /// A list holds numbers beside lists, or lists of different dimensions.
    Ragged,
    /// Memory is short. No clause ties this answer to a cause.
    NoMemory,
}

impl From<AllocError> for ParseFault {
    ghost use Rattle.std.specs.Prelude.{◌≡◌};
    ghost use Rattle.pdl_syntax.specs.declared.parser.ParseFault.TheVariants.{NoMemory};

    ghost from_gives = { λ _ r. r ≡ NoMemory };

    fn from(_error: AllocError) -> ParseFault {
        ParseFault::NoMemory
    }
}

/// The statement that the tokens of a text spell, or the first check that they fail. The tokens are
/// those that `tokens` answers for this text.
pub fn parse(alloc: Global, text: &[u8], tokens: &[Token]) -> Result<Statement, ParseFault>
    requires tokens { toks text.now ≡ Ok tokens.now }
    requires small { length text.now ≤ statement_limit }
    ensures exact { Answers text.now (lexemes_of text.now tokens.now) result }
    ensures well_made { IfOk result (λ s. IsWellMade (statement_of s)) }
{
    let mut room = Vec::new(alloc);
    parse_within(alloc, text, tokens, &mut room)
}

/// What `parse` answers. The lexemes are put into a list whose room is kept; what stood in it goes.
pub fn parse_within(
    alloc: Global,
    text: &[u8],
    tokens: &[Token],
    lexemes: &mut Vec<Lexeme>,
) -> Result<Statement, ParseFault>
    requires tokens { toks text.now ≡ Ok tokens.now }
    requires small { length text.now ≤ statement_limit }
    ensures exact { Answers text.now (lexemes_of text.now tokens.now) result }
    ensures well_made { IfOk result (λ s. IsWellMade (statement_of s)) }
{
    tokens_are_spans();
    parsing_is_the_grammar();
    spelled_are_well_made();
    lexemes_hold_texts();
    read_lexemes(text, tokens, lexemes)?;
    read(alloc, text, lexemes.as_slice())
}

#[tactic(auto, using(crate::proofs::ParsedAnswers::unread, crate::proofs::ParsedAnswers::read_as))]
fn read(alloc: Global, text: &[u8], lexemes: &[Lexeme]) -> Result<Statement, ParseFault>
    requires { length lexemes.now ≤ statement_limit }
    ensures { IsParsed (checked_lexemes text.now lexemes.now) result }
{
    match Lexemes::of(lexemes) {
        None => Err(ParseFault::TooDeep),
        Some(tokens) => {
            if has_large(lexemes) {
                return Err(ParseFault::NumberTooLarge);
            }
            let reader = Reader {
                alloc,
                source: text,
                fuel: tokens.len() + 1,
            };
            match reader.statement(&tokens) {
                Err(Refusal::NoMemory) => Err(ParseFault::NoMemory),
                Err(Refusal::Refused) => Err(ParseFault::Syntax),
                Ok(statement) => unless_ragged(statement),
            }
        }
    }
}

// The statement, unless a list in it is ragged.
fn unless_ragged(statement: Statement) -> Result<Statement, ParseFault>
    ensures { IsParsed (unless_ragged (Some (statement_of statement))) result }
{
    if ragged::in_statement(&statement) {
        Err(ParseFault::Ragged)
    } else {
        Ok(statement)
    }
}
