//! `tokens TEXT => KIND FROM TO, ..`, or the fault of the text.
//! `lexemes TEXT => LEXEME, ..`: the tokens as the grammar reads them.
//!
//! `cut SCRIPT => LINE TEXT, ..`: the statements of a script with their lines, the same however the
//! script is cut into parts. A statement of more than 200 bytes is said by its length.

ghost use Rattle.std.specs.Prelude.{◌≤◌, length};

use crate::answer::Answer;
use crate::cursor::Cursor;
use pdl_lex::{Piece, StatementCutter, Token, cut_parts, tokens};
use pdl_lexemes::{Lexeme, lexemes};

const OTHERWISE: &str = ", but cut otherwise ";

/// The tokens of a line's text.
pub fn tokens_answer(line: &mut Cursor<'_>, answer: &mut Answer) -> Option<()> {
    let text = line.short_text()?;
    match tokens(line.alloc, &text) {
        Ok(found) => say_tokens(answer, &found),
        Err(fault) => answer.debug(&fault),
    }
    Some(())
}

fn say_tokens(answer: &mut Answer, found: &[Token]) {
    for token in found {
        answer.next(", ");
        answer.debug(&token.kind);
        answer.tell(" ", &token.from);
        answer.tell(" ", &token.to);
    }
    answer.or_none();
}

/// The lexemes of a line's text.
pub fn lexemes_answer(line: &mut Cursor<'_>, answer: &mut Answer) -> Option<()> {
    let text = line.short_text()?;
    match tokens(line.alloc, &text) {
        Ok(found) => say_lexemes_of(&text, &found, answer),
        Err(_) => None,
    }
}

fn say_lexemes_of(text: &[u8], found: &[Token], answer: &mut Answer) -> Option<()> {
    match lexemes(answer.alloc, text, found) {
        Ok(all) => {
            say_lexemes(answer, &all);
            Some(())
        }
        Err(_) => None,
    }
}

fn say_lexemes(answer: &mut Answer, all: &[Lexeme]) {
    for lexeme in all {
        answer.next(", ");
        answer.debug(lexeme);
    }
    answer.or_none();
}

/// Says a text, or how many bytes it has where these are more than 200.
pub fn say_text(answer: &mut Answer, text: &[u8]) {
    if text.len() <= 200 {
        answer.quoted(text);
    } else {
        answer.tell("(", &text.len());
        answer.say(" bytes)");
    }
}

fn say_piece(answer: &mut Answer, piece: &Piece) {
    match piece {
        Piece::Whole(cut) => {
            answer.tell("", &cut.line);
            answer.say(" ");
            say_text(answer, cut.text.bytes());
        }
        Piece::TooLong { line } => {
            answer.tell("", line);
            answer.say(" too long");
        }
    }
}

fn say_pieces(answer: &mut Answer, pieces: &[Piece]) {
    for piece in pieces {
        answer.next(", ");
        say_piece(answer, piece);
    }
    answer.or_none();
}

// Puts the pieces of a script that is fed byte by byte behind these.
fn cut_bytes(script: &[u8], found: &mut Vec<Piece>) -> Option<()>
    requires { length script.now ≤ 1_000_000 }
{
    let mut cutter = StatementCutter::new(*found.allocator());
    for byte in script {
        let Ok(fed) = cutter.feed(&[*byte]) else {
            return None;
        };
        put(found, fed.cut)?;
    }
    put(found, cutter.end())
}

fn put(found: &mut Vec<Piece>, piece: Option<Piece>) -> Option<()> {
    match piece {
        Some(piece) => found.push(piece).ok(),
        None => Some(()),
    }
}

// The statements of a script byte by byte.
fn cut_singly(script: &[u8], answer: &mut Answer) -> Option<()>
    requires { length script.now ≤ 1_000_000 }
{
    let mut found = Vec::new(answer.alloc);
    cut_bytes(script, &mut found)?;
    say_pieces(answer, &found);
    Some(())
}

// The statements of a script in two parts.
fn cut_halves(front: &[u8], back: &[u8], answer: &mut Answer) -> Option<()>
    requires front { length front.now ≤ 1_000_000 }
    requires back { length back.now ≤ 1_000_000 }
{
    match cut_parts(answer.alloc, &[front, back]) {
        Ok(found) => {
            say_pieces(answer, &found);
            Some(())
        }
        Err(_) => None,
    }
}

/// The statements of a line's script.
pub fn cut(line: &mut Cursor<'_>, answer: &mut Answer) -> Option<()> {
    let script = line.text()?;
    if script.len() > 1_000_000 {
        return None;
    }
    cut_all_ways(&script, answer)
}

// The statements of a script, and what comes of other parts where it differs.
fn cut_all_ways(script: &[u8], answer: &mut Answer) -> Option<()>
    requires { length script.now ≤ 1_000_000 }
{
    cut_halves(script, b"", answer)?;
    compare_halves(script, answer)?;
    compare_single(script, answer)
}

fn compare_halves(script: &[u8], answer: &mut Answer) -> Option<()>
    requires { length script.now ≤ 1_000_000 }
{
    let (front, back) = script.split_at(script.len() / 2);
    let mut other = Answer::new(answer.alloc);
    cut_halves(front, back, &mut other)?;
    answer.otherwise(OTHERWISE, &other);
    Some(())
}

fn compare_single(script: &[u8], answer: &mut Answer) -> Option<()>
    requires { length script.now ≤ 1_000_000 }
{
    let mut other = Answer::new(answer.alloc);
    cut_singly(script, &mut other)?;
    answer.otherwise(OTHERWISE, &other);
    Some(())
}
