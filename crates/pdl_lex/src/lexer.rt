ghost use Rattle.std.specs.Prelude.{◌≡◌, ◌+◌, ◌^◌, ◌<◌, ◌≤◌, length, drop, Some, None, Ok, Err, ◌≢◌, IfOk, IfErr, IfSome, OnOk};
ghost use Rattle.std.specs.List.{list_all};
ghost use Rattle.pdl_lex.specs.Bytes.{is_word_byte};
ghost use Rattle.pdl_lex.specs.Limits.{statement_limit};
ghost use Rattle.pdl_lex.specs.Tokens.{is_word, is_sign, gap_at, token_at, fault_of, after_tokens, toks_from, toks, Spans};
ghost use Rattle.pdl_lex.specs.TokenReading.{other_len, name_after, string_after, begins_sign, sign_at, read_at};

use crate::bytes::{digits_len, is_letter, is_word_byte, word_len};
use crate::{LexFault, Token, TokenKind};
use std::alloc::Global;

// The most tokens for which there is room from the start.
const FIRST_TOKENS: usize = 32;

/// Whether a text is a word: a letter or `_`, and then letters, digits and `_`.
pub fn is_word(text: &[u8]) -> bool
    ensures { result ≡ is_word text.now }
{
    match text {
        [first, rest @ ..] => is_letter(*first) && are_word_bytes(rest),
        [] => false,
    }
}

// Whether each byte is one with which a word goes on.
fn are_word_bytes(text: &[u8]) -> bool
    ensures { result ≡ list_all is_word_byte text.now }
{
    for byte in text {
        if !is_word_byte(*byte) {
            return false;
        }
    }
    true
}

// How many bytes at the front are another byte than this one.
fn other_len(other: u8, text: &[u8]) -> usize
    ensures passed { result ≡ other_len other text.now }
    ensures within { result ≤ length text.now }
{
    text.iter().take_while(|byte| **byte != other).count()
}

// Whether the whole text is one sign.
fn is_sign(text: &[u8]) -> bool
    ensures { result ≡ is_sign text.now }
{
    match text {
        b"(" | b")" | b"[" | b"]" | b"," | b":" | b"=" | b"!" | b"~" => true,
        b"+" | b"-" | b"*" | b"/" | b"%" | b">" | b"<" | b"&" | b"|" | b"^" => true,
        b"->" | b"=>" | b">=" | b"<=" | b"==" | b"!=" | b"<<" | b">>" => true,
        b".=" | b"+=" | b"-=" | b"*=" | b"/=" | b"%=" | b"&=" | b"|=" | b"^=" => true,
        b"<<=" | b">>=" => true,
        _ => false,
    }
}

// Whether the first bytes are a sign of this length.
fn begins_sign(len: usize, text: &[u8]) -> bool
    ensures { result ≡ begins_sign len text.now }
{
    len <= text.len() && is_sign(&text[..len])
}

// The longest sign at the front, with its length.
fn sign_at(text: &[u8]) -> Option<(TokenKind, usize)>
    ensures read { result ≡ sign_at text.now }
    ensures within { IfSome result (λ found. (0 < found.1) × (found.1 ≤ length text.now)) }
{
    if begins_sign(3, text) {
        Some((TokenKind::Sign, 3))
    } else if begins_sign(2, text) {
        Some((TokenKind::Sign, 2))
    } else if begins_sign(1, text) {
        Some((TokenKind::Sign, 1))
    } else {
        None
    }
}

// The name at the front, after its `$`, with its length.
fn name_after(text: &[u8]) -> Option<(TokenKind, usize)>
    requires { length text.now < 2 ^ 32 }
    ensures read { result ≡ name_after text.now }
    ensures within { IfSome result (λ found. (0 < found.1) × (found.1 ≤ length text.now + 1)) }
{
    match text {
        [first, rest @ ..] if is_letter(*first) => Some((TokenKind::Name, 2 + word_len(rest))),
        _ => None,
    }
}

// The string at the front, after its quote, with its length.
fn string_after(quote: u8, text: &[u8]) -> Option<(TokenKind, usize)>
    requires { length text.now < 2 ^ 32 }
    ensures read { result ≡ string_after quote text.now }
    ensures within { IfSome result (λ found. (0 < found.1) × (found.1 ≤ length text.now + 1)) }
{
    let len = other_len(quote, text);
    if len < text.len() {
        Some((TokenKind::Str, len + 2))
    } else {
        None
    }
}

// The token at the front, with its length, by its first byte.
fn read_at(text: &[u8]) -> Option<(TokenKind, usize)>
    requires { length text.now < 2 ^ 32 }
    ensures read { result ≡ read_at text.now }
    ensures within { IfSome result (λ found. (0 < found.1) × (found.1 ≤ length text.now)) }
{
    let [first, rest @ ..] = text else {
        return None;
    };
    if is_letter(*first) {
        return Some((TokenKind::Word, 1 + word_len(rest)));
    }
    match *first {
        b'$' => name_after(rest),
        b'0' => Some((TokenKind::Number, 1)),
        b'1'..=b'9' => Some((TokenKind::Number, 1 + digits_len(rest))),
        b'"' | b'\'' => string_after(*first, rest),
        _ => sign_at(text),
    }
}

// The longest token at the front, with its length.
fn token_at(text: &[u8]) -> Option<(TokenKind, usize)>
    requires { length text.now < 2 ^ 32 }
    ensures longest { result ≡ token_at text.now }
    ensures within { IfSome result (λ found. (0 < found.1) × (found.1 ≤ length text.now)) }
{
    read_at(text)
}

// How many bytes at the front are a blank, or a comment up to its newline.
fn gap_at(text: &[u8]) -> usize
    requires { length text.now < 2 ^ 32 }
    ensures gap { result ≡ gap_at text.now }
    ensures within { result ≤ length text.now }
{
    match text {
        [b' ' | b'\t' | b'\n' | b'\r', ..] => 1,
        [b'#', rest @ ..] => 1 + other_len(b'\n', rest),
        _ => 0,
    }
}

// Why no token begins with a byte, at its place.
fn fault_of(at: u32, byte: u8) -> LexFault
    ensures { result ≡ fault_of at byte }
{
    if byte == b'"' || byte == b'\'' {
        LexFault::OpenString { at }
    } else {
        LexFault::BadByte { at }
    }
}

// Takes a blank, a comment or a token at a place, and answers the place after it.
fn take_token(found: &mut Vec<Token>, text: &[u8], at: usize) -> Result<usize, LexFault>
    requires limit { length text.now ≤ statement_limit }
    requires within { at < length text.now }
    ensures read { IfOk result (λ next. after_tokens found.old.items
        (toks_from at 0 (drop at text.now)) ≡ after_tokens found.new.items
        (toks_from next 0 (drop next text.now))) }
    ensures forward { IfOk result (λ next. (at < next) × (next ≤ length text.now)) }
    ensures fault { IfErr result (λ fault. fault ≢ LexFault.NoMemory →
        toks_from at 0 (drop at text.now) ≡ Err fault) }
{
    let rest = &text[at..];
    let gap = gap_at(rest);
    if gap > 0 {
        return Ok(at + gap);
    }
    match token_at(rest) {
        Some((kind, len)) => {
            let to = at + len;
            found.push(Token {
                kind,
                from: at as u32,
                to: to as u32,
            })?;
            Ok(to)
        }
        None => Err(fault_of(at as u32, text[at])),
    }
}

/// The tokens of a statement's text, in order: at each place the longest one, with blanks and
/// comments passed. Their spans rise, don't overlap and leave only blanks and
/// comments between them.
///
/// It answers `BadByte` at the first byte that begins no token, or `OpenString` at the quote
/// of a string without an end, whichever stands first.
pub fn tokens(alloc: Global, text: &[u8]) -> Result<Vec<Token>, LexFault>
    requires { length text.now ≤ statement_limit }
    ensures exact { IfOk result (λ found. toks text.now ≡ Ok found.items) }
    ensures fault { IfErr result (λ fault. fault ≢ LexFault.NoMemory → toks text.now ≡ Err fault) }
    ensures spans { IfOk result (λ found. Spans text.now found.items) }
{
    let mut found = Vec::new(alloc);
    read_tokens(text, &mut found)?;
    Ok(found)
}

/// The tokens of a statement's text, as `tokens` has them, in a list whose room is kept. What stood
/// in it goes.
pub fn read_tokens(text: &[u8], found: &mut Vec<Token>) -> Result<(), LexFault>
    requires { length text.now ≤ statement_limit }
    ensures exact { OnOk result (toks text.now ≡ Ok found.new.items) }
    ensures fault { IfErr result (λ fault. fault ≢ LexFault.NoMemory → toks text.now ≡ Err fault) }
    ensures spans { OnOk result (Spans text.now found.new.items) }
{
    found.clear();
    found.reserve(text.len().min(FIRST_TOKENS))?;
    let mut at = 0;
    while at < text.len() {
        at = take_token(found, text, at)?;
    }
    Ok(())
}
