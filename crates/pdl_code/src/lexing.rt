//! The tokens of kernel code.
ghost use Rattle.std.specs.Prelude.{◌≡◌, ◌∷◌, ◌++◌, [], OnOk, ◌≤◌, ◌<◌, ◌+◌, ◌^◌, length, drop, IfOk, IfErr, IfSome, None, false};
ghost use Rattle.pdl_elem.specs.Tables.{found_in};
ghost use Rattle.pdl_code.specs.Lexing.{assignment, behind, lexed, lexed_from, lexeme_at, name_kind, name_len, number_len, sign_at, sign_named, sign_of, signs, span_at, word_kind, word_len};

use crate::fault::KernelFault;
use crate::lexeme::{Lexeme, NameKind, Span, WordKind};
use crate::names::LocalType;
use pdl_elem::UnaryOp;
use pdl_lex::bytes::{digits_len, is_blank, is_letter, word_len as word_bytes};
use pdl_lexemes::{AssignOp, assignment_named, number_of, operator_named};
use pdl_sig::{Reserved, reserved_word};
use std::alloc::{AllocError, Global};

/// The tokens of a text up to the first byte that begins none.
#[derive(Drop)]
pub struct Lexed {
    pub lexemes: Vec<Lexeme>,
    /// Whether each byte belongs to a token or is a blank.
    pub whole: bool,
}

// How many bytes the word at the front has; 0 where there is none.
fn word_len(text: &[u8]) -> usize
    ensures read { result ≡ word_len text.now }
    ensures within { result ≤ length text.now }
{
    match text {
        [] => 0,
        [first, rest @ ..] => {
            if is_letter(*first) {
                1 + word_bytes(rest)
            } else {
                0
            }
        }
    }
}

// How many bytes `$` and a word at the front have; 0 where there is none.
fn name_len(text: &[u8]) -> usize
    ensures read { result ≡ name_len text.now }
    ensures within { result ≤ length text.now }
{
    match text {
        [] => 0,
        [first, rest @ ..] => {
            if *first == b'$' && 1 <= word_len(rest) {
                1 + word_len(rest)
            } else {
                0
            }
        }
    }
}

// How many bytes the number at the front has; 0 where there is none.
fn number_len(text: &[u8]) -> usize
    ensures read { result ≡ number_len text.now }
    ensures within { result ≤ length text.now }
{
    match text {
        [] => 0,
        [first, rest @ ..] => {
            if *first == b'0' {
                1
            } else if first.is_ascii_digit() {
                1 + digits_len(rest)
            } else {
                0
            }
        }
    }
}

fn word_kind(text: &[u8]) -> WordKind
    ensures { result ≡ word_kind text.now }
{
    match reserved_word(text) {
        Some(Reserved::Loop) => WordKind::Loop,
        Some(Reserved::If) => WordKind::If,
        Some(Reserved::Else) => WordKind::Else,
        Some(Reserved::LongLocal) => WordKind::OfType(LocalType::Long),
        Some(Reserved::LonglongLocal) => WordKind::OfType(LocalType::Longlong),
        None => WordKind::Plain,
    }
}

fn name_kind(text: &[u8]) -> NameKind
    ensures { result ≡ name_kind text.now }
{
    match text {
        b"$SIZE" => NameKind::Size,
        b"$GENERIC" => NameKind::Generic,
        _ => NameKind::Plain,
    }
}

// The sign, where it is none of an operator or an assignment.
fn other_sign(at: u32, text: &[u8]) -> Option<Lexeme>
    ensures { result ≡ found_in (signs at) text.now }
{
    match text {
        b"(" => Some(Lexeme::Open),
        b")" => Some(Lexeme::Close(at)),
        b"%{" => Some(Lexeme::BlockOpen),
        b"%}" => Some(Lexeme::BlockClose),
        b";" => Some(Lexeme::Semicolon),
        b"," => Some(Lexeme::Comma),
        b"=" => Some(Lexeme::Equals),
        b"=>" => Some(Lexeme::FatArrow),
        b"->" => Some(Lexeme::Arrow),
        b"[" => Some(Lexeme::Unused),
        b"]" => Some(Lexeme::Unused),
        b"!" => Some(Lexeme::Prefix(UnaryOp::Not)),
        b"~" => Some(Lexeme::Prefix(UnaryOp::Complement)),
        _ => None,
    }
}

fn assignment(op: AssignOp) -> Lexeme
    ensures { result ≡ assignment op }
{
    match op {
        AssignOp::Set => Lexeme::Unused,
        AssignOp::With(op) => Lexeme::Assign(op),
    }
}

fn sign(at: u32, text: &[u8]) -> Option<Lexeme>
    ensures { result ≡ sign_named at text.now }
{
    if let Some(sign) = other_sign(at, text) {
        return Some(sign);
    }
    if let Some(op) = operator_named(text) {
        return Some(Lexeme::Operator(op));
    }
    match assignment_named(text) {
        Some(op) => Some(assignment(op)),
        None => None,
    }
}

// The sign of this many bytes at the front, with its length.
fn sign_of(at: u32, len: usize, text: &[u8]) -> Option<(Lexeme, usize)>
    requires { 0 < len }
    ensures read { result ≡ sign_of at len text.now }
    ensures within { IfSome result (λ found. (0 < found.1) × (found.1 ≤ length text.now)) }
{
    if len <= text.len() {
        match sign(at, &text[..len]) {
            Some(lexeme) => Some((lexeme, len)),
            None => None,
        }
    } else {
        None
    }
}

// The longest sign at the front, with its length.
fn sign_at(at: u32, text: &[u8]) -> Option<(Lexeme, usize)>
    ensures read { result ≡ sign_at at text.now }
    ensures within { IfSome result (λ found. (0 < found.1) × (found.1 ≤ length text.now)) }
{
    match sign_of(at, 3, text) {
        Some(found) => Some(found),
        None => match sign_of(at, 2, text) {
            Some(found) => Some(found),
            None => sign_of(at, 1, text),
        },
    }
}

fn span(at: usize, len: usize) -> Span
    requires { at + len < 2 ^ 32 }
    ensures { result ≡ span_at at len }
{
    Span {
        from: at as u32,
        to: (at + len) as u32,
    }
}

// The longest token at the front, with its length.
#[tactic(auto, unfolding(crate::specs::Lexing::lexeme_at))]
fn lexeme_at(at: usize, text: &[u8]) -> Option<(Lexeme, usize)>
    requires { at + length text.now < 2 ^ 32 }
    ensures read { result ≡ lexeme_at at text.now }
    ensures within { IfSome result (λ found. (0 < found.1) × (found.1 ≤ length text.now)) }
{
    let len = word_len(text);
    if len > 0 {
        return Some((Lexeme::Word(word_kind(&text[..len]), span(at, len)), len));
    }
    let len = name_len(text);
    if len > 0 {
        return Some((Lexeme::Name(name_kind(&text[..len]), span(at, len)), len));
    }
    let len = number_len(text);
    if len > 0 {
        return Some((Lexeme::Number(number_of(&text[..len])), len));
    }
    sign_at(at as u32, text)
}

fn keep(found: &mut Vec<Lexeme>, lexeme: Lexeme) -> Result<(), KernelFault>
    ensures ok { OnOk result (found.new.items ≡ found.old.items ++ lexeme ∷ []) }
    ensures err { IfErr result (λ fault. fault ≡ KernelFault.NoMemory) }
{
    found.push(lexeme).map_err(AllocError::from)?;
    Ok(())
}

// Takes a blank or a token at a place, and answers the place after it; none where
// no token begins there.
fn take_lexeme(
    found: &mut Vec<Lexeme>,
    text: &[u8],
    at: usize,
) -> Result<Option<usize>, KernelFault>
    requires limit { length text.now < 2 ^ 32 }
    requires within { at < length text.now }
    ensures read { IfOk result (λ next. IfSome next (λ n.
        behind found.old.items (lexed_from at 0 (drop at text.now))
        ≡ behind found.new.items (lexed_from n 0 (drop n text.now)))) }
    ensures forward { IfOk result (λ next. IfSome next (λ n. (at < n) × (n ≤ length text.now))) }
    ensures stopped { IfOk result (λ next. next ≡ None →
        behind found.old.items (lexed_from at 0 (drop at text.now))
        ≡ record { lexemes = found.new.items; whole = false }) }
    ensures memory { IfErr result (λ fault. fault ≡ KernelFault.NoMemory) }
{
    if is_blank(text[at]) {
        return Ok(Some(at + 1));
    }
    match lexeme_at(at, &text[at..]) {
        Some((lexeme, len)) => {
            keep(found, lexeme)?;
            Ok(Some(at + len))
        }
        None => Ok(None),
    }
}

/// The tokens of a text, up to the first byte that begins none.
pub fn read_lexemes(alloc: Global, text: &[u8]) -> Result<Lexed, KernelFault>
    requires { length text.now < 2 ^ 32 }
    ensures read { IfOk result (λ found. lexed text.now
        ≡ record { lexemes = found.lexemes.items; whole = found.whole }) }
    ensures memory { IfErr result (λ fault. fault ≡ KernelFault.NoMemory) }
{
    let mut lexemes = Vec::new(alloc);
    let mut at = 0;
    while at < text.len() {
        match take_lexeme(&mut lexemes, text, at)? {
            Some(next) => at = next,
            None => {
                return Ok(Lexed {
                    lexemes,
                    whole: false,
                });
            }
        }
    }
    Ok(Lexed {
        lexemes,
        whole: true,
    })
}
