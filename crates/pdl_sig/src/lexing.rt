//! The tokens of signatures. Each function takes a text, and answers what stands at its front with
//! the text after it.
ghost use Rattle.std.specs.Prelude.{◌≡◌, ◌≤◌, ◌+◌, length, min, option_map, IsTrue};
ghost use Rattle.std.specs.List.{list_all};
ghost use Rattle.std.specs.Char.{is_ascii_digit};
ghost use Rattle.pdl_elem.specs.Tables.{found_in};
ghost use Rattle.pdl_shape.specs.Shape.{extent_limit};
ghost use Rattle.pdl_lex.specs.Bytes.{is_letter};
ghost use Rattle.pdl_sig.specs.Grammar.{past_blanks, begins, value_after, is_number, type_of, role_of, reserved, is_arg_word, is_dim_word};
ghost use Rattle.pdl_sig.specs.SignatureReading.{is_end, sign_at, word_at, number_at};

use crate::{Reserved, Role};
use pdl_elem::{Ty, found_in, type_named};
use pdl_lex::bytes::{digits_len, is_blank, is_letter, word_len};
use pdl_shape::MOST_EXTENT;

/// The words that are reserved in kernel code.
const RESERVED: &[(&[u8], Reserved)] = &[
    (b"loop", Reserved::Loop),
    (b"if", Reserved::If),
    (b"else", Reserved::Else),
    (b"int", Reserved::LongLocal),
    (b"long", Reserved::LongLocal),
    (b"longlong", Reserved::LonglongLocal),
];

/// The text past its blanks.
fn past_blanks(text: &[u8]) -> &[u8]
    ensures past { result.now ≡ past_blanks text.now }
    ensures shorter { length result.now ≤ length text.now }
{
    for (at, byte) in text.iter().enumerate() {
        if !is_blank(*byte) {
            return &text[at..];
        }
    }
    &[]
}

/// Whether nothing but blanks is left.
pub fn is_end(text: &[u8]) -> bool
    ensures { result ≡ is_end text.now }
{
    past_blanks(text).is_empty()
}

/// The text after a sign.
#[tactic(auto, unfolding(crate::specs::SignatureReading::sign_at))]
pub fn sign(sign: u8, text: &[u8]) -> Option<&[u8]>
    ensures read { option_map (λ rest. rest.now) result ≡ sign_at sign text.now }
{
    match past_blanks(text) {
        [first, rest @ ..] if *first == sign => Some(rest),
        _ => None,
    }
}

fn begins_word(text: &[u8]) -> bool
    ensures { result ≡ begins is_letter text.now }
{
    match text {
        [first, ..] => is_letter(*first),
        [] => false,
    }
}

/// The word at the front, and the text after it.
#[tactic(auto, unfolding(crate::specs::SignatureReading::word_at))]
pub fn word(text: &[u8]) -> Option<(&[u8], &[u8])>
    ensures { option_map (λ x. (x.0.now, x.1.now)) result ≡ word_at text.now }
{
    let text = past_blanks(text);
    if !begins_word(text) {
        return None;
    }
    Some(text.split_at(word_len(text)))
}

fn is_number(digits: &[u8]) -> bool
    ensures { result ≡ is_number digits.now }
{
    match digits {
        [] => false,
        [first, rest @ ..] => *first != b'0' || rest.is_empty(),
    }
}

/// The number that digits spell, or one above the largest for all that are larger.
fn value(digits: &[u8]) -> u32
    requires { IsTrue (list_all is_ascii_digit digits.now) }
    ensures { result ≡ min (value_after 0 digits.now) (extent_limit + 1) }
{
    let mut value = 0;
    for digit in digits {
        value = (10 * value + u32::from(*digit - b'0')).min(MOST_EXTENT + 1);
    }
    value
}

/// The number at the front, and the text after it; none above the largest.
#[tactic(auto, unfolding(crate::specs::SignatureReading::number_at))]
pub fn number(text: &[u8]) -> Option<(u32, &[u8])>
    ensures { option_map (λ x. (x.0, x.1.now)) result ≡ number_at text.now }
{
    let text = past_blanks(text);
    let (digits, rest) = text.split_at(digits_len(text));
    if !is_number(digits) {
        return None;
    }
    let value = value(digits);
    if value > MOST_EXTENT {
        return None;
    }
    Some((value, rest))
}

/// The type of a type word; `int` is long.
pub fn type_of(word: &[u8]) -> Option<Ty>
    ensures { result ≡ type_of word.now }
{
    match word {
        b"int" => Some(Ty::Long),
        _ => type_named(word),
    }
}

/// The role of a word in square brackets.
pub fn role_of(word: &[u8]) -> Option<Role>
    ensures { result ≡ role_of word.now }
{
    match word {
        b"o" => Some(Role::Output),
        b"t" => Some(Role::Temp),
        b"io" => Some(Role::Both),
        _ => None,
    }
}

/// Whether the word may name an argument.
pub fn is_arg_word(word: &[u8]) -> bool
    ensures { result ≡ is_arg_word word.now }
{
    type_of(word).is_none() && word != b"SIZE".as_slice() && word != b"GENERIC".as_slice()
}

/// What a word is that is reserved in kernel code.
pub fn reserved_word(word: &[u8]) -> Option<Reserved>
    ensures { result ≡ found_in reserved word.now }
{
    found_in(RESERVED, word)
}

/// Whether the word may name a dimension: it isn't reserved in kernel code.
pub fn is_dim_word(word: &[u8]) -> bool
    ensures { result ≡ is_dim_word word.now }
{
    reserved_word(word).is_none()
}
