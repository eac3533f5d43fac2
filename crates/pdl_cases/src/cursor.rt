//! What is left of a line, and the parts that are read from its front. A part that isn't there, or
//! for which there is no memory, is nothing.

ghost use Rattle.std.specs.Prelude.{◌≤◌, IfSome, length};

use crate::escapes::unescape;
use std::alloc::Global;

// The most pieces of a text, and the most numbers of a list without their repeats.
const MOST_PARTS: usize = 4096;

const MOST_REPEATS: i64 = 20_000_000;

// The bytes that a part of a line is made of.
#[derive(Clone, Copy)]
enum Class {
    Blank,
    Word,
    Digit,
    Text,
}

impl Class {
    fn has(self, byte: u8) -> bool {
        match self {
            Class::Blank => byte == b' ',
            Class::Word => byte.is_ascii_alphanumeric() || byte == b'_' || byte == b'-',
            Class::Digit => byte.is_ascii_digit(),
            Class::Text => byte != b'`',
        }
    }
}

/// What is left of a line.
#[derive(Drop)]
pub struct Cursor<'a> {
    pub alloc: Global,
    rest: &'a [u8],
}

impl<'a> Cursor<'a> {
    /// The whole of a line.
    pub fn of(alloc: Global, line: &'a [u8]) -> Cursor<'a> {
        Cursor { alloc, rest: line }
    }

    // Takes the bytes of this class that come next.
    fn part(&mut self, class: Class) -> &'a [u8] {
        let bytes = self.rest;
        match bytes.iter().position(|byte| !class.has(*byte)) {
            Some(end) if end <= bytes.len() => {
                let (part, rest) = bytes.split_at(end);
                self.rest = rest;
                part
            }
            _ => {
                self.rest = &[];
                bytes
            }
        }
    }

    /// What is left, without the blanks before it.
    pub fn left(&mut self) -> &'a [u8] {
        self.part(Class::Blank);
        self.rest
    }

    // Takes this byte where it is the very next one, and says whether it was.
    fn takes_at_once(&mut self, byte: u8) -> bool {
        match self.rest {
            [first, rest @ ..] if *first == byte => {
                self.rest = rest;
                true
            }
            _ => false,
        }
    }

    /// Takes this byte where it is the next one after blanks, and says whether it was.
    pub fn takes(&mut self, byte: u8) -> bool {
        self.part(Class::Blank);
        self.takes_at_once(byte)
    }

    /// Takes this byte, which is the next one after blanks.
    pub fn expect(&mut self, byte: u8) -> Option<()> {
        self.takes(byte).then_some(())
    }

    /// The bytes up to the next one that isn't of a word.
    pub fn word(&mut self) -> &'a [u8] {
        self.part(Class::Blank);
        self.part(Class::Word)
    }

    /// Takes this word where it comes next, and says whether it did.
    pub fn takes_word(&mut self, word: &str) -> bool {
        let from = self.rest;
        let is_next = self.word() == word.as_bytes();
        if !is_next {
            self.rest = from;
        }
        is_next
    }

    /// Takes this word, which comes next.
    pub fn expect_word(&mut self, word: &str) -> Option<()> {
        self.takes_word(word).then_some(())
    }

    /// Takes one of these words where it comes next, and answers what it stands for.
    pub fn named<T: Copy>(&mut self, words: &[(&str, T)]) -> Option<T> {
        for (word, value) in words {
            if self.takes_word(word) {
                return Some(*value);
            }
        }
        None
    }

    /// The same of a word with a `=` right behind it.
    pub fn setting<T: Copy>(&mut self, words: &[(&str, T)]) -> Option<T> {
        let from = self.rest;
        let setting = self.named(words);
        if setting.is_some() && self.takes_at_once(b'=') {
            return setting;
        }
        self.rest = from;
        None
    }

    /// A whole number, with a sign or none.
    pub fn number(&mut self) -> Option<i64> {
        self.part(Class::Blank);
        let is_negative = self.takes_at_once(b'-');
        value_of(is_negative, self.part(Class::Digit))
    }

    /// Numbers up to something else; `n*k` stands for k times n.
    pub fn numbers(&mut self) -> Option<Vec<i64>> {
        let mut numbers = Vec::new(self.alloc);
        self.read_numbers(&mut numbers)?;
        Some(numbers)
    }

    fn read_numbers(&mut self, numbers: &mut Vec<i64>) -> Option<()> {
        for _ in 0..MOST_PARTS {
            let Some(number) = self.number() else {
                return Some(());
            };
            repeat(&[number], self.repeats()?, numbers)?;
            self.takes(b',');
        }
        None
    }

    // How often what stood before is repeated: `*k`, or once.
    fn repeats(&mut self) -> Option<i64> {
        if !self.takes_at_once(b'*') {
            return Some(1);
        }
        match self.number() {
            Some(count) if 0 <= count && count <= MOST_REPEATS => Some(count),
            _ => None,
        }
    }

    /// A list of sizes in square brackets.
    pub fn sizes(&mut self) -> Option<Vec<u32>> {
        let mut sizes = Vec::new(self.alloc);
        self.read_sizes(&mut sizes)?;
        Some(sizes)
    }

    fn read_sizes(&mut self, sizes: &mut Vec<u32>) -> Option<()> {
        self.expect(b'[')?;
        let numbers = self.numbers()?;
        put_sizes(&numbers, sizes)?;
        self.expect(b']')
    }

    /// A text: one or more pieces.
    pub fn text(&mut self) -> Option<Vec<u8>> {
        let mut text = Vec::new(self.alloc);
        self.read_text(&mut text)?;
        Some(text)
    }

    /// A text of at most 65,536 bytes.
    pub fn short_text(&mut self) -> Option<Vec<u8>>
        ensures { IfSome result (λ text. length text.items ≤ 65536) }
    {
        let text = self.text()?;
        if text.len() > 65_536 {
            return None;
        }
        Some(text)
    }

    fn read_text(&mut self, text: &mut Vec<u8>) -> Option<()> {
        for _ in 0..MOST_PARTS {
            self.read_piece(text)?;
            if !self.left().starts_with(b"`") {
                return Some(());
            }
        }
        None
    }

    /// A piece of text in backquotes; with `*k` behind it, k times.
    pub fn piece(&mut self) -> Option<Vec<u8>> {
        let mut text = Vec::new(self.alloc);
        self.read_piece(&mut text)?;
        Some(text)
    }

    fn read_piece(&mut self, text: &mut Vec<u8>) -> Option<()> {
        self.expect(b'`')?;
        let inner = self.part(Class::Text);
        self.expect(b'`')?;
        let count = self.repeats()?;
        let mut bytes = Vec::new(self.alloc);
        unescape(inner, &mut bytes)?;
        repeat(&bytes, count, text)
    }
}

// Puts these so many times behind a list.
fn repeat<T: Copy>(items: &[T], count: i64, list: &mut Vec<T>) -> Option<()> {
    for _ in 0..count {
        list.extend_from_slice(items).ok()?;
    }
    Some(())
}

// Puts these numbers behind sizes, if each of them is one.
fn put_sizes(numbers: &[i64], sizes: &mut Vec<u32>) -> Option<()> {
    for number in numbers {
        sizes.push(u32::try_from(*number).ok()?).ok()?;
    }
    Some(())
}

// The number of these digits, or nothing where there are none or it is out of range.
fn value_of(is_negative: bool, digits: &[u8]) -> Option<i64> {
    if digits.is_empty() {
        return None;
    }
    let mut value = 0_i64;
    for digit in digits {
        let digit = i64::from(digit.saturating_sub(b'0'));
        value = value.checked_mul(10)?.checked_sub(digit)?;
    }
    if is_negative {
        Some(value)
    } else {
        value.checked_neg()
    }
}
