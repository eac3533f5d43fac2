//! What a call of a line answers, written piece by piece.

use std::alloc::{AllocError, Global};
use std::fmt::{Debug, Display};

/// A text that grows. A piece for which there is no memory is left out, and the text is then known
/// not to be whole: so what writes a piece goes on in each case, and no caller looks.
#[derive(Drop)]
pub struct Answer {
    pub alloc: Global,
    text: String,
    is_whole: bool,
}

impl Answer {
    /// No text, from which no piece was left out.
    pub fn new(alloc: Global) -> Answer {
        Answer {
            alloc,
            text: String::new(alloc),
            is_whole: true,
        }
    }

    /// What was said so far, but the pieces for which there was no memory.
    pub fn text(&self) -> &str {
        self.text.as_str()
    }

    /// Whether there was memory for each piece.
    pub fn is_whole(&self) -> bool {
        self.is_whole
    }

    fn note(&mut self, written: Result<(), AllocError>) {
        self.is_whole &= written.is_ok();
    }

    /// A piece had no memory.
    pub fn lacks(&mut self) {
        self.is_whole = false;
    }

    /// Writes a text.
    pub fn say(&mut self, text: &str) {
        let written = self.text.push_str(text);
        self.note(written);
    }

    /// Writes a value.
    pub fn show<T: Display>(&mut self, value: &T) {
        let written = write!(self.text, "{value}");
        self.note(written);
    }

    /// Writes a value as its type names it.
    pub fn debug<T: Debug>(&mut self, value: &T) {
        let written = write!(self.text, "{value:?}");
        self.note(written);
    }

    /// Writes a word and a number.
    pub fn tell<T: Display>(&mut self, word: &str, number: &T) {
        self.say(word);
        self.show(number);
    }

    /// Writes what stands before the operands of an operator.
    pub fn operator<T: Debug>(&mut self, operator: &T) {
        self.say("(");
        self.debug(operator);
        self.say(" ");
    }

    /// Writes what stands between two parts, if there is one already.
    pub fn next(&mut self, between: &str) {
        if !self.text.is_empty() {
            self.say(between);
        }
    }

    /// Writes `none` where nothing is said.
    pub fn or_none(&mut self) {
        if self.text.is_empty() {
            self.say("none");
        }
    }

    /// Writes numbers with commas between them.
    pub fn all<T: Display>(&mut self, numbers: &[T]) {
        let mut comma = "";
        for number in numbers {
            self.tell(comma, number);
            comma = ",";
        }
    }

    /// Writes numbers in square brackets.
    pub fn list<T: Display>(&mut self, numbers: &[T]) {
        self.say("[");
        self.all(numbers);
        self.say("]");
    }

    /// Writes bytes as a piece of text has them: `\\n`, `\\t`, `\\r`, `\\\\`, and `\\xff` for any
    /// other byte that isn't printed.
    pub fn escaped(&mut self, bytes: &[u8]) {
        for byte in bytes {
            self.byte(*byte);
        }
    }

    fn byte(&mut self, byte: u8) {
        match byte {
            b'\n' => self.say("\\n"),
            b'\t' => self.say("\\t"),
            b'\r' => self.say("\\r"),
            b'\\' => self.say("\\\\"),
            b' '..=b'_' | b'a'..=b'~' => self.show(&char::from(byte)),
            _ => self.hexadecimal(byte),
        }
    }

    fn hexadecimal(&mut self, byte: u8) {
        let written = write!(self.text, "\\x{byte:02x}");
        self.note(written);
    }

    /// Writes bytes as a text in backquotes.
    pub fn quoted(&mut self, bytes: &[u8]) {
        self.say("`");
        self.escaped(bytes);
        self.say("`");
    }

    /// Writes what stands in another answer.
    pub fn join(&mut self, other: &Answer) {
        self.is_whole &= other.is_whole;
        self.say(other.text.as_str());
    }

    /// Writes what came in another way, where it differs.
    pub fn otherwise(&mut self, way: &str, other: &Answer) {
        self.is_whole &= other.is_whole;
        if self.text != other.text {
            self.say(way);
            self.say(other.text.as_str());
        }
    }
}
