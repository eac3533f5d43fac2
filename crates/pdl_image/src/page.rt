//! The bytes of a text, and behind them those of the line that is made.
ghost use Rattle.std.specs.Prelude.{◌≡◌, ◌≤◌, ◌<◌, ◌+◌, ◌/◌, ◌∷◌, [], ◌++◌, length, take, max, vec_capacity, vec_len, OnErr, OnOk};

use std::alloc::{AllocError, Global};
use std::marker::Model;

/// A text, and behind it the line that is made, which is no part of the text before it is kept. It
/// is seen as both. A line that isn't kept is gone when the next one begins.
#[derive(Drop)]
pub struct Page {
    bytes: Vec<u8>,
    // how many of the bytes are the text's
    mark: usize,
}

impl Model for Page {
    ghost use Rattle.std.specs.Prelude.{◌≤◌, length, take, drop};
    ghost use Rattle.pdl_image.specs.Adding.{PageParts};

    ghost Value = { PageParts };

    ghost view = { λ p. record { text = take p.mark p.bytes.items; line = drop p.mark p.bytes.items } };

    ghost invariant = { λ p. p.mark ≤ length p.bytes.items };
}

/// Makes room for so many more bytes. Where there is too little, the bytes get room for half as
/// many again as they are, at least.
fn make_room(bytes: &mut Vec<u8>, count: usize) -> Result<(), AllocError>
    ensures items { bytes.new.items ≡ bytes.old.items }
    ensures room { let len = vec_len bytes.old in
        OnOk result (len + count ≤ vec_capacity bytes.new) }
    ensures no_more { let len = vec_len bytes.old in
        vec_capacity bytes.new ≤ max (vec_capacity bytes.old) (len + max count (len / 2)) }
    ensures full { OnErr result (vec_capacity bytes.old < vec_len bytes.old + count) }
{
    let spare = bytes.capacity() - bytes.len();
    if spare < count {
        bytes.reserve_exact(count.max(bytes.len() / 2))?;
    }
    Ok(())
}

impl Page {
    /// The empty text, and no line.
    pub fn new(alloc: Global) -> Page
        ensures { result ≡ record { text = []; line = [] } }
    {
        Page {
            bytes: Vec::new(alloc),
            mark: 0,
        }
    }

    /// How many bytes the text has.
    pub fn text_len(&self) -> usize
        ensures { result ≡ length self.now.text }
    {
        self.mark
    }

    /// How many bytes the line has.
    pub fn line_len(&self) -> usize
        ensures { result ≡ length self.now.line }
    {
        self.bytes.len() - self.mark
    }

    /// Appends bytes to the line.
    pub fn extend(&mut self, bytes: &[u8]) -> Result<(), AllocError>
        ensures line { OnOk result (self.new.line ≡ self.old.line ++ bytes.now) }
        ensures err { OnErr result (self.new.line ≡ self.old.line) }
        ensures text { self.new.text ≡ self.old.text }
    {
        make_room(&mut self.bytes, bytes.len())?;
        self.bytes.extend_from_slice(bytes)
    }

    /// Appends a byte to the line.
    pub fn push(&mut self, byte: u8) -> Result<(), AllocError>
        ensures line { OnOk result (self.new.line ≡ self.old.line ++ byte ∷ []) }
        ensures err { OnErr result (self.new.line ≡ self.old.line) }
        ensures text { self.new.text ≡ self.old.text }
    {
        make_room(&mut self.bytes, 1)?;
        Ok(self.bytes.push(byte)?)
    }

    /// Takes the line away.
    fn leave_line(&mut self)
        ensures { self.new ≡ record { text = self.old.text; line = [] } }
    {
        self.bytes.truncate(self.mark);
    }

    /// Begins the line with these bytes, in place of what was there before.
    pub fn begin(&mut self, bytes: &[u8]) -> Result<(), AllocError>
        ensures line { OnOk result (self.new.line ≡ bytes.now) }
        ensures err { OnErr result (self.new.line ≡ []) }
        ensures text { self.new.text ≡ self.old.text }
    {
        self.leave_line();
        self.extend(bytes)
    }

    /// Makes the line a part of the text.
    pub fn keep(&mut self)
        ensures { self.new ≡ record { text = self.old.text ++ self.old.line; line = [] } }
    {
        self.mark = self.bytes.len();
    }

    /// Takes what stands past a place out of the text, and the line.
    pub fn truncate(&mut self, place: usize)
        ensures { self.new ≡ record { text = take place self.old.text; line = [] } }
    {
        self.mark = self.mark.min(place);
        self.leave_line();
    }

    /// The text, without the line that was begun last.
    pub fn into_text(self) -> Vec<u8>
        ensures { result.items ≡ self.text }
    {
        let Page { mut bytes, mark } = self;
        bytes.truncate(mark);
        bytes
    }
}
