ghost use Rattle.std.specs.Prelude.{◌≡◌, ℕ, ◌+◌, ◌-◌, ◌^◌, ◌<◌, ◌≤◌, true, false, if◌then◌else◌, List, [], ◌∷◌, ◌++◌, length, take, drop, Some, None, option_to_list, IfOk, OnOk, OnErr};
ghost use Rattle.std.specs.List.{prefix_len};
ghost use Rattle.pdl_lex.specs.Bytes.{newlines};
ghost use Rattle.pdl_lex.specs.Pieces.{start_state, mode_after, is_end, is_between, pieces, settled, to_come, settled_from};
ghost use Rattle.pdl_lex.specs.Steps.{begun, ended, next, cut_at, is_full, is_idle, grown_on, is_plain, IsQuiet, Reaches};

use crate::limits::STATEMENT_LIMIT;
use crate::{Cut, Fed, NoMemory, Piece, StatementText};
use std::alloc::{AllocError, Global};
use std::marker::Model;
use std::mem;

// The bytes for which a text has room once it's begun.
const FIRST_ROOM: usize = 64;

/// Where a byte of a script stands.
#[derive(Clone, Copy, Debug, PartialEq, Eq)]
pub enum Mode {
    /// Outside strings and comments.
    Code,
    /// In a comment, which goes from `#` up to the next newline.
    Comment,
    /// In a string that begins with `"`.
    Double,
    /// In a string that begins with `'`.
    Single,
}

// Where the byte after this one stands.
fn mode_after(mode: Mode, byte: u8) -> Mode
    ensures { result ≡ mode_after mode byte }
{
    match (mode, byte) {
        (Mode::Code, b'#') => Mode::Comment,
        (Mode::Code, b'"') => Mode::Double,
        (Mode::Code, b'\'') => Mode::Single,
        (Mode::Comment, b'\n') | (Mode::Double, b'"') | (Mode::Single, b'\'') => Mode::Code,
        _ => mode,
    }
}

// Whether this byte ends a statement.
fn is_end(mode: Mode, byte: u8) -> bool
    ensures { result ≡ is_end mode byte }
{
    mode == Mode::Code && byte == b';'
}

// Whether this byte, before a statement, belongs to none.
fn is_between(mode: Mode, byte: u8) -> bool
    ensures { result ≡ is_between mode byte }
{
    match mode {
        Mode::Code => matches!(byte, b' ' | b'\t' | b'\n' | b'\r' | b'#'),
        Mode::Comment => true,
        Mode::Double | Mode::Single => false,
    }
}

// Whether a byte of a statement's text leaves all but the text as it is.
fn is_plain(mode: Mode, byte: u8) -> bool
    ensures { result ≡ is_plain mode byte }
{
    match mode {
        Mode::Code => !matches!(byte, b';' | b'#' | b'"' | b'\'' | b'\n'),
        Mode::Comment => byte != b'\n',
        Mode::Double => !matches!(byte, b'"' | b'\n'),
        Mode::Single => !matches!(byte, b'\'' | b'\n'),
    }
}

// How many bytes at the front are plain.
fn plain_len(mode: Mode, bytes: &[u8]) -> usize
    ensures passed { result ≡ prefix_len (is_plain mode) bytes.now }
    ensures within { result ≤ length bytes.now }
{
    bytes
        .iter()
        .take_while(|byte| is_plain(mode, **byte))
        .count()
}

// Puts a byte onto a text. The first one makes room for those that follow.
fn put(text: &mut Vec<u8>, byte: u8) -> Result<(), NoMemory>
    ensures ok { OnOk result (text.new.items ≡ text.old.items ++ byte ∷ []) }
    ensures err { OnErr result (text.new.items ≡ text.old.items) }
{
    let room = if text.is_empty() { FIRST_ROOM } else { 1 };
    text.reserve(room)?;
    text.push(byte).map_err(AllocError::from)
}

/// Cuts a script, which is fed to it in parts of any size, into its statements.
#[derive(Drop)]
pub struct StatementCutter {
    alloc: Global,
    mode: Mode,
    text: Vec<u8>,
    // Room for a text to come, without bytes.
    spare: Vec<u8>,
    over: bool,
    start: u64,
    line: u64,
    taken: u64,
    failed: bool,
}

impl Model for StatementCutter {
    ghost use Rattle.std.specs.Prelude.{◌≡◌, ◌+◌, ◌^◌, ◌<◌, ◌≤◌, [], length};
    ghost use Rattle.pdl_lex.specs.Limits.{statement_limit};
    ghost use Rattle.pdl_lex.specs.Pieces.{State};

    ghost Value = { State };

    ghost view = { λ c. record {
      mode = c.mode;
      text = c.text.items;
      over = c.over;
      start = c.start;
      line = c.line;
      taken =
          c.taken;
      failed = c.failed;
    } };

    ghost invariant = { λ c. (length c.text.items ≤ statement_limit) × (c.line ≤ c.taken + 1) ×
        (c.taken < 2 ^ 63) × (c.spare.items ≡ []) };
}

impl StatementCutter {
    /// A cutter before the first byte of a script.
    pub fn new(alloc: Global) -> StatementCutter
        ensures state { result ≡ start_state }
        ensures whole { (bytes : List ℕ) → to_come result bytes ≡ pieces bytes }
        ensures settled { (bytes : List ℕ) → settled_from result bytes ≡ settled bytes }
    {
        StatementCutter {
            alloc,
            mode: Mode::Code,
            text: Vec::new(alloc),
            spare: Vec::new(alloc),
            over: false,
            start: 1,
            line: 1,
            taken: 0,
            failed: false,
        }
    }

    /// Takes bytes up to and with the one that completes a piece, or all of them. A
    /// statement with too long a text is answered at the byte past the limit, and the rest of it
    /// is taken without an answer.
    ///
    /// Once out of memory, it answers `NoMemory` from then on and takes no byte more, and only
    /// `feed` and `line` may be called. `line` then counts the newlines up to and with the byte for
    /// which there was no memory.
    pub fn feed(&mut self, piece: &[u8]) -> Result<Fed, NoMemory>
        requires room { self.old.taken + length piece.now < 2 ^ 63 }

        // With the cut, the same pieces are still to come, whatever bytes follow.
        ensures stream { IfOk result (λ fed. (more : List ℕ) →
            to_come self.old (piece.now ++ more) ≡ option_to_list fed.cut
            ++ to_come self.new (drop fed.used piece.now ++ more)) }
        ensures settled { IfOk result (λ fed. (more : List ℕ) →
            settled_from self.old (piece.now ++ more) ≡ option_to_list fed.cut
            ++ settled_from self.new (drop fed.used piece.now ++ more)) }

        // The bytes taken complete it and no other piece, and fewer complete none. So it comes at
        // the first byte that settles it, and there is none exactly
        // where no piece is settled.
        ensures completed { IfOk result (λ fed. settled_from self.old (take fed.used piece.now)
            ≡ option_to_list fed.cut) }
        ensures earliest { IfOk result (λ fed. (k : ℕ) → k < fed.used →
            settled_from self.old (take k piece.now) ≡ []) }
        ensures answered { OnOk result (settled_from self.new [] ≡ []) }
        ensures all_used { IfOk result (λ fed. fed.cut ≡ None → fed.used ≡ length piece.now) }
        ensures within { IfOk result (λ fed. fed.used ≤ length piece.now) }
        ensures some { IfOk result (λ fed. 0 < length piece.now → 0 < fed.used) }

        ensures lines { IfOk result (λ fed. self.new.line ≡ self.old.line
            + newlines (take fed.used piece.now)) }
        ensures failed_line { OnErr result (self.new.line ≡ self.old.line
            + newlines (take (self.new.taken - self.old.taken) piece.now)) }
        ensures count { IfOk result (λ fed. self.new.taken ≡ self.old.taken + fed.used) }
        ensures at_least { self.old.taken ≤ self.new.taken }
        ensures at_most { self.new.taken ≤ self.old.taken + length piece.now }

        ensures works { OnOk result ((self.old.failed ≡ false) × (self.new.failed ≡ false)) }
        ensures failed { OnErr result (self.new.failed ≡ true) }
        ensures stays { self.old.failed ≡ true → self.new ≡ self.old }
    {
        if self.failed {
            return Err(AllocError);
        }
        self.scan(piece)
    }

    // Takes bytes up to and with the one that completes a piece, or all of them.
    fn scan(&mut self, piece: &[u8]) -> Result<Fed, NoMemory>
        requires works { self.old.failed ≡ false }
        requires room { self.old.taken + length piece.now < 2 ^ 63 }
        ensures reaches { IfOk result (λ fed. Reaches self.old piece.now
            fed.used fed.cut self.new) }
        ensures works { OnOk result (self.new.failed ≡ false) }
        ensures failed { OnErr result (self.new.failed ≡ true) }
        ensures failed_line { OnErr result (self.new.line ≡ self.old.line
            + newlines (take (self.new.taken - self.old.taken) piece.now)) }
        ensures count { IfOk result (λ fed. self.new.taken ≡ self.old.taken + fed.used) }
        ensures at_least { self.old.taken ≤ self.new.taken }
        ensures at_most { self.new.taken ≤ self.old.taken + length piece.now }
    {
        let mut used = 0;
        while used < piece.len() {
            if let Some(cut) = self.take(piece[used])? {
                return Ok(Fed {
                    used: used + 1,
                    cut: Some(cut),
                });
            }
            used += 1;
            used += self.extend(&piece[used..])?;
        }
        Ok(Fed { used, cut: None })
    }

    /// The line on which the next byte stands: 1 plus the number of newlines taken, whether
    /// it is out of memory or not.
    pub fn line(&self) -> u64
        ensures { result ≡ self.now.line }
    {
        self.line
    }

    /// Answers the last statement, where there is one that wasn't answered as too
    /// long, and leaves the cutter without a begun statement, as it is after a semicolon.
    pub fn end(&mut self) -> Option<Piece>
        requires { self.old.failed ≡ false }
        ensures last { option_to_list result ≡ to_come self.old [] }
        ensures begun { result ≡ begun self.old }
        ensures after { self.new ≡ ended self.old }
    {
        let spare = mem::replace(&mut self.spare, Vec::new(self.alloc));
        let text = mem::replace(&mut self.text, spare);
        let over = mem::replace(&mut self.over, false);
        self.mode = Mode::Code;
        if over || text.is_empty() {
            None
        } else {
            Some(Piece::Whole(Cut {
                text: StatementText::new(text),
                line: self.start,
            }))
        }
    }

    /// Keeps the room of a cut statement's text for one that comes.
    pub fn reuse(&mut self, piece: Piece)
        ensures { self.new ≡ self.old }
    {
        if let Piece::Whole(cut) = piece {
            let mut room = cut.text.into_bytes();
            room.clear();
            self.spare = room;
        }
    }

    // Takes one byte, and answers the piece that it completes.
    fn take(&mut self, byte: u8) -> Result<Option<Piece>, NoMemory>
        requires works { self.old.failed ≡ false }
        requires room { self.old.taken + 1 < 2 ^ 63 }
        ensures cut { IfOk result (λ cut. cut ≡ cut_at self.old byte) }
        ensures after { OnOk result (self.new ≡ next self.old byte) }
        ensures works { OnOk result (self.new.failed ≡ false) }
        ensures failed { OnErr result (self.new.failed ≡ true) }
        ensures taken { self.new.taken ≡ self.old.taken + 1 }
        ensures line { self.new.line ≡ self.old.line + newlines (byte ∷ []) }
    {
        self.taken += 1;
        if is_end(self.mode, byte) {
            return Ok(self.end());
        }
        let idle = self.text.is_empty() && is_between(self.mode, byte);
        self.mode = mode_after(self.mode, byte);
        let line = self.line;
        if byte == b'\n' {
            self.line += 1;
        }
        if self.over || idle {
            return Ok(None);
        }
        self.grow(byte, line)
    }

    // Puts the plain bytes at the front of a part, as far as the text has room for them, onto
    // a begun statement, and answers how many they are.
    fn extend(&mut self, part: &[u8]) -> Result<usize, NoMemory>
        requires works { self.old.failed ≡ false }
        requires room { self.old.taken + length part.now < 2 ^ 63 }
        ensures quiet { IfOk result (λ len. IsQuiet self.old (take len part.now) self.new) }
        ensures within { IfOk result (λ len. len ≤ length part.now) }
        ensures works { OnOk result (self.new.failed ≡ false) }
        ensures failed { OnErr result (self.new.failed ≡ true) }
        ensures count { IfOk result (λ len. self.new.taken ≡ self.old.taken + len) }
        ensures none_taken { OnErr result (self.new.taken ≡ self.old.taken) }
        ensures line { self.new.line ≡ self.old.line }
    {
        if self.over || self.text.is_empty() {
            return Ok(0);
        }
        let room = STATEMENT_LIMIT - self.text.len();
        let front = &part[..part.len().min(room)];
        let len = plain_len(self.mode, front);
        if self.text.extend_from_slice(&front[..len]).is_err() {
            self.failed = true;
            return Err(AllocError);
        }
        self.taken += len as u64;
        Ok(len)
    }

    // Puts a byte of a statement onto its text. The line is the one on which the byte stands.
    fn grow(&mut self, byte: u8, line: u64) -> Result<Option<Piece>, NoMemory>
        ensures cut { IfOk result (λ cut. cut ≡ (if is_full self.old
            then Some (Piece.TooLong (if is_idle self.old then line else self.old.start))
            else None)) }
        ensures after { OnOk result (self.new ≡ grown_on self.old byte line) }
        ensures failed { OnErr result (self.new.failed ≡ true) }
        ensures taken { self.new.taken ≡ self.old.taken }
        ensures line { self.new.line ≡ self.old.line }
    {
        if self.text.is_empty() {
            self.start = line;
        }
        if self.text.len() == STATEMENT_LIMIT {
            self.text = Vec::new(self.alloc);
            self.over = true;
            return Ok(Some(Piece::TooLong { line: self.start }));
        }
        match put(&mut self.text, byte) {
            Ok(()) => Ok(None),
            Err(refused) => {
                self.failed = true;
                Err(refused)
            }
        }
    }
}
