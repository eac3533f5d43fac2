//! `nice TEXT => PLAIN TEXT`, the text with its nice slices written as calls, or the fault. A plain
//! text of more than 200 bytes is said by its length.

ghost use Rattle.std.specs.Prelude.{◌≡◌, ◌≤◌, length, Ok};
ghost use Rattle.pdl_lex.specs.Tokens.{toks};

use crate::answer::Answer;
use crate::cursor::Cursor;
use crate::tokens::say_text;
use pdl_lex::{Token, tokens};
use pdl_nice::plain;

/// The plain text of a line's text.
pub fn nice_answer(line: &mut Cursor<'_>, answer: &mut Answer) -> Option<()> {
    let text = line.short_text()?;
    match tokens(line.alloc, &text) {
        Ok(found) => {
            say_plain(&text, &found, answer);
            Some(())
        }
        Err(_) => None,
    }
}

fn say_plain(text: &[u8], found: &[Token], answer: &mut Answer)
    requires tokens { toks text.now ≡ Ok found.now }
    requires small { length text.now ≤ 65536 }
{
    match plain(answer.alloc, text, found) {
        Ok(plain) => say_text(answer, &plain),
        Err(fault) => answer.debug(&fault),
    }
}
