//! Bytes as a line of a data file writes them: `\\n`, `\\t`, `\\r`, `\\\\` and `\\xff` for any
//! other byte.

/// Puts the bytes that a piece of text stands for behind these. Nothing where it isn't written so,
/// or memory has run out.
pub fn unescape(piece: &[u8], bytes: &mut Vec<u8>) -> Option<()> {
    let mut rest = piece;
    for _ in 0..piece.len() {
        if rest.is_empty() {
            break;
        }
        let (byte, behind) = next_byte(rest)?;
        bytes.push(byte).ok()?;
        rest = behind;
    }
    Some(())
}

// The byte that a text begins with, as it is or escaped, and what stands behind it.
fn next_byte(text: &[u8]) -> Option<(u8, &[u8])> {
    match text {
        [b'\\', b'x', high, low, behind @ ..] => {
            Some((digit(*high)?.saturating_mul(16) | digit(*low)?, behind))
        }
        [b'\\', letter, behind @ ..] => Some((named(*letter)?, behind)),
        [byte, behind @ ..] => Some((*byte, behind)),
        [] => None,
    }
}

// The byte of an escape of one letter.
fn named(letter: u8) -> Option<u8> {
    match letter {
        b'n' => Some(b'\n'),
        b't' => Some(b'\t'),
        b'r' => Some(b'\r'),
        b'\\' => Some(b'\\'),
        _ => None,
    }
}

fn digit(letter: u8) -> Option<u8> {
    match letter {
        b'0'..=b'9' => Some(letter - b'0'),
        b'a'..=b'f' => Some(letter - b'a' + 10),
        _ => None,
    }
}
