//! The plain text of a statement.

ghost use Rattle.std.specs.Prelude.{◌≡◌, ◌≤◌, ◌++◌, [], length, map, Ok, Err, IfErr, IfOk, IfSome, OnOk};
ghost use Rattle.pdl_lex.specs.Limits.{statement_limit};
ghost use Rattle.pdl_lex.specs.Tokens.{toks};
ghost use Rattle.pdl_lex.specs.Written.{written, end_behind};
ghost use Rattle.pdl_nice.specs.Ends.{AreEnds, token_look};
ghost use Rattle.pdl_nice.specs.Reading.{plain_tokens};
ghost use Rattle.pdl_nice.specs.Plain.{text_or, plain_of, refusal_of};

use crate::NiceFault;
use crate::brackets::closing;
use crate::looks::{Before, Look, between, goes_deep, read_looks};
use crate::writing::{end_before, write_tokens};
use pdl_lex::{STATEMENT_LIMIT, Token, tokens_are_spans};
use std::alloc::{AllocError, Global};

/// Lists whose room is kept from one text to the next. What stands in them is of no account.
#[derive(Drop)]
pub struct Rooms {
    looks: Vec<Look>,
    ends: Vec<u32>,
    values: Vec<(usize, usize)>,
}

impl Rooms {
    /// Lists without room.
    pub fn new(alloc: Global) -> Rooms {
        Rooms {
            looks: Vec::new(alloc),
            ends: Vec::new(alloc),
            values: Vec::new(alloc),
        }
    }
}

// Writes what stands behind the last token.
fn write_end(text: &[u8], tokens: &[Token], into: &mut Vec<u8>) -> Result<(), AllocError>
    ensures { OnOk result
        (into.new.items ≡ into.old.items ++ end_behind text.now 0 tokens.now) }
{
    let end = end_before(tokens, tokens.len());
    into.extend_from_slice(between(text, end, text.len()))?;
    Ok(())
}

// Writes what tokens become, where no more than 64 brackets are open at once.
fn write_flat(
    text: &[u8],
    tokens: &[Token],
    looks: &[Look],
    ends: &[u32],
    values: &mut Vec<(usize, usize)>,
    into: &mut Vec<u8>,
) -> Result<(), NiceFault>
    requires looks { looks.now ≡ map (token_look text.now) tokens.now }
    requires as_many { length ends.now ≡ length looks.now }
    requires known { AreEnds looks.now ends.now 0 }
    requires empty { into.old.items ≡ [] }
    ensures ok { OnOk result (text_or (end_behind text.now 0 tokens.now)
        (plain_tokens (written text.now 0 tokens.now)) ≡ Ok into.new.items) }
    ensures within { OnOk result (length into.new.items ≤ statement_limit) }
    ensures refused { IfErr result (λ fault. IfSome (refusal_of fault) (λ refusal.
        text_or (end_behind text.now 0 tokens.now)
        (plain_tokens (written text.now 0 tokens.now)) ≡ Err refusal)) }
{
    if !write_tokens(text, tokens, looks, ends, 0, Before::Other, values, into)? {
        return Err(NiceFault::Syntax);
    }
    write_end(text, tokens, into)?;
    if into.len() > STATEMENT_LIMIT {
        return Err(NiceFault::TooLong);
    }
    Ok(())
}

/// The plain text of a text with these tokens, in a list whose room is kept; what stood in it goes.
/// It goes over the tokens a fixed number of times, and calls are nested at most as deep as brackets
/// are open, 64.
pub fn write_plain(
    text: &[u8],
    tokens: &[Token],
    rooms: &mut Rooms,
    into: &mut Vec<u8>,
) -> Result<(), NiceFault>
    requires tokens { toks text.now ≡ Ok tokens.now }
    requires small { length text.now ≤ statement_limit }
    ensures ok { OnOk result (plain_of text.now tokens.now ≡ Ok into.new.items) }
    ensures within { OnOk result (length into.new.items ≤ statement_limit) }
    ensures refused { IfErr result (λ fault. IfSome (refusal_of fault) (λ refusal.
        plain_of text.now tokens.now ≡ Err refusal)) }
{
    tokens_are_spans();
    into.clear();
    rooms.values.clear();
    read_looks(text, tokens, &mut rooms.looks)?;
    if goes_deep(&rooms.looks) {
        return Err(NiceFault::TooDeep);
    }
    closing(&rooms.looks, &mut rooms.ends)?;
    write_flat(
        text,
        tokens,
        &rooms.looks,
        &rooms.ends,
        &mut rooms.values,
        into,
    )
}

/// The plain text of a text with these tokens: each nice part, as `(1:3)` behind a name or `->`, is
/// the call of `nice` that it stands for. The tokens are those that `tokens` answers for this text.
///
/// `TooDeep` comes first, then `Syntax`, then `TooLong`.
pub fn plain(alloc: Global, text: &[u8], tokens: &[Token]) -> Result<Vec<u8>, NiceFault>
    requires tokens { toks text.now ≡ Ok tokens.now }
    requires small { length text.now ≤ statement_limit }
    ensures ok { IfOk result (λ plain. plain_of text.now tokens.now ≡ Ok plain.items) }
    ensures within { IfOk result (λ plain. length plain.items ≤ statement_limit) }
    ensures refused { IfErr result (λ fault. IfSome (refusal_of fault) (λ refusal.
        plain_of text.now tokens.now ≡ Err refusal)) }
{
    let mut rooms = Rooms::new(alloc);
    let mut into = Vec::new(alloc);
    write_plain(text, tokens, &mut rooms, &mut into)?;
    Ok(into)
}
