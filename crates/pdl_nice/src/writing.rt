//! Writes what tokens become.

ghost use Rattle.std.specs.Prelude.{◌≡◌, ◌+◌, ◌-◌, ◌≤◌, ◌<◌, ◌++◌, length, drop, map, slice_index_or, true, IfOk, IfSome, OnOk};
ghost use Rattle.pdl_lex.specs.Written.{written};
ghost use Rattle.pdl_nice.specs.declared.looks.Look.TheVariants.{Opens};
ghost use Rattle.pdl_nice.specs.Looks.{begins_nice};
ghost use Rattle.pdl_nice.specs.Ends.{AreEnds, token_look};
ghost use Rattle.pdl_nice.specs.Adding.{AllLieIn, shown};
ghost use Rattle.pdl_nice.specs.Writing.{end_before, token_there, head, Writes, WritesNice, text_behind, value_text, values_text, AllValues};

use crate::looks::{Before, Look, before_of, begins_nice, between};
use crate::pattern::{arguments, push};
use pdl_lex::Token;
use std::alloc::AllocError;

/// Where the token before a place ends, and 0 at the first place.
pub fn end_before(tokens: &[Token], at: usize) -> usize
    requires { at ≤ length tokens.now }
    ensures { result ≡ end_before 0 tokens.now at }
{
    if at == 0 {
        return 0;
    }
    tokens[at - 1].to as usize
}

// Writes the gap before a token.
fn write_gap(text: &[u8], tokens: &[Token], at: usize, into: &mut Vec<u8>) -> Result<(), AllocError>
    requires { at < length tokens.now }
    ensures { OnOk result
        (into.new.items ≡ into.old.items ++ (token_there text.now tokens.now at).gap) }
{
    let start = end_before(tokens, at);
    let token = tokens[at];
    into.extend_from_slice(between(text, start, token.from as usize))?;
    Ok(())
}

// Writes the bytes of a token.
fn write_bytes(
    text: &[u8],
    tokens: &[Token],
    at: usize,
    into: &mut Vec<u8>,
) -> Result<(), AllocError>
    requires { at < length tokens.now }
    ensures { OnOk result
        (into.new.items ≡ into.old.items ++ (token_there text.now tokens.now at).bytes) }
{
    let token = tokens[at];
    into.extend_from_slice(between(text, token.from as usize, token.to as usize))?;
    Ok(())
}

// Writes the name of the call and what stands before its pattern.
fn write_head(before: Before, into: &mut Vec<u8>) -> Result<(), AllocError>
    ensures { OnOk result (into.new.items ≡ into.old.items ++ head before) }
{
    match before {
        Before::Name => into.extend_from_slice(b"->nice(\"")?,
        Before::Arrow | Before::Other => into.extend_from_slice(b"nice(\"")?,
    }
    Ok(())
}

// Writes a nice part whose bracket stands at a place, and answers the place behind it; nothing
// where it becomes nothing. The places of its expressions are put behind others, and taken away.
#[cycle(writing)]
fn write_nice(
    text: &[u8],
    tokens: &[Token],
    looks: &[Look],
    ends: &[u32],
    at: usize,
    before: Before,
    values: &mut Vec<(usize, usize)>,
    into: &mut Vec<u8>,
) -> Result<Option<usize>, AllocError>
    requires within { at < length tokens.now }
    requires looks { looks.now ≡ map (token_look text.now) tokens.now }
    requires as_many { length ends.now ≡ length looks.now }
    requires known { AreEnds looks.now ends.now at }
    requires begins { begins_nice before (slice_index_or looks.now at Opens) ≡ true }
    ensures written { IfOk result (λ end. WritesNice end (written text.now 0 tokens.now) before at
        into.old.items into.new.items) }
    ensures within { IfOk result (λ end.
        IfSome end (λ place. (at < place) × (place ≤ length tokens.now))) }
    ensures kept { IfOk result (λ end. IfSome end (λ _. values.new.items ≡ values.old.items)) }
{
    write_gap(text, tokens, at, into)?;
    write_head(before, into)?;
    let first = values.len();
    let Some(close) = arguments(looks, ends, at + 1, into, values)? else {
        return Ok(None);
    };
    push(b'"', into)?;
    if !write_values(
        text,
        tokens,
        looks,
        ends,
        at + 1,
        close,
        first,
        values,
        into,
    )? {
        return Ok(None);
    }
    push(b')', into)?;
    values.truncate(first);
    Ok(Some(close + 1))
}

// Writes the expressions at the places from the first of them on, each behind a comma; false where
// one becomes nothing.
#[cycle(writing)]
fn write_values(
    text: &[u8],
    tokens: &[Token],
    looks: &[Look],
    ends: &[u32],
    from: usize,
    to: usize,
    first: usize,
    values: &mut Vec<(usize, usize)>,
    into: &mut Vec<u8>,
) -> Result<bool, AllocError>
    requires within { to ≤ length tokens.now }
    requires looks { looks.now ≡ map (token_look text.now) tokens.now }
    requires as_many { length ends.now ≡ length looks.now }
    requires known { AreEnds looks.now ends.now from }
    requires lie { AllLieIn from to (drop first values.old.items) }
    requires are { AllValues (shown (written text.now 0 tokens.now) (drop first values.old.items)) }
    ensures written { IfOk result (λ found. Writes found into.old.items into.new.items
        (values_text (shown (written text.now 0 tokens.now) (drop first values.old.items)))) }
    ensures kept { IfOk result (λ found. found ≡ true → values.new.items ≡ values.old.items) }
{
    let end = values.len();
    for j in first..end {
        let (start, behind) = values[j];
        push(b',', into)?;
        if !write_value(
            text,
            &tokens[..behind],
            &looks[..behind],
            &ends[..behind],
            start,
            values,
            into,
        )? {
            return Ok(false);
        }
    }
    Ok(true)
}

// Writes an expression, which goes from a place to the last token, without the gap before it.
#[cycle(writing)]
fn write_value(
    text: &[u8],
    tokens: &[Token],
    looks: &[Look],
    ends: &[u32],
    from: usize,
    values: &mut Vec<(usize, usize)>,
    into: &mut Vec<u8>,
) -> Result<bool, AllocError>
    requires within { from < length tokens.now }
    requires looks { looks.now ≡ map (token_look text.now) tokens.now }
    requires as_many { length ends.now ≡ length looks.now }
    requires known { AreEnds looks.now ends.now from }
    ensures written { IfOk result (λ found. Writes found into.old.items into.new.items
        (value_text (drop from (written text.now 0 tokens.now)))) }
    ensures kept { IfOk result (λ found. found ≡ true → values.new.items ≡ values.old.items) }
{
    write_bytes(text, tokens, from, into)?;
    let before = before_of(looks[from]);
    write_tokens(text, tokens, looks, ends, from + 1, before, values, into)
}

/// Writes what the tokens from a place on become, each behind its gap; false where they become
/// nothing. What stands before the first of them is given, and so is, for each bracket, the place
/// behind its closing one. It looks at each token a fixed number of times, and calls itself
/// at most as deep as brackets are open.
#[cycle(writing)]
pub fn write_tokens(
    text: &[u8],
    tokens: &[Token],
    looks: &[Look],
    ends: &[u32],
    from: usize,
    before: Before,
    values: &mut Vec<(usize, usize)>,
    into: &mut Vec<u8>,
) -> Result<bool, AllocError>
    requires within { from ≤ length tokens.now }
    requires looks { looks.now ≡ map (token_look text.now) tokens.now }
    requires as_many { length ends.now ≡ length looks.now }
    requires known { AreEnds looks.now ends.now from }
    ensures written { IfOk result (λ found. Writes found into.old.items into.new.items
        (text_behind before (drop from (written text.now 0 tokens.now)))) }
    ensures kept { IfOk result (λ found. found ≡ true → values.new.items ≡ values.old.items) }
{
    let mut at = from;
    let mut behind = before;
    while at < tokens.len() {
        if begins_nice(behind, looks[at]) {
            let Some(end) = write_nice(text, tokens, looks, ends, at, behind, values, into)? else {
                return Ok(false);
            };
            at = end;
            behind = Before::Other;
        } else {
            write_gap(text, tokens, at, into)?;
            write_bytes(text, tokens, at, into)?;
            behind = before_of(looks[at]);
            at += 1;
        }
    }
    Ok(true)
}
