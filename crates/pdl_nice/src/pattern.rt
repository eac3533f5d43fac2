//! Writes the pattern of a nice part, and finds where its expressions stand.

ghost use Rattle.std.specs.Prelude.{◌≡◌, ◌+◌, ◌≤◌, ◌<◌, ◌++◌, ◌∷◌, [], length, suc, IfOk, IfSome, OnOk, codes};
ghost use Rattle.pdl_nice.specs.Adding.{AddsOf, AddsBehind, TellsInner, ends_value, third_at, second_at};
ghost use Rattle.pdl_nice.specs.Nice.{is_open, is_star};
ghost use Rattle.pdl_nice.specs.Reading.{is_colon, is_comma, part_of, simple_of, argument_at, arguments_in};
ghost use Rattle.pdl_nice.specs.Ends.{AreEnds};

use crate::brackets::bar;
use crate::looks::Look;
use std::alloc::AllocError;

fn is_open(look: Look) -> bool
    ensures { result ≡ is_open look }
{
    match look {
        Look::Opens => true,
        _ => false,
    }
}

fn is_star(look: Look) -> bool
    ensures { result ≡ is_star look }
{
    match look {
        Look::Star => true,
        _ => false,
    }
}

fn is_colon(look: Look) -> bool
    ensures { result ≡ is_colon look }
{
    match look {
        Look::Colon => true,
        _ => false,
    }
}

fn is_comma(look: Look) -> bool
    ensures { result ≡ is_comma look }
{
    match look {
        Look::Comma => true,
        _ => false,
    }
}

/// Puts a byte behind what is written.
pub fn push(byte: u8, into: &mut Vec<u8>) -> Result<(), AllocError>
    ensures { OnOk result (into.new.items ≡ into.old.items ++ byte ∷ []) }
{
    into.push(byte).map_err(AllocError::from)?;
    Ok(())
}

fn push_value(
    from: usize,
    to: usize,
    into: &mut Vec<u8>,
    values: &mut Vec<(usize, usize)>,
) -> Result<(), AllocError>
    ensures pattern { OnOk result (into.new.items ≡ into.old.items ++ 35 ∷ []) }
    ensures values { OnOk result (values.new.items ≡ values.old.items ++ (from, to) ∷ []) }
{
    into.push(b'#').map_err(AllocError::from)?;
    values.push((from, to)).map_err(AllocError::from)?;
    Ok(())
}

fn push_dropped(
    from: usize,
    to: usize,
    into: &mut Vec<u8>,
    values: &mut Vec<(usize, usize)>,
) -> Result<(), AllocError>
    ensures pattern { OnOk result (into.new.items ≡ into.old.items ++ codes "(#)") }
    ensures values { OnOk result (values.new.items ≡ values.old.items ++ (from, to) ∷ []) }
{
    into.extend_from_slice(b"(#)")?;
    values.push((from, to)).map_err(AllocError::from)?;
    Ok(())
}

// A part between colons: nothing, or an expression, whose places are put behind the others. False
// where it is neither.
fn part(
    looks: &[Look],
    from: usize,
    to: usize,
    into: &mut Vec<u8>,
    values: &mut Vec<(usize, usize)>,
) -> Result<bool, AllocError>
    requires in_order { from ≤ to }
    requires within { to ≤ length looks.now }
    ensures { IfOk result (λ found. AddsOf part_of found looks.now from to
        into.old.items into.new.items values.old.items values.new.items) }
{
    if from == to {
        return Ok(true);
    }
    if is_star(looks[from]) {
        return Ok(false);
    }
    push_value(from, to, into, values)?;
    Ok(true)
}

// Whether the tokens between two places, in which each bracket is closed, are just a value in round
// brackets.
fn is_dropped(looks: &[Look], ends: &[u32], from: usize, to: usize) -> bool
    requires in_order { from < to }
    requires within { to ≤ length looks.now }
    requires as_many { length ends.now ≡ length looks.now }
    requires known { AreEnds looks.now ends.now from }
    ensures { TellsInner result looks.now from to }
{
    if !is_open(looks[from]) {
        return false;
    }
    match bar(looks, ends, from + 1) {
        None => false,
        Some(at) => {
            if at != to - 1 {
                return false;
            }
            is_value_in_brackets(looks, from + 1, at)
        }
    }
}

// Whether a bracket that closes stands at a place, and a value before it.
fn is_value_in_brackets(looks: &[Look], from: usize, at: usize) -> bool
    requires within { at < length looks.now }
    ensures { result ≡ ends_value looks.now from at }
{
    from < at && looks[at] == Look::Shuts && looks[from] != Look::Star
}

// An argument without a colon.
fn simple(
    looks: &[Look],
    ends: &[u32],
    from: usize,
    to: usize,
    into: &mut Vec<u8>,
    values: &mut Vec<(usize, usize)>,
) -> Result<bool, AllocError>
    requires in_order { from ≤ to }
    requires within { to ≤ length looks.now }
    requires as_many { length ends.now ≡ length looks.now }
    requires known { AreEnds looks.now ends.now from }
    ensures { IfOk result (λ found. AddsOf simple_of found looks.now from to
        into.old.items into.new.items values.old.items values.new.items) }
{
    if from == to {
        return Ok(true);
    }
    if is_star(looks[from]) {
        push(b'*', into)?;
        return part(looks, from + 1, to, into, values);
    }
    if is_dropped(looks, ends, from, to) {
        push_dropped(from + 1, to - 1, into, values)?;
        return Ok(true);
    }
    push_value(from, to, into, values)?;
    Ok(true)
}

// The third part of an argument, which is an expression, and the place of the comma or bracket
// behind it.
fn third(
    looks: &[Look],
    ends: &[u32],
    from: usize,
    into: &mut Vec<u8>,
    values: &mut Vec<(usize, usize)>,
) -> Result<Option<usize>, AllocError>
    requires within { from ≤ length looks.now }
    requires as_many { length ends.now ≡ length looks.now }
    requires known { AreEnds looks.now ends.now from }
    ensures read { IfOk result (λ end. AddsBehind third_at end looks.now from
        into.old.items into.new.items values.old.items values.new.items) }
    ensures within { IfOk result (λ end.
        IfSome end (λ at. (from ≤ at) × (at < length looks.now))) }
{
    let Some(at) = bar(looks, ends, from) else {
        return Ok(None);
    };
    if is_colon(looks[at]) {
        return Ok(None);
    }
    if from == at {
        return Ok(None);
    }
    if is_star(looks[from]) {
        return Ok(None);
    }
    push_value(from, at, into, values)?;
    Ok(Some(at))
}

// The parts of an argument behind its first colon.
fn second(
    looks: &[Look],
    ends: &[u32],
    from: usize,
    into: &mut Vec<u8>,
    values: &mut Vec<(usize, usize)>,
) -> Result<Option<usize>, AllocError>
    requires within { from ≤ length looks.now }
    requires as_many { length ends.now ≡ length looks.now }
    requires known { AreEnds looks.now ends.now from }
    ensures read { IfOk result (λ end. AddsBehind second_at end looks.now from
        into.old.items into.new.items values.old.items values.new.items) }
    ensures within { IfOk result (λ end.
        IfSome end (λ at. (from ≤ at) × (at < length looks.now))) }
{
    let Some(at) = bar(looks, ends, from) else {
        return Ok(None);
    };
    if !part(looks, from, at, into, values)? {
        return Ok(None);
    }
    if !is_colon(looks[at]) {
        return Ok(Some(at));
    }
    push(b':', into)?;
    third(looks, ends, at + 1, into, values)
}

// An argument, and the place of the comma or bracket behind it.
fn argument(
    looks: &[Look],
    ends: &[u32],
    from: usize,
    into: &mut Vec<u8>,
    values: &mut Vec<(usize, usize)>,
) -> Result<Option<usize>, AllocError>
    requires within { from ≤ length looks.now }
    requires as_many { length ends.now ≡ length looks.now }
    requires known { AreEnds looks.now ends.now from }
    ensures read { IfOk result (λ end. AddsBehind argument_at end looks.now from
        into.old.items into.new.items values.old.items values.new.items) }
    ensures within { IfOk result (λ end.
        IfSome end (λ at. (from ≤ at) × (at < length looks.now))) }
{
    let Some(at) = bar(looks, ends, from) else {
        return Ok(None);
    };
    if !is_colon(looks[at]) {
        if !simple(looks, ends, from, at, into, values)? {
            return Ok(None);
        }
        return Ok(Some(at));
    }
    if !part(looks, from, at, into, values)? {
        return Ok(None);
    }
    push(b':', into)?;
    second(looks, ends, at + 1, into, values)
}

/// The arguments of a nice part behind its bracket: their patterns, joined by commas, are put
/// behind what is written, and the places of their expressions behind other places. The place of
/// the closing bracket, or nothing where an argument is of no form or the bracket isn't closed.
pub fn arguments(
    looks: &[Look],
    ends: &[u32],
    from: usize,
    into: &mut Vec<u8>,
    values: &mut Vec<(usize, usize)>,
) -> Result<Option<usize>, AllocError>
    requires within { from ≤ length looks.now }
    requires as_many { length ends.now ≡ length looks.now }
    requires known { AreEnds looks.now ends.now from }
    ensures read { IfOk result (λ end. AddsBehind arguments_in end looks.now from
        into.old.items into.new.items values.old.items values.new.items) }
    ensures within { IfOk result (λ end.
        IfSome end (λ at. (from ≤ at) × (at < length looks.now))) }
{
    let mut at = from;
    'argument: loop {
        let Some(end) = argument(looks, ends, at, into, values)? else {
            return Ok(None);
        };
        if !is_comma(looks[end]) {
            return Ok(Some(end));
        }
        push(b',', into)?;
        at = end + 1;
    }
}
