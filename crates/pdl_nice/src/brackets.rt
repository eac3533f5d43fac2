//! Finds where brackets are closed, and where arguments and parts end.

ghost use Rattle.std.specs.Prelude.{◌≡◌, ◌+◌, ◌≤◌, ◌<◌, ◌∷◌, [], length, drop, IfSome, OnOk};
ghost use Rattle.pdl_lex.specs.Limits.{statement_limit};
ghost use Rattle.pdl_nice.specs.Nice.{is_bar};
ghost use Rattle.pdl_nice.specs.Ends.{close_len, behind, opened, closed, AreEnds, bar_len, further};

use crate::looks::{Look, Side};
use std::alloc::AllocError;

/// For each token that opens a bracket, the place behind the one that closes it, and 0 for each
/// other token and where none closes it. It looks at each token twice at most.
pub fn closing(looks: &[Look], into: &mut Vec<u32>) -> Result<(), AllocError>
    requires few { length looks.now ≤ statement_limit }
    ensures ok { OnOk result ((length into.new.items ≡ length looks.now)
        × AreEnds looks.now into.new.items 0) }
{
    into.clear();
    into.resize(looks.len(), 0)?;
    for i in (0..looks.len()).rev() {
        if let Some(side) = opened(looks[i]) {
            into[i] = end_behind(looks, into, i + 1, side);
        }
    }
    Ok(())
}

fn opened(look: Look) -> Option<Side>
    ensures { result ≡ opened look }
{
    match look {
        Look::Opens => Some(Side::Round),
        Look::OpensSquare => Some(Side::Square),
        _ => None,
    }
}

// The place behind the bracket that closes the one that was opened just before a place, where the
// ends from there on are known.
fn end_behind(looks: &[Look], ends: &[u32], from: usize, side: Side) -> u32
    requires few { length looks.now ≤ statement_limit }
    requires within { from ≤ length looks.now }
    requires as_many { length ends.now ≡ length looks.now }
    requires known { AreEnds looks.now ends.now from }
    ensures { result ≡ behind from (close_len (side ∷ []) (drop from looks.now)) }
{
    let mut at = from;
    while at < looks.len() {
        let look = looks[at];
        if let Some(_) = opened(look) {
            let end = ends[at] as usize;
            if end == 0 {
                return 0;
            }
            at = end;
        } else if let Some(kind) = closed(look) {
            return if kind == side { at as u32 + 1 } else { 0 };
        } else {
            at += 1;
        }
    }
    0
}

fn closed(look: Look) -> Option<Side>
    ensures { result ≡ closed look }
{
    match look {
        Look::Shuts => Some(Side::Round),
        Look::ShutsSquare => Some(Side::Square),
        _ => None,
    }
}

fn is_bar(look: Look) -> bool
    ensures { result ≡ is_bar look }
{
    match look {
        Look::Comma | Look::Colon | Look::Shuts => true,
        _ => false,
    }
}

/// The place of the first comma, colon or `)` from a place on that is outside inner brackets. It
/// looks at no token inside them.
pub fn bar(looks: &[Look], ends: &[u32], from: usize) -> Option<usize>
    requires within { from ≤ length looks.now }
    requires as_many { length ends.now ≡ length looks.now }
    requires known { AreEnds looks.now ends.now from }
    ensures at { result ≡ further from (bar_len [] (drop from looks.now)) }
    ensures within { IfSome result (λ at. (from ≤ at) × (at < length looks.now)) }
{
    let mut at = from;
    while at < looks.len() {
        let look = looks[at];
        if is_bar(look) {
            return Some(at);
        }
        if let Some(_) = opened(look) {
            let end = ends[at] as usize;
            if end == 0 {
                return None;
            }
            at = end;
        } else if let Some(_) = closed(look) {
            return None;
        } else {
            at += 1;
        }
    }
    None
}
