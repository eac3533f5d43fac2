ghost use Rattle.std.specs.Prelude.{◌≡◌, ℕ, ◌+◌, ◌^◌, ◌<◌, false, List, ◌++◌, length, sum_by, flat_map, option_to_list, IfOk, OnOk};
ghost use Rattle.pdl_lex.specs.Pieces.{pieces, to_come};

use crate::{NoMemory, Piece, StatementCutter};
use std::alloc::Global;

/// The statements of a script that comes in parts: however its bytes are cut into parts, they
/// are those of the whole.
pub fn cut_parts(alloc: Global, parts: &[&[u8]]) -> Result<Vec<Piece>, NoMemory>
    requires { sum_by (λ part. length part.now) parts.now < 2 ^ 63 }
    ensures { IfOk result (λ found. found.items ≡ pieces (flat_map (λ part. part.now) parts.now)) }
{
    let mut cutter = StatementCutter::new(alloc);
    let mut found = Vec::new(alloc);
    for part in parts {
        cut_part(&mut cutter, part, &mut found)?;
    }
    put(&mut found, cutter.end())?;
    Ok(found)
}

// Feeds one part to a cutter, and puts its pieces onto those that were found.
fn cut_part(
    cutter: &mut StatementCutter,
    part: &[u8],
    found: &mut Vec<Piece>,
) -> Result<(), NoMemory>
    requires works { cutter.old.failed ≡ false }
    requires room { cutter.old.taken + length part.now < 2 ^ 63 }
    ensures stream { OnOk result ((more : List ℕ) → found.new.items ++ to_come cutter.new more
        ≡ found.old.items ++ to_come cutter.old (part.now ++ more)) }
    ensures works { OnOk result (cutter.new.failed ≡ false) }
    ensures count { OnOk result (cutter.new.taken ≡ cutter.old.taken + length part.now) }
{
    let mut rest = part;
    while !rest.is_empty() {
        let fed = cutter.feed(rest)?;
        rest = &rest[fed.used..];
        put(found, fed.cut)?;
    }
    Ok(())
}

// Puts a piece, if there is one, onto those that were found.
fn put(found: &mut Vec<Piece>, cut: Option<Piece>) -> Result<(), NoMemory>
    ensures { OnOk result (found.new.items ≡ found.old.items ++ option_to_list cut) }
{
    if let Some(piece) = cut {
        found.push(piece)?;
    }
    Ok(())
}
