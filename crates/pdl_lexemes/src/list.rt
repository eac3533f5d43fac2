//! The reader of list literals.

ghost use Rattle.std.specs.Prelude.{◌≡◌, ◌+◌, ◌∷◌, ◌++◌, [], suc, length, IfOk, Some, unwrap_or};
ghost use Rattle.pdl_shape.specs.Shape.{IsDims};
ghost use Rattle.pdl_lexemes.specs.Lists.{shared, with_length};
ghost use Rattle.pdl_lexemes.specs.ReadAnswers.{Gives};
ghost use Rattle.pdl_lexemes.specs.ListReading.{list_reader, list_read, inside_at, filled_at, items_at, item_at, read_part, counted};

use crate::sizes::Sizes;
use crate::{Lexeme, Lexemes, Refusal, sizes};
use std::alloc::{AllocError, Global};

/// A list's dimensions, which are none where it is ragged, and all numbers up to its end.
#[derive(Debug, Drop)]
pub struct Row {
    pub shape: Option<Sizes>,
    pub elems: Vec<i64>,
}

/// The list literal at the front, and what follows it. Its dimensions, or one that is longer by one
/// than it has numbers where it is ragged, are within the limits of an array.
pub fn read<'a>(alloc: Global, tokens: &Lexemes<'a>) -> Result<(Row, Lexemes<'a>), Refusal>
    ensures dims { IfOk result
        (λ x. IsDims (unwrap_or x.0.shape (suc (length x.0.elems.items) ∷ []))) }
    ensures read { Gives (λ x. read_part x.0.shape x.0.elems.items x.1) result
        (list_read tokens.now) }
{
    list(alloc, tokens.len() + 1, Vec::new(alloc), tokens)
}

#[cycle(lists)]
#[tactic(auto, unfolding(crate::specs::ListReading::list_reader))]
fn list<'a>(
    alloc: Global,
    fuel: usize,
    front: Vec<i64>,
    tokens: &Lexemes<'a>,
) -> Result<(Row, Lexemes<'a>), Refusal>
    ensures read { Gives (λ x. read_part x.0.shape x.0.elems.items x.1) result
        (list_reader fuel front.items tokens.now) }
{
    if fuel == 0 {
        return Err(Refusal::Refused);
    }
    let rest = tokens.after(Lexeme::OpenSquare).ok_or(Refusal::Refused)?;
    inside(alloc, fuel - 1, front, &rest)
}

#[cycle(lists)]
#[tactic(auto, unfolding(crate::specs::ListReading::inside_at))]
fn inside<'a>(
    alloc: Global,
    fuel: usize,
    front: Vec<i64>,
    tokens: &Lexemes<'a>,
) -> Result<(Row, Lexemes<'a>), Refusal>
    ensures read { Gives (λ x. read_part x.0.shape x.0.elems.items x.1) result
        (inside_at (list_reader fuel) front.items tokens.now) }
{
    match tokens.after(Lexeme::CloseSquare) {
        None => filled(alloc, fuel, front, tokens),
        Some(rest) => Ok((empty(alloc, front)?, rest)),
    }
}

fn empty(alloc: Global, front: Vec<i64>) -> Result<Row, AllocError>
    ensures { IfOk result (λ r. r ≡ record { shape = Some (0 ∷ []); elems = front }) }
{
    let sizes = Sizes::new(alloc).with(0)?;
    Ok(Row {
        shape: Some(sizes),
        elems: front,
    })
}

#[cycle(lists)]
fn filled<'a>(
    alloc: Global,
    fuel: usize,
    front: Vec<i64>,
    tokens: &Lexemes<'a>,
) -> Result<(Row, Lexemes<'a>), Refusal>
    ensures read { Gives (λ x. read_part x.0.shape x.0.elems.items x.1) result
        (filled_at (list_reader fuel) front.items tokens.now) }
{
    let (first, rest) = item(alloc, fuel, front, tokens)?;
    let (count, row, rest) = items(alloc, fuel, first, &rest)?;
    let rest = rest.after(Lexeme::CloseSquare).ok_or(Refusal::Refused)?;
    Ok((closed(count, row)?, rest))
}

fn closed(count: u32, row: Row) -> Result<Row, AllocError>
    ensures { IfOk result
        (λ r. (r.shape ≡ with_length count row.shape) × (r.elems.items ≡ row.elems.items)) }
{
    let Row { shape, elems } = row;
    Ok(Row {
        shape: sizes::with_length(count, shape)?,
        elems,
    })
}

#[cycle(lists)]
#[tactic(auto, unfolding(crate::specs::ListReading::items_at))]
fn items<'a>(
    alloc: Global,
    fuel: usize,
    first: Row,
    tokens: &Lexemes<'a>,
) -> Result<(u32, Row, Lexemes<'a>), Refusal>
    ensures read { Gives (λ x. counted x.0 (read_part x.1.shape x.1.elems.items x.2)) result
        (items_at (list_reader fuel) (length tokens.now) 1
        (read_part first.shape first.elems.items tokens.now)) }
{
    let mut count = 1;
    let mut row = first;
    let mut rest = tokens.copy();
    for _ in 0..tokens.len() {
        match rest.after(Lexeme::Comma) {
            None => return Ok((count, row, rest)),
            Some(after) => {
                let Row { shape, elems } = row;
                let (next, after) = item(alloc, fuel, elems, &after)?;
                row = joined(shape, next);
                count += 1;
                rest = after;
            }
        }
    }
    Ok((count, row, rest))
}

fn joined(shape: Option<Sizes>, next: Row) -> Row
    ensures shape { result.shape ≡ shared shape next.shape }
    ensures elems { result.elems.items ≡ next.elems.items }
{
    let Row {
        shape: other,
        elems,
    } = next;
    Row {
        shape: sizes::shared(shape, other),
        elems,
    }
}

#[cycle(lists)]
#[tactic(auto, unfolding(crate::specs::ListReading::item_at))]
fn item<'a>(
    alloc: Global,
    fuel: usize,
    front: Vec<i64>,
    tokens: &Lexemes<'a>,
) -> Result<(Row, Lexemes<'a>), Refusal>
    ensures read { Gives (λ x. read_part x.0.shape x.0.elems.items x.1) result
        (item_at (list_reader fuel) front.items tokens.now) }
{
    if let Some(_) = tokens.after(Lexeme::OpenSquare) {
        return list(alloc, fuel, front, tokens);
    }
    let (z, rest) = tokens.signed_number().ok_or(Refusal::Refused)?;
    Ok((number(alloc, front, z)?, rest))
}

fn number(alloc: Global, mut front: Vec<i64>, z: i64) -> Result<Row, AllocError>
    ensures { IfOk result
        (λ r. (r.shape ≡ Some []) × (r.elems.items ≡ front.items ++ z ∷ [])) }
{
    front.push(z).map_err(AllocError::from)?;
    Ok(Row {
        shape: Some(Sizes::new(alloc)),
        elems: front,
    })
}
