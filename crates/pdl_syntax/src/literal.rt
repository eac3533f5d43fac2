//! List literals as arrays.

ghost use Rattle.std.specs.Prelude.{◌≡◌, ◌∷◌, [], suc, length, IfOk, unwrap_or};
ghost use Rattle.pdl_shape.specs.Shape.{IsDims};
ghost use Rattle.pdl_lexemes.specs.ReadAnswers.{Gives};
ghost use Rattle.pdl_lexemes.specs.Lists.{type_of};
ghost use Rattle.pdl_syntax.specs.Grammar.{literal_of};
ghost use Rattle.pdl_syntax.specs.ExpressionReading.{literal_at, round_list_at};
ghost use Rattle.pdl_syntax.specs.Readers.{with_tree};
ghost use Rattle.pdl_syntax.specs.TreeOf.{tree_of};

use crate::tree::Expr;
use pdl_buf::{Elements, Made};
use pdl_elem::Ty;
use pdl_lexemes::list::Row;
use pdl_lexemes::{LARGEST_LONG, Lexeme, Lexemes, Refusal, list};
use pdl_shape::{Dims, dims_within};
use std::alloc::{AllocError, Global};

/// A list literal behind `pdl`, in round brackets or without.
pub fn literal<'a>(alloc: Global, tokens: &Lexemes<'a>) -> Result<(Expr, Lexemes<'a>), Refusal>
    ensures read { Gives with_tree result (literal_at tokens.now) }
{
    match tokens.after(Lexeme::Open) {
        None => {
            let (row, rest) = list::read(alloc, tokens)?;
            Ok((list_expr(alloc, row)?, rest))
        }
        Some(inside) => round_literal(alloc, &inside),
    }
}

fn round_literal<'a>(alloc: Global, tokens: &Lexemes<'a>) -> Result<(Expr, Lexemes<'a>), Refusal>
    ensures read { Gives with_tree result (round_list_at tokens.now) }
{
    let (row, rest) = list::read(alloc, tokens)?;
    let rest = rest.after(Lexeme::Close).ok_or(Refusal::Refused)?;
    Ok((list_expr(alloc, row)?, rest))
}

fn list_expr(alloc: Global, row: Row) -> Result<Expr, AllocError>
    requires { IsDims (unwrap_or row.shape (suc (length row.elems.items) ∷ [])) }
    ensures { IfOk result (λ e. tree_of e ≡ literal_of row.shape row.elems.items) }
{
    let Row { shape, elems } = row;
    let ty = type_of(elems.as_slice());
    let dims = match shape {
        Some(sizes) => dims_within(alloc, sizes.list()),
        None => too_long(alloc, elems.len()),
    };
    let made = Made {
        ty,
        dims,
        elems: Elements::new(elems),
    };
    let made = Box::new(alloc, made).map_err(AllocError::from)?;
    Ok(Expr::List(made))
}

// The dimension of a ragged list, by which it is known: it is longer by one than the list has
// numbers.
fn too_long(alloc: Global, count: usize) -> Dims
    requires { IsDims (suc count ∷ []) }
    ensures { result ≡ suc count ∷ [] }
{
    dims_within(alloc, &[count as u32 + 1])
}

fn type_of(elems: &[i64]) -> Ty
    ensures { result ≡ type_of elems.now }
{
    for z in elems {
        if z.unsigned_abs() > LARGEST_LONG {
            return Ty::Longlong;
        }
    }
    Ty::Long
}
